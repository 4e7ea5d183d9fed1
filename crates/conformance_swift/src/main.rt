//! Common items, and documents of them, as tables in files: inputs and answers are worked out by hand. The program reads
//! each file that its words name, asks every row at all offsets and with so many bytes behind, and prints the rows that
//! answer otherwise and how many rows there were.
#![tactic(auto)]

mod documents;
mod doors;
mod forms;

use std::{env, fs, io};
use tables::walk;

fn main(rt: HostRuntime) -> io::Result<()> {
    let mut words = env::args(&rt)?;
    let _program = words.next();
    for name in words {
        let file = fs::read_to_string(&rt, &name)?;
        let count = walk(&rt, &doors::Doors, file.as_str())?;
        println!(rt; "{name}: {count} rows")?;
    }
    Ok(())
}
