//! Documents and names with what they are to answer, as tables in files: inputs and answers are those of
//! the standards, worked out by hand. The program reads each file that its words name, asks every row, and prints the
//! rows that answer otherwise and how many rows there were.
#![tactic(auto)]

mod characters;
mod documents;
mod doors;
mod items;
mod moves;
mod names;
mod nodes;
mod tags;
mod texts;

use std::{env, fs, io};
use tables::walk;

fn main(rt: HostRuntime) -> io::Result<()> {
    let mut words = env::args(&rt)?;
    let _program = words.next();
    for name in words {
        let file = fs::read_to_string(&rt, &name)?;
        let count = walk(&rt, &doors::Doors, file.as_str())?;
        println!(rt; "{name}: {count} rows")?;
    }
    Ok(())
}
