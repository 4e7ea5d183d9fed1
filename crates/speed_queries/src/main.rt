//! How fast expressions are: `speed_queries FILE EXPRESSIONS` evaluates each line of the second file over the first, a
//! document. The lines are expressions; those that are empty or begin with `#` are passed over. The times go to standard
//! error, and the values, or how many nodes there are, to standard output.
#![tactic(auto)]

mod queries;

use std::{env, fs, io};

fn main(rt: HostRuntime) -> io::Result<()> {
    let mut words = env::args(&rt)?;
    let _program = words.next();
    match (words.next(), words.next()) {
        (Some(file), Some(expressions)) => {
            queries::time(&rt, fs::read(&rt, &file)?, fs::read(&rt, &expressions)?)
        }
        _ => eprintln!(rt; "usage: speed_queries FILE EXPRESSIONS"),
    }
}
