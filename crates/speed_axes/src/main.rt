//! How fast axes are: `speed_axes FILE` goes from the root of a document over its descendants, under several node
//! tests, beside a plain loop over its records, goes over the children of each node in turn, and takes the step along
//! each axis from all its nodes. The times go to standard error, and what was counted to standard output.
#![tactic(auto)]

mod axes;
mod steps;

use std::{env, fs, io};

fn main(rt: HostRuntime) -> io::Result<()> {
    let mut words = env::args(&rt)?;
    let _program = words.next();
    match words.next() {
        Some(file) => axes::time(&rt, fs::read(&rt, &file)?),
        None => eprintln!(rt; "usage: speed_axes FILE"),
    }
}
