//! The program `vtd`: reads a document and a script of commands, and answers them.
#![tactic(auto)]

mod adapters;

use adapters::{Input, Output, SystemFiles};
use std::env;
use std::io::ErrorKind;
use std::process::ExitCode;
pub use vtd_running::{Status, run};
use xml_model::NoMemory;

/// The words after the program's name. Words that are not UTF-8 are not of the form, as no words are.
fn words_of(rt: &HostRuntime) -> Result<Vec<String>, NoMemory> {
    let mut words = match env::args(rt) {
        Ok(words) => words,
        Err(error) => {
            return match error.kind() {
                ErrorKind::InvalidData => Ok(Vec::new(rt.alloc())),
                _ => Err(NoMemory),
            };
        }
    };
    let _program = words.next();
    words.collect(rt.alloc()).map_err(|_| NoMemory)
}

fn main(rt: HostRuntime) -> ExitCode {
    let Ok(words) = words_of(&rt) else {
        return ExitCode::from(Status::NoMemory.number());
    };
    let mut files = SystemFiles::new(&rt);
    let mut script = Input::new(rt.stdin());
    let mut out = Output::new(rt.stdout());
    let mut err = Output::new(rt.stderr());
    let status = run(
        rt.alloc(),
        words.as_slice(),
        &mut files,
        &mut script,
        &mut out,
        &mut err,
    );
    ExitCode::from(status.number())
}
