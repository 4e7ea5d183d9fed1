//! The lines of a script, and what each asks for.
#![tactic(auto)]

mod commands;
mod fields;
mod lines;

pub use commands::{Command, LineFault, read_line};
pub use lines::{Line, next_line};
