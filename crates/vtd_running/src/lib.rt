//! The top call: what the words of a command line, the files and a script mean.
#![tactic(auto)]

mod counts;
mod generating;
mod indexes;
pub mod laws;
mod reading;
mod running;
mod scripts;
mod sending;
mod status;
mod words;

pub use running::run;
pub use status::Status;
