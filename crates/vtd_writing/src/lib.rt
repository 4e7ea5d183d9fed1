//! The new bytes of a document, written to a file as they are made.
#![tactic(auto)]

mod joining;
mod writing;

pub use writing::write;
