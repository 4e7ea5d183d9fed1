//! The value of an expression of XPath 1.0 over a document.
#![tactic(auto)]

mod entry;
mod parts;
mod recursion;
mod signs;

pub use entry::evaluate;
