//! Splices of a document's bytes: what is staged, in which order, and the bytes that they make.
#![tactic(auto)]

mod edits;
mod splice;
mod splicing;
mod staging;

pub use edits::Edits;
pub use splice::{Splice, Splices, StageFault};
pub use splicing::{Turn, rest_of, spliced, turn_of};
