//! The text of a text node or the value of an attribute, changed in a document at once.
#![tactic(auto)]

mod change;
mod cutting;
mod patching;

pub use patching::{PatchFault, patch};
