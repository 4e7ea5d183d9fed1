//! Predicates of XPath 1.0 that are decided by a look at the nodes that steps find, one after another, without lists.
#![tactic(auto)]

mod asked;
mod deciding;
mod finding;

pub use asked::Asked;
pub use deciding::{holds, passes};
pub use finding::any_found;
