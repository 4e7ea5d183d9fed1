//! Comparisons of XPath 1.0's values (section 3.4).
#![tactic(auto)]

mod comparing;
mod equality;
mod extents;
mod index;
mod keys;
mod sets;

pub use comparing::compare;
