//! The calls of the core functions of XPath 1.0, section 4: which function a name is of, and what it answers for the
//! values of its arguments.
#![tactic(auto)]

mod answering;
mod joining;
mod nodes;
mod numbers;
mod parts;
mod sums;

pub use answering::answered;
