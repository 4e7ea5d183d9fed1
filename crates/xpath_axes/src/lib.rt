//! The nodes on the twelve axes of a node (XPath 1.0, sections 2.2 to 2.4), by the records of its document: one after
//! another without memory, or as a list in axis order.
#![tactic(auto)]

pub mod back;
pub mod climb;
mod iter;
mod lists;
pub mod names;
mod node_tests;
pub mod rest;
pub mod starts;
mod told;
pub mod walk;

pub use iter::{AxisIter, axis_iter, axis_iter_by};
pub use lists::{axis, order};
pub use names::{LookBack, Names};
pub use node_tests::passes;
