//! The last changes of a document and of what is staged for it: undone exactly, and redone.
#![tactic(auto)]

mod exchanging;
mod history;
pub mod laws;
mod steps;

pub use exchanging::{Segment, exchange, try_exchange};
pub use history::{History, RedoFault, UndoFault};
pub use steps::Step;
