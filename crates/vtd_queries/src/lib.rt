//! What the text of an expression answers on a document, and which splices an operation makes of its nodes.
#![tactic(auto)]

mod asking;
mod faults;
pub mod laws;
mod operating;
mod reading;

pub use asking::{ask, ask_nodes, ask_text};
pub use faults::{OperationFault, QueryFault};
pub use operating::{Operated, operate};
