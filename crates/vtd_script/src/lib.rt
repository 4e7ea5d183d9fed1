//! Sessions that carry out the lines of a script, and what scripts mean.
#![tactic(auto)]

mod asking;
mod carrying;
mod endings;
mod faults;
pub mod laws;
mod listing;
mod preparing;
mod ready;
mod refusals;
mod session;

pub use carrying::carry_out;
pub use endings::{End, Ending, StepFault};
pub use faults::fault_line;
pub use preparing::{DOCUMENT_LIMIT, INDEX_LIMIT};
pub use refusals::{Refusal, index_fault_line};
pub use session::Session;
