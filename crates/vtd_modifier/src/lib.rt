//! Which splices an operation makes of nodes.
#![tactic(auto)]

mod escaping;
mod making;
mod operation;
mod parts;
mod places;
mod rows;

pub use making::splices_of;
pub use operation::{EditFault, Operation};
pub use vtd_edits::{Edits, Splice, Splices, StageFault, spliced};
