//! Steps from whole lists of nodes, as evaluation of XPath 1.0 asks for them, and what the text of an expression shows of
//! how it may be evaluated: where predicates do not ask for the position, a step from many nodes is one pass over the
//! records, and the predicates are asked once of each node that it finds.
#![tactic(auto)]

mod analysis;
mod firsts;
mod scans;
mod sweeping;

pub use analysis::{are_positionless, is_number, reads_position};
pub use firsts::{stepped_to, takes_first};
pub use scans::{is_scan, is_sweep};
pub use sweeping::step_all;
