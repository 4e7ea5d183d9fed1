//! From bytes to a document with its records: the records of an accepted document, handed over in order, and the
//! document that keeps them.
#![tactic(auto)]

mod document;
mod emission;
mod exchange;
mod filling;
mod names;
mod offers;
mod sink;
mod tags;

pub use document::{BuildFault, Doc, build};
pub use emission::emit;
pub use sink::RecordSink;
pub use xml_acceptance::check;
