//! Moves over the nodes of a document, and where a node and its parts are in the bytes.
#![tactic(auto)]

mod cursor;
mod elements;
mod listed;
mod neighbours;
mod pieces;
mod searches;
mod slots;
mod spans;

pub use cursor::Cursor;
pub use elements::{element_spans, elements_of};
pub use listed::spans_of;
pub use spans::{Tags, name_span, span, tags_of, value_span};
