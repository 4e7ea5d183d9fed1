//! A document that was built of its bytes, or that lies in an index file, and what a session asks of it.
#![tactic(auto)]

mod answers;
mod document;

pub use document::{Document, load};
