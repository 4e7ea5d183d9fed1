//! A document with what is staged for it, of which the last 32 changes can be undone.
#![tactic(auto)]

pub mod laws;
mod revisions;

pub use revisions::Revisions;
