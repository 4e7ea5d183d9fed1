//! Elements cut out of documents: which declarations of namespaces an element needs from those that hold it, and what
//! it shows as a document of its own.
#![tactic(auto)]

pub mod laws;
