//! From a nest to the bytes: which nests are those of documents, what such a nest spells, and what stays as it was
//! where pieces of a nest are exchanged for others.
#![tactic(auto)]

pub mod laws;
