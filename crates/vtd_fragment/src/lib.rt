//! Elements cut out of documents as documents of their own, with the declarations of namespaces that they need.
#![tactic(auto)]

mod cutting;
mod names;
mod needed;
mod passing;
mod prefixes;
mod records;

pub use cutting::cut;
