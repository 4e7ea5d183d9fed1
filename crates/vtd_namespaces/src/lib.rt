//! Names as Namespaces in XML 1.0 has them: which names of a document repeat or offend, and prefixes, local parts, URIs
//! and name tests of its nodes. No call takes memory.
#![tactic(auto)]

mod check;
mod compare;
mod declarations;
mod holders;
pub mod laws;
mod many_names;
mod memo;
mod nodes;
mod offences;
mod open_tags;
mod plain;
mod qnames;
mod records;
mod repeats;
mod resolver;
mod scope;
mod sieve;
mod uri;
mod walk;
mod windows;

pub use check::check_names;
pub use declarations::declarations_end;
pub use nodes::{local_of, matches, prefix_of, uri_of};
pub use open_tags::OpenTags;
pub use resolver::Resolver;
pub use uri::Uri;
