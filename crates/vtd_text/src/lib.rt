//! Resolved texts: the characters of a node's string-value, with line ends, references, CDATA sections and the white
//! space of attribute values resolved (XML 1.0, sections 2.11, 3.3.3, 4.1 and 4.6). `append_to` alone takes memory.
#![tactic(auto)]

mod append;
mod chars;
mod entities;
mod fingerprints;
pub mod laws;
mod row;
mod slices;
mod texts;
mod token;

pub use append::append_to;
pub use chars::Chars;
pub use fingerprints::{FingerprintFilter, mix_bytes, mix_chars};
pub use slices::{as_written, raw};
pub use texts::{equals, equals_str};
