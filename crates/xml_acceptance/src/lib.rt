//! Which bytes are XML documents, by layers as far as the widths of records: UTF-8, items, known entities, a known
//! encoding, items that nest (XML 1.0, productions 1, 22, 27 and 39), and records with room for their tokens. The
//! first layer that refuses decides, over the whole document.
#![tactic(auto)]

mod checking;
mod encodings;
mod entities;
mod findings;
pub mod laws;
mod nest_so_far;
mod nesting;
mod parts;
mod phases;
mod widths;

pub use checking::check;
