//! Packed words: one `u64` for each record of a document, the lists that hold them, in memory or in borrowed bytes, and
//! look-ups over them.
#![tactic(auto)]

pub mod laws;
mod meter;
mod moving;
mod packing;
mod table;
mod view;
mod word_vec;

pub use meter::Meter;
pub use packing::{Parts, pack, unpack};
pub use table::{Table, level_of, parts_at};
pub use view::{WordView, long_from, short_from};
pub use word_vec::{Part, WordVec, Words};
pub use xml_model::Counts;
