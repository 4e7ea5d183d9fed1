//! A reader of common items, by 16 bytes at a time: texts without references, end tags, start tags and empty tags. Where it
//! gives up, the reader of all items goes on.
#![tactic(auto)]

mod attributes;
mod items;
mod names;
mod reading;
mod runs;

pub use reading::{next_counted_swiftly, swift};
