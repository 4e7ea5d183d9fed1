//! Runs of bytes of a class, 16 bytes at a time.
#![tactic(auto)]

mod classes;
mod runs;

pub use classes::{InTag, NameByte, Other, SingleValueByte, TextByte, ValueByte, is_plain_start};
pub use runs::{ByteClass, LANES, far_end, run_end, run_len};
