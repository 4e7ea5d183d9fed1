//! The lines that are printed of elements, of nodes and of strings.
#![tactic(auto)]

mod elements;
mod lines;
mod nodes;
mod values;

pub use elements::element_lines;
pub use lines::{push_decimal, push_text};
pub use nodes::node_lines;
pub use values::value_lines;
