//! Index files: a document beside the words of its records and levels in one file, which is written, checked, and lent
//! from where it lies.
#![tactic(auto)]

mod checking;
mod comparer;
mod faults;
mod head;
pub mod laws;
mod numbers;
mod opening;
mod parts;
mod pieces;
mod writing;

pub use checking::{Checked, check_index};
pub use faults::IndexFault;
pub use opening::{LoadFault, Loaded, Opened, open_index};
pub use parts::IndexParts;
pub use writing::{index_length, write_index};
