//! A document that was built, with its changes, or that lies in an index file until it is changed.
#![tactic(auto)]

mod held;

pub use held::{Held, Shown, show};
