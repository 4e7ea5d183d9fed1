//! Documents in which a text is set: which nest and which records the new bytes have, how the levels of records change
//! with them, and where the new bytes are refused.
#![tactic(auto)]

pub mod laws;
