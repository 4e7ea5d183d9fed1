//! Documents that end early: how the bytes of a document are refused where they end before its root element does.
#![tactic(auto)]

pub mod laws;
