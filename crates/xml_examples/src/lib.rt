//! Worked examples of the definitions of `xml_model`: documents with their items, nests, trees, records, contents,
//! names and refusals, each proved by computing. They are in `proofs/`, and no crate needs this one.
#![tactic(auto)]
