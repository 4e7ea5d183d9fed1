//! What expressions of XPath 1.0 mean over a document, as definitions, and what evaluating one does with values.
#![tactic(auto)]

mod arguments;
pub mod calls;
mod function;
pub mod laws;
mod makers;
mod operators;
mod places;
mod scope;

pub use arguments::{context_value, nodes_at, number_at, text_at, to_text, truth_at, value_at};
pub use function::{Function, function_named};
pub use makers::{counted, number_value, text_value, truth_value};
pub use operators::{literal, negated, numeral, operated, to_number};
pub use places::{
    append, keep, no_nodes, no_values, nodes_in, nodes_value, place_at, root_place, start,
    with_value,
};
pub use scope::{Place, Scope, Values, table_of};
