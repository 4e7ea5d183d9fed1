//! What evaluating an expression of XPath 1.0 does with nodes: steps from a node, document order, comparisons, names and
//! languages, and node tests as they are written.
#![tactic(auto)]

mod comparing;
mod languages;
mod names;
mod ordering;
mod resolving;
mod walker;
mod walking;

pub use comparing::compared;
pub use languages::is_of_language;
pub use names::{local_text, no_name, uri_text, whole_text};
pub use ordering::{in_order, united};
pub use resolving::resolved;
pub use walker::{Walker, stepped, walker_of};
pub use walking::nodes_along;
