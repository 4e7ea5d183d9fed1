//! Steps from lists of nodes along axes (XPath 1.0, sections 2 and 2.2): the nodes on an axis of some of the context
//! nodes, in document order, each once. No step sorts. Each reads a record a constant number of times, whatever the
//! contexts, but for the step along `following`, which first reads the contexts that are in one another, each whole.
#![tactic(auto)]

mod above;
mod apart;
mod earlier;
mod ends;
mod every;
mod flags;
mod forward;
mod gather;
mod merge;
mod or_selves;
mod parents;
mod selves;

pub use above::ancestors_of_all;
pub use apart::{attributes_of_all, children_if_apart, descendants_of_all};
pub use earlier::preceding_siblings_of_all;
pub use ends::{following_of_all, preceding_of_all};
pub use every::step_of_all;
pub use forward::{children_of_all, following_siblings_of_all};
pub use or_selves::{ancestors_or_selves_of_all, descendants_or_selves_of_all};
pub use parents::parents_of_all;
pub use selves::selves_of_all;
