//! The grammar of XPath 1.0: expressions, the parser, bindings of prefixes, and the refusals that show before an
//! expression meets a document.
#![tactic(auto)]

mod bindings;
mod build;
mod entry;
mod expr;
mod faults;
mod functions;
mod held;
pub mod laws;
mod parser;
mod parts;
mod refusal;
mod scan;
mod shape;

pub use bindings::{BindFault, Bindings};
pub use entry::{GrammarFault, parse};
pub use expr::{Expr, Exprs, Step, StepTest, Steps};
pub use faults::StaticFault;
pub use functions::{Signature, ValueType, fits, gives_nodes, signature_of};
pub use refusal::check;
pub use xpath_tokens::{Comparison, Operator, StepAxis};
