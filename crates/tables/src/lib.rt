//! Tables of inputs with what they are to answer, as lines of a file, for the programs that ask them of other crates.
#![tactic(auto)]

mod fields;
mod rows;

pub use rows::walk;
use std::alloc::{AllocError, Global};

/// What is asked the rows of tables.
pub trait Answers {
    /// The answer to an input, by the name of its table and what it is asked of.
    fn answer(
        &self,
        alloc: Global,
        table: &str,
        given: &[u8],
        input: &[u8],
    ) -> Result<String, AllocError>;
}
