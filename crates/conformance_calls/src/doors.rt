//! Which crate answers a table.

use crate::{expressions, outside, values};
use std::alloc::{AllocError, Global};
use tables::Answers;

/// What the rows are asked of.
pub struct Doors;

impl Answers for Doors {
    fn answer(
        &self,
        alloc: Global,
        table: &str,
        given: &[u8],
        input: &[u8],
    ) -> Result<String, AllocError> {
        let mut out = String::new(alloc);
        let Ok(text) = str::from_utf8(input) else {
            out.push_str("no text")?;
            return Ok(out);
        };
        match table.split_once(" ") {
            Some(("outside", name)) => outside::answer(alloc, &mut out, name, text)?,
            Some(("expressions", name)) => {
                expressions::answer(alloc, &mut out, name, given, text)?
            }
            Some(("values", name)) => values::answer(alloc, &mut out, name, text)?,
            _ => out.push_str("no such table")?,
        }
        Ok(out)
    }
}
