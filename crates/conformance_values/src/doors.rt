//! Which module answers a table.

use crate::{evaluating, reading};
use std::alloc::{AllocError, Global};
use tables::Answers;

/// What the rows are asked of.
pub struct Doors;

impl Answers for Doors {
    fn answer(
        &self,
        alloc: Global,
        table: &str,
        given: &[u8],
        input: &[u8],
    ) -> Result<String, AllocError> {
        let mut out = String::new(alloc);
        if given.len() >= 1 << 30 {
            out.push_str("too long")?;
            return Ok(out);
        }
        let Ok(text) = str::from_utf8(input) else {
            out.push_str("no text")?;
            return Ok(out);
        };
        match table {
            "reads" => reading::answer(alloc, &mut out, given, text)?,
            _ => evaluating::answer(alloc, &mut out, table, given, text)?,
        }
        Ok(out)
    }
}
