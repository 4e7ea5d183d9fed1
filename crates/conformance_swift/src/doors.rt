//! Which module answers a table.

use crate::{documents, forms};
use std::alloc::{AllocError, Global};
use tables::Answers;

/// What the rows are asked of.
pub struct Doors;

impl Answers for Doors {
    fn answer(
        &self,
        alloc: Global,
        table: &str,
        _given: &[u8],
        input: &[u8],
    ) -> Result<String, AllocError> {
        let mut out = String::new(alloc);
        let Ok(text) = str::from_utf8(input) else {
            out.push_str("no text")?;
            return Ok(out);
        };
        match table {
            "items" => forms::write(alloc, &mut out, text)?,
            "documents" => documents::write(alloc, &mut out, text)?,
            _ => out.push_str("no such table")?,
        }
        Ok(out)
    }
}
