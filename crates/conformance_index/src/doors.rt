//! Which module answers a table.

use crate::changes::{bytes_in, changed};
use crate::checks::{write_both, write_prefixes};
use crate::{opens, writes};
use std::alloc::{AllocError, Global};
use tables::Answers;

/// What the rows are asked of.
pub struct Doors;

impl Answers for Doors {
    fn answer(
        &self,
        alloc: Global,
        table: &str,
        given: &[u8],
        input: &[u8],
    ) -> Result<String, AllocError> {
        let mut out = String::new(alloc);
        let (Ok(text), Ok(digits)) = (str::from_utf8(input), str::from_utf8(given)) else {
            out.push_str("no text")?;
            return Ok(out);
        };
        match table {
            "index files" => writes::answer(alloc, &mut out, given, text)?,
            "files" => {
                let file = bytes_in(alloc, digits)?;
                write_both(alloc, &mut out, &changed(alloc, &file, text)?)?
            }
            "opened" => opens::answer(alloc, &mut out, digits, text)?,
            "prefixes" => write_prefixes(alloc, &mut out, &bytes_in(alloc, digits)?)?,
            _ => out.push_str("no such table")?,
        }
        Ok(out)
    }
}
