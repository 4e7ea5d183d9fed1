//! What answers a table.

use crate::{faults, runs};
use std::alloc::{AllocError, Global};
use tables::Answers;

/// What the rows are asked of.
pub struct Doors;

impl Answers for Doors {
    fn answer(
        &self,
        alloc: Global,
        table: &str,
        given: &[u8],
        input: &[u8],
    ) -> Result<String, AllocError> {
        let mut out = String::new(alloc);
        let (name, words) = table.split_once(" ").unwrap_or((table, ""));
        match name {
            "runs" => runs::answer(alloc, &mut out, words, given, input)?,
            "feeds" => runs::answer_feeds(alloc, &mut out, words, given, input)?,
            "changed" => runs::answer_changed(alloc, &mut out, words, given, input)?,
            "files" => runs::answer_files(alloc, &mut out, words, given, input)?,
            "indexed" => runs::answer_indexed(alloc, &mut out, words, given, input)?,
            "filed" => runs::answer_filed(alloc, &mut out, words, given, input)?,
            "loads" => runs::answer_loads(alloc, &mut out, words, given, input)?,
            "faults" => faults::answer(alloc, &mut out, words, given, input)?,
            _ => out.push_str("no such table")?,
        }
        Ok(out)
    }
}
