//! The index files of documents, written to files in memory.

ghost use Rattle.std.specs.Prelude.{◌≡◌, ◌<◌, ◌^◌, None, length, IfOk};

use crate::changes::write_bytes;
use crate::checks::write_document;
use std::alloc::{AllocError, Global};
use views::nav_over;
use vtd_builder::{Doc, build};
use vtd_index::{Checked, check_index, index_length, write_index};
use vtd_location::Nav;
use vtd_outside::MemoryFiles;
use vtd_words::Words;

/// The name of the file.
const NAME: &str = "f";

/// Files of which the call of that number fails, with room for so many bytes, and in which a call moves so many.
fn files_for(
    alloc: Global,
    failing: u32,
    piece: usize,
    room: u64,
) -> Result<MemoryFiles, AllocError>
    requires { 0 < piece }
    ensures { IfOk result (λ files. files.writing ≡ None) }
{
    let failing = [failing].to_vec(alloc)?;
    let mut files = MemoryFiles::new(alloc, failing, piece);
    if files.prepare(NAME, room).is_err() {
        return Err(AllocError);
    }
    Ok(files)
}

/// What the file of that name holds after the index file of a document was written to it, and whether that went well.
fn written<W: Words>(
    alloc: Global,
    nav: &Nav<'_, W>,
    failing: u32,
    piece: usize,
) -> Result<(bool, Vec<u8>), AllocError>
    requires { 0 < piece }
{
    let mut files = files_for(alloc, failing, piece, index_length(nav))?;
    let done = write_index(NAME, nav, &mut files).is_ok();
    let bytes = match files.bytes_of(NAME) {
        Some(bytes) => bytes.to_vec(alloc)?,
        None => Vec::new(alloc),
    };
    Ok((done, bytes))
}

/// Writes how a writing went, with how many bytes the file then holds. They are the first of those that it holds where
/// no call fails.
fn write_written(
    alloc: Global,
    out: &mut String,
    doc: &Doc,
    failing: u32,
    piece: usize,
) -> Result<(), AllocError>
    requires { 0 < piece }
{
    let (_, whole) = written(alloc, &doc.nav(), u32::MAX, usize::MAX)?;
    let (done, bytes) = written(alloc, &doc.nav(), failing, piece)?;
    let length = bytes.len();
    let word = if done { "written" } else { "failed" };
    write!(out, "{word} {length}")?;
    if whole.starts_with(bytes.as_slice()) {
        return Ok(());
    }
    out.push_str(", other bytes")
}

/// Writes the bytes of the index file of a document, after how many there are.
pub fn write_whole<W: Words>(
    alloc: Global,
    out: &mut String,
    nav: &Nav<'_, W>,
) -> Result<(), AllocError> {
    let (_, bytes) = written(alloc, nav, u32::MAX, usize::MAX)?;
    let length = bytes.len();
    write!(out, "{length}")?;
    write_bytes(out, &bytes)
}

/// Writes how long the index file of a document is, and what is read back: the document, with the same words.
fn write_read_back(alloc: Global, out: &mut String, doc: &Doc) -> Result<(), AllocError> {
    let nav = doc.nav();
    let length = index_length(&nav);
    let (_, bytes) = written(alloc, &nav, u32::MAX, 1000)?;
    write!(out, "index {length}; ")?;
    if bytes.len() as u64 != length || bytes.len() > u32::MAX as usize {
        return out.push_str("another length");
    }
    let Ok(Checked::Two(parts)) = check_index(&bytes) else {
        return out.push_str("no index file");
    };
    write_document(out, &parts)?;
    if parts.bytes() != doc.bytes() || nav_over(&nav, parts.words()).is_none() {
        return out.push_str(", another document");
    }
    Ok(())
}

/// The answer to what a row asks of the index file of a document: `bytes`, `read back`, or `failing CALL PIECE`, where
/// a call of that number fails and each moves so many bytes at most.
pub fn answer(
    alloc: Global,
    out: &mut String,
    given: &[u8],
    input: &str,
) -> Result<(), AllocError> {
    if given.len() >= 1 << 30 {
        return out.push_str("too long");
    }
    let Ok(doc) = build(alloc, given.to_vec(alloc)?) else {
        return out.push_str("refused");
    };
    let Some(numbers) = input.strip_prefix("failing ") else {
        return match input {
            "bytes" => write_whole(alloc, out, &doc.nav()),
            _ => write_read_back(alloc, out, &doc),
        };
    };
    let (failing, piece) = numbers.split_once(" ").unwrap_or((numbers, ""));
    let failing = failing.parse::<u32>().unwrap_or(u32::MAX);
    let piece = piece.parse::<usize>().unwrap_or(usize::MAX).max(1);
    write_written(alloc, out, &doc, failing, piece)
}
