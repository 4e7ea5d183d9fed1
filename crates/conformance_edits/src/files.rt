//! New bytes that are written to files in memory.

ghost use Rattle.std.specs.Prelude.{◌≡◌, ◌<◌, None, length, IfOk};

use std::alloc::{AllocError, Global};
use vtd_edits::{Edits, spliced};
use vtd_outside::MemoryFiles;
use vtd_writing::write;

/// The name of the file.
const NAME: &str = "f";

/// Files of which the call of that number fails, with room for so many bytes, and in which a call moves so many.
fn files_for(
    alloc: Global,
    failing: u32,
    piece: usize,
    room: u32,
) -> Result<MemoryFiles, AllocError>
    requires { 0 < piece }
    ensures { IfOk result (λ files. files.writing ≡ None) }
{
    let failing = [failing].to_vec(alloc)?;
    let mut files = MemoryFiles::new(alloc, failing, piece);
    if files.prepare(NAME, u64::from(room)).is_err() {
        return Err(AllocError);
    }
    Ok(files)
}

/// Writes the new bytes to a file, and writes how that went and what the file then holds.
pub fn write_saved(
    alloc: Global,
    out: &mut String,
    document: &[u8],
    edits: &Edits,
    failing: u32,
    piece: usize,
) -> Result<(), AllocError>
    requires piece { 0 < piece }
    requires length { length document.now ≡ edits.now.len }
{
    let mut files = files_for(alloc, failing, piece, edits.length())?;
    match write(NAME, document, edits, &mut files) {
        Ok(()) => out.push_str("saved")?,
        Err(fault) => write!(out, "{fault}")?,
    }
    match files.bytes_of(NAME) {
        Some(bytes) => {
            let text = str::from_utf8(bytes).unwrap_or("?");
            write!(out, " {text};")
        }
        None => out.push_str(" none;"),
    }
}

/// Writes the new bytes to a file, and whether it holds the same as they are in memory, with how many there are.
pub fn compare_written(
    alloc: Global,
    out: &mut String,
    document: &[u8],
    edits: &Edits,
    piece: usize,
) -> Result<(), AllocError>
    requires piece { 0 < piece }
    requires length { length document.now ≡ edits.now.len }
{
    let mut files = files_for(alloc, u32::MAX, piece, edits.length())?;
    let Ok(made) = spliced(alloc, document, edits) else {
        return Err(AllocError);
    };
    let written = write(NAME, document, edits, &mut files).is_ok();
    let same = files.bytes_of(NAME) == Some(made.as_slice());
    out.push_str(if written && same { "same " } else { "other " })?;
    let length = edits.length();
    write!(out, "{length};")
}
