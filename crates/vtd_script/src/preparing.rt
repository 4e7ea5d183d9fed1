//! What the first parts of commands make: names, lines and documents.

ghost use Rattle.std.specs.Prelude.{◌≡◌, false, ◌^◌, ◌<◌, ◌≤◌, length, vec_len, encode_utf8_all, IfErr, IfOk};
ghost use Rattle.xml_model.specs.Items.{first_place};
ghost use Rattle.xml_model.specs.Nest.{Forest};
ghost use Rattle.xml_model.specs.Records.{records};
ghost use Rattle.xml_model.specs.Accepted.{Accepted};
ghost use Rattle.vtd_script.specs.Steps.{document_line, document_limit, index_limit, indexed_line, name_of};
ghost use Rattle.vtd_script.specs.Steps.{saved_line};
ghost use Rattle.vtd_words.specs.Numbers.{AreBytes};
ghost use Rattle.vtd_script.specs.Changes.{ReadsDocument, ReadsIndex, stops_at_file};

use crate::ready::{Built, Made, Stop};
use crate::refusals::{index_refusal, refusal_of};
use std::alloc::Global;
use vtd_builder::{BuildFault, build};
use vtd_documents::{Document, load};
use vtd_held::{Shown, show};
use vtd_index::LoadFault;
use vtd_listing::{push_decimal, push_text};
use xml_model::{Bytes, NoMemory, Text};

/// The longest document, in bytes.
pub const DOCUMENT_LIMIT: u32 = 1_073_741_823;

/// The longest index file, in bytes.
pub const INDEX_LIMIT: u32 = u32::MAX;

/// The name of a file, as the characters of a field.
pub fn name_of(file: &Text) -> &str
    ensures { result.now ≡ name_of file.now }
{
    file.held.as_str()
}

/// The characters of a field, in UTF-8.
pub fn utf8_of(field: &Text) -> &str
    ensures { result.now ≡ encode_utf8_all field.now }
{
    field.held.as_str()
}

/// The line of a file that was written.
///
/// # Errors
/// `NoMemory` where the memory for the line was not to be had.
pub fn saved_lines(alloc: Global, count: u32) -> Result<Vec<u8>, NoMemory>
    ensures { IfOk result (λ lines. lines.items ≡ saved_line count) }
{
    let mut lines = Vec::new(alloc);
    push_text(&mut lines, b"saved ")?;
    push_decimal(&mut lines, u64::from(count))?;
    push_text(&mut lines, b"\n")?;
    Ok(lines)
}

/// The line of an index file that was written.
///
/// # Errors
/// `NoMemory` where the memory for the line was not to be had.
pub fn indexed_lines(alloc: Global, count: u64) -> Result<Vec<u8>, NoMemory>
    ensures { IfOk result (λ lines. lines.items ≡ indexed_line count) }
{
    let mut lines = Vec::new(alloc);
    push_text(&mut lines, b"indexed ")?;
    push_decimal(&mut lines, count)?;
    push_text(&mut lines, b"\n")?;
    Ok(lines)
}

/// The line of a new document.
fn document_lines(alloc: Global, document: &Document<'_>) -> Result<Vec<u8>, NoMemory>
    ensures { IfOk result (λ lines. (nest : Forest) × Accepted 8 document.now nest ×
        (lines.items ≡ document_line (length document.now) (length (records nest (first_place document.now))))) }
{
    let mut lines = Vec::new(alloc);
    push_text(&mut lines, b"document ")?;
    push_decimal(&mut lines, document.bytes().len() as u64)?;
    push_text(&mut lines, b" ")?;
    push_decimal(&mut lines, u64::from(document.records()))?;
    push_text(&mut lines, b"\n")?;
    Ok(lines)
}

/// The document of bytes, and its line.
///
/// # Errors
/// `Refused` only by the refusal of the bytes; `NoMemory` may come in place of a refusal of names.
pub fn read_document(alloc: Global, bytes: Vec<u8>) -> Result<Built, Stop>
    requires { length bytes.items ≤ document_limit }
    ensures reads { ReadsDocument bytes.items result }
    ensures no_file { stops_at_file result ≡ false }
{
    let document = match build(alloc, bytes) {
        Ok(doc) => doc,
        Err((_, BuildFault::Doc(fault))) => return Err(Stop::Refused(refusal_of(fault))),
        Err((_, BuildFault::NoMemory)) => return Err(Stop::NoMemory),
    };
    match document_lines(alloc, &Document::of(Shown::Built(&document))) {
        Ok(lines) => Ok(Built {
            document,
            lines: Bytes { held: lines },
        }),
        Err(_) => Err(Stop::NoMemory),
    }
}

/// The document of an index file, and its line.
///
/// # Errors
/// `Refused` exactly where the file is the index file of no document, by its fault; `NoMemory`.
pub fn read_index(alloc: Global, file: Vec<u8>) -> Result<Made, Stop>
    requires { length file.items ≤ index_limit }
    ensures reads { ReadsIndex file.items result }
    ensures of_bytes { AreBytes file.items }
    ensures no_file { stops_at_file result ≡ false }
{
    let document = match load(alloc, file) {
        Ok(document) => document,
        Err((_, LoadFault::Index(fault))) => return Err(Stop::Refused(index_refusal(fault))),
        Err((_, LoadFault::NoMemory)) => return Err(Stop::NoMemory),
    };
    match document_lines(alloc, &Document::of(show(&document))) {
        Ok(lines) => Ok(Made {
            document,
            lines: Bytes { held: lines },
        }),
        Err(_) => Err(Stop::NoMemory),
    }
}
