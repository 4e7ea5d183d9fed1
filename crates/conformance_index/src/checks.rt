//! What is said of a file.

ghost use Rattle.std.specs.Prelude.{◌<◌, ◌^◌, length};

use std::alloc::{AllocError, Global};
use vtd_index::{Checked, IndexFault, IndexParts, LoadFault, Opened, check_index, open_index};
use vtd_words::{Part, Words};
use xml_model::{DocFault, Field};

/// The words for a field that is too wide.
fn width_word(field: Field) -> &'static str {
    match field {
        Field::Token => "width token",
        Field::Name => "width name",
        Field::Prefix => "width prefix",
    }
}

/// Writes why a document is refused.
fn write_refusal(out: &mut String, fault: DocFault) -> Result<(), AllocError> {
    let (word, at) = match fault {
        DocFault::Utf8 { at } => ("utf8", at),
        DocFault::Syntax { at } => ("syntax", at),
        DocFault::Entity { at } => ("entity", at),
        DocFault::Encoding { at } => ("encoding", at),
        DocFault::Nesting { at } => ("nesting", at),
        DocFault::Depth { at } => ("depth", at),
        DocFault::Width { field, at } => (width_word(field), at),
        DocFault::Twice { at } => ("twice", at),
        DocFault::Namespace { at } => ("namespace", at),
    };
    write!(out, "{word} {at}")
}

/// Writes what is wrong with a file.
fn write_fault(out: &mut String, fault: IndexFault) -> Result<(), AllocError> {
    match fault {
        IndexFault::Short => out.push_str("short"),
        IndexFault::Magic => out.push_str("magic"),
        IndexFault::Size => out.push_str("size"),
        IndexFault::Padding { at } => write!(out, "padding {at}"),
        IndexFault::Doc(fault) => write_refusal(out, fault),
        IndexFault::Records { at } => write!(out, "records {at}"),
        IndexFault::Caches { level, at } => write!(out, "caches {level} {at}"),
    }
}

/// Writes how long the document in a file is, and how many records it has.
pub fn write_document(out: &mut String, parts: &IndexParts<'_>) -> Result<(), AllocError> {
    let nav = parts.nav();
    let length = nav.table().bytes().len();
    let records = nav.table().words().len(Part::Records);
    write!(out, "document {length} {records}")
}

/// Writes how long the document of a file of the first version is.
fn write_first(out: &mut String, bytes: &[u8]) -> Result<(), AllocError> {
    let length = bytes.len();
    write!(out, "first {length}")
}

/// Writes what `check_index` says of a file.
pub fn write_checked(out: &mut String, file: &[u8]) -> Result<(), AllocError>
    requires { length file.now < 2 ^ 32 }
{
    match check_index(file) {
        Ok(Checked::One(bytes)) => write_first(out, bytes),
        Ok(Checked::Two(parts)) => write_document(out, &parts),
        Err(fault) => write_fault(out, fault),
    }
}

/// Writes what `open_index` says of a file.
fn write_opened(alloc: Global, out: &mut String, file: Vec<u8>) -> Result<(), AllocError> {
    if file.len() > u32::MAX as usize {
        return out.push_str("too long");
    }
    match open_index(alloc, file) {
        Ok(Opened::View(loaded)) => write_document(out, &loaded.parts()),
        Ok(Opened::Built(doc)) => write_first(out, doc.bytes()),
        Err((_, LoadFault::Index(fault))) => write_fault(out, fault),
        Err((_, LoadFault::NoMemory)) => Err(AllocError),
    }
}

/// Writes what both say of a file, or each where they differ.
pub fn write_both(alloc: Global, out: &mut String, file: &[u8]) -> Result<(), AllocError> {
    if file.len() > u32::MAX as usize {
        return out.push_str("too long");
    }
    write_checked(out, file)?;
    let mut again = String::new(alloc);
    write_opened(alloc, &mut again, file.to_vec(alloc)?)?;
    if again.as_str() == out.as_str() {
        return Ok(());
    }
    out.push_str(", opened ")?;
    out.push_str(again.as_str())
}

/// Writes what is said of all prefixes of a file, by how long they are, and of the file.
pub fn write_prefixes(alloc: Global, out: &mut String, file: &[u8]) -> Result<(), AllocError> {
    if file.len() > u32::MAX as usize {
        return out.push_str("too long");
    }
    let mut last = String::new(alloc);
    for len in 0..=file.len() {
        let mut now = String::new(alloc);
        write_checked(&mut now, &file[..len])?;
        if now.as_str() != last.as_str() {
            write!(out, "{len} {now};")?;
        }
        last = now;
    }
    Ok(())
}
