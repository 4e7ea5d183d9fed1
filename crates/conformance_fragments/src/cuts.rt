//! Elements that are cut out of a document.

ghost use Rattle.std.specs.Prelude.{◌<◌, ◌^◌, length};

use std::alloc::{AllocError, Global};
use vtd_builder::{build, check};
use vtd_cursor::elements_of;
use vtd_fragment::cut;
use vtd_location::Nav;
use vtd_words::Words;
use xml_model::Kind;

/// Writes the bytes of an element that was cut out, and the length and the number of records of the document that it
/// is, where they are wanted.
fn write_cut(out: &mut String, bytes: &[u8], counted: bool) -> Result<(), AllocError> {
    if !counted {
        return out.push_str(str::from_utf8(bytes).unwrap_or("no text"));
    }
    if bytes.len() >= 1_073_741_824 {
        return out.push_str("long");
    }
    match check(bytes) {
        Ok(counts) => write!(out, "{} {}", bytes.len(), counts.records),
        Err(_) => out.push_str("refused"),
    }
}

/// Cuts the element with a number out of a document.
fn write_element<W: Words>(
    alloc: Global,
    out: &mut String,
    nav: &Nav<'_, W>,
    number: usize,
    counted: bool,
) -> Result<(), AllocError> {
    let Ok(elements) = elements_of(alloc, nav) else {
        return Err(AllocError);
    };
    match elements.get(number) {
        Some(element) if matches!(element.kind, Kind::Element) => match cut(alloc, nav, *element) {
            Ok(bytes) => write_cut(out, &bytes, counted),
            Err(_) => Err(AllocError),
        },
        _ => out.push_str("no such element"),
    }
}

/// Answers a row: the number of an element in document order, from 0 on, and `counted` after it where the length and
/// the records of the cut are asked for, and not its bytes.
pub fn answer(
    alloc: Global,
    out: &mut String,
    document: &[u8],
    words: &str,
) -> Result<(), AllocError> {
    let (digits, counted) = match words.split_once(" ") {
        Some((digits, _)) => (digits, true),
        None => (words, false),
    };
    let Ok(number) = digits.parse::<usize>() else {
        return out.push_str("no number");
    };
    if document.len() >= 1_073_741_824 {
        return out.push_str("long");
    }
    match build(alloc, document.to_vec(alloc)?) {
        Ok(doc) => write_element(alloc, out, &doc.nav(), number, counted),
        Err(_) => out.push_str("refused"),
    }
}
