//! The string-values of nodes (XPath 1.0, section 5; XML 1.0, sections 2.11, 3.3.3, 4.1 and 4.6).

ghost use Rattle.vtd_words.specs.Table.{IsNodeOf};

use crate::nodes::{kind_word, number_of};
use std::alloc::{AllocError, Global};
use vtd_text::{Chars, append_to, equals, equals_str, raw};
use vtd_words::{Table, Words};
use xml_model::{Node, Text};

/// Adds code points, one after another.
pub fn push_chars<W: Words>(out: &mut String, chars: Chars<'_, W>) -> Result<(), AllocError> {
    for c in chars {
        out.push(c)?;
    }
    Ok(())
}

/// What does not agree with the string-value of a node: its text as `append_to` makes it after a prefix, the comparison
/// with it or with another text, or the bytes that hold it as they are.
fn other_way<W: Words>(
    alloc: Global,
    table: &Table<'_, W>,
    node: Node,
    value: &str,
) -> Result<&'static str, AllocError>
    requires { IsNodeOf table.now.bytes (W.lists table.now.words) node }
{
    let mut text = Text {
        held: String::from_str(alloc, "w")?,
    };
    if append_to(alloc, Chars::of(table, node), &mut text).is_err() {
        return Err(AllocError);
    }
    if text.held.as_str().strip_prefix("w") != Some(value) {
        return Ok(" not appended");
    }
    if !equals_str(Chars::of(table, node), value) {
        return Ok(" not equal");
    }
    if equals_str(Chars::of(table, node), text.held.as_str()) {
        return Ok(" equal to another");
    }
    match raw(table, node) {
        None => Ok(", resolved"),
        Some(bytes) if bytes == value.as_bytes() => Ok(", as it is"),
        Some(_) => Ok(", in other bytes"),
    }
}

/// The kind of a node, its string-value, and whether its bytes hold that as it is.
fn write_value<W: Words>(
    alloc: Global,
    out: &mut String,
    table: &Table<'_, W>,
    at: u32,
) -> Result<(), AllocError> {
    let Some(node) = table.node_at(at) else {
        return out.push_str("none");
    };
    out.push_str(kind_word(node.kind))?;
    let mut value = String::new(alloc);
    push_chars(&mut value, Chars::of(table, node))?;
    write!(out, " '{value}'")?;
    out.push_str(other_way(alloc, table, node, value.as_str())?)
}

/// The kind of a node, how many code points its string-value has, and whether its bytes hold that as it is.
fn write_count<W: Words>(
    alloc: Global,
    out: &mut String,
    table: &Table<'_, W>,
    at: u32,
) -> Result<(), AllocError> {
    let Some(node) = table.node_at(at) else {
        return out.push_str("none");
    };
    out.push_str(kind_word(node.kind))?;
    let mut value = String::new(alloc);
    let mut count = 0u64;
    for c in Chars::of(table, node) {
        value.push(c)?;
        count = count.wrapping_add(1);
    }
    write!(out, " {count}")?;
    out.push_str(other_way(alloc, table, node, value.as_str())?)
}

/// Whether two nodes have one string-value.
fn write_equal<W: Words>(
    out: &mut String,
    table: &Table<'_, W>,
    one: u32,
    other: u32,
) -> Result<(), AllocError> {
    let Some(one) = table.node_at(one) else {
        return out.push_str("none");
    };
    let Some(other) = table.node_at(other) else {
        return out.push_str("none");
    };
    if equals(Chars::of(table, one), Chars::of(table, other)) {
        return out.push_str("yes");
    }
    out.push_str("no")
}

/// The answer of a table of texts of a document.
pub fn answer<W: Words>(
    alloc: Global,
    out: &mut String,
    table: &str,
    document: &Table<'_, W>,
    input: &str,
) -> Result<(), AllocError> {
    match table {
        "values" => write_value(alloc, out, document, number_of(input)),
        "counts" => write_count(alloc, out, document, number_of(input)),
        "equal" => {
            let (one, other) = input.split_once(" ").unwrap_or((input, ""));
            write_equal(out, document, number_of(one), number_of(other))
        }
        _ => out.push_str("no such table"),
    }
}
