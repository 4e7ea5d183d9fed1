//! The documents that are timed, and nodes of them.

ghost use Rattle.std.specs.Prelude.{◌<◌, ◌^◌, IfOk, IfSome, length};
ghost use Rattle.std.specs.List.{AllByRecursion};
ghost use Rattle.vtd_words.specs.Table.{IsNodeOf};

use std::alloc::{AllocError, Global};
use vtd_words::{Table, Words};
use xml_model::{Kind, Node};

/// A document of so many elements with a text of 20 bytes each, and as many with others. No text is there twice.
pub fn two_sets(alloc: Global, count: u32) -> Result<String, AllocError> {
    let mut held = String::from_str(alloc, "<r>")?;
    for number in 0..count {
        let element = format!(in alloc; "<a>text {number:015}</a>")?;
        held.push_str(element.as_str())?;
    }
    for number in 0..count {
        let element = format!(in alloc; "<a>word {number:015}</a>")?;
        held.push_str(element.as_str())?;
    }
    held.push_str("</r>")?;
    Ok(held)
}

/// A document of the numbers below another, an element for each.
pub fn numbers(alloc: Global, count: u32) -> Result<String, AllocError> {
    let mut held = String::from_str(alloc, "<r>")?;
    for number in 0..count {
        let element = format!(in alloc; "<a>{number}</a>")?;
        held.push_str(element.as_str())?;
    }
    held.push_str("</r>")?;
    Ok(held)
}

/// A document whose text is words, of about so many bytes.
pub fn words(alloc: Global, bytes: u32) -> Result<String, AllocError> {
    let mut held = String::from_str(alloc, "<r>")?;
    for _ in 0..bytes / 50 {
        held.push_str("Lorem ipsum dolor sit amet, consectetur elit, sed ")?;
    }
    held.push_str("end</r>")?;
    Ok(held)
}

/// The text whose first record has an index.
fn text_at<W: Words>(table: &Table<'_, W>, at: u32) -> Option<Node>
    ensures { IfSome result (λ x. IsNodeOf table.now.bytes (W.lists table.now.words) x) }
{
    let node = table.node_at(at)?;
    if node.kind == Kind::Text {
        return Some(node);
    }
    None
}

/// The texts among the records from one up to another.
pub fn texts_of<W: Words>(
    alloc: Global,
    table: &Table<'_, W>,
    start: u32,
    end: u32,
) -> Result<Vec<Node>, AllocError>
    ensures { IfOk result (λ v. AllByRecursion
        (λ x. IsNodeOf table.now.bytes (W.lists table.now.words) x) v.items) }
{
    let mut held = Vec::new(alloc);
    for at in start..end {
        if let Some(node) = text_at(table, at) {
            held.push(node)?;
        }
    }
    Ok(held)
}
