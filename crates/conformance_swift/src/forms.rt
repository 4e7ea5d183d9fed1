//! The item at a place, read by the swift reader and by the reader of all items.

use std::alloc::{AllocError, Global};
use xml_items::{Counted, ItemFault, ItemKind, next_counted};
use xml_model::Span;
use xml_swift::{next_counted_swiftly, swift};

/// At how many offsets an item is asked, and with how many bytes behind it.
const OFFSETS: usize = 16;

const BEHIND: usize = 80;

/// What three readers answer.
#[derive(Clone, Copy)]
struct Answers {
    swift: Option<Counted>,
    both: Result<Option<Counted>, ItemFault>,
    all: Result<Option<Counted>, ItemFault>,
}

/// What is answered at a place of a text; None where it is no place of a character.
fn answers_at(text: &str, at: usize) -> Option<Answers> {
    if text.len() >= 1 << 30 || !text.is_char_boundary(at) {
        return None;
    }
    let bytes = text.as_bytes();
    let place = at as u32;
    Some(Answers {
        swift: swift(bytes, place),
        both: next_counted_swiftly(bytes, place),
        all: next_counted(bytes, place),
    })
}

/// A text with so many bytes before it, and a tag that is not closed behind it, which gives so many bytes.
fn placed(alloc: Global, text: &str, before: usize, behind: usize) -> Result<String, AllocError> {
    let mut whole = String::new(alloc);
    for _ in 0..before {
        whole.push_str("-")?;
    }
    whole.push_str(text)?;
    for i in 0..behind {
        whole.push_str(if i == 0 { "<" } else { "-" })?;
    }
    Ok(whole)
}

fn kind_word(kind: ItemKind) -> &'static str {
    match kind {
        ItemKind::Text => "text",
        ItemKind::StartTag => "start tag",
        ItemKind::EmptyTag => "empty tag",
        ItemKind::EndTag => "end tag",
        _ => "other",
    }
}

/// A span, by places behind the start of its item.
fn write_span(out: &mut String, span: Span, start: u32) -> Result<(), AllocError> {
    let from = span.start.saturating_sub(start);
    let to = span.end.saturating_sub(start);
    write!(out, ", {from}..{to}")
}

/// The item by its places behind its start.
fn write_item(out: &mut String, counted: Counted) -> Result<(), AllocError> {
    let item = counted.item;
    let start = item.span.start;
    out.push_str(kind_word(item.kind))?;
    write!(out, " {}", item.span.end.saturating_sub(start))?;
    write_span(out, item.name, start)?;
    write_span(out, item.content, start)?;
    write!(out, ", {}", counted.attributes)
}

/// The least number of bytes behind an item with which the swift reader answers at this offset, and what it answers. What
/// differs from the reader of all items is written.
fn first_answer(
    alloc: Global,
    out: &mut String,
    text: &str,
    before: usize,
) -> Result<Option<(usize, Counted)>, AllocError> {
    let mut first = None;
    for behind in 0..BEHIND {
        let whole = placed(alloc, text, before, behind)?;
        let Some(answers) = answers_at(whole.as_str(), before) else {
            continue;
        };
        if answers.both != answers.all {
            write!(out, "other answers at {before} with {behind}, ")?;
        }
        match (answers.swift, first) {
            (Some(counted), None) => first = Some((behind, counted)),
            (None, Some(_)) => write!(out, "none at {before} with {behind}, ")?,
            _ => {}
        }
        if answers.swift.is_some() && answers.all != Ok(answers.swift) {
            write!(out, "other item at {before} with {behind}, ")?;
        }
    }
    Ok(first)
}

/// What the swift reader answers, and with how many bytes behind the item, at each of the offsets.
pub fn write(alloc: Global, out: &mut String, text: &str) -> Result<(), AllocError> {
    let mut least = None;
    for before in 0..OFFSETS {
        let first = first_answer(alloc, out, text, before)?;
        let behind = first.map(|f| f.0);
        if before > 0 && behind != least {
            write!(out, "otherwise at {before}, ")?;
        }
        least = behind;
        if before == 0 {
            match first {
                Some((_, counted)) => write_item(out, counted)?,
                None => out.push_str("gives up")?,
            }
        }
    }
    match least {
        Some(behind) => write!(out, ", from {behind}"),
        None => Ok(()),
    }
}
