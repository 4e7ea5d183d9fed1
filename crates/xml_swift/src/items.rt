//! Texts and tags (XML 1.0, productions 14 and 40 to 44).

ghost use Rattle.std.specs.Prelude.{◌≡◌, ◌≢◌, ◌<◌, ◌≤◌, ◌+◌, ◌-◌, ◌^◌, length, slice_index, IfSome};
ghost use Rattle.std.specs.Str.{IsUtf8, IsCharBoundary};
ghost use Rattle.xml_items.specs.Counted.{IsCountedAt};
ghost use Rattle.xml_items.specs.Counting.{with_count};
ghost use Rattle.xml_swift.specs.Fronts.{HasAttributes, HasName, HasSpace};

use crate::attributes::{ROOM, attribute_end};
use crate::names::name_end;
use crate::runs::{run_to, span};
use xml_chars::space_end;
use xml_items::{Counted, Item, ItemKind};
use xml_lanes::TextByte;

/// The text at the place, where it has no reference and no `]`, and a `<` follows.
#[inline(always)]
fn text(bytes: &[u8], at: usize) -> Option<Counted>
    requires utf8 { IsUtf8 bytes.now }
    requires place { IsCharBoundary bytes.now at }
    requires room { at + ROOM ≤ length bytes.now }
    requires size { length bytes.now < 2 ^ 32 }
    requires text { slice_index bytes.now at ≢ 60 }
    ensures { IfSome result (IsCountedAt bytes.now at) }
{
    let end = run_to(&TextByte, bytes, at, b'<')?;
    let whole = span(at, end);
    let item = Item {
        kind: ItemKind::Text,
        span: whole,
        name: span(at, at),
        content: whole,
    };
    Some(Counted {
        item,
        attributes: 0,
    })
}

/// The end tag at the place, which begins with `</`, where it has no white space.
#[inline(always)]
fn end_tag(bytes: &[u8], at: usize) -> Option<Counted>
    requires utf8 { IsUtf8 bytes.now }
    requires room { at + ROOM ≤ length bytes.now }
    requires size { length bytes.now < 2 ^ 32 }
    requires open { slice_index bytes.now at ≡ 60 }
    requires slash { slice_index bytes.now (at + 1) ≡ 47 }
    ensures { IfSome result (IsCountedAt bytes.now at) }
{
    let close = name_end(bytes, at + 2)?;
    if bytes[close] != b'>' {
        return None;
    }
    let item = Item {
        kind: ItemKind::EndTag,
        span: span(at, close + 1),
        name: span(at + 2, close),
        content: span(close, close),
    };
    Some(Counted {
        item,
        attributes: 0,
    })
}

/// The places of a tag's parts, so far.
#[derive(Clone, Copy)]
struct Parts {
    /// Where it begins.
    at: usize,
    /// Where its name ends.
    name: usize,
    /// Where its attributes end.
    place: usize,
    attributes: u32,
}

/// The tag with these parts, whose white space ends at `close`, and which ends at `end`.
#[inline(always)]
fn tag_of(kind: ItemKind, parts: Parts, close: usize, end: usize) -> Counted
    requires size { end < 2 ^ 32 }
    requires order { (parts.at < parts.name) × (parts.name ≤ close) × (close ≤ end) }
    ensures { result ≡ with_count parts.attributes record {
      kind = kind;
      span = record { start = parts.at; end = end };
      name = record { start = parts.at + 1; end = parts.name };
      content = record { start = parts.name; end = close };
    } }
{
    let item = Item {
        kind,
        span: span(parts.at, end),
        name: span(parts.at + 1, parts.name),
        content: span(parts.name, close),
    };
    Counted {
        item,
        attributes: parts.attributes,
    }
}

/// The tag with these parts, where `>` or `/>` follows at the place `close`, with white space before it.
#[inline(always)]
fn closed(bytes: &[u8], parts: Parts, close: usize) -> Option<Counted>
    requires size { length bytes.now < 2 ^ 32 }
    requires within { close + 1 < length bytes.now }
    requires order { (parts.at < parts.name) × (parts.name ≤ parts.place) × (parts.place ≤ close) }
    requires open { slice_index bytes.now parts.at ≡ 60 }
    requires name { HasName bytes.now (parts.at + 1) parts.name }
    requires attributes { HasAttributes bytes.now parts.name parts.place parts.attributes }
    requires space { HasSpace bytes.now parts.place close }
    ensures { IfSome result (IsCountedAt bytes.now parts.at) }
{
    if bytes[close] == b'>' {
        return Some(tag_of(ItemKind::StartTag, parts, close, close + 1));
    }
    if bytes[close] != b'/' || bytes[close + 1] != b'>' {
        return None;
    }
    Some(tag_of(ItemKind::EmptyTag, parts, close, close + 2))
}

/// The tag with these parts, which white space and `>` or `/>` follow.
#[inline(never)]
fn closed_behind_space(bytes: &[u8], parts: Parts) -> Option<Counted>
    requires utf8 { IsUtf8 bytes.now }
    requires size { length bytes.now < 2 ^ 32 }
    requires place { IsCharBoundary bytes.now parts.place }
    requires order { (parts.at < parts.name) × (parts.name ≤ parts.place) }
    requires open { slice_index bytes.now parts.at ≡ 60 }
    requires name { HasName bytes.now (parts.at + 1) parts.name }
    requires attributes { HasAttributes bytes.now parts.name parts.place parts.attributes }
    ensures { IfSome result (IsCountedAt bytes.now parts.at) }
{
    let close = space_end(bytes, parts.place as u32) as usize;
    if bytes.len() - close < 2 {
        return None;
    }
    closed(bytes, parts, close)
}

/// The start tag or empty tag at the place, which begins with `<`.
#[inline(always)]
fn tag(bytes: &[u8], at: usize) -> Option<Counted>
    requires utf8 { IsUtf8 bytes.now }
    requires room { at + ROOM ≤ length bytes.now }
    requires size { length bytes.now < 2 ^ 32 }
    requires open { slice_index bytes.now at ≡ 60 }
    ensures { IfSome result (IsCountedAt bytes.now at) }
{
    let name = name_end(bytes, at + 1)?;
    let mut parts = Parts {
        at,
        name,
        place: name,
        attributes: 0,
    };
    'attributes: loop {
        let place = parts.place;
        if bytes.len() - place < ROOM {
            return None;
        }
        let next = bytes[place];
        if next > b' ' {
            return closed(bytes, parts, place);
        }
        match attribute_end(bytes, place) {
            Some(end) => {
                parts.place = end;
                parts.attributes += 1;
            }
            None => return closed_behind_space(bytes, parts),
        }
    }
}

/// The item that begins at the place, where it is of a common form; None says nothing.
#[inline(always)]
pub fn common_item(bytes: &[u8], at: usize) -> Option<Counted>
    requires utf8 { IsUtf8 bytes.now }
    requires place { IsCharBoundary bytes.now at }
    requires size { length bytes.now < 2 ^ 32 }
    ensures item { IfSome result (IsCountedAt bytes.now at) }
    ensures before { IfSome result (λ _. at < length bytes.now) }
{
    if bytes.len() - at < ROOM {
        return None;
    }
    if bytes[at] != b'<' {
        return text(bytes, at);
    }
    if bytes[at + 1] == b'/' {
        return end_tag(bytes, at);
    }
    tag(bytes, at)
}
