//! The items of a document: texts, tags, comments and the rest (XML 1.0, productions 14 to 44).
#![tactic(auto)]

ghost use Rattle.std.specs.Prelude.{◌≡◌, ◌≢◌, ◌==◌, ◌<◌, ◌+◌, ◌^◌, ◌↔◌, List, ℕ, drop, true, length, option_map, codes};
ghost use Rattle.std.specs.Prelude.{Some, IfOk, IfErr, IfSome};
ghost use Rattle.std.specs.Str.{chars, IsUtf8, IsCharBoundary};
ghost use Rattle.xml_model.specs.Items.{first_place};
ghost use Rattle.xml_chars.specs.Readers.{word};
ghost use Rattle.xml_chars.specs.Reading.{ascii_head, read_name};
ghost use Rattle.xml_items.specs.Reading.{is_name_read, read_item};
ghost use Rattle.xml_items.specs.Shown.{IsItemAt, HasNoItem, HasTextSpans};
ghost use Rattle.xml_items.specs.Counted.{IsCountedAt};
ghost use Rattle.xml_items.specs.Counting.{counted_shown, with_count};

mod attributes;
mod classes;
mod declarations;
mod doctypes;
pub mod laws;
mod marks;
mod pieces;
mod spans;
mod tags;
mod texts;

pub use attributes::Attributes;
use declarations::{declaration_at, is_same};
use doctypes::doctype_at;
use marks::{cdata_at, comment_at, instruction_at};
pub use tags::after_attribute;
use tags::{end_tag_at, tag_at};
use texts::text_item_at;
use xml_chars::names::name_of;
use xml_chars::text::{head, step, text_at, word_of};
use xml_model::Span;

/// The kinds of items.
#[derive(Clone, Copy, Debug, PartialEq)]
pub enum ItemKind {
    Text,
    StartTag,
    EmptyTag,
    EndTag,
    Comment,
    Instruction,
    Cdata,
    Declaration,
    Doctype,
}

/// An item, by places in the document's bytes.
#[derive(Clone, Copy, Debug, PartialEq)]
pub struct Item {
    pub kind: ItemKind,
    /// The whole item.
    pub span: Span,
    /// The Name of a tag, an Instruction or a Doctype; empty at the item's start for the others.
    pub name: Span,
    /// The whole of a Text; what is between the markers of a Cdata and a Comment; the data of an Instruction,
    /// empty at its `?>` where it has none; what is between the Name of a tag and its `>` or `/>`, between `<?xml` and
    /// `?>`, and between `<!DOCTYPE` and its `>`.
    pub content: Span,
}

/// An item with the number of its attributes.
#[derive(Clone, Copy, Debug, PartialEq)]
pub struct Counted {
    pub item: Item,
    /// The number of attributes of a tag, or of parts of the XML declaration; 0 for the others.
    pub attributes: u32,
}

/// No item begins at the place.
#[derive(Clone, Copy, Debug, PartialEq)]
pub struct ItemFault;

/// An attribute of a tag, or a part of the XML declaration, by places in the document's bytes.
#[derive(Clone, Copy, Debug, PartialEq)]
pub struct AttributeItem {
    pub name: Span,
    /// What is between the quotes.
    pub value: Span,
}

/// The first place of the document, where its items begin: that after a byte order mark, which belongs to no item, or
/// its start (XML 1.0, section 4.3.3).
pub fn first_place(bytes: &[u8]) -> u32
    ensures { result ≡ first_place bytes.now }
{
    if bytes.starts_with(&[0xEF, 0xBB, 0xBF]) {
        3
    } else {
        0
    }
}

/// Whether the place is the first place of the document.
#[inline(always)]
fn is_first_place(bytes: &[u8], at: u32) -> bool
    ensures { result ≡ (at == first_place bytes.now) }
{
    at <= 3 && at == first_place(bytes)
}

/// What follows the first character.
fn after_first(text: &str) -> &str
    ensures { chars result.now ≡ drop 1 (chars text.now) }
{
    match step(text) {
        Some((_, rest)) => rest,
        None => text,
    }
}

/// Whether the name at the start is `xml`.
fn begins_xml(text: &str) -> bool
    ensures { result ≡ is_name_read (codes "xml") (read_name (chars text.now)) }
{
    match name_of(text) {
        Some((name, _)) => is_same(name, "xml"),
        None => false,
    }
}

/// The item as one that has no attributes.
fn without_attributes(item: Option<Item>) -> Option<Counted>
    ensures { result ≡ option_map (with_count 0) item }
{
    Some(Counted {
        item: item?,
        attributes: 0,
    })
}

/// The item at the start of a text that begins at the place with `<?`, which is the document's first place or is not.
/// What follows the `<` is `rest`.
fn question_item_of(text: &str, rest: &str, at: u32, first: bool) -> Option<Counted>
    requires room { at + length text.now < 2 ^ 32 }
    requires rest { word (codes "<") (chars text.now) ≡ Some (tt, chars rest.now) }
    requires mark { ascii_head (chars rest.now) ≡ 63 }
    ensures { result ≡ option_map (λ p. counted_shown at p.0) (read_item first (chars text.now)) }
{
    if !begins_xml(after_first(rest)) {
        return without_attributes(instruction_at(text, at));
    }
    if first {
        declaration_at(text, at)
    } else {
        None
    }
}

/// The item at the start of a text that begins at the place with `<!`. What follows the `<` is `rest`.
fn bang_item_of(text: &str, rest: &str, at: u32, first: bool) -> Option<Counted>
    requires room { at + length text.now < 2 ^ 32 }
    requires rest { word (codes "<") (chars text.now) ≡ Some (tt, chars rest.now) }
    requires mark { ascii_head (chars rest.now) ≡ 33 }
    ensures { result ≡ option_map (λ p. counted_shown at p.0) (read_item first (chars text.now)) }
{
    let mark = head(after_first(rest));
    if mark == b'-' {
        return without_attributes(comment_at(text, at));
    }
    if mark == b'[' {
        return without_attributes(cdata_at(text, at));
    }
    without_attributes(doctype_at(text, at))
}

/// The item at the start of a text that begins at the place with `<` and is no end tag. What follows the `<` is `rest`.
#[inline(never)]
fn marked_item_of(text: &str, rest: &str, at: u32, first: bool) -> Option<Counted>
    requires room { at + length text.now < 2 ^ 32 }
    requires rest { word (codes "<") (chars text.now) ≡ Some (tt, chars rest.now) }
    requires mark { ascii_head (chars rest.now) ≢ 47 }
    ensures { result ≡ option_map (λ p. counted_shown at p.0) (read_item first (chars text.now)) }
{
    let mark = head(rest);
    if mark == b'?' {
        return question_item_of(text, rest, at, first);
    }
    if mark == b'!' {
        return bang_item_of(text, rest, at, first);
    }
    tag_at(text, at)
}

/// The item at the start of a text that begins at the place, which is the document's first place or is not. A rarer
/// item is copied from where it is read into, so that texts and tags need not be stored.
#[inline(always)]
fn item_of(text: &str, at: u32, first: bool) -> Option<Counted>
    requires { at + length text.now < 2 ^ 32 }
    ensures { result ≡ option_map (λ p. counted_shown at p.0) (read_item first (chars text.now)) }
{
    let Some(rest) = word_of(text, "<") else {
        return without_attributes(text_item_at(text, at));
    };
    let mark = head(rest);
    if mark == b'/' {
        return without_attributes(end_tag_at(text, at));
    }
    if mark == b'?' || mark == b'!' {
        let found = marked_item_of(text, rest, at, first)?;
        return Some(found);
    }
    tag_at(text, at)
}

/// The item that begins at the place, with the number of its attributes: `Ok(None)` exactly at the end, and `Err`
/// exactly where the place is before the end and no item begins there. It is always inlined, so that the parts of the
/// item need not be stored.
#[inline(always)]
pub fn next_counted(bytes: &[u8], at: u32) -> Result<Option<Counted>, ItemFault>
    requires utf8 { IsUtf8 bytes.now }
    requires place { IsCharBoundary bytes.now at }
    requires size { length bytes.now < 2 ^ 32 }
    ensures end { (result ≡ Ok None) ↔ (at ≡ length bytes.now) }
    ensures item { IfOk result (λ found. IfSome found (IsCountedAt bytes.now at)) }
    ensures start { IfOk result (λ found. IfSome found (λ counted. counted.item.span.start ≡ at)) }
    ensures fault { IfErr result (λ _. (at < length bytes.now) × HasNoItem bytes.now at) }
    ensures place { IfOk result (λ found. IfSome found (λ counted. IsCharBoundary bytes.now counted.item.span.end)) }
    ensures spans { IfOk result (λ found. IfSome found (λ counted. HasTextSpans bytes.now counted.item)) }
{
    let text = text_at(bytes, at);
    if text.is_empty() {
        return Ok(None);
    }
    let first = is_first_place(bytes, at);
    match item_of(text, at, first) {
        Some(counted) => Ok(Some(counted)),
        None => Err(ItemFault),
    }
}

/// The item that begins at the place: `Ok(None)` exactly at the end, and `Err` exactly where the place is before the
/// end and no item begins there.
#[inline]
pub fn next_item(bytes: &[u8], at: u32) -> Result<Option<Item>, ItemFault>
    requires utf8 { IsUtf8 bytes.now }
    requires place { IsCharBoundary bytes.now at }
    requires size { length bytes.now < 2 ^ 32 }
    ensures end { (result ≡ Ok None) ↔ (at ≡ length bytes.now) }
    ensures item { IfOk result (λ found. IfSome found (IsItemAt bytes.now at)) }
    ensures start { IfOk result (λ found. IfSome found (λ item. item.span.start ≡ at)) }
    ensures fault { IfErr result (λ _. (at < length bytes.now) × HasNoItem bytes.now at) }
    ensures place { IfOk result (λ found. IfSome found (λ item. IsCharBoundary bytes.now item.span.end)) }
    ensures spans { IfOk result (λ found. IfSome found (HasTextSpans bytes.now)) }
{
    match next_counted(bytes, at) {
        Ok(Some(counted)) => Ok(Some(counted.item)),
        Ok(None) => Ok(None),
        Err(fault) => Err(fault),
    }
}
