//! What is at a record and after it: its parts, its tag, and the end tags after the last piece of an element.

ghost use Rattle.std.specs.Prelude.{◌≡◌, ℕ, suc, ◌+◌, ◌-◌, ◌<◌, ◌≤◌, ◌^◌, Bool, true, List, length};
ghost use Rattle.std.specs.Str.{IsUtf8};
ghost use Rattle.xml_model.specs.Items.{Tag, Item as ModelItem, begins_at};
ghost use Rattle.xml_model.specs.Records.{Record};
ghost use Rattle.xml_model.specs.Scan.{record_at};
ghost use Rattle.xml_items.specs.Reading.{tag_item};
ghost use Rattle.xml_items.specs.Shown.{item_shown};
ghost use Rattle.vtd_words.specs.Lists.{list_of};
ghost use Rattle.vtd_words.specs.Packed.{record_of};
ghost use Rattle.vtd_words.specs.Table.{Shows};
ghost use Rattle.vtd_cursor.specs.Endings.{opening, closing, record_end, ends_tag, EndTags, HasEndTags, HasEnding};
ghost use Rattle.vtd_cursor.specs.Endings.{HasLastPiece, HasTagAt, HasTagOf, IsEnding, IsLastPiece, IsNearestTag};
ghost use Rattle.vtd_cursor.specs.Endings.{IsTagOf};

use vtd_words::{Part, Parts, Words, parts_at};
use xml_items::{Item, ItemKind, next_item};
use xml_model::TokenKind;

// The numbers of the kinds of records that begin or end a piece.
const START_TAG: u8 = TokenKind::StartTag as u8;

const VALUE: u8 = TokenKind::Value as u8;

const COMMENT: u8 = TokenKind::Comment as u8;

const TARGET: u8 = TokenKind::Target as u8;

const DATA: u8 = TokenKind::Data as u8;

const CDATA: u8 = TokenKind::Cdata as u8;

/// Where the piece begins whose first record has these parts.
pub fn piece_start(parts: Parts) -> u32
    requires { opening parts.token ≤ parts.offset }
    ensures { result ≡ parts.offset - opening parts.token }
{
    let before = match parts.token {
        START_TAG => 1,
        CDATA => 9,
        COMMENT => 4,
        TARGET => 2,
        _ => 0,
    };
    parts.offset - before
}

/// Where the piece ends whose last record has these parts, if it is no tag.
pub fn record_end(parts: Parts) -> u32
    requires { parts.offset + parts.length < 2 ^ 31 }
    ensures { result ≡ record_end (record_of parts) }
{
    let after = match parts.token {
        VALUE => 1,
        DATA => 2,
        CDATA | COMMENT => 3,
        _ => 0,
    };
    parts.offset + parts.length + after
}

/// Whether a record of a type can be the last of a tag.
fn ends_tag(token: u8) -> bool
    ensures { result ≡ ends_tag token }
{
    token == START_TAG || token == VALUE
}

/// The nearest starting tag up to a record; 0 where there is none.
fn nearest_tag<W: Words>(words: &W, at: u32) -> u32
    requires { at < length (list_of Part.Records (W.lists words.now)) }
    ensures within { result ≤ at }
    ensures nearest { (rs : List Record) → Shows (list_of Part.Records (W.lists words.now)) rs →
        (m : ℕ) → IsNearestTag rs at m → result ≡ m }
{
    if parts_at(words, at).token == START_TAG {
        return at;
    }
    for before in (0..at).rev() {
        if parts_at(words, before).token == START_TAG {
            return before;
        }
    }
    0
}

/// The tag that is at a place.
fn tag_at(bytes: &[u8], at: u32) -> Item
    requires utf8 { IsUtf8 bytes.now }
    requires few { length bytes.now < 2 ^ 30 }
    requires tag { HasTagAt bytes.now at }
    ensures { (i : ModelItem) → begins_at bytes.now at i ≡ true → result ≡ item_shown at i }
{
    match next_item(bytes, at) {
        Ok(Some(item)) => item,
        Ok(None) => unreachable!(),
        Err(_) => unreachable!(),
    }
}

/// The starting tag that a record is of, as its name or in one of its attributes.
pub fn tag_of<W: Words>(bytes: &[u8], words: &W, at: u32) -> Item
    requires utf8 { IsUtf8 bytes.now }
    requires few { length bytes.now < 2 ^ 30 }
    requires within { at < length (list_of Part.Records (W.lists words.now)) }
    requires tag { HasTagOf bytes.now (list_of Part.Records (W.lists words.now)) at }
    ensures { (rs : List Record) → Shows (list_of Part.Records (W.lists words.now)) rs →
        (place : ℕ) (closed : Bool) (t : Tag) → IsTagOf bytes.now rs at place closed t →
        result ≡ item_shown place (tag_item closed t) }
{
    let first = nearest_tag(words, at);
    tag_at(bytes, parts_at(words, first).offset - 1)
}

/// Where the end tag ends that is the last of so many, which follow one another from a place on.
pub fn after_end_tags(bytes: &[u8], from: u32, count: u32) -> u32
    requires utf8 { IsUtf8 bytes.now }
    requires few { length bytes.now < 2 ^ 30 }
    requires tags { HasEndTags bytes.now count from }
    ensures { (to : ℕ) → EndTags bytes.now count from to → result ≡ to }
{
    let mut at = from;
    for i in 0..count {
        at = tag_at(bytes, at).span.end;
    }
    at
}

/// Where a piece ends, and how many elements are open there.
#[derive(Clone, Copy)]
pub struct LastPiece {
    pub end: u32,
    pub opened: u32,
}

/// The piece whose last record has an index.
pub fn last_piece<W: Words>(bytes: &[u8], words: &W, last: u32) -> LastPiece
    requires utf8 { IsUtf8 bytes.now }
    requires few { length bytes.now < 2 ^ 30 }
    requires within { last < length (list_of Part.Records (W.lists words.now)) }
    requires piece { HasLastPiece bytes.now (list_of Part.Records (W.lists words.now)) last }
    ensures end { (rs : List Record) → Shows (list_of Part.Records (W.lists words.now)) rs →
        (level place opened : ℕ) → IsLastPiece bytes.now rs level last place opened → result.end ≡ place }
    ensures opened { (rs : List Record) → Shows (list_of Part.Records (W.lists words.now)) rs →
        (level place opened : ℕ) → IsLastPiece bytes.now rs level last place opened → result.opened ≡ level + opened }
{
    let parts = parts_at(words, last);
    let depth = parts.depth as u32;
    if !ends_tag(parts.token) {
        return LastPiece {
            end: record_end(parts),
            opened: depth + 1,
        };
    }
    let tag = tag_of(bytes, words, last);
    let end = tag.span.end;
    match tag.kind {
        ItemKind::EmptyTag => LastPiece { end, opened: depth },
        _ => LastPiece {
            end,
            opened: depth + 1,
        },
    }
}

/// Where the last of the end tags ends that close the elements of a level and those in them, after the piece whose last
/// record has an index.
pub fn end_of_level<W: Words>(bytes: &[u8], words: &W, level: u32, last: u32) -> u32
    requires utf8 { IsUtf8 bytes.now }
    requires few { length bytes.now < 2 ^ 30 }
    requires within { last < length (list_of Part.Records (W.lists words.now)) }
    requires ending { HasEnding bytes.now (list_of Part.Records (W.lists words.now)) level last }
    ensures { (rs : List Record) → Shows (list_of Part.Records (W.lists words.now)) rs →
        (stop : ℕ) → IsEnding bytes.now rs level stop (suc last) → result ≡ stop }
{
    let piece = last_piece(bytes, words, last);
    after_end_tags(bytes, piece.end, piece.opened - level)
}
