//! The records of names, and the bytes of their tokens.

ghost use Rattle.std.specs.Prelude.{◌≡◌, ◌+◌, ◌^◌, ◌≤◌, ◌<◌, true, List, take, drop, length, IfSome, IfNone};
ghost use Rattle.xml_model.specs.Records.{Record};
ghost use Rattle.xml_model.specs.Scan.{record_at};
ghost use Rattle.vtd_words.specs.Lists.{list_of};
ghost use Rattle.vtd_words.specs.Packed.{record_of};
ghost use Rattle.vtd_words.specs.Table.{Shows};
ghost use Rattle.vtd_text.specs.Joined.{slice_of};
ghost use Rattle.vtd_text.specs.NameRecords.{is_attribute_name};
ghost use Rattle.vtd_namespaces.specs.Repeats.{HasNoAttribute};

use vtd_words::{Part, Parts, Words, parts_at};
use xml_model::TokenKind;

/// The parts of the record with an index, where it is of an attribute's name and the value's record follows it.
pub fn attribute_at<W: Words>(words: &W, at: u32) -> Option<Parts>
    ensures none { (rs : List Record) → Shows (list_of Part.Records (W.lists words.now)) rs →
        IfNone result (HasNoAttribute rs at) }
    ensures some { (rs : List Record) → Shows (list_of Part.Records (W.lists words.now)) rs →
        IfSome result (λ p. record_of p ≡ record_at at rs) }
    ensures kind { IfSome result (λ p. is_attribute_name p.token ≡ true) }
    ensures room { IfSome result (λ p. at + 2 ≤ length (list_of Part.Records (W.lists words.now))) }
    ensures bound { IfSome result (λ p. at + 2 < 2 ^ 32) }
{
    let records = words.len(Part::Records);
    if records < 2 || at > records - 2 {
        return None;
    }
    let parts = parts_at(words, at);
    if parts.token == TokenKind::AttributeName as u8
        || parts.token == TokenKind::NamespaceName as u8
    {
        Some(parts)
    } else {
        None
    }
}

/// The bytes from a place on.
pub fn after(bytes: &[u8], at: u32) -> &[u8]
    ensures { result.now ≡ drop at bytes.now }
{
    let at = at as usize;
    if at < bytes.len() { &bytes[at..] } else { &[] }
}

/// The first bytes, as many as there are up to a number.
pub fn prefix(bytes: &[u8], len: u32) -> &[u8]
    ensures { result.now ≡ take len bytes.now }
{
    let len = len as usize;
    if len < bytes.len() {
        &bytes[..len]
    } else {
        bytes
    }
}

/// The bytes of the token that a record is of.
pub fn slice_of(bytes: &[u8], parts: Parts) -> &[u8]
    ensures { result.now ≡ slice_of bytes.now (record_of parts) }
{
    prefix(after(bytes, parts.offset), parts.length)
}

/// The bytes from one place up to another, as many of them as there are.
pub fn range(bytes: &[u8], start: u32, end: u32) -> &[u8]
    ensures { result.now ≡ drop start (take end bytes.now) }
{
    after(prefix(bytes, end), start)
}
