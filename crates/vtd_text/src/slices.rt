//! Contents that are in the document as they are. No call takes memory.
#![tactic(auto)]

ghost use Rattle.std.specs.Prelude.{◌≡◌, ℕ, List, [], None, MatchOption, IfSome, IsSome, length, true, false, ◌<◌, ◌≤◌};
ghost use Rattle.std.specs.Option.{option_copied};
ghost use Rattle.std.specs.Str.{chars};
ghost use Rattle.xml_model.specs.Content.{content};
ghost use Rattle.xml_model.specs.Records.{Record};
ghost use Rattle.xml_model.specs.Scan.{is_within, record_at};
ghost use Rattle.xml_model.specs.Wholes.{wholes};
ghost use Rattle.vtd_words.specs.Lists.{list_of};
ghost use Rattle.vtd_words.specs.Packed.{record_of};
ghost use Rattle.vtd_words.specs.Table.{ForEachEntry, IsNodeOf, Shows};
ghost use Rattle.vtd_text.specs.Joined.{Joined, row};
ghost use Rattle.vtd_text.specs.Raw.{IsWritten, are_plain, raw_content, written_content};
ghost use Rattle.vtd_text.specs.Resolved.{IsRecord, IsResolved, IsRow};

use crate::chars::{Chars, after};
use crate::row::{RowEnd, is_text, text_of, whole_from};
use crate::texts::equals_str;
use crate::token::Rule;
use vtd_words::{Part, Parts, Table, Words, level_of, parts_at};
use xml_model::{Kind, Node};

/// The parts of the token that has the content of a node alone, as of one record; `None` exactly for the root, an
/// element, and a text whose run has several tokens.
fn content_parts<W: Words>(table: &Table<'_, W>, node: Node) -> Option<Parts>
    requires { IsNodeOf table.now.bytes (W.lists table.now.words) node }
    ensures { ForEachEntry table.now.bytes (W.lists table.now.words) node (λ nest e.
        MatchOption result (written_content e.what ≡ None)
        (λ parts. IsWritten table.now.bytes (record_of parts) (written_content e.what))) }
{
    match node.kind {
        Kind::Root | Kind::Element => None,
        Kind::Text => one_token(table, node),
        Kind::Attribute | Kind::Instruction => {
            let words = table.words();
            Some(parts_at(words, after(words, node.at)))
        }
        Kind::Comment => Some(parts_at(table.words(), node.at)),
    }
}

/// The parts of the token of a text whose run has one alone, as of one record.
fn one_token<W: Words>(table: &Table<'_, W>, node: Node) -> Option<Parts>
    requires node { IsNodeOf table.now.bytes (W.lists table.now.words) node }
    requires text { node.kind ≡ Kind.Text }
    ensures { ForEachEntry table.now.bytes (W.lists table.now.words) node (λ nest e.
        MatchOption result (written_content e.what ≡ None)
        (λ parts. IsWritten table.now.bytes (record_of parts) (written_content e.what))) }
{
    let past = table.run_end(node);
    let words = table.words();
    let first = parts_at(words, node.at);
    let whole = whole_from(words, first, table.after_first(node), past);
    if whole.next == past {
        Some(whole.parts)
    } else {
        None
    }
}

/// The bytes of the content of an attribute, a comment, an instruction or a text, where they are the UTF-8 of the
/// node's string-value (XPath 1.0, section 5); `None` exactly for the root and an element, for a text whose run has
/// several tokens, and where the bytes are another text.
pub fn raw<'a, W: Words>(table: &Table<'a, W>, node: Node) -> Option<&'a [u8]>
    requires { IsNodeOf table.now.bytes (W.lists table.now.words) node }
    ensures { ForEachEntry table.now.bytes (W.lists table.now.words) node (λ nest e.
        option_copied result ≡ raw_content e.what) }
{
    let parts = content_parts(table, node)?;
    let text = text_of(table.bytes(), parts);
    if equals_str(Chars::of(table, node), text) {
        Some(text.as_bytes())
    } else {
        None
    }
}

/// Whether a row has no record from one on.
fn ends<W: Words>(words: &W, at: u32, end: RowEnd) -> bool
    requires { end.past ≤ length (list_of Part.Records (W.lists words.now)) }
    ensures ended { result ≡ true → (rs : List Record) → Shows (list_of Part.Records (W.lists words.now)) rs →
        row at end rs ≡ [] }
    ensures goes_on { result ≡ false → at < end.past }
    ensures within { result ≡ false → (rs : List Record) → Shows (list_of Part.Records (W.lists words.now)) rs →
        is_within end.least (record_at at rs) ≡ true }
{
    if at >= end.past {
        return true;
    }
    level_of(parts_at(words, at)) < end.least
}

/// The text of the only record of a row, where it has one alone, of a text or a CDATA section.
fn only_text<'a, W: Words>(bytes: &'a [u8], words: &W, at: u32, end: RowEnd) -> Option<&'a str>
    requires within { end.past ≤ length (list_of Part.Records (W.lists words.now)) }
    requires row { IsRow bytes.now (list_of Part.Records (W.lists words.now)) at end }
    ensures { (rs : List Record) → Shows (list_of Part.Records (W.lists words.now)) rs → (cs : List ℕ) →
        Joined bytes.now (wholes (row at end rs)) cs →
        IfSome result (λ text. are_plain (chars text.now) ≡ true → cs ≡ chars text.now) }
{
    if ends(words, at, end) {
        return None;
    }
    let parts = parts_at(words, at);
    if !is_text(parts) {
        return None;
    }
    if !ends(words, at + 1, end) {
        return None;
    }
    Some(text_of(bytes, parts))
}

/// The text of the record of an attribute's value.
fn value_text<'a, W: Words>(bytes: &'a [u8], words: &W, at: u32) -> &'a str
    requires within { at < length (list_of Part.Records (W.lists words.now)) }
    requires record { IsRecord bytes.now (list_of Part.Records (W.lists words.now)) Rule.Value at }
    ensures { (rs : List Record) → Shows (list_of Part.Records (W.lists words.now)) rs → (cs : List ℕ) →
        IsResolved bytes.now Rule.Value (record_at at rs) cs → are_plain (chars result.now) ≡ true →
        cs ≡ chars result.now }
{
    text_of(bytes, parts_at(words, at))
}

/// The text of the only record of a text node, of a text or a CDATA section; `None` where its run has several.
#[inline(always)]
fn run_text<'a, W: Words>(table: &Table<'a, W>, node: Node) -> Option<&'a str>
    requires node { IsNodeOf table.now.bytes (W.lists table.now.words) node }
    requires text { node.kind ≡ Kind.Text }
    ensures { ForEachEntry table.now.bytes (W.lists table.now.words) node (λ nest e.
        IfSome result (λ text. are_plain (chars text.now) ≡ true → content e.what ≡ chars text.now)) }
{
    let past = table.run_end(node);
    if past != table.after_first(node) {
        return None;
    }
    let parts = parts_at(table.words(), node.at);
    if !is_text(parts) {
        return None;
    }
    Some(text_of(table.bytes(), parts))
}

/// The text that the string-value of an attribute is written in, and that of an element that has one record alone
/// inside, of a text or a CDATA section; `None` for other nodes.
#[inline(never)]
fn inner_text<'a, W: Words>(table: &Table<'a, W>, node: Node) -> Option<&'a str>
    requires { IsNodeOf table.now.bytes (W.lists table.now.words) node }
    ensures plain { ForEachEntry table.now.bytes (W.lists table.now.words) node (λ nest e.
        IfSome result (λ text. are_plain (chars text.now) ≡ true → content e.what ≡ chars text.now)) }
    ensures attribute { node.kind ≡ Kind.Attribute → IsSome result }
{
    let bytes = table.bytes();
    let words = table.words();
    match node.kind {
        Kind::Element => {
            let past = words.len(Part::Records);
            let least = table.level_at(node) + 1;
            only_text(
                bytes,
                words,
                table.after_first(node),
                RowEnd { past, least },
            )
        }
        Kind::Attribute => Some(value_text(bytes, words, after(words, node.at))),
        Kind::Root | Kind::Text | Kind::Comment | Kind::Instruction => None,
    }
}

/// The text that the string-value of an attribute is written in, and that of a text or an element that has one record
/// alone, of a text or a CDATA section; `None` for other nodes. Where it has no tab, no line feed, no carriage return
/// and no ampersand, it is the node's string-value (XPath 1.0, section 5). It reads at most four records, and of a text
/// those of its run.
#[inline(always)]
pub fn as_written<'a, W: Words>(table: &Table<'a, W>, node: Node) -> Option<&'a str>
    requires { IsNodeOf table.now.bytes (W.lists table.now.words) node }
    ensures plain { ForEachEntry table.now.bytes (W.lists table.now.words) node (λ nest e.
        IfSome result (λ text. are_plain (chars text.now) ≡ true → content e.what ≡ chars text.now)) }
    ensures attribute { node.kind ≡ Kind.Attribute → IsSome result }
{
    match node.kind {
        Kind::Text => run_text(table, node),
        _ => inner_text(table, node),
    }
}
