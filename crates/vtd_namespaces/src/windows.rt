//! The nearest declarations of the prefixes of many names: of a window of them at a time (Namespaces in XML 1.0,
//! section 6.1).
//!
//! The prefixes that each open tag declares are put into rounds, which are sorted, and those of the window are sought
//! in each round by halves: a prefix costs at most 13 comparisons a round. So k names in r rounds of declarations cost
//! at most 13 * k * r comparisons besides the sorts, of which there is one for each round and each window.

ghost use Rattle.std.specs.Prelude.{◌≡◌, ℕ, ◌+◌, ◌*◌, ◌<◌, ◌≤◌, ◌^◌, ◌⊎◌, ◌++◌, true, List, length, codes};
ghost use Rattle.std.specs.Prelude.{encode_utf8_all, IsSome, IfSome, None};
ghost use Rattle.std.specs.List.{slice_index_or};
ghost use Rattle.std.specs.List.Sorted.{IsSorted};
ghost use Rattle.xml_model.specs.Items.{Attribute, Tag, first_place};
ghost use Rattle.xml_model.specs.Nest.{Forest};
ghost use Rattle.xml_model.specs.Records.{Record, records};
ghost use Rattle.xml_model.specs.Scan.{record_at};
ghost use Rattle.xml_model.specs.Tree.{Holder};
ghost use Rattle.vtd_words.specs.Lists.{list_of};
ghost use Rattle.vtd_words.specs.Packed.{record_of};
ghost use Rattle.vtd_words.specs.Table.{IsNestOf, Shows, nodes_of};
ghost use Rattle.vtd_text.specs.NameRecords.{is_attribute_name, IsDeclaration};
ghost use Rattle.vtd_namespaces.specs.NameRecords.{AreAttributeRecords, IsNameRecord};
ghost use Rattle.vtd_namespaces.specs.Offences.{AreDeclarations, NearestOf};
ghost use Rattle.vtd_namespaces.specs.Reach.{IsScope};
ghost use Rattle.vtd_namespaces.specs.Repeats.{HasNoAttribute};
ghost use Rattle.vtd_namespaces.specs.Rounds.{numbered_cmp, IsNamed};
ghost use Rattle.vtd_namespaces.specs.Scope.{Chain, Opened, IsDeclarationIn, IsNearest};
ghost use Rattle.vtd_namespaces.specs.Undeclared.{NoneDeclared};
ghost use Rattle.vtd_namespaces.specs.Windows.{AreFound, ArePrefixes, Declares, HasPrefix, IsLeastIn, IsWindow};
ghost use Rattle.vtd_namespaces.specs.Windows.{KeepsFound, KeepsOrDeclares, KeepsOrFinds, PutsOrSkips};

use crate::many_names::{Numbered, first_named};
use crate::open_tags::OpenTags;
use crate::records::{attribute_at, prefix as first_bytes, slice_of};
use crate::scope::Scope;
use vtd_words::{Part, Parts, Words, parts_at};
use xml_model::TokenKind;

/// How many prefixes a round has: 48 KiB of stack.
const ROUND: usize = 2_048;

/// How many names a window has: 64 KiB of stack.
const WINDOW: usize = 8_192;

/// What a name begins with that declares a prefix.
const DECLARING: &[u8] = b"xmlns:";

/// How far a round goes: how many prefixes it has, and the number of the name after those that it stands for.
#[derive(Clone, Copy)]
struct Gathered {
    count: usize,
    end: u32,
}

/// The prefix that a name declares: what follows `xmlns:`.
fn declared_by(name: &[u8]) -> Option<&[u8]>
    ensures some { IfSome result (λ p. name.now ≡ codes "xmlns:" ++ p.now) }
    ensures none { (prefix : List ℕ) → name.now ≡ codes "xmlns:" ++ prefix → IsSome result }
{
    if name.len() < DECLARING.len() {
        return None;
    }
    let (mark, rest) = name.split_at(DECLARING.len());
    if mark == DECLARING { Some(rest) } else { None }
}

/// Puts the prefix that a name declares into a round after so many, with the index of the name's record, where it
/// declares one; how many the round has then.
fn put_prefix<'b>(
    bytes: &'b [u8],
    parts: Parts,
    at: u32,
    round: &mut [Numbered<'b>],
    count: usize,
) -> usize
    requires { count < length round.old }
    ensures put { PutsOrSkips bytes.now (record_of parts) at count result round.old round.new }
    ensures len { length round.new ≡ length round.old }
    ensures within { result ≤ length round.old }
    ensures more { count ≤ result }
{
    if parts.token != TokenKind::NamespaceName as u8 {
        return count;
    }
    match declared_by(slice_of(bytes, parts)) {
        Some(prefix) => {
            round[count] = (prefix, at);
            count + 1
        }
        None => count,
    }
}

/// Puts the prefixes that a tag declares into a round, by its names from the one with a number on, as far as the round
/// has room.
fn gather_prefixes<'b, W: Words>(
    bytes: &'b [u8],
    words: &W,
    first: u32,
    start: u32,
    round: &mut [Numbered<'b>],
) -> Gathered
    requires room { first + 2 * start ≤ length (list_of Part.Records (W.lists words.now)) }
    requires bound { first + 2 * start < 2 ^ 32 }
    ensures len { length round.new ≡ length round.old }
    ensures within { result.count ≤ length round.old }
    ensures more { start ≤ result.end }
    ensures on { result.count ≡ length round.old → 0 < result.count → start < result.end }
    ensures room { first + 2 * result.end ≤ length (list_of Part.Records (W.lists words.now)) }
    ensures bound { first + 2 * result.end < 2 ^ 32 }
    ensures prefixes { (rs : List Record) → Shows (list_of Part.Records (W.lists words.now)) rs →
        ArePrefixes bytes.now rs first start result.end result.count round.new }
    ensures kind { (rs : List Record) → Shows (list_of Part.Records (W.lists words.now)) rs → (n : ℕ) →
        start ≤ n → n < result.end → is_attribute_name (record_at (first + 2 * n) rs).token ≡ true }
    ensures end { (rs : List Record) → Shows (list_of Part.Records (W.lists words.now)) rs →
        result.count < length round.old → HasNoAttribute rs (first + 2 * result.end) }
{
    let mut count = 0;
    let mut end = start;
    while count < round.len() {
        let Some(parts) = attribute_at(words, first + 2 * end) else {
            return Gathered { count, end };
        };
        count = put_prefix(bytes, parts, first + 2 * end, round, count);
        end += 1;
    }
    Gathered { count, end }
}

/// What is found for a name's prefix: what was found before, or else the least index that the prefix has in a sorted
/// round.
fn found_in<'b>(
    bytes: &'b [u8],
    round: &[Numbered<'b>],
    parts: Parts,
    earlier: Option<u32>,
) -> Option<u32>
    requires { IsSorted numbered_cmp round.now }
    ensures found { (p : List ℕ) → HasPrefix bytes.now (record_of parts) p →
        KeepsOrFinds round.now (encode_utf8_all p) earlier result }
    ensures there { IfSome result (λ n. (earlier ≡ result) ⊎ ((prefix : List ℕ) × IsNamed round.now prefix n)) }
    ensures kept { IfSome earlier (λ n. result ≡ earlier) }
{
    if earlier.is_some() || parts.token == TokenKind::NamespaceName as u8 || parts.prefix == 0 {
        return earlier;
    }
    first_named(round, first_bytes(slice_of(bytes, parts), parts.prefix))
}

/// Seeks the prefixes of names in a round, which it sorts: for each of which nothing was found before, the least index
/// that it has there. The first name's record has an index.
fn seek<'b, W: Words>(
    bytes: &'b [u8],
    words: &W,
    at: u32,
    round: &mut [Numbered<'b>],
    found: &mut [Option<u32>],
)
    requires room { at + 2 * length found.old ≤ length (list_of Part.Records (W.lists words.now)) }
    requires bound { at + 2 * length found.old < 2 ^ 32 }
    ensures round_len { length round.new ≡ length round.old }
    ensures len { length found.new ≡ length found.old }
    ensures found { (rs : List Record) → Shows (list_of Part.Records (W.lists words.now)) rs → (k : ℕ) (p : List ℕ) →
        k < length found.old → HasPrefix bytes.now (record_at (at + 2 * k) rs) p →
        KeepsOrFinds round.old (encode_utf8_all p) (slice_index_or found.old k None) (slice_index_or found.new k None) }
    ensures there { (m : ℕ) → IfSome (slice_index_or found.new m None) (λ n.
        (slice_index_or found.old m None ≡ slice_index_or found.new m None) ⊎
        ((prefix : List ℕ) × IsNamed round.old prefix n)) }
    ensures kept { KeepsFound found.old found.new }
{
    round.sort_unstable();
    for number in 0..found.len() {
        let parts = parts_at(words, at + 2 * number as u32);
        found[number] = found_in(bytes, round, parts, found[number]);
    }
}

/// Seeks the prefixes of names among those that a tag declares, by the tag's record: for each of which nothing
/// was found before, its declaration. The first name's record has an index, and no record from `end` on is of a
/// declaration's name.
fn seek_in_tag<'b, W: Words>(
    bytes: &'b [u8],
    words: &W,
    tag: u32,
    end: u32,
    at: u32,
    round: &mut [Numbered<'b>],
    found: &mut [Option<u32>],
)
    requires tag { tag < length (list_of Part.Records (W.lists words.now)) }
    requires few { length (list_of Part.Records (W.lists words.now)) < 2 ^ 32 }
    requires undeclared { NoneDeclared (list_of Part.Records (W.lists words.now)) end }
    requires some { 0 < length round.old }
    requires room { at + 2 * length found.old ≤ length (list_of Part.Records (W.lists words.now)) }
    requires bound { at + 2 * length found.old < 2 ^ 32 }
    requires known { AreFound (list_of Part.Records (W.lists words.now)) found.old }
    ensures round_len { length round.new ≡ length round.old }
    ensures len { length found.new ≡ length found.old }
    ensures known { AreFound (list_of Part.Records (W.lists words.now)) found.new }
    ensures kept { KeepsFound found.old found.new }
    ensures found { (rs : List Record) → Shows (list_of Part.Records (W.lists words.now)) rs → (place : ℕ) (t : Tag) →
        AreAttributeRecords bytes.now rs (tag + 1) place t.attributes → (k : ℕ) (p : List ℕ) → k < length found.old →
        HasPrefix bytes.now (record_at (at + 2 * k) rs) p →
        KeepsOrDeclares (tag + 1) t p (slice_index_or found.old k None) (slice_index_or found.new k None) }
{
    if tag >= end {
        return;
    }
    let mut start = 0;
    loop {
        let gathered = gather_prefixes(bytes, words, tag + 1, start, round);
        seek(bytes, words, at, &mut round[..gathered.count], found);
        if gathered.count < round.len() {
            return;
        }
        start = gathered.end;
    }
}

/// Seeks the nearest declarations of the prefixes of names in the first so many open tags, the innermost first.
/// The first name's record has an index, nothing was found before, and no record from `end` on is of a declaration's
/// name.
fn seek_in_tags<W: Words>(
    bytes: &[u8],
    words: &W,
    open_tags: &OpenTags,
    levels: usize,
    end: u32,
    at: u32,
    found: &mut [Option<u32>],
)
    requires few { length bytes.now < 2 ^ 30 }
    requires many { length (list_of Part.Records (W.lists words.now)) < 2 ^ 32 }
    requires levels { levels ≤ 256 }
    requires tags { (k : ℕ) → slice_index_or open_tags.now k 0 < length (list_of Part.Records (W.lists words.now)) }
    requires undeclared { NoneDeclared (list_of Part.Records (W.lists words.now)) end }
    requires room { at + 2 * length found.old ≤ length (list_of Part.Records (W.lists words.now)) }
    requires bound { at + 2 * length found.old < 2 ^ 32 }
    requires none { (k : ℕ) → slice_index_or found.old k None ≡ None }
    ensures len { length found.new ≡ length found.old }
    ensures known { AreFound (list_of Part.Records (W.lists words.now)) found.new }
    ensures found { (nest : Forest) → IsNestOf bytes.now (W.lists words.now) nest →
        (hs : List Holder) → Chain (nodes_of bytes.now nest) hs → Opened open_tags.now hs → length hs ≡ levels →
        (k : ℕ) (p : List ℕ) → k < length found.old →
        HasPrefix bytes.now (record_at (at + 2 * k) (records nest (first_place bytes.now))) p →
        IsNearest (nodes_of bytes.now nest) hs p (slice_index_or found.new k None) }
{
    let mut round: [Numbered<'_>; ROUND] = [(bytes, 0); ROUND];
    for level in (0..levels).rev() {
        let tag = open_tags.tag_at(level as u8);
        seek_in_tag(bytes, words, tag, end, at, &mut round, found);
    }
}

/// How many names of attributes and declarations follow from an index on, up to a number.
fn names_from<W: Words>(words: &W, at: u32, most: usize) -> usize
    requires room { at ≤ length (list_of Part.Records (W.lists words.now)) }
    ensures within { result ≤ most }
    ensures room { at + 2 * result ≤ length (list_of Part.Records (W.lists words.now)) }
    ensures bound { at + 2 * result < 2 ^ 32 }
{
    let mut count = 0;
    while count < most && attribute_at(words, at + 2 * count as u32).is_some() {
        count += 1;
    }
    count
}

/// What is known of the names of a tag from one with a number to another: the record of the nearest declaration of the
/// prefix of each.
#[derive(Drop)]
pub struct Window {
    pub start: u32,
    pub end: u32,
    pub found: [Option<u32>; WINDOW],
}

/// A window of no names.
pub fn empty_window() -> Window
    ensures start { result.start ≡ 0 }
    ensures end { result.end ≡ 0 }
    ensures none { (k : ℕ) → slice_index_or result.found k None ≡ None }
{
    Window {
        start: 0,
        end: 0,
        found: [None; WINDOW],
    }
}

/// Seeks the nearest declarations of the prefixes of the nearest tag's names from an index on, as many as there are and
/// there is room for; how many these are. The first one is there, and nothing was found before.
fn fill<W: Words>(scope: &Scope<'_, '_, W>, at: u32, found: &mut [Option<u32>]) -> usize
    requires room { at + 2 ≤ length (list_of Part.Records (W.lists scope.now.table.now.words)) }
    requires bound { at + 2 < 2 ^ 32 }
    requires some { 0 < length found.old }
    requires none { (k : ℕ) → slice_index_or found.old k None ≡ None }
    ensures len { length found.new ≡ length found.old }
    ensures some { 0 < result }
    ensures within { result ≤ length found.old }
    ensures bound { at + 2 * result < 2 ^ 32 }
    ensures declarations { AreDeclarations scope.now.table.now.bytes (W.lists scope.now.table.now.words) found.new }
    ensures nearest { (nest : Forest) (hs : List Holder) → IsScope scope.now.table.now.bytes
        (W.lists scope.now.table.now.words) scope.now.open_tags.now scope.now.depth nest hs →
        (k : ℕ) (p : List ℕ) → k < result → HasPrefix scope.now.table.now.bytes
        (record_at (at + 2 * k) (records nest (first_place scope.now.table.now.bytes))) p →
        IsNearest (nodes_of scope.now.table.now.bytes nest) hs p (slice_index_or found.new k None) }
{
    let words = scope.table.words();
    let count = names_from(words, at + 2, found.len() - 1) + 1;
    seek_in_tags(
        scope.table.bytes(),
        words,
        scope.open_tags,
        scope.depth as usize + 1,
        scope.end,
        at,
        &mut found[..count],
    );
    count
}

/// Moves a window on to the name of the nearest tag with a number, and those after it, where it does not reach as far;
/// the record of the tag's first name has the index `first`.
fn reach<W: Words>(scope: &Scope<'_, '_, W>, window: &mut Window, first: u32, number: u32)
    requires room { first + 2 * number + 2 ≤ length (list_of Part.Records (W.lists scope.now.table.now.words)) }
    requires bound { first + 2 * number + 2 < 2 ^ 32 }
    requires start { window.old.start ≤ number }
    requires filled { IsWindow scope.now.table.now.bytes (W.lists scope.now.table.now.words) scope.now.open_tags.now
        scope.now.depth first window.old.start window.old.end window.old.found }
    ensures start { window.new.start ≤ number }
    ensures end { number < window.new.end }
    ensures filled { IsWindow scope.now.table.now.bytes (W.lists scope.now.table.now.words) scope.now.open_tags.now
        scope.now.depth first window.new.start window.new.end window.new.found }
{
    if number < window.end {
        return;
    }
    window.found = [None; WINDOW];
    let count = fill(scope, first + 2 * number, &mut window.found);
    window.start = number;
    window.end = number + count as u32;
}

/// The record of the nearest declaration of the prefix of the nearest tag's name with a number, out of a window, which
/// is moved on where it does not reach as far; the parts are those of the name's record, and the record of the tag's
/// first name has the index `first`.
pub fn declaration_in_window<W: Words>(
    scope: &Scope<'_, '_, W>,
    window: &mut Window,
    first: u32,
    number: u32,
    parts: Parts,
) -> Option<u32>
    requires room { first + 2 * number + 2 ≤ length (list_of Part.Records (W.lists scope.now.table.now.words)) }
    requires bound { first + 2 * number + 2 < 2 ^ 32 }
    requires here { (rs : List Record) → Shows (list_of Part.Records (W.lists scope.now.table.now.words)) rs →
        record_of parts ≡ record_at (first + 2 * number) rs }
    requires start { window.old.start ≤ number }
    requires filled { IsWindow scope.now.table.now.bytes (W.lists scope.now.table.now.words) scope.now.open_tags.now
        scope.now.depth first window.old.start window.old.end window.old.found }
    ensures start { window.new.start ≤ number }
    ensures filled { IsWindow scope.now.table.now.bytes (W.lists scope.now.table.now.words) scope.now.open_tags.now
        scope.now.depth first window.new.start window.new.end window.new.found }
    ensures found { (nest : Forest) (hs : List Holder) → IsScope scope.now.table.now.bytes
        (W.lists scope.now.table.now.words) scope.now.open_tags.now scope.now.depth nest hs →
        (a : Attribute) → IsNameRecord scope.now.table.now.bytes (record_of parts) a.name →
        NearestOf scope.now.table.now.bytes nest hs (record_of parts) a result }
    ensures declares { IfSome result (IsDeclaration scope.now.table.now.bytes (W.lists scope.now.table.now.words)) }
{
    reach(scope, window, first, number);
    window.found[(number - window.start) as usize]
}
