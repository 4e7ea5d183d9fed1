//! What was found out of tags with many declarations: so none is sought twice.

ghost use Rattle.std.specs.Prelude.{◌≡◌, ℕ, ◌+◌, ◌<◌, ◌≤◌, ◌^◌, true, List, length, take, drop, encode_utf8_all};
ghost use Rattle.std.specs.Prelude.{IfSome, slice_set};
ghost use Rattle.std.specs.List.{slice_index_or};
ghost use Rattle.xml_model.specs.Items.{Tag};
ghost use Rattle.xml_model.specs.Nest.{Forest};
ghost use Rattle.xml_model.specs.Records.{Record, kind_number};
ghost use Rattle.xml_model.specs.Scan.{record_at};
ghost use Rattle.xml_model.specs.Tree.{Holder};
ghost use Rattle.xml_model.specs.declared.TokenKind.TheVariants as token;
ghost use Rattle.vtd_words.specs.Lists.{list_of};
ghost use Rattle.vtd_words.specs.Table.{IsNestOf, Shows, nodes_of};
ghost use Rattle.vtd_namespaces.specs.NameRecords.{AreAttributeRecords};
ghost use Rattle.vtd_namespaces.specs.Reach.{some_of, IsMemo};
ghost use Rattle.vtd_namespaces.specs.Scope.{Chain, Opened, IsDeclarationIn, IsNearest};
ghost use Rattle.vtd_namespaces.specs.Undeclared.{NoneDeclared};

use crate::declarations::declaration_in;
use crate::open_tags::OpenTags;
use crate::records::{after, prefix as first_bytes};
use vtd_text::mix_bytes;
use vtd_words::{Part, Words};

/// A prefix that is sought, with where it may be in the document, too: its offset and its length.
#[derive(Clone, Copy)]
pub struct Prefix<'p> {
    pub text: &'p [u8],
    pub offset: u32,
    pub len: u32,
}

/// How many places a memo has.
const PLACES: usize = 8_192;

/// How many places are looked at for one tag and prefix.
const STEPS: usize = 4;

/// For tags and prefixes, the record of the name of the tag's declaration of the prefix. A place is free where the tag
/// is 0; the prefix is there by its place in the document; the declaration is 0 where the tag has none.
#[derive(Drop)]
pub struct Memo {
    pub tags: [u32; PLACES],
    pub offsets: [u32; PLACES],
    pub lens: [u32; PLACES],
    pub declarations: [u32; PLACES],
}

/// A memo of which all places are free.
pub fn empty_memo() -> Memo
    ensures { (k : ℕ) → slice_index_or result.tags k 0 ≡ 0 }
{
    Memo {
        tags: [0; PLACES],
        offsets: [0; PLACES],
        lens: [0; PLACES],
        declarations: [0; PLACES],
    }
}

/// The first bytes at a place of the document, as many as there are up to a number.
fn bytes_at(bytes: &[u8], offset: u32, len: u32) -> &[u8]
    ensures { result.now ≡ take len (drop offset bytes.now) }
{
    first_bytes(after(bytes, offset), len)
}

/// Whether a place of a memo is for a tag and a prefix.
fn is_for(bytes: &[u8], memo: &Memo, place: usize, tag: u32, prefix: &[u8]) -> bool
    requires { place < 8192 }
    ensures some { result ≡ true → 0 < tag }
    ensures tag { result ≡ true → slice_index_or memo.now.tags place 0 ≡ tag }
    ensures prefix { result ≡ true →
        take (slice_index_or memo.now.lens place 0) (drop (slice_index_or memo.now.offsets place 0) bytes.now) ≡
        prefix.now }
{
    if tag == 0 {
        return false;
    }
    if memo.tags[place] != tag {
        return false;
    }
    bytes_at(bytes, memo.offsets[place], memo.lens[place]) == prefix
}

/// The place of a memo that is for a tag and a prefix; else a free one among the first few, or the first of these.
fn place_for(bytes: &[u8], memo: &Memo, tag: u32, prefix: &[u8]) -> usize
    ensures { result < 8192 }
{
    let first = (mix_bytes(tag as u64, prefix) % PLACES as u64) as usize;
    for step in 0..STEPS {
        let place = (first + step) % PLACES;
        if memo.tags[place] == 0 || is_for(bytes, memo, place, tag, prefix) {
            return place;
        }
    }
    first
}

/// The index of a name's record, or none where it is 0.
pub fn option_of(index: u32) -> Option<u32>
    ensures { result ≡ some_of index }
{
    if index == 0 { None } else { Some(index) }
}

/// Writes a place of a memo.
fn note(memo: &mut Memo, place: usize, tag: u32, offset: u32, len: u32, declaration: u32)
    requires { place < 8192 }
    ensures tags { memo.new.tags ≡ slice_set memo.old.tags place tag }
    ensures offsets { memo.new.offsets ≡ slice_set memo.old.offsets place offset }
    ensures lens { memo.new.lens ≡ slice_set memo.old.lens place len }
    ensures declarations { memo.new.declarations ≡ slice_set memo.old.declarations place declaration }
    ensures many { length memo.old.tags ≡ 8192 }
    ensures many_offsets { length memo.old.offsets ≡ 8192 }
    ensures many_lens { length memo.old.lens ≡ 8192 }
    ensures many_declarations { length memo.old.declarations ≡ 8192 }
{
    memo.tags[place] = tag;
    memo.offsets[place] = offset;
    memo.lens[place] = len;
    memo.declarations[place] = declaration;
}

/// The record of the name of a tag's declaration of a prefix, or `None` where the tag has none, by the tag's record:
/// out of a memo, or by a look along the tag's names, which is noted. The prefix has its length and its place in the
/// document beside it. No record from `end` on is of a declaration's name.
fn known_declaration<W: Words>(
    bytes: &[u8],
    words: &W,
    memo: &mut Memo,
    tag: u32,
    end: u32,
    prefix: &Prefix<'_>,
) -> Option<u32>
    requires room { tag < length (list_of Part.Records (W.lists words.now)) }
    requires bound { length (list_of Part.Records (W.lists words.now)) < 2 ^ 32 }
    requires undeclared { NoneDeclared (list_of Part.Records (W.lists words.now)) end }
    requires known { IsMemo bytes.now (list_of Part.Records (W.lists words.now)) memo.old.tags memo.old.offsets
        memo.old.lens memo.old.declarations }
    ensures known { IsMemo bytes.now (list_of Part.Records (W.lists words.now)) memo.new.tags memo.new.offsets
        memo.new.lens memo.new.declarations }
    ensures found { (rs : List Record) → Shows (list_of Part.Records (W.lists words.now)) rs → (at : ℕ) (t : Tag) →
        AreAttributeRecords bytes.now rs (tag + 1) at t.attributes →
        (p : List ℕ) → prefix.now.text.now ≡ encode_utf8_all p → IsDeclarationIn (tag + 1) t p result }
    ensures declares { (rs : List Record) → Shows (list_of Part.Records (W.lists words.now)) rs →
        IfSome result (λ n. (record_at n rs).token ≡ kind_number token.NamespaceName) }
{
    if tag >= end {
        return None;
    }
    let place = place_for(bytes, memo, tag, prefix.text);
    if is_for(bytes, memo, place, tag, prefix.text) {
        return option_of(memo.declarations[place]);
    }
    let found = declaration_in(bytes, words, tag + 1, prefix.text);
    if bytes_at(bytes, prefix.offset, prefix.len) == prefix.text {
        note(
            memo,
            place,
            tag,
            prefix.offset,
            prefix.len,
            found.unwrap_or(0),
        );
    }
    found
}

/// The record of the name of the nearest declaration of a prefix in the first so many open tags, or `None` where they
/// have none, with a memo of what tags declare. No record from `end` on is of a declaration's name.
pub fn nearest_known<W: Words>(
    bytes: &[u8],
    words: &W,
    memo: &mut Memo,
    open_tags: &OpenTags,
    count: usize,
    end: u32,
    prefix: &Prefix<'_>,
) -> Option<u32>
    requires few { length bytes.now < 2 ^ 30 }
    requires bound { length (list_of Part.Records (W.lists words.now)) < 2 ^ 32 }
    requires count { count ≤ 256 }
    requires tags { (k : ℕ) → slice_index_or open_tags.now k 0 < length (list_of Part.Records (W.lists words.now)) }
    requires undeclared { NoneDeclared (list_of Part.Records (W.lists words.now)) end }
    requires known { IsMemo bytes.now (list_of Part.Records (W.lists words.now)) memo.old.tags memo.old.offsets
        memo.old.lens memo.old.declarations }
    ensures known { IsMemo bytes.now (list_of Part.Records (W.lists words.now)) memo.new.tags memo.new.offsets
        memo.new.lens memo.new.declarations }
    ensures found { (nest : Forest) → IsNestOf bytes.now (W.lists words.now) nest →
        (hs : List Holder) → Chain (nodes_of bytes.now nest) hs → Opened open_tags.now hs → length hs ≡ count →
        (p : List ℕ) → prefix.now.text.now ≡ encode_utf8_all p → IsNearest (nodes_of bytes.now nest) hs p result }
    ensures declares { (rs : List Record) → Shows (list_of Part.Records (W.lists words.now)) rs →
        IfSome result (λ n. (record_at n rs).token ≡ kind_number token.NamespaceName) }
{
    for level in (0..count).rev() {
        let tag = open_tags.tag_at(level as u8);
        let found = known_declaration(bytes, words, memo, tag, end, prefix);
        if found.is_some() {
            return found;
        }
    }
    None
}
