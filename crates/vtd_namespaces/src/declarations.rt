//! Declarations of namespaces (Namespaces in XML 1.0, sections 3 and 6): the nearest one of a prefix.

ghost use Rattle.std.specs.Prelude.{◌≡◌, ℕ, ◌+◌, ◌≤◌, ◌<◌, ◌^◌, List, length, bytes_eq, encode_utf8_all, IfSome};
ghost use Rattle.std.specs.List.{slice_index_or};
ghost use Rattle.xml_model.specs.Items.{Tag};
ghost use Rattle.xml_model.specs.Nest.{Forest};
ghost use Rattle.xml_model.specs.Records.{Record, kind_number};
ghost use Rattle.xml_model.specs.declared.TokenKind.TheVariants as token;
ghost use Rattle.xml_model.specs.Scan.{record_at};
ghost use Rattle.xml_model.specs.Tree.{Holder};
ghost use Rattle.xml_model.specs.Names.{declaring};
ghost use Rattle.vtd_words.specs.Lists.{list_of};
ghost use Rattle.vtd_words.specs.Table.{IsNestOf, Shows, nodes_of};
ghost use Rattle.vtd_namespaces.specs.NameRecords.{AreAttributeRecords};
ghost use Rattle.vtd_namespaces.specs.Scope.{Chain, Opened, IsDeclarationIn, IsNearest};
ghost use Rattle.vtd_namespaces.specs.Undeclared.{NoneDeclared};

use crate::open_tags::OpenTags;
use crate::records::{attribute_at, slice_of};
use vtd_words::{Part, Words, parts_at};
use xml_model::TokenKind;

/// The name that declares the default namespace.
const DEFAULT: &[u8] = b"xmlns";

/// What a name begins with that declares a prefix.
const DECLARING: &[u8] = b"xmlns:";

/// Whether a name is the one that declares a prefix; the empty prefix stands for the default namespace.
fn is_declaring(name: &[u8], prefix: &[u8]) -> bool
    ensures { (cs p : List ℕ) → name.now ≡ encode_utf8_all cs → prefix.now ≡ encode_utf8_all p →
        result ≡ bytes_eq cs (declaring p) }
{
    if prefix.is_empty() {
        return name == DEFAULT;
    }
    if name.len() != DECLARING.len() + prefix.len() {
        return false;
    }
    let (mark, rest) = name.split_at(DECLARING.len());
    rest == prefix && mark == DECLARING
}

/// The record of the name of a tag's declaration of a prefix, or `None` where the tag has none; the records of the
/// tag's attributes begin at `first`.
pub fn declaration_in<W: Words>(bytes: &[u8], words: &W, first: u32, prefix: &[u8]) -> Option<u32>
    requires { first ≤ length (list_of Part.Records (W.lists words.now)) }
    ensures found { (rs : List Record) → Shows (list_of Part.Records (W.lists words.now)) rs → (at : ℕ) (t : Tag) →
        AreAttributeRecords bytes.now rs first at t.attributes →
        (p : List ℕ) → prefix.now ≡ encode_utf8_all p → IsDeclarationIn first t p result }
    ensures declares { (rs : List Record) → Shows (list_of Part.Records (W.lists words.now)) rs →
        IfSome result (λ n. (record_at n rs).token ≡ kind_number token.NamespaceName) }
    ensures later { IfSome result (λ n. first ≤ n) }
{
    let mut number = 0;
    while let Some(parts) = attribute_at(words, first + 2 * number) {
        if parts.token == TokenKind::NamespaceName as u8
            && is_declaring(slice_of(bytes, parts), prefix)
        {
            return Some(first + 2 * number);
        }
        number += 1;
    }
    None
}

/// The index after the last record of a declaration's name; 0 exactly where no record is one. It reads the records from
/// the last one back to that one.
pub fn declarations_end<W: Words>(words: &W) -> u32
    ensures after { NoneDeclared (list_of Part.Records (W.lists words.now)) result }
    ensures last { (rs : List Record) → Shows (list_of Part.Records (W.lists words.now)) rs →
        (j : ℕ) → result ≡ j + 1 → (record_at j rs).token ≡ kind_number token.NamespaceName }
{
    let records = words.len(Part::Records);
    for at in (0..records).rev() {
        if parts_at(words, at).token == TokenKind::NamespaceName as u8 {
            return at + 1;
        }
    }
    0
}

/// The record of the name of a tag's declaration of a prefix, or `None` where the tag has none, by the tag's record. No
/// record from `end` on is of a declaration's name. It reads the records of the tag's attributes up to the declaration,
/// and none where the tag is not before `end`.
fn declaration_of_tag<W: Words>(
    bytes: &[u8],
    words: &W,
    tag: u32,
    end: u32,
    prefix: &[u8],
) -> Option<u32>
    requires room { tag < length (list_of Part.Records (W.lists words.now)) }
    requires bound { length (list_of Part.Records (W.lists words.now)) < 2 ^ 32 }
    requires undeclared { NoneDeclared (list_of Part.Records (W.lists words.now)) end }
    ensures found { (rs : List Record) → Shows (list_of Part.Records (W.lists words.now)) rs → (at : ℕ) (t : Tag) →
        AreAttributeRecords bytes.now rs (tag + 1) at t.attributes →
        (p : List ℕ) → prefix.now ≡ encode_utf8_all p → IsDeclarationIn (tag + 1) t p result }
    ensures declares { (rs : List Record) → Shows (list_of Part.Records (W.lists words.now)) rs →
        IfSome result (λ n. (record_at n rs).token ≡ kind_number token.NamespaceName) }
{
    if tag >= end {
        return None;
    }
    declaration_in(bytes, words, tag + 1, prefix)
}

/// The record of the name of the nearest declaration of a prefix in the first so many open tags, or `None` where they
/// have none. No record from `end` on is of a declaration's name.
pub fn declaration_for<W: Words>(
    bytes: &[u8],
    words: &W,
    open_tags: &OpenTags,
    count: usize,
    end: u32,
    prefix: &[u8],
) -> Option<u32>
    requires few { length bytes.now < 2 ^ 30 }
    requires bound { length (list_of Part.Records (W.lists words.now)) < 2 ^ 32 }
    requires count { count ≤ 256 }
    requires tags { (k : ℕ) → slice_index_or open_tags.now k 0 < length (list_of Part.Records (W.lists words.now)) }
    requires undeclared { NoneDeclared (list_of Part.Records (W.lists words.now)) end }
    ensures found { (nest : Forest) → IsNestOf bytes.now (W.lists words.now) nest →
        (hs : List Holder) → Chain (nodes_of bytes.now nest) hs → Opened open_tags.now hs → length hs ≡ count →
        (p : List ℕ) → prefix.now ≡ encode_utf8_all p → IsNearest (nodes_of bytes.now nest) hs p result }
    ensures declares { (rs : List Record) → Shows (list_of Part.Records (W.lists words.now)) rs →
        IfSome result (λ n. (record_at n rs).token ≡ kind_number token.NamespaceName) }
{
    for level in (0..count).rev() {
        let tag = open_tags.tag_at(level as u8);
        let found = declaration_of_tag(bytes, words, tag, end, prefix);
        if found.is_some() {
            return found;
        }
    }
    None
}
