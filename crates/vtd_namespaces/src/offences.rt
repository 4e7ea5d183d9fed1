//! Names that offend Namespaces in XML 1.0 (sections 3, 5, 6.3 and 7).

ghost use Rattle.std.specs.Prelude.{◌≡◌, ℕ, ◌+◌, ◌*◌, ◌<◌, ◌≤◌, ◌^◌, true, false, List, [], ◌∷◌, ◌++◌, length, take};
ghost use Rattle.std.specs.Prelude.{is_some, encode_utf8_all, bytes_eq, codes, IfSome, None, slice_set};
ghost use Rattle.std.specs.List.{slice_index_or, AllByRecursion, list_any};
ghost use Rattle.std.specs.Option.{unwrap_or};
ghost use Rattle.xml_model.specs.Scan.{record_at};
ghost use Rattle.vtd_words.specs.Packed.{record_of};
ghost use Rattle.xml_model.specs.Items.{Attribute, first_place};
ghost use Rattle.xml_model.specs.Nest.{Forest};
ghost use Rattle.xml_model.specs.Content.{value_content};
ghost use Rattle.xml_model.specs.Chars.{prefix_of as prefix_of_chars};
ghost use Rattle.xml_model.specs.Records.{Record, attributes_place, records};
ghost use Rattle.xml_model.specs.Tree.{Holder};
ghost use Rattle.xml_model.specs.Names.{attribute_uri};
ghost use Rattle.xml_model.specs.Accepted.{attribute_offends as offends_as_attribute};
ghost use Rattle.xml_model.specs.Accepted.{declaration_offends as offends_by_declaration};
ghost use Rattle.xml_model.specs.Accepted.{is_reserved as is_reserved_uri, offending_attributes, offending_tag};
ghost use Rattle.xml_model.specs.Accepted.{repeated, tag_offends};
ghost use Rattle.vtd_words.specs.Lists.{list_of};
ghost use Rattle.vtd_words.specs.Table.{ForEachNest, Shows, nodes_of};
ghost use Rattle.vtd_text.specs.NameRecords.{IsDeclaration, IsNameOf};
ghost use Rattle.vtd_namespaces.specs.Memos.{IsMemoOf};
ghost use Rattle.vtd_namespaces.specs.NameRecords.{AreAttributeRecords, IsAttributeRecord, IsNameRecord, IsTagRecord};
ghost use Rattle.vtd_namespaces.specs.Faults.{first_of};
ghost use Rattle.vtd_namespaces.specs.Scope.{IsNearest, tags_in};
ghost use Rattle.vtd_namespaces.specs.Reach.{some_of, IsScope};
ghost use Rattle.vtd_namespaces.specs.Offences.{is_twin, seen_after, AreNearest, AreNotes};
ghost use Rattle.vtd_namespaces.specs.Offences.{IsFine, IsWritten, NearestFor, NearestOf};

use crate::memo::{Memo, Prefix, option_of};
use crate::qnames::{after_prefix, is_qname, prefix_of};
use crate::records::{attribute_at, slice_of};
use crate::scope::Scope;
use crate::sieve::note_attribute;
use crate::uri::{XML_URI, XMLNS_URI};
use crate::windows::{declaration_in_window, empty_window};
use vtd_text::{Chars, FingerprintFilter, equals_str};
use vtd_words::{Part, Parts, Table, Words, parts_at};
use xml_model::TokenKind;

/// Whether the value of a declaration is one of the two URIs that are bound to `xml` and `xmlns` for ever.
fn is_reserved<W: Words>(table: &Table<'_, W>, at: u32) -> bool
    requires { IsDeclaration table.now.bytes (W.lists table.now.words) at }
    ensures { ForEachNest table.now.bytes (W.lists table.now.words) (λ nest.
        (a : Attribute) → IsNameOf table.now.bytes nest at a → result ≡ is_reserved_uri (value_content a.value)) }
{
    equals_str(Chars::of_declaration(table, at), XML_URI)
        || equals_str(Chars::of_declaration(table, at), XMLNS_URI)
}

/// Whether a declaration offends, by its name and its value (Namespaces in XML 1.0, section 3, constraint 'Reserved
/// Prefixes and Namespace Names', and section 5, constraint 'No Prefix Undeclaring').
fn declaration_offends<W: Words>(table: &Table<'_, W>, at: u32, name: &[u8]) -> bool
    requires { IsDeclaration table.now.bytes (W.lists table.now.words) at }
    ensures { ForEachNest table.now.bytes (W.lists table.now.words) (λ nest.
        (a : Attribute) → IsNameOf table.now.bytes nest at a → name.now ≡ encode_utf8_all a.name →
        result ≡ offends_by_declaration a.name (value_content a.value)) }
{
    if name == DEFAULT {
        return is_reserved(table, at);
    }
    if name == DECLARES_XML {
        return !equals_str(Chars::of_declaration(table, at), XML_URI);
    }
    if name == DECLARES_XMLNS {
        return true;
    }
    if equals_str(Chars::of_declaration(table, at), "") {
        return true;
    }
    is_reserved(table, at)
}

/// The name that declares the default namespace.
const DEFAULT: &[u8] = b"xmlns";

/// The name that declares the prefix `xml`.
const DECLARES_XML: &[u8] = b"xmlns:xml";

/// The name that would declare the prefix `xmlns`.
const DECLARES_XMLNS: &[u8] = b"xmlns:xmlns";

/// The record of the nearest declaration of the prefix of the attribute with a number: what is noted for it, or found by
/// a look along the open tags where nothing is.
fn nearest_of<W: Words>(
    scope: &Scope<'_, '_, W>,
    noted: &[u32],
    number: u32,
    prefix: &[u8],
) -> Option<u32>
    requires { AreNotes scope.now.table.now.bytes (W.lists scope.now.table.now.words) noted.now }
    ensures found { (nest : Forest) (hs : List Holder) → IsScope scope.now.table.now.bytes
        (W.lists scope.now.table.now.words) scope.now.open_tags.now scope.now.depth nest hs →
        (p : List ℕ) → prefix.now ≡ encode_utf8_all p →
        (number < length noted.now →
        IsNearest (nodes_of scope.now.table.now.bytes nest) hs p (some_of (slice_index_or noted.now number 0))) →
        IsNearest (nodes_of scope.now.table.now.bytes nest) hs p result }
    ensures declares { IfSome result (IsDeclaration scope.now.table.now.bytes (W.lists scope.now.table.now.words)) }
{
    if (number as usize) < noted.len() {
        return option_of(noted[number as usize]);
    }
    scope.declaration(prefix)
}

/// Notes the declaration of the attribute with a number, where the notes go as far; 0 is for none.
fn note(noted: &mut [u32], number: u32, declaration: Option<u32>)
    ensures { noted.new ≡ slice_set noted.old number (unwrap_or declaration 0) }
{
    if (number as usize) < noted.len() {
        noted[number as usize] = declaration.unwrap_or(0);
    }
}

/// Whether the attribute with a number, whose name is a record, has the local part and the URI of another, whose prefix
/// is not empty and is bound by the declaration of a record (Namespaces in XML 1.0, section 6.3, constraint 'Attributes
/// Unique').
fn is_twin_at<W: Words>(
    scope: &Scope<'_, '_, W>,
    noted: &[u32],
    number: u32,
    at: u32,
    name: &[u8],
    prefix_len: u32,
    declaration: Option<u32>,
) -> bool
    requires noted { AreNotes scope.now.table.now.bytes (W.lists scope.now.table.now.words) noted.now }
    requires room { at < length (list_of Part.Records (W.lists scope.now.table.now.words)) }
    requires prefix { 0 < prefix_len }
    requires declaration { IfSome declaration
        (IsDeclaration scope.now.table.now.bytes (W.lists scope.now.table.now.words)) }
    ensures { (nest : Forest) (hs : List Holder) → IsScope scope.now.table.now.bytes (W.lists scope.now.table.now.words)
        scope.now.open_tags.now scope.now.depth nest hs →
        (a : Attribute) → IsWritten name.now prefix_len a →
        is_some (attribute_uri (prefix_of_chars a.name) (tags_in hs)) ≡ true →
        IsNearest (nodes_of scope.now.table.now.bytes nest) hs (prefix_of_chars a.name) declaration →
        (rs : List Record) → Shows (list_of Part.Records (W.lists scope.now.table.now.words)) rs →
        (place : ℕ) (b : Attribute) → IsAttributeRecord scope.now.table.now.bytes rs at place b →
        (number < length noted.now →
        NearestFor scope.now.table.now.bytes nest hs b (some_of (slice_index_or noted.now number 0))) →
        result ≡ is_twin (tags_in hs) a b }
{
    let other = parts_at(scope.table.words(), at);
    if other.token != TokenKind::AttributeName as u8 {
        return false;
    }
    if other.prefix == 0 {
        return false;
    }
    let other_name = slice_of(scope.table.bytes(), other);
    if after_prefix(other_name, other.prefix) == after_prefix(name, prefix_len) {
        let other_prefix = prefix_of(other_name, other.prefix);
        return scope.bound_alike(
            prefix_of(name, prefix_len),
            declaration,
            other_prefix,
            nearest_of(scope, noted, number, other_prefix),
        );
    }
    false
}

/// Whether one of so many attributes of the nearest tag has the local part and the URI of an attribute whose prefix is
/// not empty and is bound, by the record of its nearest declaration; the record of the first of them has the index
/// `first`.
fn has_twin<W: Words>(
    scope: &Scope<'_, '_, W>,
    noted: &[u32],
    first: u32,
    count: u32,
    name: &[u8],
    prefix_len: u32,
    declaration: Option<u32>,
) -> bool
    requires noted { AreNotes scope.now.table.now.bytes (W.lists scope.now.table.now.words) noted.now }
    requires room { first + 2 * count ≤ length (list_of Part.Records (W.lists scope.now.table.now.words)) }
    requires bound { first + 2 * count < 2 ^ 32 }
    requires prefix { 0 < prefix_len }
    requires declaration { IfSome declaration
        (IsDeclaration scope.now.table.now.bytes (W.lists scope.now.table.now.words)) }
    ensures { (nest : Forest) (x : Holder) (xs : List Holder) → IsScope scope.now.table.now.bytes
        (W.lists scope.now.table.now.words) scope.now.open_tags.now scope.now.depth nest (x ∷ xs) →
        first ≡ x.index + 1 → count ≤ length x.tag.attributes →
        AreNearest scope.now.table.now.bytes nest (x ∷ xs) x.tag.attributes count noted.now →
        (a : Attribute) → IsWritten name.now prefix_len a →
        is_some (attribute_uri (prefix_of_chars a.name) (tags_in (x ∷ xs))) ≡ true →
        IsNearest (nodes_of scope.now.table.now.bytes nest) (x ∷ xs) (prefix_of_chars a.name) declaration →
        result ≡ list_any (is_twin (tags_in (x ∷ xs)) a) (take count x.tag.attributes) }
{
    for number in 0..count {
        if is_twin_at(
            scope,
            noted,
            number,
            first + 2 * number,
            name,
            prefix_len,
            declaration,
        ) {
            return true;
        }
    }
    false
}

/// Whether an attribute or a declaration of the nearest tag offends, by the number of attributes before it, none of
/// which offends; the record of the first of them has the index `first`. No two of them have one name. Where it is
/// known to be new, none of them has its expanded name. The declaration is the nearest one of its prefix, where it is
/// an attribute that has one.
fn attribute_offends<W: Words>(
    scope: &Scope<'_, '_, W>,
    noted: &[u32],
    first: u32,
    number: u32,
    parts: Parts,
    is_new: bool,
    declaration: Option<u32>,
) -> bool
    requires noted { AreNotes scope.now.table.now.bytes (W.lists scope.now.table.now.words) noted.now }
    requires room { first + 2 * number < length (list_of Part.Records (W.lists scope.now.table.now.words)) }
    requires bound { first + 2 * number < 2 ^ 32 }
    requires here { (rs : List Record) → Shows (list_of Part.Records (W.lists scope.now.table.now.words)) rs →
        record_of parts ≡ record_at (first + 2 * number) rs }
    requires declaration { IfSome declaration
        (IsDeclaration scope.now.table.now.bytes (W.lists scope.now.table.now.words)) }
    ensures { (nest : Forest) (x : Holder) (xs : List Holder) → IsScope scope.now.table.now.bytes
        (W.lists scope.now.table.now.words) scope.now.open_tags.now scope.now.depth nest (x ∷ xs) →
        first ≡ x.index + 1 → (done left : List Attribute) (a : Attribute) → x.tag.attributes ≡ done ++ (a ∷ left) →
        length done ≡ number →
        AreNearest scope.now.table.now.bytes nest (x ∷ xs) x.tag.attributes number noted.now →
        AllByRecursion (IsFine (tags_in (x ∷ xs))) done → AllByRecursion (λ b. bytes_eq a.name b.name ≡ false) done →
        (is_new ≡ true → is_some (attribute_uri (prefix_of_chars a.name) (tags_in (x ∷ xs))) ≡ true →
        list_any (is_twin (tags_in (x ∷ xs)) a) done ≡ false) →
        NearestOf scope.now.table.now.bytes nest (x ∷ xs) (record_of parts) a declaration →
        result ≡ offends_as_attribute (tags_in (x ∷ xs)) (seen_after (tags_in (x ∷ xs)) [] done) a }
{
    let name = slice_of(scope.table.bytes(), parts);
    if !is_qname(name, parts.prefix) {
        return true;
    }
    if parts.token == TokenKind::NamespaceName as u8 {
        return declaration_offends(scope.table, first + 2 * number, name);
    }
    if parts.prefix == 0 {
        return false;
    }
    if !scope.is_bound(prefix_of(name, parts.prefix), declaration) {
        return true;
    }
    if is_new {
        return false;
    }
    has_twin(scope, noted, first, number, name, parts.prefix, declaration)
}

/// The record of the nearest declaration of an attribute's prefix, by the parts of its name's record; `None` for a
/// declaration and for a name without a prefix.
fn prefix_declaration<W: Words>(
    scope: &Scope<'_, '_, W>,
    memo: &mut Memo,
    parts: Parts,
) -> Option<u32>
    requires known { IsMemoOf scope.now.table.now.bytes (W.lists scope.now.table.now.words).records memo.old }
    ensures known { IsMemoOf scope.now.table.now.bytes (W.lists scope.now.table.now.words).records memo.new }
    ensures found { (nest : Forest) (hs : List Holder) → IsScope scope.now.table.now.bytes
        (W.lists scope.now.table.now.words) scope.now.open_tags.now scope.now.depth nest hs →
        (a : Attribute) → IsNameRecord scope.now.table.now.bytes (record_of parts) a.name →
        NearestOf scope.now.table.now.bytes nest hs (record_of parts) a result }
    ensures declares { IfSome result (IsDeclaration scope.now.table.now.bytes (W.lists scope.now.table.now.words)) }
{
    if parts.token == TokenKind::NamespaceName as u8 || parts.prefix == 0 {
        return None;
    }
    let sought = Prefix {
        text: prefix_of(slice_of(scope.table.bytes(), parts), parts.prefix),
        offset: parts.offset,
        len: parts.prefix,
    };
    scope.declaration_known(memo, &sought)
}

/// The number of attributes from which on a filter is worth its making.
const MANY: u32 = 64;

/// Of how many attributes the declarations are noted where they are few.
const FEW: usize = 64;

/// Of how many attributes the declarations are noted where they are many: 384 KiB of stack.
const NOTED: usize = 98_304;

/// Where the first name of an attribute or a declaration of the nearest tag begins that offends; no two of them have
/// one name, and the record of the first of them has the index `first`. Each is compared with those before it only
/// where a filter takes its expanded name for one of theirs.
fn attributes_offence_in_many<W: Words>(scope: &Scope<'_, '_, W>, first: u32) -> Option<u32>
    requires first { first ≤ length (list_of Part.Records (W.lists scope.now.table.now.words)) }
    ensures { (nest : Forest) (x : Holder) (xs : List Holder) → IsScope scope.now.table.now.bytes
        (W.lists scope.now.table.now.words) scope.now.open_tags.now scope.now.depth nest (x ∷ xs) →
        first ≡ x.index + 1 → (at : ℕ) → AreAttributeRecords scope.now.table.now.bytes
        (records nest (first_place scope.now.table.now.bytes)) first at x.tag.attributes →
        repeated at [] x.tag.attributes ≡ [] →
        result ≡ first_of (offending_attributes (tags_in (x ∷ xs)) at [] x.tag.attributes) }
{
    let mut filter = FingerprintFilter::new();
    let mut noted = [0; NOTED];
    let mut window = empty_window();
    let mut number = 0;
    while let Some(parts) = attribute_at(scope.table.words(), first + 2 * number) {
        let declaration = declaration_in_window(scope, &mut window, first, number, parts);
        let is_new = note_attribute(scope, &mut filter, parts, declaration);
        if attribute_offends(scope, &noted, first, number, parts, is_new, declaration) {
            return Some(parts.offset);
        }
        note(&mut noted, number, declaration);
        number += 1;
    }
    None
}

/// Where the first name of an attribute or a declaration of the nearest tag begins that offends; no two of them have
/// one name, and the record of the first of them has the index `first`. Each is compared with those before it; where
/// one with a prefix is not among the first few, only where a filter takes its expanded name for one of theirs.
fn attributes_offence<W: Words>(
    scope: &Scope<'_, '_, W>,
    memo: &mut Memo,
    first: u32,
) -> Option<u32>
    requires known { IsMemoOf scope.now.table.now.bytes (W.lists scope.now.table.now.words).records memo.old }
    requires first { first ≤ length (list_of Part.Records (W.lists scope.now.table.now.words)) }
    ensures known { IsMemoOf scope.now.table.now.bytes (W.lists scope.now.table.now.words).records memo.new }
    ensures offence { (nest : Forest) (x : Holder) (xs : List Holder) → IsScope scope.now.table.now.bytes
        (W.lists scope.now.table.now.words) scope.now.open_tags.now scope.now.depth nest (x ∷ xs) →
        first ≡ x.index + 1 → (at : ℕ) → AreAttributeRecords scope.now.table.now.bytes
        (records nest (first_place scope.now.table.now.bytes)) first at x.tag.attributes →
        repeated at [] x.tag.attributes ≡ [] →
        result ≡ first_of (offending_attributes (tags_in (x ∷ xs)) at [] x.tag.attributes) }
{
    let mut noted = [0; FEW];
    let mut number = 0;
    while let Some(parts) = attribute_at(scope.table.words(), first + 2 * number) {
        if number >= MANY && parts.prefix > 0 {
            return attributes_offence_in_many(scope, first);
        }
        let declaration = prefix_declaration(scope, memo, parts);
        if attribute_offends(scope, &noted, first, number, parts, false, declaration) {
            return Some(parts.offset);
        }
        note(&mut noted, number, declaration);
        number += 1;
    }
    None
}

/// The prefix that no tag may have.
const XMLNS: &[u8] = b"xmlns";

/// Whether the name of the nearest tag offends, by the parts of its record.
fn tag_name_offends<W: Words>(
    scope: &Scope<'_, '_, W>,
    memo: &mut Memo,
    tag: u32,
    parts: Parts,
) -> bool
    requires known { IsMemoOf scope.now.table.now.bytes (W.lists scope.now.table.now.words).records memo.old }
    requires here { (rs : List Record) → Shows (list_of Part.Records (W.lists scope.now.table.now.words)) rs →
        record_of parts ≡ record_at tag rs }
    ensures known { IsMemoOf scope.now.table.now.bytes (W.lists scope.now.table.now.words).records memo.new }
    ensures offends { (nest : Forest) (x : Holder) (xs : List Holder) → IsScope scope.now.table.now.bytes
        (W.lists scope.now.table.now.words) scope.now.open_tags.now scope.now.depth nest (x ∷ xs) →
        (at : ℕ) → IsTagRecord scope.now.table.now.bytes (records nest (first_place scope.now.table.now.bytes)) tag at
        x.tag →
        result ≡ tag_offends (tags_in (x ∷ xs)) x.tag.name }
{
    let name = slice_of(scope.table.bytes(), parts);
    if !is_qname(name, parts.prefix) {
        return true;
    }
    let prefix = prefix_of(name, parts.prefix);
    if prefix == XMLNS {
        return true;
    }
    if prefix.is_empty() {
        return false;
    }
    let sought = Prefix {
        text: prefix,
        offset: parts.offset,
        len: parts.prefix,
    };
    !scope.is_bound(prefix, scope.declaration_known(memo, &sought))
}

/// Where the first name of the nearest tag begins that offends, by the index of the tag's record; no two names of its
/// attributes and declarations are one.
pub fn tag_offence<W: Words>(scope: &Scope<'_, '_, W>, memo: &mut Memo, tag: u32) -> Option<u32>
    requires known { IsMemoOf scope.now.table.now.bytes (W.lists scope.now.table.now.words).records memo.old }
    requires tag { tag < length (list_of Part.Records (W.lists scope.now.table.now.words)) }
    ensures known { IsMemoOf scope.now.table.now.bytes (W.lists scope.now.table.now.words).records memo.new }
    ensures offence { (nest : Forest) (x : Holder) (xs : List Holder) → IsScope scope.now.table.now.bytes
        (W.lists scope.now.table.now.words) scope.now.open_tags.now scope.now.depth nest (x ∷ xs) →
        tag ≡ x.index → (at : ℕ) →
        IsTagRecord scope.now.table.now.bytes (records nest (first_place scope.now.table.now.bytes)) tag at x.tag →
        repeated (attributes_place at x.tag) [] x.tag.attributes ≡ [] →
        result ≡ first_of (offending_tag at (tags_in xs) x.tag) }
{
    let parts = parts_at(scope.table.words(), tag);
    if tag_name_offends(scope, memo, tag, parts) {
        return Some(parts.offset);
    }
    attributes_offence(scope, memo, tag + 1)
}
