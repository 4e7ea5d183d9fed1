//! A sieve for the expanded names of a tag's attributes (Namespaces in XML 1.0, section 6.3): a fingerprint filter
//! whose keys are the URI and the local part.

ghost use Rattle.std.specs.Prelude.{◌≡◌, ℕ, ◌<◌, ◌^◌, true, false, not, List, [], fold, IfSome};
ghost use Rattle.std.specs.Option.{unwrap_or};
ghost use Rattle.xml_model.specs.Items.{Attribute};
ghost use Rattle.xml_model.specs.Nest.{Forest};
ghost use Rattle.xml_model.specs.Records.{name_token};
ghost use Rattle.xml_model.specs.Tree.{Holder};
ghost use Rattle.vtd_words.specs.Packed.{record_of};
ghost use Rattle.vtd_text.specs.Fingerprints.{mixed, is_taken};
ghost use Rattle.vtd_namespaces.specs.NameRecords.{IsNameRecord};
ghost use Rattle.xml_model.specs.Chars.{prefix_of as prefix_of_chars};
ghost use Rattle.vtd_words.specs.Table.{nodes_of};
ghost use Rattle.vtd_text.specs.NameRecords.{IsDeclaration};
ghost use Rattle.vtd_namespaces.specs.Scope.{tags_in, IsNearest};
ghost use Rattle.vtd_namespaces.specs.Reach.{IsScope};
ghost use Rattle.vtd_namespaces.specs.Uris.{uri_value};
ghost use Rattle.vtd_namespaces.specs.Offences.{key_of, IsNoted, IsWritten, NearestOf};

use crate::qnames::{after_prefix, prefix_of};
use crate::records::slice_of;
use crate::scope::Scope;
use crate::uri::{Uri, XML_URI};
use vtd_text::{FingerprintFilter, mix_bytes, mix_chars};
use vtd_words::{Parts, Words};
use xml_model::TokenKind;

/// The number of a URI as the start of a key; that of none is of no code points.
fn number_of_uri<W: Words>(uri: Uri<'_, W>) -> u64
    ensures number { result ≡ fold mixed 0 (unwrap_or (uri_value uri.entry) []) }
    ensures fits { result < 2 ^ 32 }
{
    match uri {
        Uri::None => 0,
        Uri::Xml => mix_bytes(0, XML_URI.as_bytes()),
        Uri::Declared(chars) => mix_chars(chars),
    }
}

/// Notes the expanded name of an attribute whose prefix is not empty, by the record of the nearest declaration of the
/// prefix; true where no attribute that was noted before has it.
fn note_name<W: Words>(
    scope: &Scope<'_, '_, W>,
    filter: &mut FingerprintFilter,
    name: &[u8],
    prefix_len: u32,
    declaration: Option<u32>,
) -> bool
    requires prefix { 0 < prefix_len }
    requires declaration { IfSome declaration
        (IsDeclaration scope.now.table.now.bytes (W.lists scope.now.table.now.words)) }
    ensures new { (nest : Forest) (hs : List Holder) → IsScope scope.now.table.now.bytes
        (W.lists scope.now.table.now.words) scope.now.open_tags.now scope.now.depth nest hs →
        (a : Attribute) → IsWritten name.now prefix_len a →
        IsNearest (nodes_of scope.now.table.now.bytes nest) hs (prefix_of_chars a.name) declaration →
        result ≡ not (is_taken filter.old (key_of (tags_in hs) a)) }
    ensures noted { (nest : Forest) (hs : List Holder) → IsScope scope.now.table.now.bytes
        (W.lists scope.now.table.now.words) scope.now.open_tags.now scope.now.depth nest hs →
        (a : Attribute) → IsWritten name.now prefix_len a →
        IsNearest (nodes_of scope.now.table.now.bytes nest) hs (prefix_of_chars a.name) declaration →
        is_taken filter.new (key_of (tags_in hs) a) ≡ true }
    ensures kept { (key : List ℕ) → is_taken filter.old key ≡ true → is_taken filter.new key ≡ true }
{
    let uri = number_of_uri(scope.uri_by(prefix_of(name, prefix_len), declaration));
    filter.note_fingerprint(mix_bytes(uri, after_prefix(name, prefix_len)))
}

/// Notes an attribute of the nearest tag, where it is one with a prefix and no declaration; true only where no
/// attribute that was noted before has its expanded name. The declaration is the nearest one of its prefix.
pub fn note_attribute<W: Words>(
    scope: &Scope<'_, '_, W>,
    filter: &mut FingerprintFilter,
    parts: Parts,
    declaration: Option<u32>,
) -> bool
    requires { IfSome declaration (IsDeclaration scope.now.table.now.bytes (W.lists scope.now.table.now.words)) }
    ensures new { (nest : Forest) (hs : List Holder) → IsScope scope.now.table.now.bytes
        (W.lists scope.now.table.now.words) scope.now.open_tags.now scope.now.depth nest hs →
        (a : Attribute) → parts.token ≡ name_token a.name →
        IsNameRecord scope.now.table.now.bytes (record_of parts) a.name →
        NearestOf scope.now.table.now.bytes nest hs (record_of parts) a declaration → result ≡ true →
        is_taken filter.old (key_of (tags_in hs) a) ≡ false }
    ensures noted { (nest : Forest) (hs : List Holder) → IsScope scope.now.table.now.bytes
        (W.lists scope.now.table.now.words) scope.now.open_tags.now scope.now.depth nest hs →
        (a : Attribute) → parts.token ≡ name_token a.name →
        IsNameRecord scope.now.table.now.bytes (record_of parts) a.name →
        NearestOf scope.now.table.now.bytes nest hs (record_of parts) a declaration →
        IsNoted (tags_in hs) filter.new a }
    ensures kept { (key : List ℕ) → is_taken filter.old key ≡ true → is_taken filter.new key ≡ true }
{
    if parts.token == TokenKind::NamespaceName as u8 || parts.prefix == 0 {
        return false;
    }
    note_name(
        scope,
        filter,
        slice_of(scope.table.bytes(), parts),
        parts.prefix,
        declaration,
    )
}
