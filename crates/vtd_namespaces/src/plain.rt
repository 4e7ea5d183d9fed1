//! Documents whose names need no look at namespaces: no declaration, no prefix and no colon. One pass over the records.

ghost use Rattle.std.specs.Prelude.{◌≡◌, ◌<◌, ℕ, true, List, length};
ghost use Rattle.xml_model.specs.Records.{Record};
ghost use Rattle.xml_model.specs.Scan.{record_at};
ghost use Rattle.vtd_words.specs.Lists.{list_of};
ghost use Rattle.vtd_words.specs.Packed.{record_of};
ghost use Rattle.vtd_words.specs.Table.{Shows};
ghost use Rattle.vtd_namespaces.specs.Plain.{HasPlainName, IsPlain, ArePlain};

use crate::qnames::{has_colon, is_qname};
use crate::records::slice_of;
use vtd_words::{Part, Parts, Words, parts_at};
use xml_model::TokenKind;

/// Whether a record is of a qualified name without a prefix.
fn has_plain_name(bytes: &[u8], parts: Parts) -> bool
    ensures { result ≡ true → HasPlainName bytes.now (record_of parts) }
{
    parts.prefix == 0 && is_qname(slice_of(bytes, parts), parts.prefix)
}

/// Whether a record is of no declaration, and of a plain name if of any.
fn is_plain(bytes: &[u8], parts: Parts) -> bool
    ensures { result ≡ true → IsPlain bytes.now (record_of parts) }
{
    if parts.token == TokenKind::NamespaceName as u8 {
        return false;
    }
    if parts.token == TokenKind::Target as u8 {
        return !has_colon(slice_of(bytes, parts));
    }
    if parts.token == TokenKind::StartTag as u8 || parts.token == TokenKind::AttributeName as u8 {
        return has_plain_name(bytes, parts);
    }
    true
}

/// Whether all records are of no declaration, and of plain names if of any: then no name offends. It reads the records up
/// to the first that is not.
pub fn are_plain<W: Words>(bytes: &[u8], words: &W) -> bool
    ensures { (rs : List Record) → Shows (list_of Part.Records (W.lists words.now)) rs → result ≡ true →
        ArePlain bytes.now rs }
{
    let records = words.len(Part::Records);
    for at in 0..records {
        if !is_plain(bytes, parts_at(words, at)) {
            return false;
        }
    }
    true
}
