//! The declarations that reach a node, found by steps from each element to the one that holds it.

ghost use Rattle.std.specs.Prelude.{◌≡◌, ℕ, ◌+◌, ◌<◌, ◌≤◌, ◌≢◌, List, ◌∷◌, length, encode_utf8_all, IfSome};
ghost use Rattle.vtd_words.specs.Lists.{list_of};
ghost use Rattle.xml_model.specs.Tree.{Holder};
ghost use Rattle.xml_model.specs.Laws.{holder_index};
ghost use Rattle.xml_model.specs.Names.{binding};
ghost use Rattle.vtd_words.specs.Table.{ForEachEntry, ForEachNest, IsNodeOf, nodes_of};
ghost use Rattle.vtd_text.specs.NameRecords.{IsDeclaration};
ghost use Rattle.vtd_namespaces.specs.Scope.{tags_in, Chain, IsNearest};
ghost use Rattle.vtd_namespaces.specs.Uris.{uri_value};
ghost use Rattle.vtd_namespaces.specs.Reach.{reaching, IsElementAt};
ghost use Rattle.vtd_namespaces.specs.NodeNames.{HasExpandedName};

use crate::declarations::declaration_in;
use crate::uri::Uri;
use vtd_text::{Chars, equals_str};
use vtd_words::{Part, Table, Words};
use xml_model::{Kind, Node};

/// The prefix that is always bound.
pub const XML: &[u8] = b"xml";

/// The record of the element that holds an element, by its record; 0 where none does.
fn holder_of<W: Words>(table: &Table<'_, W>, tag: u32) -> u32
    requires { IsElementAt table.now.bytes (W.lists table.now.words) tag }
    ensures found { ForEachNest table.now.bytes (W.lists table.now.words) (λ nest.
        (x : Holder) (xs : List Holder) → Chain (nodes_of table.now.bytes nest) (x ∷ xs) → x.index ≡ tag →
        result ≡ holder_index xs) }
    ensures lower { result < tag }
    ensures element { result ≢ 0 → IsElementAt table.now.bytes (W.lists table.now.words) result }
{
    let element = Node {
        kind: Kind::Element,
        at: tag,
    };
    match table.owner_of(element) {
        Some(owner) => owner.at,
        None => 0,
    }
}

/// The index after that of an element's record.
fn first_attribute<W: Words>(table: &Table<'_, W>, tag: u32) -> u32
    requires { IsElementAt table.now.bytes (W.lists table.now.words) tag }
    ensures index { result ≡ tag + 1 }
    ensures room { result ≤ length (list_of Part.Records (W.lists table.now.words)) }
{
    let records = table.words().len(Part::Records);
    prove!(tag < records);
    tag + 1
}

/// The record of the name of the nearest declaration of a prefix in an element and those that hold it, by the element's
/// record, or `None` where they have none; 0 stands for no element.
fn declaration_above<W: Words>(table: &Table<'_, W>, tag: u32, prefix: &[u8]) -> Option<u32>
    requires { tag ≢ 0 → IsElementAt table.now.bytes (W.lists table.now.words) tag }
    ensures found { ForEachNest table.now.bytes (W.lists table.now.words) (λ nest.
        (hs : List Holder) → Chain (nodes_of table.now.bytes nest) hs → holder_index hs ≡ tag → (p : List ℕ) →
        prefix.now ≡ encode_utf8_all p → IsNearest (nodes_of table.now.bytes nest) hs p result) }
    ensures declares { IfSome result (IsDeclaration table.now.bytes (W.lists table.now.words)) }
{
    let mut at = tag;
    while at != 0 {
        let first = first_attribute(table, at);
        let found = declaration_in(table.bytes(), table.words(), first, prefix);
        if found.is_some() {
            return found;
        }
        at = holder_of(table, at);
    }
    None
}

/// The URI to which a prefix is bound, by the record of its nearest declaration; none where it is not bound. The empty
/// prefix has the default namespace, and none where that is taken away (Namespaces in XML 1.0, section 6.2).
pub fn uri_by<'a, W: Words>(
    table: &Table<'a, W>,
    prefix: &[u8],
    declaration: Option<u32>,
) -> Uri<'a, W>
    requires { IfSome declaration (IsDeclaration table.now.bytes (W.lists table.now.words)) }
    ensures { ForEachNest table.now.bytes (W.lists table.now.words) (λ nest.
        (hs : List Holder) → (p : List ℕ) → prefix.now ≡ encode_utf8_all p →
        IsNearest (nodes_of table.now.bytes nest) hs p declaration → uri_value result ≡ binding p (tags_in hs)) }
{
    if prefix == XML {
        return Uri::Xml;
    }
    match declaration {
        None => Uri::None,
        Some(at) => {
            if prefix.is_empty() && equals_str(Chars::of_declaration(table, at), "") {
                return Uri::None;
            }
            Uri::Declared(Chars::of_declaration(table, at))
        }
    }
}

/// The URI to which a prefix is bound under an element, by the element's record, 0 being for none; none where it is not
/// bound.
pub fn uri_of_prefix<'a, W: Words>(table: &Table<'a, W>, tag: u32, prefix: &[u8]) -> Uri<'a, W>
    requires { tag ≢ 0 → IsElementAt table.now.bytes (W.lists table.now.words) tag }
    ensures { ForEachNest table.now.bytes (W.lists table.now.words) (λ nest.
        (hs : List Holder) → Chain (nodes_of table.now.bytes nest) hs → holder_index hs ≡ tag → (p : List ℕ) →
        prefix.now ≡ encode_utf8_all p → uri_value result ≡ binding p (tags_in hs)) }
{
    if prefix == XML {
        return Uri::Xml;
    }
    uri_by(table, prefix, declaration_above(table, tag, prefix))
}

/// The record of the nearest element whose declarations reach an element or an attribute: its own, or its element's.
pub fn nearest_element<W: Words>(table: &Table<'_, W>, node: Node) -> u32
    requires node { IsNodeOf table.now.bytes (W.lists table.now.words) node }
    requires named { HasExpandedName node.kind }
    ensures found { ForEachEntry table.now.bytes (W.lists table.now.words) node (λ nest e.
        result ≡ holder_index (reaching e)) }
    ensures element { result ≢ 0 → IsElementAt table.now.bytes (W.lists table.now.words) result }
{
    match node.kind {
        Kind::Element => node.at,
        _ => match table.owner_of(node) {
            Some(owner) => owner.at,
            None => 0,
        },
    }
}
