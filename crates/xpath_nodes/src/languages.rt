//! The languages of nodes: XPath 1.0, section 4.3, and XML 1.0, section 2.12.

ghost use Rattle.std.specs.Prelude.{◌≡◌, ℕ, ◌+◌, ◌^◌, ◌≤◌, ◌<◌, ◌≢◌, true, List, ◌∷◌, length, IfSome, IfNone};
ghost use Rattle.xml_model.specs.Items.{Tag};
ghost use Rattle.xml_model.specs.Laws.{holder_index};
ghost use Rattle.xml_model.specs.Names.{scope};
ghost use Rattle.xml_model.specs.Records.{Record};
ghost use Rattle.xml_model.specs.Scan.{record_at};
ghost use Rattle.xml_model.specs.Tree.{Holder};
ghost use Rattle.vtd_words.specs.Lists.{list_of};
ghost use Rattle.vtd_words.specs.Packed.{record_of};
ghost use Rattle.vtd_words.specs.Table.{ForEachEntry, ForEachNest, IsNodeOf, Shows, nodes_of};
ghost use Rattle.vtd_text.specs.NameRecords.{is_attribute_name};
ghost use Rattle.vtd_namespaces.specs.NameRecords.{AreAttributeRecords};
ghost use Rattle.vtd_namespaces.specs.Reach.{IsElementAt, reaching};
ghost use Rattle.vtd_namespaces.specs.Repeats.{HasNoAttribute};
ghost use Rattle.vtd_namespaces.specs.Scope.{Chain};
ghost use Rattle.xpath_meaning.specs.Functions.{is_some_language, language};
ghost use Rattle.xpath_nodes.specs.Languages.{IsLangIn, IsLangOf, IsNearestLang};

use crate::names::slice_of;
use vtd_text::Chars;
use vtd_words::{Part, Parts, Table, Words, parts_at};
use xml_model::{Kind, Node, Text, TokenKind};
use xpath_values::is_language;

/// The name of the attribute that says the language of what is in an element (XML 1.0, section 2.12).
const LANG: &[u8] = b"xml:lang";

/// The parts of the record with an index, where it is of an attribute's name and the value's record follows it.
fn attribute_at<W: Words>(words: &W, at: u32) -> Option<Parts>
    ensures none { (rs : List Record) → Shows (list_of Part.Records (W.lists words.now)) rs →
        IfNone result (HasNoAttribute rs at) }
    ensures some { (rs : List Record) → Shows (list_of Part.Records (W.lists words.now)) rs →
        IfSome result (λ p. record_of p ≡ record_at at rs) }
    ensures kind { IfSome result (λ p. is_attribute_name p.token ≡ true) }
    ensures room { IfSome result (λ p. at + 2 ≤ length (list_of Part.Records (W.lists words.now))) }
    ensures bound { IfSome result (λ p. at + 2 < 2 ^ 32) }
{
    let records = words.len(Part::Records);
    if records < 2 || at > records - 2 {
        return None;
    }
    let parts = parts_at(words, at);
    if parts.token == TokenKind::AttributeName as u8
        || parts.token == TokenKind::NamespaceName as u8
    {
        Some(parts)
    } else {
        None
    }
}

/// The record of the name of a tag's attribute that is written `xml:lang`, or `None` where the tag has none; the
/// records of the tag's attributes begin at `first`.
fn language_in<W: Words>(bytes: &[u8], words: &W, first: u32) -> Option<u32>
    requires { first ≤ length (list_of Part.Records (W.lists words.now)) }
    ensures { (rs : List Record) → Shows (list_of Part.Records (W.lists words.now)) rs → (at : ℕ) (t : Tag) →
        AreAttributeRecords bytes.now rs first at t.attributes → IsLangIn first t result }
{
    let mut number = 0;
    while let Some(parts) = attribute_at(words, first + 2 * number) {
        if slice_of(bytes, parts) == LANG {
            return Some(first + 2 * number);
        }
        number += 1;
    }
    None
}

/// The index after that of an element's record.
fn first_attribute<W: Words>(table: &Table<'_, W>, tag: u32) -> u32
    requires { IsElementAt table.now.bytes (W.lists table.now.words) tag }
    ensures index { result ≡ tag + 1 }
    ensures room { result ≤ length (list_of Part.Records (W.lists table.now.words)) }
{
    table.after_first(Node {
        kind: Kind::Element,
        at: tag,
    })
}

/// The attribute `xml:lang` of an element, by the element's record, or `None` where it has none.
fn language_of_tag<W: Words>(table: &Table<'_, W>, tag: u32) -> Option<Node>
    requires { IsElementAt table.now.bytes (W.lists table.now.words) tag }
    ensures found { ForEachNest table.now.bytes (W.lists table.now.words) (λ nest.
        (x : Holder) (xs : List Holder) → Chain (nodes_of table.now.bytes nest) (x ∷ xs) → x.index ≡ tag →
        IsLangOf (nodes_of table.now.bytes nest) x.tag result) }
    ensures node { IfSome result (IsNodeOf table.now.bytes (W.lists table.now.words)) }
{
    match language_in(table.bytes(), table.words(), first_attribute(table, tag)) {
        None => None,
        Some(at) => Some(Node {
            kind: Kind::Attribute,
            at,
        }),
    }
}

/// The record of the element that holds a node, by its record; 0 where none does.
fn holder_of<W: Words>(table: &Table<'_, W>, tag: u32) -> u32
    requires { IsElementAt table.now.bytes (W.lists table.now.words) tag }
    ensures found { ForEachNest table.now.bytes (W.lists table.now.words) (λ nest.
        (x : Holder) (xs : List Holder) → Chain (nodes_of table.now.bytes nest) (x ∷ xs) → x.index ≡ tag →
        result ≡ holder_index xs) }
    ensures lower { result < tag }
    ensures element { result ≢ 0 → IsElementAt table.now.bytes (W.lists table.now.words) result }
{
    let element = Node {
        kind: Kind::Element,
        at: tag,
    };
    match table.owner_of(element) {
        Some(owner) => owner.at,
        None => 0,
    }
}

/// The attribute `xml:lang` of the nearest element that has one, of an element and those that hold it, by the element's
/// record, or `None` where none has; 0 stands for no element.
fn language_above<W: Words>(table: &Table<'_, W>, tag: u32) -> Option<Node>
    requires { tag ≢ 0 → IsElementAt table.now.bytes (W.lists table.now.words) tag }
    ensures found { ForEachNest table.now.bytes (W.lists table.now.words) (λ nest.
        (hs : List Holder) → Chain (nodes_of table.now.bytes nest) hs → holder_index hs ≡ tag →
        IsNearestLang (nodes_of table.now.bytes nest) hs result) }
    ensures node { IfSome result (IsNodeOf table.now.bytes (W.lists table.now.words)) }
{
    let mut at = tag;
    while at != 0 {
        let found = language_of_tag(table, at);
        if found.is_some() {
            return found;
        }
        at = holder_of(table, at);
    }
    None
}

/// The record of the nearest element whose language reaches a node: its own, or that of the element that holds it; 0
/// where there is none.
fn nearest_element<W: Words>(table: &Table<'_, W>, node: Node) -> u32
    requires { IsNodeOf table.now.bytes (W.lists table.now.words) node }
    ensures found { ForEachEntry table.now.bytes (W.lists table.now.words) node (λ nest e.
        result ≡ holder_index (reaching e)) }
    ensures element { result ≢ 0 → IsElementAt table.now.bytes (W.lists table.now.words) result }
{
    match node.kind {
        Kind::Element => node.at,
        _ => match table.owner_of(node) {
            Some(owner) => owner.at,
            None => 0,
        },
    }
}

/// Whether the language of a node is the one asked for, or a kind of it (XPath 1.0, section 4.3): the value of the
/// attribute that is written `xml:lang` of the nearest element that has one, the node itself or one that holds it. A
/// node without one is of no language. It goes back over the records to the elements that hold the node, up to the one
/// with that attribute, and walks the names of each: at most so many reads as there are records before the node's, and
/// these names; then it takes as many code points of the value as the language has. It takes no memory.
pub fn is_of_language<W: Words>(table: &Table<'_, W>, node: Node, asked: &Text) -> bool
    requires { IsNodeOf table.now.bytes (W.lists table.now.words) node }
    ensures { ForEachEntry table.now.bytes (W.lists table.now.words) node (λ nest e.
        result ≡ is_some_language asked.now (language (scope e))) }
{
    match language_above(table, nearest_element(table, node)) {
        None => false,
        Some(attribute) => is_language(Chars::of(table, attribute), asked),
    }
}
