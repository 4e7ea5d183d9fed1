//! Walks along the records to the next or the last node of a level.

ghost use Rattle.std.specs.Prelude.{◌≡◌, ◌<◌, ◌≤◌, length, IfSome};
ghost use Rattle.xml_model.specs.Items.{first_place};
ghost use Rattle.xml_model.specs.Laws.{is_attribute_thing, is_child_thing, is_child_kind};
ghost use Rattle.xml_model.specs.Nest.{Forest};
ghost use Rattle.xml_model.specs.Records.{records};
ghost use Rattle.xml_model.specs.Scan.{level_of as level_of_record, record_at, is_attribute_part as is_attribute_token};
ghost use Rattle.xml_model.specs.Scan.{is_within};
ghost use Rattle.vtd_words.specs.Lists.{list_of};
ghost use Rattle.vtd_words.specs.Packed.{record_of};
ghost use Rattle.vtd_words.specs.Table.{ArePartsAt, ForEachNest, IsNodeOf, nodes_of};
ghost use Rattle.vtd_cursor.specs.Searches.{FirstFrom, LastBefore, NodeOfLevel};
ghost use Rattle.vtd_words.specs.Found.{NodeAt};

use vtd_words::{Part, Parts, Table, Words, level_of, parts_at};
use xml_model::{Kind, Node, TokenKind};

// The numbers of the kinds of records that attributes and declarations have.
const ATTRIBUTE_NAME: u8 = TokenKind::AttributeName as u8;

const NAMESPACE_NAME: u8 = TokenKind::NamespaceName as u8;

const VALUE: u8 = TokenKind::Value as u8;

/// Whether a record is of an attribute or a declaration of a level, its name or its value.
fn is_attribute_part(parts: Parts, level: u32) -> bool
    ensures { result ≡ is_attribute_token level (record_of parts) }
{
    matches!(parts.token, ATTRIBUTE_NAME | NAMESPACE_NAME | VALUE) && level_of(parts) == level
}

/// The node that begins at a record with these parts, if it is a child where it is.
fn child_at<W: Words>(table: &Table<'_, W>, at: u32, parts: Parts) -> Option<Node>
    requires within { at < length (list_of Part.Records (W.lists table.now.words)) }
    requires parts { ArePartsAt (list_of Part.Records (W.lists table.now.words)) at parts }
    ensures at { ForEachNest table.now.bytes (W.lists table.now.words) (λ nest.
        NodeAt is_child_thing (nodes_of table.now.bytes nest) at result) }
    ensures node { IfSome result (λ node. IsNodeOf table.now.bytes (W.lists table.now.words) node) }
{
    let Some(node) = table.node_from(at, parts) else {
        return None;
    };
    if node.kind.is_child() {
        Some(node)
    } else {
        None
    }
}

/// The child that begins at a record with these parts, if it is of a level.
fn child_of_level<W: Words>(table: &Table<'_, W>, at: u32, parts: Parts, level: u32) -> Option<Node>
    requires within { at < length (list_of Part.Records (W.lists table.now.words)) }
    requires parts { ArePartsAt (list_of Part.Records (W.lists table.now.words)) at parts }
    requires shown { ForEachNest table.now.bytes (W.lists table.now.words) (λ nest.
        record_of parts ≡ record_at at (records nest (first_place table.now.bytes))) }
    ensures at { ForEachNest table.now.bytes (W.lists table.now.words) (λ nest.
        NodeOfLevel is_child_thing level (level_of_record (record_of parts))
        (nodes_of table.now.bytes nest) at result) }
    ensures node { IfSome result (λ node. IsNodeOf table.now.bytes (W.lists table.now.words) node) }
{
    let found = level_of(parts);
    if found != level {
        return None;
    }
    child_at(table, at, parts)
}

/// The node that begins at a record with these parts, if it is an attribute.
fn attribute_at<W: Words>(table: &Table<'_, W>, at: u32, parts: Parts) -> Option<Node>
    requires within { at < length (list_of Part.Records (W.lists table.now.words)) }
    requires parts { ArePartsAt (list_of Part.Records (W.lists table.now.words)) at parts }
    ensures at { ForEachNest table.now.bytes (W.lists table.now.words) (λ nest.
        NodeAt is_attribute_thing (nodes_of table.now.bytes nest) at result) }
    ensures node { IfSome result (λ node. IsNodeOf table.now.bytes (W.lists table.now.words) node) }
{
    let Some(node) = table.node_from(at, parts) else {
        return None;
    };
    match node.kind {
        Kind::Attribute => Some(node),
        _ => None,
    }
}

/// The first child of a level from a record on, before any record of a lower level.
pub fn child_from<W: Words>(table: &Table<'_, W>, from: u32, level: u32) -> Option<Node>
    ensures first { ForEachNest table.now.bytes (W.lists table.now.words) (λ nest.
        FirstFrom (is_within level) is_child_thing level (records nest (first_place table.now.bytes))
        (nodes_of table.now.bytes nest) from result) }
    ensures node { IfSome result (λ node. IsNodeOf table.now.bytes (W.lists table.now.words) node) }
{
    let words = table.words();
    for at in from..words.len(Part::Records) {
        let parts = parts_at(words, at);
        let found = level_of(parts);
        if found < level {
            return None;
        }
        if let Some(node) = child_of_level(table, at, parts, level) {
            return Some(node);
        }
    }
    None
}

/// The first attribute of a level from a record on, before any record that is of no attribute or declaration of it.
pub fn attribute_from<W: Words>(table: &Table<'_, W>, from: u32, level: u32) -> Option<Node>
    ensures first { ForEachNest table.now.bytes (W.lists table.now.words) (λ nest.
        FirstFrom (is_attribute_token level) is_attribute_thing level
        (records nest (first_place table.now.bytes)) (nodes_of table.now.bytes nest) from result) }
    ensures node { IfSome result (λ node. IsNodeOf table.now.bytes (W.lists table.now.words) node) }
{
    let words = table.words();
    for at in from..words.len(Part::Records) {
        let parts = parts_at(words, at);
        if !is_attribute_part(parts, level) {
            return None;
        }
        if let Some(node) = attribute_at(table, at, parts) {
            return Some(node);
        }
    }
    None
}

/// The last child of a level before a record, after any record of a lower level.
pub fn child_before<W: Words>(table: &Table<'_, W>, end: u32, level: u32) -> Option<Node>
    requires { end ≤ length (list_of Part.Records (W.lists table.now.words)) }
    ensures last { ForEachNest table.now.bytes (W.lists table.now.words) (λ nest.
        LastBefore (is_within level) is_child_thing level (records nest (first_place table.now.bytes))
        (nodes_of table.now.bytes nest) end result) }
    ensures node { IfSome result (λ node. IsNodeOf table.now.bytes (W.lists table.now.words) node) }
{
    let words = table.words();
    for at in (1..end).rev() {
        let parts = parts_at(words, at);
        let found = level_of(parts);
        if found < level {
            return None;
        }
        if let Some(node) = child_of_level(table, at, parts, level) {
            return Some(node);
        }
    }
    None
}
