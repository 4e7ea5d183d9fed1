//! Walks forward along the records.

ghost use Rattle.std.specs.Prelude.{◌≡◌, ◌<◌, ◌≤◌, ◌+◌, ◌++◌, ◌&&◌, ◌||◌, ◌==◌, [], length, map, filter, IfSome};
ghost use Rattle.std.specs.Prelude.{if◌then◌else◌, IfNone, option_to_list};
ghost use Rattle.xml_model.specs.Items.{first_place};
ghost use Rattle.xml_model.specs.Laws.{is_child_kind};
ghost use Rattle.xml_model.specs.Records.{records};
ghost use Rattle.xml_model.specs.Scan.{record_at};
ghost use Rattle.vtd_words.specs.Lists.{list_of};
ghost use Rattle.vtd_words.specs.Packed.{record_of};
ghost use Rattle.vtd_words.specs.Table.{ArePartsAt, ForEachNest, IsNodeOf, node_of, nodes_of};
ghost use Rattle.xpath_axes.specs.Tests.{is_attribute_kind, may_pass, node_test};
ghost use Rattle.xpath_axes.specs.Walks.{goes_on as goes_on_over, is_sought, level_is, nodes_left};
ghost use Rattle.xpath_axes.specs.Walks.{StopsAt};

use crate::names::Names;
use crate::node_tests::passes;
use vtd_words::{Part, Parts, Table, Words, level_of, parts_at};
use xml_model::{Kind, Node, NodeTest, TokenKind};

const START_TAG: u8 = TokenKind::StartTag as u8;

const ATTRIBUTE_NAME: u8 = TokenKind::AttributeName as u8;

const NAMESPACE_NAME: u8 = TokenKind::NamespaceName as u8;

const VALUE: u8 = TokenKind::Value as u8;

const TEXT: u8 = TokenKind::Text as u8;

const COMMENT: u8 = TokenKind::Comment as u8;

const TARGET: u8 = TokenKind::Target as u8;

const CDATA: u8 = TokenKind::Cdata as u8;

/// A walk forward: from the record `at` on, over records of at least the level `floor`, or over those of attributes
/// alone, to children that so many elements hold as `level` says, or of any level, or to attributes.
#[derive(Clone, Copy)]
pub struct Walk {
    pub at: u32,
    pub floor: u32,
    pub level: Option<u32>,
    pub attributes: bool,
}

/// What a walk found: the next node, and the record where it goes on. Where there is no node, that is the record where
/// it stopped.
#[derive(Drop)]
pub struct Found {
    pub node: Option<Node>,
    pub next: u32,
}

/// Whether a record is of an attribute or of a declaration of a namespace.
fn is_attribute(token: u8) -> bool
    ensures { result ≡ (token == 2 || token == 3 || token == 4) }
{
    matches!(token, ATTRIBUTE_NAME | NAMESPACE_NAME | VALUE)
}

/// Whether a walk goes on over a record.
fn goes_on(walk: Walk, parts: Parts) -> bool
    ensures { result ≡ goes_on_over walk.attributes walk.floor (record_of parts) }
{
    (!walk.attributes || is_attribute(parts.token)) && walk.floor <= level_of(parts)
}

/// Whether a level is the one that a walk asks for.
fn is_level(walk: Walk, level: u32) -> bool
    ensures { result ≡ level_is walk.level level }
{
    match walk.level {
        None => true,
        Some(wanted) => level == wanted,
    }
}

/// Whether nodes of a kind are those that a walk asks for: attributes, or children.
fn is_kind(walk: Walk, kind: Kind) -> bool
    ensures { result ≡ (if walk.attributes then is_attribute_kind kind else is_child_kind kind) }
{
    match kind {
        Kind::Root => false,
        Kind::Attribute => walk.attributes,
        _ => !walk.attributes,
    }
}

/// Whether a record of a type may begin a node that passes a test.
pub fn may_begin(test: &NodeTest<'_>, on_attributes: bool, token: u8) -> bool
    ensures { result ≡ may_pass (node_test test.now) on_attributes token }
{
    match *test {
        NodeTest::Node => true,
        NodeTest::Text => token == TEXT || token == CDATA,
        NodeTest::Comment => token == COMMENT,
        NodeTest::Instruction => token == TARGET,
        NodeTest::Target(_) => token == TARGET,
        NodeTest::Name(_) => {
            if on_attributes {
                token == ATTRIBUTE_NAME
            } else {
                token == START_TAG
            }
        }
    }
}

/// The node that a walk wants at a record, which has these parts.
fn sought_at<W: Words, N: Names<W>>(
    table: &Table<'_, W>,
    names: &mut N,
    walk: Walk,
    test: &NodeTest<'_>,
    at: u32,
    parts: Parts,
) -> Option<Node>
    requires names { N.knows names.old table.now }
    requires within { at < length (list_of Part.Records (W.lists table.now.words)) }
    requires parts { ArePartsAt (list_of Part.Records (W.lists table.now.words)) at parts }
    requires record { ForEachNest table.now.bytes (W.lists table.now.words) (λ nest.
        record_of parts ≡ record_at at (records nest (first_place table.now.bytes))) }
    ensures found { ForEachNest table.now.bytes (W.lists table.now.words) (λ nest.
        option_to_list result ≡ map node_of
        (filter (λ e. e.index == at && is_sought walk (node_test test.now) e) (nodes_of table.now.bytes nest))) }
    ensures node { IfSome result (IsNodeOf table.now.bytes (W.lists table.now.words)) }
    ensures names { N.knows names.new table.now }
{
    if !may_begin(test, walk.attributes, parts.token) {
        return None;
    }
    if !is_level(walk, level_of(parts)) {
        return None;
    }
    let Some(node) = table.node_from(at, parts) else {
        return None;
    };
    if !is_kind(walk, node.kind) {
        return None;
    }
    if passes(table, names, node, walk.attributes, test) {
        Some(node)
    } else {
        None
    }
}

/// The next node of a walk, and where it goes on. It reads the records up to there.
pub fn find<W: Words, N: Names<W>>(
    table: &Table<'_, W>,
    names: &mut N,
    walk: Walk,
    test: &NodeTest<'_>,
) -> Found
    requires { N.knows names.old table.now }
    ensures found { ForEachNest table.now.bytes (W.lists table.now.words) (λ nest.
        let rs = records nest (first_place table.now.bytes) in
        let es = nodes_of table.now.bytes nest in
        nodes_left walk (node_test test.now) rs es
        ≡ option_to_list result.node ++ nodes_left (record walk { at = result.next }) (node_test test.now) rs es) }
    ensures node { IfSome result.node (IsNodeOf table.now.bytes (W.lists table.now.words)) }
    ensures stop { ForEachNest table.now.bytes (W.lists table.now.words) (λ nest.
        StopsAt walk (records nest (first_place table.now.bytes)) result.node result.next) }
    ensures on { IfSome result.node (λ node. (walk.at < result.next)
        × (result.next ≤ length (list_of Part.Records (W.lists table.now.words)))) }
    ensures end { IfNone result.node (ForEachNest table.now.bytes (W.lists table.now.words) (λ nest.
        nodes_left (record walk { at = result.next }) (node_test test.now)
        (records nest (first_place table.now.bytes)) (nodes_of table.now.bytes nest) ≡ [])) }
    ensures names { N.knows names.new table.now }
{
    let words = table.words();
    let records = words.len(Part::Records);
    for at in walk.at..records {
        let parts = parts_at(words, at);
        if !goes_on(walk, parts) {
            return Found {
                node: None,
                next: at,
            };
        }
        if let Some(node) = sought_at(table, names, walk, test, at, parts) {
            return Found {
                node: Some(node),
                next: at + 1,
            };
        }
    }
    let next = if walk.at < records { records } else { walk.at };
    Found { node: None, next }
}
