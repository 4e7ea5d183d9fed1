//! Walks backward along the records.

ghost use Rattle.std.specs.Prelude.{◌≡◌, ◌<◌, ◌≤◌, ◌+◌, ◌++◌, ◌&&◌, ◌==◌, [], false, length, map, filter, IfSome};
ghost use Rattle.std.specs.Prelude.{min, option_to_list, IfNone, IsTrue};
ghost use Rattle.xml_model.specs.Laws.{is_child_kind};
ghost use Rattle.xml_model.specs.Names.{Test};
ghost use Rattle.xml_model.specs.declared.Axis.TheVariants as axes;
ghost use Rattle.xml_model.specs.Items.{first_place};
ghost use Rattle.xml_model.specs.Names.{passes as passes_test};
ghost use Rattle.xml_model.specs.Records.{records};
ghost use Rattle.xml_model.specs.Scan.{record_at};
ghost use Rattle.vtd_words.specs.Lists.{list_of};
ghost use Rattle.vtd_words.specs.Packed.{record_of};
ghost use Rattle.vtd_words.specs.Table.{ArePartsAt, ForEachEntry, ForEachNest, IdentifiesInEach, IsNodeOf};
ghost use Rattle.vtd_words.specs.Table.{node_of, nodes_of};
ghost use Rattle.xpath_axes.specs.Backs.{ends_before, left_before, nodes_before, wants_back, IsBack};
ghost use Rattle.xpath_axes.specs.Tests.{node_test, passing};
ghost use Rattle.xpath_axes.specs.Walks.{level_is};

use crate::names::Names;
use crate::node_tests::passes;
use crate::walk::may_begin;
use vtd_words::{Part, Parts, Table, Words, level_of, parts_at};
use xml_model::{Kind, Node, NodeTest};

/// A walk backward from a node, whose first record is `from`: the records below `at` are left, down to the first of a
/// level below `floor`, and `low` is the lowest level of those from `at` to `from`, both included. It goes to children
/// that ended before `from` and that so many elements hold as `level` says, or of any level.
#[derive(Clone, Copy)]
pub struct Back {
    pub at: u32,
    pub from: u32,
    pub low: u32,
    pub floor: u32,
    pub level: Option<u32>,
}

/// What a walk backward found, and how it goes on.
#[derive(Drop)]
pub struct FoundBefore {
    pub node: Option<Node>,
    pub rest: Back,
}

/// Whether a child of a kind and a level ends before records from its first one on, whose lowest level is given.
fn is_over(kind: Kind, level: u32, low: u32) -> bool
    ensures { result ≡ ends_before kind level low }
{
    match kind {
        Kind::Root | Kind::Attribute => false,
        Kind::Element => low <= level,
        _ => true,
    }
}

/// Whether a level is the one that a walk backward asks for.
fn is_level(back: Back, level: u32) -> bool
    ensures { result ≡ level_is back.level level }
{
    match back.level {
        None => true,
        Some(wanted) => level == wanted,
    }
}

/// The node that a walk backward wants at the record before the one where it is, which has these parts.
fn sought_before<W: Words, N: Names<W>>(
    table: &Table<'_, W>,
    names: &mut N,
    back: Back,
    test: &NodeTest<'_>,
    at: u32,
    parts: Parts,
) -> Option<Node>
    requires names { N.knows names.old table.now }
    requires within { at < length (list_of Part.Records (W.lists table.now.words)) }
    requires parts { ArePartsAt (list_of Part.Records (W.lists table.now.words)) at parts }
    requires record { ForEachNest table.now.bytes (W.lists table.now.words) (λ nest.
        record_of parts ≡ record_at at (records nest (first_place table.now.bytes))) }
    requires after_root { 1 ≤ at }
    requires before { at + 1 ≡ back.at }
    requires back { ForEachNest table.now.bytes (W.lists table.now.words) (λ nest.
        IsBack (records nest (first_place table.now.bytes)) (nodes_of table.now.bytes nest) back) }
    ensures found { ForEachNest table.now.bytes (W.lists table.now.words) (λ nest.
        option_to_list result ≡ map node_of (filter (λ y. y.index == at
        && (wants_back back y && passes_test (node_test test.now) false y)) (nodes_of table.now.bytes nest))) }
    ensures node { IfSome result (IsNodeOf table.now.bytes (W.lists table.now.words)) }
    ensures names { N.knows names.new table.now }
{
    if !may_begin(test, false, parts.token) {
        return None;
    }
    let level = level_of(parts);
    if !is_level(back, level) {
        return None;
    }
    let Some(node) = table.node_from(at, parts) else {
        return None;
    };
    if !is_over(node.kind, level, back.low) {
        return None;
    }
    if passes(table, names, node, false, test) {
        Some(node)
    } else {
        None
    }
}

/// The walk backward with one record less, which is of a level.
fn one_less(back: Back, at: u32, level: u32) -> Back
    ensures { result ≡ record back { at = at; low = min back.low level } }
{
    Back {
        at,
        low: back.low.min(level),
        ..back
    }
}

/// The next node of a walk backward, and how it goes on. It reads the records down to there.
pub fn find_before<W: Words, N: Names<W>>(
    table: &Table<'_, W>,
    names: &mut N,
    back: Back,
    test: &NodeTest<'_>,
) -> FoundBefore
    requires names { N.knows names.old table.now }
    requires back { ForEachNest table.now.bytes (W.lists table.now.words) (λ nest.
        IsBack (records nest (first_place table.now.bytes)) (nodes_of table.now.bytes nest) back) }
    ensures found { ForEachNest table.now.bytes (W.lists table.now.words) (λ nest.
        let rs = records nest (first_place table.now.bytes) in
        let es = nodes_of table.now.bytes nest in
        nodes_before back (node_test test.now) rs es
        ≡ option_to_list result.node ++ nodes_before result.rest (node_test test.now) rs es) }
    ensures back { ForEachNest table.now.bytes (W.lists table.now.words) (λ nest.
        IsBack (records nest (first_place table.now.bytes)) (nodes_of table.now.bytes nest) result.rest) }
    ensures on { IfSome result.node (λ node. result.rest.at < back.at) }
    ensures end { IfNone result.node (ForEachNest table.now.bytes (W.lists table.now.words) (λ nest.
        nodes_before result.rest (node_test test.now)
        (records nest (first_place table.now.bytes)) (nodes_of table.now.bytes nest) ≡ [])) }
    ensures node { IfSome result.node (IsNodeOf table.now.bytes (W.lists table.now.words)) }
    ensures names { N.knows names.new table.now }
{
    let words = table.words();
    let mut rest = back;
    while rest.at > 1 {
        let at = rest.at - 1;
        let parts = parts_at(words, at);
        let level = level_of(parts);
        if level < rest.floor {
            return FoundBefore { node: None, rest };
        }
        let sought = sought_before(table, names, rest, test, at, parts);
        rest = one_less(rest, at, level);
        if let Some(node) = sought {
            return FoundBefore {
                node: Some(node),
                rest,
            };
        }
    }
    FoundBefore { node: None, rest }
}

/// The walk backward over what precedes a node.
pub fn preceding_of<W: Words>(table: &Table<'_, W>, node: Node) -> Back
    requires node { IsNodeOf table.now.bytes (W.lists table.now.words) node }
    requires each { IdentifiesInEach table.now.bytes (W.lists table.now.words) node }
    ensures axis { ForEachEntry table.now.bytes (W.lists table.now.words) node (λ nest e.
        (test : Test) → left_before result test (records nest (first_place table.now.bytes))
        (nodes_of table.now.bytes nest) ≡ passing axes.Preceding test e (nodes_of table.now.bytes nest)) }
    ensures back { ForEachNest table.now.bytes (W.lists table.now.words) (λ nest.
        IsBack (records nest (first_place table.now.bytes)) (nodes_of table.now.bytes nest) result) }
{
    Back {
        at: node.at,
        from: node.at,
        low: table.level_at(node),
        floor: 0,
        level: None,
    }
}

/// The walk backward over the earlier siblings of a child.
pub fn preceding_siblings_of<W: Words>(table: &Table<'_, W>, node: Node) -> Back
    requires node { IsNodeOf table.now.bytes (W.lists table.now.words) node }
    requires each { IdentifiesInEach table.now.bytes (W.lists table.now.words) node }
    requires child { IsTrue (is_child_kind node.kind) }
    ensures axis { ForEachEntry table.now.bytes (W.lists table.now.words) node (λ nest e.
        (test : Test) → left_before result test (records nest (first_place table.now.bytes))
        (nodes_of table.now.bytes nest)
        ≡ passing axes.PrecedingSibling test e (nodes_of table.now.bytes nest)) }
    ensures back { ForEachNest table.now.bytes (W.lists table.now.words) (λ nest.
        IsBack (records nest (first_place table.now.bytes)) (nodes_of table.now.bytes nest) result) }
{
    let level = table.level_at(node);
    Back {
        at: node.at,
        from: node.at,
        low: level,
        floor: level,
        level: Some(level),
    }
}
