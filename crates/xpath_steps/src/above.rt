//! Steps along `ancestor` and `ancestor-or-self`.

ghost use Rattle.std.specs.Prelude.{◌≡◌, ◌≤◌, ◌<◌, ◌+◌, ◌++◌, ◌&&◌, ◌==◌, nat_lt, length, map, filter, reverse, IfOk};
ghost use Rattle.std.specs.Prelude.{min, option_to_list, IfSome};
ghost use Rattle.std.specs.List.{AllByRecursion};
ghost use Rattle.xml_model.specs.declared.Axis.TheVariants as axes;
ghost use Rattle.xml_model.specs.Contexts.{new_ancestors};
ghost use Rattle.xml_model.specs.Items.{first_place};
ghost use Rattle.xml_model.specs.Records.{records};
ghost use Rattle.xml_model.specs.Scan.{record_at};
ghost use Rattle.vtd_words.specs.Lists.{list_of};
ghost use Rattle.vtd_words.specs.Packed.{record_of};
ghost use Rattle.vtd_words.specs.Table.{ArePartsAt, ForEachEntry, ForEachNest, IsNodeOf, node_of, nodes_of};
ghost use Rattle.xpath_axes.specs.Backs.{IsBack};
ghost use Rattle.xpath_axes.specs.Tests.{node_test};
ghost use Rattle.xpath_steps.specs.Holders.{goes_over, holders_left, index_before};
ghost use Rattle.xpath_steps.specs.Steps.{step_nodes, AreNodesOf, ForEachContexts};

use crate::selves::those_passing;
use std::alloc::Global;
use vtd_words::{Part, Parts, Table, Words, level_of, parts_at};
use xml_model::{Kind, NoMemory, Node, NodeList, NodeTest};
use xpath_axes::Names;
use xpath_axes::back::Back;

/// The climb from a node.
fn climb_from<W: Words>(table: &Table<'_, W>, node: Node) -> Back
    requires { IsNodeOf table.now.bytes (W.lists table.now.words) node }
    ensures at { result.at ≡ node.at }
    ensures from { result.from ≡ node.at }
    ensures back { ForEachNest table.now.bytes (W.lists table.now.words) (λ nest.
        IsBack (records nest (first_place table.now.bytes)) (nodes_of table.now.bytes nest) result) }
{
    // the table keeps that its document is short, so that the node is in each of its nests
    let _words = table.words();
    Back {
        at: node.at,
        from: node.at,
        low: table.level_at(node),
        floor: 0,
        level: None,
    }
}

/// Whether a node of a kind and a level goes on over records after its first one, whose lowest level is given.
fn goes_on(kind: Kind, level: u32, low: u32) -> bool
    ensures { result ≡ goes_over kind level low }
{
    match kind {
        Kind::Root => true,
        Kind::Element => level < low,
        _ => false,
    }
}

/// The node that begins at the record before the one where a climb is, which has these parts, where it goes on over the
/// record where the climb began.
fn holder_at<W: Words>(table: &Table<'_, W>, back: Back, at: u32, parts: Parts) -> Option<Node>
    requires within { at < length (list_of Part.Records (W.lists table.now.words)) }
    requires parts { ArePartsAt (list_of Part.Records (W.lists table.now.words)) at parts }
    requires record { ForEachNest table.now.bytes (W.lists table.now.words) (λ nest.
        record_of parts ≡ record_at at (records nest (first_place table.now.bytes))) }
    requires before { at + 1 ≡ back.at }
    requires back { ForEachNest table.now.bytes (W.lists table.now.words) (λ nest.
        IsBack (records nest (first_place table.now.bytes)) (nodes_of table.now.bytes nest) back) }
    ensures holder { ForEachNest table.now.bytes (W.lists table.now.words) (λ nest.
        option_to_list result ≡ map node_of (filter (λ y. y.index == at && nat_lt back.from y.past)
        (nodes_of table.now.bytes nest))) }
    ensures node { IfSome result (IsNodeOf table.now.bytes (W.lists table.now.words)) }
{
    let Some(node) = table.node_from(at, parts) else {
        return None;
    };
    if goes_on(node.kind, level_of(parts), back.low) {
        Some(node)
    } else {
        None
    }
}

/// A climb with one record less, which is of a level.
fn one_less(back: Back, at: u32, level: u32) -> Back
    ensures { result ≡ record back { at = at; low = min back.low level } }
{
    Back {
        at,
        low: back.low.min(level),
        ..back
    }
}

/// Appends a node, if there is one.
fn append_some(node: Option<Node>, held: &mut Vec<Node>) -> Result<(), NoMemory>
    ensures { IfOk result (λ done. held.new.items ≡ held.old.items ++ option_to_list node) }
{
    let Some(node) = node else {
        return Ok(());
    };
    if held.push(node).is_err() {
        return Err(NoMemory);
    }
    Ok(())
}

/// Appends the nodes from an index on that a climb passes, the last one first. It goes over each record from there on
/// once.
fn append_holders<W: Words>(
    table: &Table<'_, W>,
    back: Back,
    stop: u32,
    held: &mut Vec<Node>,
) -> Result<(), NoMemory>
    requires back { ForEachNest table.now.bytes (W.lists table.now.words) (λ nest.
        IsBack (records nest (first_place table.now.bytes)) (nodes_of table.now.bytes nest) back) }
    requires nodes { AllByRecursion (IsNodeOf table.now.bytes (W.lists table.now.words)) held.old.items }
    ensures nodes { IfOk result (λ done.
        AllByRecursion (IsNodeOf table.now.bytes (W.lists table.now.words)) held.new.items) }
    ensures appended { IfOk result (λ done. ForEachNest table.now.bytes (W.lists table.now.words) (λ nest.
        held.new.items ≡ held.old.items ++ map node_of (holders_left back stop (nodes_of table.now.bytes nest)))) }
{
    let words = table.words();
    let mut rest = back;
    while rest.at > stop {
        let at = rest.at - 1;
        let parts = parts_at(words, at);
        append_some(holder_at(table, rest, at, parts), held)?;
        rest = one_less(rest, at, level_of(parts));
    }
    Ok(())
}

/// The index of the node before one of a list, and 0 before the first.
pub fn before(nodes: &[Node], at: usize) -> u32
    requires { at ≤ length nodes.now }
    ensures { result ≡ index_before nodes.now at }
{
    if at == 0 {
        return 0;
    }
    nodes[at - 1].at
}

/// The nodes that nodes are in, in document order, each once. It goes over each record before the last of them at most
/// once.
fn holders_of_all<W: Words>(
    alloc: Global,
    table: &Table<'_, W>,
    contexts: &[Node],
) -> Result<Vec<Node>, NoMemory>
    requires { AreNodesOf table.now.bytes (W.lists table.now.words) contexts.now }
    ensures nodes { IfOk result (λ held. AreNodesOf table.now.bytes (W.lists table.now.words) held.items) }
    ensures holders { IfOk result (λ held.
        ForEachContexts table.now.bytes (W.lists table.now.words) contexts.now (λ nest cs.
        held.items ≡ map node_of (new_ancestors (nodes_of table.now.bytes nest) 0 cs))) }
{
    let mut held = Vec::new(alloc);
    let mut rest = contexts.len();
    while rest > 0 {
        let next = rest - 1;
        let back = climb_from(table, contexts[next]);
        append_holders(table, back, before(contexts, next), &mut held)?;
        rest = next;
    }
    held.reverse();
    Ok(held)
}

/// The ancestors of nodes that pass a test. The nodes are in document order, each once. It goes over each record before
/// the last of the contexts at most once. `NoMemory` comes where there is no memory for the list of all ancestors.
pub fn ancestors_of_all<W: Words, N: Names<W>>(
    alloc: Global,
    table: &Table<'_, W>,
    names: &mut N,
    contexts: &[Node],
    test: &NodeTest<'_>,
) -> Result<NodeList, NoMemory>
    requires names { N.knows names.old table.now }
    requires contexts { AreNodesOf table.now.bytes (W.lists table.now.words) contexts.now }
    ensures step { IfOk result (λ list.
        ForEachContexts table.now.bytes (W.lists table.now.words) contexts.now (λ nest cs.
        list ≡ step_nodes axes.Ancestor (node_test test.now) cs (nodes_of table.now.bytes nest))) }
    ensures names { N.knows names.new table.now }
{
    let holders = holders_of_all(alloc, table, contexts)?;
    those_passing(alloc, table, names, &holders, test)
}
