//! The step along `parent`.

ghost use Rattle.std.specs.Prelude.{◌≡◌, ◌≤◌, suc, List, ◌∷◌, map, filter, IfOk, IfSome, IfNone};
ghost use Rattle.std.specs.List.{AllByRecursion};
ghost use Rattle.xml_model.specs.declared.Axis.TheVariants as axes;
ghost use Rattle.xml_model.specs.Contexts.{is_parent_of_any};
ghost use Rattle.xml_model.specs.Tree.{Entry};
ghost use Rattle.vtd_words.specs.Table.{ForEachEntry, ForEachNest, IsNodeOf, node_of, nodes_of};
ghost use Rattle.xpath_axes.specs.Tests.{node_test};
ghost use Rattle.xpath_steps.specs.Steps.{step_nodes, AreNodesOf, ForEachContexts};
ghost use Rattle.xpath_steps.specs.Waits.{flagged, Gathered, IsHolderAt, NoneHolds};

use crate::above::before;
use crate::flags::Flags;
use crate::selves::those_passing;
use std::alloc::Global;
use vtd_words::{Table, Words};
use xml_model::{Kind, NoMemory, Node, NodeList, NodeTest};
use xpath_axes::Names;

/// A node that may be a parent, and the level of what it is the parent of.
#[derive(Drop)]
struct Holder {
    node: Node,
    inside: u32,
}

/// The root or the element that begins at a record; `None` where none does.
fn holder_at<W: Words>(table: &Table<'_, W>, at: u32) -> Option<Holder>
    ensures holder { ForEachNest table.now.bytes (W.lists table.now.words) (λ nest.
        IfSome result (λ h. IsHolderAt (nodes_of table.now.bytes nest) at h.node h.inside)) }
    ensures none { ForEachNest table.now.bytes (W.lists table.now.words) (λ nest.
        IfNone result (NoneHolds (nodes_of table.now.bytes nest) at)) }
    ensures node { IfSome result (λ h. IsNodeOf table.now.bytes (W.lists table.now.words) h.node) }
    ensures level { IfSome result (λ h. h.inside ≤ 256) }
{
    let Some(node) = table.node_at(at) else {
        return None;
    };
    match node.kind {
        Kind::Root => Some(Holder { node, inside: 0 }),
        Kind::Element => Some(Holder {
            node,
            inside: table.level_at(node) + 1,
        }),
        _ => None,
    }
}

/// Appends the node at a record, where one of the nodes that were passed waits for it.
fn append_parent<W: Words>(
    table: &Table<'_, W>,
    at: u32,
    waiting: &mut Flags,
    held: &mut Vec<Node>,
) -> Result<(), NoMemory>
    requires nodes { AllByRecursion (IsNodeOf table.now.bytes (W.lists table.now.words)) held.old.items }
    ensures nodes { IfOk result (λ done.
        AllByRecursion (IsNodeOf table.now.bytes (W.lists table.now.words)) held.new.items) }
    ensures gathered { IfOk result (λ done. ForEachNest table.now.bytes (W.lists table.now.words) (λ nest.
        (ds : List Entry) →
        Gathered (nodes_of table.now.bytes nest) ds (suc at) (flagged waiting.old) held.old.items →
        Gathered (nodes_of table.now.bytes nest) ds at (flagged waiting.new) held.new.items)) }
{
    let Some(holder) = holder_at(table, at) else {
        return Ok(());
    };
    if !waiting.has(holder.inside) {
        return Ok(());
    }
    waiting.put(holder.inside, false);
    if held.push(holder.node).is_err() {
        return Err(NoMemory);
    }
    Ok(())
}

/// Appends the nodes from an index on that those that were passed wait for, down from another, the last one first. It
/// reads each record between them a constant number of times.
fn append_parents<W: Words>(
    table: &Table<'_, W>,
    from: u32,
    stop: u32,
    waiting: &mut Flags,
    held: &mut Vec<Node>,
) -> Result<(), NoMemory>
    requires nodes { AllByRecursion (IsNodeOf table.now.bytes (W.lists table.now.words)) held.old.items }
    ensures nodes { IfOk result (λ done.
        AllByRecursion (IsNodeOf table.now.bytes (W.lists table.now.words)) held.new.items) }
    ensures gathered { IfOk result (λ done. ForEachNest table.now.bytes (W.lists table.now.words) (λ nest.
        (ds : List Entry) → stop ≤ from →
        Gathered (nodes_of table.now.bytes nest) ds from (flagged waiting.old) held.old.items →
        Gathered (nodes_of table.now.bytes nest) ds stop (flagged waiting.new) held.new.items)) }
{
    let mut rest = from;
    while rest > stop {
        append_parent(table, rest - 1, waiting, held)?;
        rest -= 1;
    }
    Ok(())
}

/// Has a node wait for its parent, if it has one.
fn await_parent<W: Words>(table: &Table<'_, W>, node: Node, waiting: &mut Flags)
    requires { IsNodeOf table.now.bytes (W.lists table.now.words) node }
    ensures { ForEachEntry table.now.bytes (W.lists table.now.words) node (λ nest c.
        (ds : List Entry) → (held : List Node) →
        Gathered (nodes_of table.now.bytes nest) ds node.at (flagged waiting.old) held →
        Gathered (nodes_of table.now.bytes nest) (c ∷ ds) node.at (flagged waiting.new) held) }
{
    match node.kind {
        Kind::Root => (),
        _ => waiting.put(table.level_at(node), true),
    }
}

/// The parents of nodes, in document order, each once. It reads each record before the last of them a constant number
/// of times.
fn parents<W: Words>(
    alloc: Global,
    table: &Table<'_, W>,
    contexts: &[Node],
) -> Result<Vec<Node>, NoMemory>
    requires { AreNodesOf table.now.bytes (W.lists table.now.words) contexts.now }
    ensures nodes { IfOk result (λ held. AreNodesOf table.now.bytes (W.lists table.now.words) held.items) }
    ensures parents { IfOk result (λ held.
        ForEachContexts table.now.bytes (W.lists table.now.words) contexts.now (λ nest cs.
        held.items ≡ map node_of (filter (is_parent_of_any cs) (nodes_of table.now.bytes nest)))) }
{
    let mut waiting = Flags::new();
    let mut held = Vec::new(alloc);
    let mut rest = contexts.len();
    while rest > 0 {
        let next = rest - 1;
        let node = contexts[next];
        await_parent(table, node, &mut waiting);
        append_parents(
            table,
            node.at,
            before(contexts, next),
            &mut waiting,
            &mut held,
        )?;
        rest = next;
    }
    held.reverse();
    Ok(held)
}

/// The parents of nodes that pass a test. The nodes are in document order, each once. It goes backward from the last of
/// the contexts, with a flag for each level, and reads each record before it a constant number of times. `NoMemory`
/// comes where there is no memory for the list of all parents.
pub fn parents_of_all<W: Words, N: Names<W>>(
    alloc: Global,
    table: &Table<'_, W>,
    names: &mut N,
    contexts: &[Node],
    test: &NodeTest<'_>,
) -> Result<NodeList, NoMemory>
    requires names { N.knows names.old table.now }
    requires contexts { AreNodesOf table.now.bytes (W.lists table.now.words) contexts.now }
    ensures step { IfOk result (λ list.
        ForEachContexts table.now.bytes (W.lists table.now.words) contexts.now (λ nest cs.
        list ≡ step_nodes axes.Parent (node_test test.now) cs (nodes_of table.now.bytes nest))) }
    ensures names { N.knows names.new table.now }
{
    let held = parents(alloc, table, contexts)?;
    those_passing(alloc, table, names, &held, test)
}
