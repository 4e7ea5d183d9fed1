//! Steps whose lists come one context after another.

ghost use Rattle.std.specs.Prelude.{◌≡◌, ◌++◌, ◌⊎◌, map, filter, false, true, IfOk, IfSome, IfNone};
ghost use Rattle.xml_model.specs.declared.Axis.TheVariants as axes;
ghost use Rattle.xml_model.specs.Laws.{by_indexes};
ghost use Rattle.xml_model.specs.Names.{passes as passes_test};
ghost use Rattle.vtd_words.specs.Table.{ForEachEntry, IsNodeOf, node_of, nodes_of};
ghost use Rattle.xpath_axes.specs.Tests.{node_test};
ghost use Rattle.xpath_steps.specs.Steps.{step_nodes, ApartFrom, AreNodesOf, ForEachContexts};

use crate::gather::append_walk;
use std::alloc::Global;
use vtd_words::{Table, Words};
use xml_model::{Kind, NoMemory, Node, NodeList, NodeTest};
use xpath_axes::Names;
use xpath_axes::starts::{attributes_of, children_of, descendants_of};

/// Appends the descendants of a node that pass a test, and answers the record past those of the node.
fn append_descendants<W: Words, N: Names<W>>(
    table: &Table<'_, W>,
    names: &mut N,
    node: Node,
    test: &NodeTest<'_>,
    held: &mut Vec<Node>,
) -> Result<u32, NoMemory>
    requires names { N.knows names.old table.now }
    requires node { IsNodeOf table.now.bytes (W.lists table.now.words) node }
    ensures appended { IfOk result (λ past. ForEachEntry table.now.bytes (W.lists table.now.words) node (λ nest e.
        held.new.items ≡ held.old.items ++ map node_of (filter (passes_test (node_test test.now) false)
        (filter (by_indexes axes.Descendant e) (nodes_of table.now.bytes nest))))) }
    ensures past { IfOk result (λ past. ForEachEntry table.now.bytes (W.lists table.now.words) node (λ nest e.
        past ≡ e.past)) }
    ensures names { N.knows names.new table.now }
{
    let stop = append_walk(table, names, descendants_of(table, node), test, held)?;
    match node.kind {
        Kind::Root => Ok(stop),
        Kind::Element => Ok(stop),
        _ => Ok(table.end_of(node)),
    }
}

/// The descendants of nodes that pass a test. The nodes are in document order, each once. It reads the records of each
/// node that is in no other, once. `NoMemory` comes where there is no memory for the list.
pub fn descendants_of_all<W: Words, N: Names<W>>(
    alloc: Global,
    table: &Table<'_, W>,
    names: &mut N,
    contexts: &[Node],
    test: &NodeTest<'_>,
) -> Result<NodeList, NoMemory>
    requires names { N.knows names.old table.now }
    requires contexts { AreNodesOf table.now.bytes (W.lists table.now.words) contexts.now }
    ensures step { IfOk result (λ list.
        ForEachContexts table.now.bytes (W.lists table.now.words) contexts.now (λ nest cs.
        list ≡ step_nodes axes.Descendant (node_test test.now) cs (nodes_of table.now.bytes nest))) }
    ensures names { N.knows names.new table.now }
{
    let mut held = Vec::new(alloc);
    let mut low = 0;
    for context in contexts {
        if low <= context.at {
            low = append_descendants(table, names, *context, test, &mut held)?;
        }
    }
    Ok(NodeList { held })
}

/// Appends the attributes of a node that pass a test.
fn append_attributes<W: Words, N: Names<W>>(
    table: &Table<'_, W>,
    names: &mut N,
    node: Node,
    test: &NodeTest<'_>,
    held: &mut Vec<Node>,
) -> Result<(), NoMemory>
    requires names { N.knows names.old table.now }
    requires node { IsNodeOf table.now.bytes (W.lists table.now.words) node }
    ensures appended { IfOk result (λ done. ForEachEntry table.now.bytes (W.lists table.now.words) node (λ nest e.
        held.new.items ≡ held.old.items ++ map node_of (filter (passes_test (node_test test.now) true)
        (filter (by_indexes axes.Attribute e) (nodes_of table.now.bytes nest))))) }
    ensures names { N.knows names.new table.now }
{
    append_walk(table, names, attributes_of(table, node), test, held)?;
    Ok(())
}

/// The attributes of nodes that pass a test. The nodes are in document order, each once. It reads the records of the
/// attributes of each. `NoMemory` comes where there is no memory for the list.
pub fn attributes_of_all<W: Words, N: Names<W>>(
    alloc: Global,
    table: &Table<'_, W>,
    names: &mut N,
    contexts: &[Node],
    test: &NodeTest<'_>,
) -> Result<NodeList, NoMemory>
    requires names { N.knows names.old table.now }
    requires contexts { AreNodesOf table.now.bytes (W.lists table.now.words) contexts.now }
    ensures step { IfOk result (λ list.
        ForEachContexts table.now.bytes (W.lists table.now.words) contexts.now (λ nest cs.
        list ≡ step_nodes axes.Attribute (node_test test.now) cs (nodes_of table.now.bytes nest))) }
    ensures names { N.knows names.new table.now }
{
    let mut held = Vec::new(alloc);
    for context in contexts {
        append_attributes(table, names, *context, test, &mut held)?;
    }
    Ok(NodeList { held })
}

/// Appends the children of a node that pass a test, and answers the record past those of the node.
fn append_children<W: Words, N: Names<W>>(
    table: &Table<'_, W>,
    names: &mut N,
    node: Node,
    test: &NodeTest<'_>,
    held: &mut Vec<Node>,
) -> Result<u32, NoMemory>
    requires names { N.knows names.old table.now }
    requires node { IsNodeOf table.now.bytes (W.lists table.now.words) node }
    ensures appended { IfOk result (λ past. ForEachEntry table.now.bytes (W.lists table.now.words) node (λ nest e.
        held.new.items ≡ held.old.items ++ map node_of (filter (passes_test (node_test test.now) false)
        (filter (by_indexes axes.Child e) (nodes_of table.now.bytes nest))))) }
    ensures past { IfOk result (λ past. ForEachEntry table.now.bytes (W.lists table.now.words) node (λ nest e.
        past ≡ e.past)) }
    ensures names { N.knows names.new table.now }
{
    let stop = append_walk(table, names, children_of(table, node), test, held)?;
    match node.kind {
        Kind::Root => Ok(stop),
        Kind::Element => Ok(stop),
        _ => Ok(table.end_of(node)),
    }
}

/// The children of nodes that pass a test, where none of the nodes begins before the end of an earlier one; `None`
/// exactly where one does. The nodes are in document order, each once. It reads the records of each node, once.
/// `NoMemory` comes where there is no memory for the list.
pub fn children_if_apart<W: Words, N: Names<W>>(
    alloc: Global,
    table: &Table<'_, W>,
    names: &mut N,
    contexts: &[Node],
    test: &NodeTest<'_>,
) -> Result<Option<NodeList>, NoMemory>
    requires names { N.knows names.old table.now }
    requires contexts { AreNodesOf table.now.bytes (W.lists table.now.words) contexts.now }
    ensures step { IfOk result (λ found. IfSome found (λ list.
        ForEachContexts table.now.bytes (W.lists table.now.words) contexts.now (λ nest cs.
        list ≡ step_nodes axes.Child (node_test test.now) cs (nodes_of table.now.bytes nest)))) }
    ensures apart { IfOk result (λ found. IfSome found (λ list.
        ForEachContexts table.now.bytes (W.lists table.now.words) contexts.now (λ nest cs. ApartFrom 0 cs))) }
    ensures nested { IfOk result (λ found. IfNone found (
        ForEachContexts table.now.bytes (W.lists table.now.words) contexts.now (λ nest cs. ApartFrom 0 cs → ⊥))) }
    ensures names { N.knows names.new table.now }
{
    let mut held = Vec::new(alloc);
    let mut low = 0;
    for context in contexts {
        if context.at < low {
            return Ok(None);
        }
        low = append_children(table, names, *context, test, &mut held)?;
    }
    Ok(Some(NodeList { held }))
}
