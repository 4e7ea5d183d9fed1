//! The step along the axis `self`.

ghost use Rattle.std.specs.Prelude.{◌≡◌, ◌++◌, [], ◌∷◌, List, false, map, filter, IfOk};
ghost use Rattle.xml_model.specs.declared.Axis.TheVariants as axes;
ghost use Rattle.xml_model.specs.Names.{passes as passes_test};
ghost use Rattle.xml_model.specs.Tree.{Entry};
ghost use Rattle.vtd_words.specs.Table.{ForEachEntry, ForEachNest, IsNodeOf, node_of, nodes_of};
ghost use Rattle.xpath_axes.specs.Tests.{node_test};
ghost use Rattle.xpath_steps.specs.Steps.{step_nodes, AreAmong, AreNodesOf, ForEachContexts};

use std::alloc::Global;
use vtd_words::{Table, Words};
use xml_model::{NoMemory, Node, NodeList, NodeTest};
use xpath_axes::{Names, passes};

/// Appends a node, where it passes a test.
pub fn append_if<W: Words, N: Names<W>>(
    table: &Table<'_, W>,
    names: &mut N,
    node: Node,
    test: &NodeTest<'_>,
    held: &mut Vec<Node>,
) -> Result<(), NoMemory>
    requires names { N.knows names.old table.now }
    requires node { IsNodeOf table.now.bytes (W.lists table.now.words) node }
    ensures appended { IfOk result (λ done. ForEachEntry table.now.bytes (W.lists table.now.words) node (λ nest e.
        held.new.items ≡ held.old.items ++ map node_of (filter (passes_test (node_test test.now) false) (e ∷ [])))) }
    ensures names { N.knows names.new table.now }
{
    if !passes(table, names, node, false, test) {
        return Ok(());
    }
    if held.push(node).is_err() {
        return Err(NoMemory);
    }
    Ok(())
}

/// Those of nodes that pass a test, in the order of the list. `NoMemory` comes where there is no memory for them.
pub fn those_passing<W: Words, N: Names<W>>(
    alloc: Global,
    table: &Table<'_, W>,
    names: &mut N,
    nodes: &[Node],
    test: &NodeTest<'_>,
) -> Result<NodeList, NoMemory>
    requires names { N.knows names.old table.now }
    requires nodes { AreNodesOf table.now.bytes (W.lists table.now.words) nodes.now }
    ensures passing { IfOk result (λ list.
        ForEachNest table.now.bytes (W.lists table.now.words) (λ nest. (cs : List Entry) → map node_of cs ≡ nodes.now →
        AreAmong cs (nodes_of table.now.bytes nest) →
        list ≡ map node_of (filter (passes_test (node_test test.now) false) cs))) }
    ensures names { N.knows names.new table.now }
{
    let mut held = Vec::new(alloc);
    for node in nodes {
        append_if(table, names, *node, test, &mut held)?;
    }
    Ok(NodeList { held })
}

/// Those of nodes that pass a test. The nodes are in document order, each once. `NoMemory` comes where there is no
/// memory for the list.
pub fn selves_of_all<W: Words, N: Names<W>>(
    alloc: Global,
    table: &Table<'_, W>,
    names: &mut N,
    contexts: &[Node],
    test: &NodeTest<'_>,
) -> Result<NodeList, NoMemory>
    requires names { N.knows names.old table.now }
    requires contexts { AreNodesOf table.now.bytes (W.lists table.now.words) contexts.now }
    ensures step { IfOk result (λ list.
        ForEachContexts table.now.bytes (W.lists table.now.words) contexts.now (λ nest cs.
        list ≡ step_nodes axes.Itself (node_test test.now) cs (nodes_of table.now.bytes nest))) }
    ensures names { N.knows names.new table.now }
{
    those_passing(alloc, table, names, contexts, test)
}
