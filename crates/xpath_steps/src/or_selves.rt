//! Steps along `ancestor-or-self` and `descendant-or-self`.

ghost use Rattle.std.specs.Prelude.{◌≡◌, IfOk};
ghost use Rattle.xml_model.specs.declared.Axis.TheVariants as axes;
ghost use Rattle.vtd_words.specs.Table.{nodes_of};
ghost use Rattle.xpath_axes.specs.Tests.{node_test};
ghost use Rattle.xpath_steps.specs.Steps.{step_nodes, AreNodesOf, ForEachContexts};

use crate::above::ancestors_of_all;
use crate::apart::descendants_of_all;
use crate::merge::merged;
use crate::selves::selves_of_all;
use std::alloc::Global;
use vtd_words::{Table, Words};
use xml_model::{NoMemory, Node, NodeList, NodeTest};
use xpath_axes::Names;

/// Those of nodes that pass a test, with their ancestors that do. The nodes are in document order, each once. It goes
/// over each record before the last of the contexts at most once. `NoMemory` comes where there is no memory for the
/// lists of both.
pub fn ancestors_or_selves_of_all<W: Words, N: Names<W>>(
    alloc: Global,
    table: &Table<'_, W>,
    names: &mut N,
    contexts: &[Node],
    test: &NodeTest<'_>,
) -> Result<NodeList, NoMemory>
    requires names { N.knows names.old table.now }
    requires contexts { AreNodesOf table.now.bytes (W.lists table.now.words) contexts.now }
    ensures step { IfOk result (λ list.
        ForEachContexts table.now.bytes (W.lists table.now.words) contexts.now (λ nest cs.
        list ≡ step_nodes axes.AncestorOrSelf (node_test test.now) cs (nodes_of table.now.bytes nest))) }
    ensures names { N.knows names.new table.now }
{
    let selves = selves_of_all(alloc, table, names, contexts, test)?;
    let ancestors = ancestors_of_all(alloc, table, names, contexts, test)?;
    let held = merged(alloc, &ancestors.held, &selves.held)?;
    Ok(NodeList { held })
}

/// Those of nodes that pass a test, with their descendants that do. The nodes are in document order, each once. It
/// reads the records of each node that is in no other, once. `NoMemory` comes where there is no memory for the lists of
/// both.
pub fn descendants_or_selves_of_all<W: Words, N: Names<W>>(
    alloc: Global,
    table: &Table<'_, W>,
    names: &mut N,
    contexts: &[Node],
    test: &NodeTest<'_>,
) -> Result<NodeList, NoMemory>
    requires names { N.knows names.old table.now }
    requires contexts { AreNodesOf table.now.bytes (W.lists table.now.words) contexts.now }
    ensures step { IfOk result (λ list.
        ForEachContexts table.now.bytes (W.lists table.now.words) contexts.now (λ nest cs.
        list ≡ step_nodes axes.DescendantOrSelf (node_test test.now) cs (nodes_of table.now.bytes nest))) }
    ensures names { N.knows names.new table.now }
{
    let selves = selves_of_all(alloc, table, names, contexts, test)?;
    let descendants = descendants_of_all(alloc, table, names, contexts, test)?;
    let held = merged(alloc, &descendants.held, &selves.held)?;
    Ok(NodeList { held })
}
