//! The step along any axis.

ghost use Rattle.std.specs.Prelude.{◌≡◌, IfOk};
ghost use Rattle.vtd_words.specs.Table.{nodes_of};
ghost use Rattle.xpath_axes.specs.Tests.{node_test};
ghost use Rattle.xpath_steps.specs.Steps.{step_nodes, AreNodesOf, ForEachContexts};

use crate::above::ancestors_of_all;
use crate::apart::{attributes_of_all, descendants_of_all};
use crate::earlier::preceding_siblings_of_all;
use crate::ends::{following_of_all, preceding_of_all};
use crate::forward::{children_of_all, following_siblings_of_all};
use crate::or_selves::{ancestors_or_selves_of_all, descendants_or_selves_of_all};
use crate::parents::parents_of_all;
use crate::selves::selves_of_all;
use std::alloc::Global;
use vtd_words::{Table, Words};
use xml_model::{Axis, NoMemory, Node, NodeList, NodeTest};
use xpath_axes::Names;

/// The nodes on an axis of some of the contexts that pass a test (XPath 1.0, sections 2 to 2.3), in document order,
/// each once. The contexts are nodes of the document, in document order, each once. Names are asked of `names`, in
/// document order but for at most two new beginnings. It costs what the function of the axis says, a constant number of
/// reads of each record, beside what the names cost. `NoMemory` comes where there is no memory for the lists.
pub fn step_of_all<W: Words, N: Names<W>>(
    alloc: Global,
    table: &Table<'_, W>,
    names: &mut N,
    axis: Axis,
    contexts: &[Node],
    test: &NodeTest<'_>,
) -> Result<NodeList, NoMemory>
    requires names { N.knows names.old table.now }
    requires contexts { AreNodesOf table.now.bytes (W.lists table.now.words) contexts.now }
    ensures step { IfOk result (λ list.
        ForEachContexts table.now.bytes (W.lists table.now.words) contexts.now (λ nest cs.
        list ≡ step_nodes axis (node_test test.now) cs (nodes_of table.now.bytes nest))) }
    ensures names { N.knows names.new table.now }
{
    match axis {
        Axis::Itself => selves_of_all(alloc, table, names, contexts, test),
        Axis::Parent => parents_of_all(alloc, table, names, contexts, test),
        Axis::Ancestor => ancestors_of_all(alloc, table, names, contexts, test),
        Axis::AncestorOrSelf => ancestors_or_selves_of_all(alloc, table, names, contexts, test),
        Axis::Child => children_of_all(alloc, table, names, contexts, test),
        Axis::Attribute => attributes_of_all(alloc, table, names, contexts, test),
        Axis::Descendant => descendants_of_all(alloc, table, names, contexts, test),
        Axis::DescendantOrSelf => descendants_or_selves_of_all(alloc, table, names, contexts, test),
        Axis::Following => following_of_all(alloc, table, names, contexts, test),
        Axis::Preceding => preceding_of_all(alloc, table, names, contexts, test),
        Axis::FollowingSibling => following_siblings_of_all(alloc, table, names, contexts, test),
        Axis::PrecedingSibling => preceding_siblings_of_all(alloc, table, names, contexts, test),
    }
}
