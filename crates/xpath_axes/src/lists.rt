//! The nodes on an axis as a list, and lists of nodes in document order.

ghost use Rattle.std.specs.Prelude.{◌≡◌, ◌<◌, ◌↔◌, map, Contains, IfOk};
ghost use Rattle.std.specs.List.Sorted.{IsStrictlyIncreasing};
ghost use Rattle.xml_model.specs.declared.Node.{Node};
ghost use Rattle.vtd_words.specs.Table.{ForEachEntry, IsNodeOf, nodes_of};
ghost use Rattle.xpath_axes.specs.Tests.{node_test, nodes_on};

use crate::iter::axis_iter;
use std::alloc::Global;
use vtd_location::Nav;
use vtd_words::Words;
use xml_model::{Axis, NoMemory, Node, NodeList, NodeTest};

/// The nodes on an axis of a node that pass a test, each once, in axis order (XPath 1.0, sections 2.2 to 2.4): in
/// document order, and against it on the ancestor, ancestor-or-self, preceding and preceding-sibling axes. The node is
/// one of the document. It reads what `axis_iter` and its iterator read. `NoMemory` comes where there is no memory for
/// the list.
pub fn axis<W: Words>(
    alloc: Global,
    nav: &Nav<'_, W>,
    node: Node,
    axis: Axis,
    test: &NodeTest<'_>,
) -> Result<NodeList, NoMemory>
    requires { IsNodeOf nav.now.bytes (W.lists nav.now.words) node }
    ensures { IfOk result (λ list. ForEachEntry nav.now.bytes (W.lists nav.now.words) node (λ nest e.
        list ≡ nodes_on axis (node_test test.now) e (nodes_of nav.now.bytes nest))) }
{
    let mut left = axis_iter(nav, node, axis, test);
    let mut held = Vec::new(alloc);
    while let Some(found) = left.next() {
        if held.push(found).is_err() {
            return Err(NoMemory);
        }
    }
    Ok(NodeList { held })
}

/// Puts nodes of one document into document order, which is that of `at`, and drops doubles. It takes no memory.
pub fn order(nodes: &mut NodeList)
    requires { (m n : Node) → Contains nodes.old m → Contains nodes.old n → m.at ≡ n.at → m ≡ n }
    ensures ordered { IsStrictlyIncreasing (map (λ n. n.at) nodes.new) }
    ensures same_nodes { (n : Node) → Contains nodes.new n ↔ Contains nodes.old n }
{
    nodes.held.sort_unstable_by_key(|node| node.at);
    nodes.held.dedup_by_key(|node| node.at);
}
