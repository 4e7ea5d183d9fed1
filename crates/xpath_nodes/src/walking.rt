//! The nodes on an axis, with name tests asked of what is handed in.

ghost use Rattle.std.specs.Prelude.{◌≡◌, IfErr, IfOk};
ghost use Rattle.vtd_words.specs.Table.{ForEachEntry, IsNodeOf, nodes_of};
ghost use Rattle.xpath_values.specs.declared.ValueFault.TheVariants.{NoMemory as OutOfMemory};
ghost use Rattle.xpath_axes.specs.Tests.{node_test, nodes_on};

use std::alloc::Global;
use vtd_location::Nav;
use vtd_words::Words;
use xml_model::{Axis, Node, NodeList, NodeTest};
use xpath_axes::{Names, axis_iter_by};
use xpath_values::ValueFault;

/// The nodes on an axis of a node that pass a test, each once, in axis order (XPath 1.0, sections 2.2 to 2.4), with name
/// tests asked of a resolver of the document, or of another that knows its names. `NoMemory` comes where there is no
/// memory for the list.
pub fn nodes_along<W: Words, N: Names<W>>(
    alloc: Global,
    nav: &Nav<'_, W>,
    names: &mut N,
    node: Node,
    axis: Axis,
    test: &NodeTest<'_>,
) -> Result<NodeList, ValueFault>
    requires names { N.knows names.old (record { bytes = nav.now.bytes; words = nav.now.words }) }
    requires node { IsNodeOf nav.now.bytes (W.lists nav.now.words) node }
    ensures nodes { IfOk result (λ list. ForEachEntry nav.now.bytes (W.lists nav.now.words) node (λ nest e.
        list ≡ nodes_on axis (node_test test.now) e (nodes_of nav.now.bytes nest))) }
    ensures full { IfErr result (λ e. e ≡ OutOfMemory) }
    ensures names { N.knows names.new (record { bytes = nav.now.bytes; words = nav.now.words }) }
{
    let mut left = axis_iter_by(nav, names, node, axis, test);
    let mut held = Vec::new(alloc);
    while let Some(found) = left.next_by(names) {
        if held.push(found).is_err() {
            return Err(ValueFault::NoMemory);
        }
    }
    Ok(NodeList { held })
}
