//! From a node to those above it.

ghost use Rattle.std.specs.Prelude.{◌≡◌, ◌<◌, ◌++◌, IfSome, option_to_list};
ghost use Rattle.vtd_words.specs.Table.{ForEachNest, IdentifiesInEach, IsNodeOf, nodes_of};
ghost use Rattle.xpath_axes.specs.Climbs.{above_found, nodes_above};
ghost use Rattle.xpath_axes.specs.Tests.{node_test};

use crate::names::Names;
use crate::node_tests::passes;
use vtd_words::{Table, Words};
use xml_model::{Node, NodeTest};

/// The nearest node above a node that passes a test. It reads the records back to the first one of that node.
pub fn find_above<W: Words, N: Names<W>>(
    table: &Table<'_, W>,
    names: &mut N,
    node: Node,
    test: &NodeTest<'_>,
) -> Option<Node>
    requires node { IsNodeOf table.now.bytes (W.lists table.now.words) node }
    requires each { IdentifiesInEach table.now.bytes (W.lists table.now.words) node }
    requires names { N.knows names.old table.now }
    ensures found { ForEachNest table.now.bytes (W.lists table.now.words) (λ nest.
        nodes_above node.at (node_test test.now) (nodes_of table.now.bytes nest)
        ≡ option_to_list result ++ above_found result (node_test test.now) (nodes_of table.now.bytes nest)) }
    ensures node { IfSome result (IsNodeOf table.now.bytes (W.lists table.now.words)) }
    ensures each { IfSome result (IdentifiesInEach table.now.bytes (W.lists table.now.words)) }
    ensures up { IfSome result (λ found. found.at < node.at) }
    ensures names { N.knows names.new table.now }
{
    let mut at = node;
    while let Some(owner) = table.owner_of(at) {
        if passes(table, names, owner, false, test) {
            return Some(owner);
        }
        at = owner;
    }
    None
}
