//! Walks, gathered into a list.

ghost use Rattle.std.specs.Prelude.{◌≡◌, ◌++◌, IfOk};
ghost use Rattle.xml_model.specs.Items.{first_place};
ghost use Rattle.xml_model.specs.Records.{records};
ghost use Rattle.vtd_words.specs.Table.{ForEachNest, nodes_of};
ghost use Rattle.xpath_axes.specs.Tests.{node_test};
ghost use Rattle.xpath_axes.specs.Walks.{nodes_left, stop_of};

use vtd_words::{Table, Words};
use xml_model::{NoMemory, Node, NodeTest};
use xpath_axes::Names;
use xpath_axes::walk::{Walk, find};

/// Appends all nodes of a walk, and answers the record where it stops.
pub fn append_walk<W: Words, N: Names<W>>(
    table: &Table<'_, W>,
    names: &mut N,
    walk: Walk,
    test: &NodeTest<'_>,
    held: &mut Vec<Node>,
) -> Result<u32, NoMemory>
    requires { N.knows names.old table.now }
    ensures appended { IfOk result (λ stop. ForEachNest table.now.bytes (W.lists table.now.words) (λ nest.
        held.new.items ≡ held.old.items ++ nodes_left walk (node_test test.now)
        (records nest (first_place table.now.bytes))
        (nodes_of table.now.bytes nest))) }
    ensures stop { IfOk result (λ stop. ForEachNest table.now.bytes (W.lists table.now.words) (λ nest.
        stop ≡ stop_of walk (records nest (first_place table.now.bytes)))) }
    ensures names { N.knows names.new table.now }
{
    let mut rest = walk;
    loop {
        let found = find(table, names, rest, test);
        let Some(node) = found.node else {
            return Ok(found.next);
        };
        if held.push(node).is_err() {
            return Err(NoMemory);
        }
        rest.at = found.next;
    }
}
