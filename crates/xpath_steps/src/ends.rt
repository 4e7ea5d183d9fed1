//! Steps along `following` and `preceding`.

ghost use Rattle.std.specs.Prelude.{◌≡◌, length, min, IfOk};
ghost use Rattle.std.specs.List.{AllByRecursion};
ghost use Rattle.xml_model.specs.declared.Axis.TheVariants as axes;
ghost use Rattle.xml_model.specs.Contexts.{least_past};
ghost use Rattle.xml_model.specs.Items.{first_place};
ghost use Rattle.xml_model.specs.Records.{records};
ghost use Rattle.vtd_words.specs.Table.{ForEachEntry, ForEachNest, IsNodeOf, nodes_of};
ghost use Rattle.xml_model.specs.Names.{Test};
ghost use Rattle.xpath_axes.specs.Backs.{left_before, nodes_before, IsBack};
ghost use Rattle.xpath_axes.specs.Tests.{node_test, passing};
ghost use Rattle.xpath_steps.specs.Steps.{step_nodes, AreNodesOf, ForEachContexts};

use crate::gather::append_walk;
use crate::selves::those_passing;
use std::alloc::Global;
use vtd_words::{Part, Table, Words};
use xml_model::{NameTest, NoMemory, Node, NodeList, NodeTest};
use xpath_axes::Names;
use xpath_axes::back::{Back, find_before, preceding_of};
use xpath_axes::walk::Walk;

/// The end of a node, where it is less than another. It reads the records of the node, where it begins before that.
fn sooner_end<W: Words>(table: &Table<'_, W>, node: Node, end: u32) -> u32
    requires { IsNodeOf table.now.bytes (W.lists table.now.words) node }
    ensures { ForEachEntry table.now.bytes (W.lists table.now.words) node (λ nest e. result ≡ min end e.past) }
{
    if node.at < end {
        end.min(table.end_of(node))
    } else {
        end
    }
}

/// The least end of nodes, and the number of records where there is none. It reads the records of each node that begins
/// before the end of all earlier ones.
fn least_end<W: Words>(table: &Table<'_, W>, contexts: &[Node]) -> u32
    requires { AreNodesOf table.now.bytes (W.lists table.now.words) contexts.now }
    ensures { ForEachContexts table.now.bytes (W.lists table.now.words) contexts.now (λ nest cs.
        result ≡ least_past (length (records nest (first_place table.now.bytes))) cs) }
{
    let mut end = table.words().len(Part::Records);
    for context in contexts {
        end = sooner_end(table, *context, end);
    }
    end
}

/// What follows some of the nodes and passes a test. The nodes are in document order, each once. It reads the records
/// of the first node and of those in one another in it, and then those from the least end on. `NoMemory` comes where
/// there is no memory for the list.
pub fn following_of_all<W: Words, N: Names<W>>(
    alloc: Global,
    table: &Table<'_, W>,
    names: &mut N,
    contexts: &[Node],
    test: &NodeTest<'_>,
) -> Result<NodeList, NoMemory>
    requires names { N.knows names.old table.now }
    requires contexts { AreNodesOf table.now.bytes (W.lists table.now.words) contexts.now }
    ensures step { IfOk result (λ list.
        ForEachContexts table.now.bytes (W.lists table.now.words) contexts.now (λ nest cs.
        list ≡ step_nodes axes.Following (node_test test.now) cs (nodes_of table.now.bytes nest))) }
    ensures names { N.knows names.new table.now }
{
    let walk = Walk {
        at: least_end(table, contexts),
        floor: 0,
        level: None,
        attributes: false,
    };
    let mut held = Vec::new(alloc);
    append_walk(table, names, walk, test, &mut held)?;
    Ok(NodeList { held })
}

/// The walk backward over what precedes a node.
fn back_from<W: Words>(table: &Table<'_, W>, node: Node) -> Back
    requires { IsNodeOf table.now.bytes (W.lists table.now.words) node }
    ensures axis { ForEachEntry table.now.bytes (W.lists table.now.words) node (λ nest e.
        (test : Test) → left_before result test (records nest (first_place table.now.bytes))
        (nodes_of table.now.bytes nest) ≡ passing axes.Preceding test e (nodes_of table.now.bytes nest)) }
    ensures back { ForEachNest table.now.bytes (W.lists table.now.words) (λ nest.
        IsBack (records nest (first_place table.now.bytes)) (nodes_of table.now.bytes nest) result) }
{
    // the table keeps that its document is short, so that the node is in each of its nests
    let _words = table.words();
    preceding_of(table, node)
}

/// All nodes of a walk backward, the last one first.
fn gather_back<W: Words, N: Names<W>>(
    alloc: Global,
    table: &Table<'_, W>,
    names: &mut N,
    back: Back,
    test: &NodeTest<'_>,
) -> Result<Vec<Node>, NoMemory>
    requires names { N.knows names.old table.now }
    requires back { ForEachNest table.now.bytes (W.lists table.now.words) (λ nest.
        IsBack (records nest (first_place table.now.bytes)) (nodes_of table.now.bytes nest) back) }
    ensures gathered { IfOk result (λ held. ForEachNest table.now.bytes (W.lists table.now.words) (λ nest.
        held.items ≡ nodes_before back (node_test test.now) (records nest (first_place table.now.bytes))
        (nodes_of table.now.bytes nest))) }
    ensures nodes { IfOk result (λ held.
        AllByRecursion (IsNodeOf table.now.bytes (W.lists table.now.words)) held.items) }
    ensures names { N.knows names.new table.now }
{
    let mut held = Vec::new(alloc);
    let mut rest = back;
    loop {
        let found = find_before(table, names, rest, test);
        let Some(node) = found.node else {
            return Ok(held);
        };
        if held.push(node).is_err() {
            return Err(NoMemory);
        }
        rest = found.rest;
    }
}

/// What precedes some of the nodes and passes a test, in document order, each once.
fn gather_preceding<W: Words, N: Names<W>>(
    alloc: Global,
    table: &Table<'_, W>,
    names: &mut N,
    contexts: &[Node],
    test: &NodeTest<'_>,
) -> Result<NodeList, NoMemory>
    requires names { N.knows names.old table.now }
    requires contexts { AreNodesOf table.now.bytes (W.lists table.now.words) contexts.now }
    ensures step { IfOk result (λ list.
        ForEachContexts table.now.bytes (W.lists table.now.words) contexts.now (λ nest cs.
        list ≡ step_nodes axes.Preceding (node_test test.now) cs (nodes_of table.now.bytes nest))) }
    ensures nodes { IfOk result (λ list. AreNodesOf table.now.bytes (W.lists table.now.words) list) }
    ensures names { N.knows names.new table.now }
{
    let count = contexts.len();
    if count == 0 {
        return Ok(NodeList {
            held: Vec::new(alloc),
        });
    }
    let back = back_from(table, contexts[count - 1]);
    let mut held = gather_back(alloc, table, names, back, test)?;
    held.reverse();
    Ok(NodeList { held })
}

/// What precedes some of the nodes and passes a test. The nodes are in document order, each once. It reads the records
/// before the last of them. Names are asked for in document order, once all elements before it were gathered.
/// `NoMemory` comes where there is no memory for the list, and for a name test where there is none for all elements
/// before the last of the contexts.
pub fn preceding_of_all<W: Words, N: Names<W>>(
    alloc: Global,
    table: &Table<'_, W>,
    names: &mut N,
    contexts: &[Node],
    test: &NodeTest<'_>,
) -> Result<NodeList, NoMemory>
    requires names { N.knows names.old table.now }
    requires contexts { AreNodesOf table.now.bytes (W.lists table.now.words) contexts.now }
    ensures step { IfOk result (λ list.
        ForEachContexts table.now.bytes (W.lists table.now.words) contexts.now (λ nest cs.
        list ≡ step_nodes axes.Preceding (node_test test.now) cs (nodes_of table.now.bytes nest))) }
    ensures names { N.knows names.new table.now }
{
    let NodeTest::Name(_) = *test else {
        return gather_preceding(alloc, table, names, contexts, test);
    };
    let any = NodeTest::Name(NameTest::Any);
    let elements = gather_preceding(alloc, table, names, contexts, &any)?;
    those_passing(alloc, table, names, &elements.held, test)
}
