//! Steps from all nodes of a document along each axis.

ghost use Rattle.std.specs.Prelude.{IfOk};
ghost use Rattle.std.specs.List.{AllByRecursion};
ghost use Rattle.vtd_words.specs.Table.{IsNodeOf};
ghost use Rattle.xpath_steps.specs.Steps.{AreNodesOf};

use std::alloc::{AllocError, Global};
use std::io;
use std::rt::Clock;
use std::time::Instant;
use vtd_words::{Part, Table, Words};
use xml_model::{Axis, Node, NodeTest};
use xpath_axes::LookBack;
use xpath_steps::step_of_all;

/// Appends the node whose first record has an index, if there is one.
fn push_node<W: Words>(
    table: &Table<'_, W>,
    at: u32,
    nodes: &mut Vec<Node>,
) -> Result<(), AllocError>
    requires { AllByRecursion (IsNodeOf table.now.bytes (W.lists table.now.words)) nodes.old.items }
    ensures { IfOk result (λ done.
        AllByRecursion (IsNodeOf table.now.bytes (W.lists table.now.words)) nodes.new.items) }
{
    if let Some(node) = table.node_at(at) {
        nodes.push(node)?;
    }
    Ok(())
}

/// All nodes of a document, in document order.
fn all_nodes<W: Words>(alloc: Global, table: &Table<'_, W>) -> Result<Vec<Node>, AllocError>
    ensures { IfOk result (λ nodes. AreNodesOf table.now.bytes (W.lists table.now.words) nodes.items) }
{
    let mut nodes = Vec::new(alloc);
    for at in 0..table.words().len(Part::Records) {
        push_node(table, at, &mut nodes)?;
    }
    Ok(nodes)
}

/// Times the step along one axis.
fn time_step<R: Clock + Print + Eprint + AllocGlobal, W: Words>(
    rt: &R,
    table: &Table<'_, W>,
    contexts: &[Node],
    what: &str,
    along: Axis,
) -> io::Result<()>
    requires { AreNodesOf table.now.bytes (W.lists table.now.words) contexts.now }
{
    let start = Instant::now(rt)?;
    match step_of_all(
        rt.alloc(),
        table,
        &mut LookBack,
        along,
        contexts,
        &NodeTest::Node,
    ) {
        Ok(found) => {
            let took = start.elapsed(rt)?;
            println!(rt; "{what}: {}", found.held.len())?;
            eprintln!(rt; "{what} from all nodes: {took:?}")
        }
        Err(_) => eprintln!(rt; "no memory"),
    }
}

/// Times the step along each axis from all nodes of a document.
pub fn time<R: Clock + Print + Eprint + AllocGlobal, W: Words>(
    rt: &R,
    table: &Table<'_, W>,
) -> io::Result<()> {
    let Ok(contexts) = all_nodes(rt.alloc(), table) else {
        return eprintln!(rt; "no memory");
    };
    time_step(rt, table, &contexts, "self", Axis::Itself)?;
    time_step(rt, table, &contexts, "child", Axis::Child)?;
    time_step(rt, table, &contexts, "descendant", Axis::Descendant)?;
    time_step(rt, table, &contexts, "parent", Axis::Parent)?;
    time_step(rt, table, &contexts, "ancestor", Axis::Ancestor)?;
    time_step(
        rt,
        table,
        &contexts,
        "following-sibling",
        Axis::FollowingSibling,
    )?;
    time_step(
        rt,
        table,
        &contexts,
        "preceding-sibling",
        Axis::PrecedingSibling,
    )?;
    time_step(rt, table, &contexts, "following", Axis::Following)?;
    time_step(rt, table, &contexts, "preceding", Axis::Preceding)?;
    time_step(rt, table, &contexts, "attribute", Axis::Attribute)?;
    time_step(
        rt,
        table,
        &contexts,
        "descendant-or-self",
        Axis::DescendantOrSelf,
    )?;
    time_step(
        rt,
        table,
        &contexts,
        "ancestor-or-self",
        Axis::AncestorOrSelf,
    )
}
