//! Steps from lists of nodes (XPath 1.0, sections 2 and 2.2), and document order (section 5).
//!
//! A row of `steps` is `AT,AT.. AXIS TEST`: the indexes of the first records of the contexts, in document order, and
//! the axis and the test as in `axes`. The answer has the indexes of the nodes on that axis of some context, or `none`.
//! A row of `order` is `AT,AT..`: nodes in any order, and the answer has them in document order, each once.

ghost use Rattle.std.specs.Prelude.{◌<◌, ◌^◌, length, IfOk};
ghost use Rattle.std.specs.List.{AllByRecursion};
ghost use Rattle.vtd_words.specs.Table.{IsNodeOf};
ghost use Rattle.xpath_steps.specs.Steps.{AreNodesOf};

use crate::axes::{axis_of, test_of};
use std::alloc::{AllocError, Global};
use vtd_builder::build;
use vtd_namespaces::Resolver;
use vtd_words::{Table, Words};
use xml_model::{Axis, Node, NodeList, NodeTest};
use xpath_axes::{LookBack, order};
use xpath_steps::step_of_all;

/// Appends the node whose first record has an index, if there is one.
fn push_node<W: Words>(
    table: &Table<'_, W>,
    at: u32,
    nodes: &mut Vec<Node>,
) -> Result<(), AllocError>
    requires { AllByRecursion (IsNodeOf table.now.bytes (W.lists table.now.words)) nodes.old.items }
    ensures { IfOk result (λ done.
        AllByRecursion (IsNodeOf table.now.bytes (W.lists table.now.words)) nodes.new.items) }
{
    if let Some(node) = table.node_at(at) {
        nodes.push(node)?;
    }
    Ok(())
}

/// The nodes of indexes that are separated by commas; those where no node begins are left out.
fn nodes_at<W: Words>(
    alloc: Global,
    table: &Table<'_, W>,
    text: &str,
) -> Result<Vec<Node>, AllocError>
    ensures { IfOk result (λ nodes.
        AllByRecursion (IsNodeOf table.now.bytes (W.lists table.now.words)) nodes.items) }
{
    let mut nodes = Vec::new(alloc);
    for word in text.split(",") {
        let at = word.parse::<u32>().unwrap_or(u32::MAX);
        push_node(table, at, &mut nodes)?;
    }
    Ok(nodes)
}

/// The indexes of nodes, or `none`.
pub fn write_nodes(out: &mut String, nodes: &[Node]) -> Result<(), AllocError> {
    for node in nodes {
        if !out.is_empty() {
            out.push_str(" ")?;
        }
        write!(out, "{}", node.at)?;
    }
    if out.is_empty() {
        out.push_str("none")?;
    }
    Ok(())
}

/// The nodes of a step, by names that are looked back for, and whether a resolver finds the same.
fn write_step<W: Words>(
    alloc: Global,
    out: &mut String,
    table: &Table<'_, W>,
    contexts: &[Node],
    along: Axis,
    test: &NodeTest<'_>,
) -> Result<(), AllocError>
    requires { AreNodesOf table.now.bytes (W.lists table.now.words) contexts.now }
{
    let Ok(found) = step_of_all(alloc, table, &mut LookBack, along, contexts, test) else {
        return Err(AllocError);
    };
    let mut resolver = Resolver::new(table);
    let Ok(again) = step_of_all(alloc, table, &mut resolver, along, contexts, test) else {
        return Err(AllocError);
    };
    if found.held != again.held {
        return out.push_str("another list");
    }
    write_nodes(out, &found.held)
}

/// The answer of a row of `steps`.
fn write_answer<W: Words>(
    alloc: Global,
    out: &mut String,
    table: &Table<'_, W>,
    input: &str,
) -> Result<(), AllocError> {
    let mut words = input.split(" ");
    let contexts = nodes_at(alloc, table, words.next().unwrap_or(""))?;
    let Some(along) = axis_of(words.next().unwrap_or("")) else {
        return out.push_str("no such axis");
    };
    let test = test_of(words.next().unwrap_or(""));
    write_step(alloc, out, table, &contexts, along, &test)
}

/// The answer of a row of a table of steps.
pub fn answer(alloc: Global, out: &mut String, given: &[u8], input: &str) -> Result<(), AllocError>
    requires { length given.now < 2 ^ 30 }
{
    match build(alloc, given.to_vec(alloc)?) {
        Ok(doc) => write_answer(alloc, out, doc.nav().table(), input),
        Err(_) => out.push_str("refused"),
    }
}

/// The nodes of a row of `order`, in document order.
fn write_order<W: Words>(
    alloc: Global,
    out: &mut String,
    table: &Table<'_, W>,
    input: &str,
) -> Result<(), AllocError> {
    let held = nodes_at(alloc, table, input)?;
    let mut nodes = NodeList { held };
    // the table keeps that its document is short, so that a record begins one node at most
    let _words = table.words();
    order(&mut nodes);
    write_nodes(out, &nodes.held)
}

/// The answer of a row of a table of `order`.
pub fn answer_order(
    alloc: Global,
    out: &mut String,
    given: &[u8],
    input: &str,
) -> Result<(), AllocError>
    requires { length given.now < 2 ^ 30 }
{
    match build(alloc, given.to_vec(alloc)?) {
        Ok(doc) => write_order(alloc, out, doc.nav().table(), input),
        Err(_) => out.push_str("refused"),
    }
}
