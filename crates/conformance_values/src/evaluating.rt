//! The value of an expression with the root as the context node (XPath 1.0).
//!
//! A table is `evaluate`, or `evaluate P=URI Q=URI` where prefixes are bound. A row is an expression, and the answer
//! its value as a string, or for a node-set the kind, the start and the length in bytes of each node, or `nodes 0`; or
//! the refusal.

ghost use Rattle.std.specs.Prelude.{◌<◌, ◌^◌, length};

use std::alloc::{AllocError, Global};
use vtd_builder::build;
use vtd_cursor::span;
use vtd_location::Nav;
use vtd_words::Words;
use xml_model::texts::as_str;
use xml_model::{Kind, NodeList};
use xpath_eval::evaluate;
use xpath_grammar::{Bindings, check, parse};
use xpath_values::{Value, ValueFault, string_of};

/// The name of a kind of node.
fn kind_name(kind: Kind) -> &'static str {
    match kind {
        Kind::Root => "root",
        Kind::Element => "element",
        Kind::Attribute => "attribute",
        Kind::Text => "text",
        Kind::Comment => "comment",
        Kind::Instruction => "instruction",
    }
}

/// The name of a fault.
fn fault_name(fault: ValueFault) -> &'static str {
    match fault {
        ValueFault::Fraction => "fraction",
        ValueFault::Infinite => "infinite",
        ValueFault::Range => "range",
        ValueFault::NoMemory => "no memory",
    }
}

/// The bindings of a table.
pub fn bindings_of(alloc: Global, table: &str) -> Bindings {
    let mut bindings = Bindings::new(alloc);
    for word in table.split(" ") {
        if let Some((prefix, uri)) = word.split_once("=") {
            let _bound = bindings.set(prefix, uri);
        }
    }
    bindings
}

/// The nodes of a node-set.
fn write_nodes<W: Words>(
    out: &mut String,
    nav: &Nav<'_, W>,
    list: &NodeList,
) -> Result<(), AllocError> {
    for node in &list.held {
        if let Some(node) = nav.table().node_at(node.at) {
            let found = span(nav, node);
            let len = found.end.wrapping_sub(found.start);
            if !out.is_empty() {
                out.push_str(", ")?;
            }
            write!(out, "{} {} {}", kind_name(node.kind), found.start, len)?;
        }
    }
    if out.is_empty() {
        out.push_str("nodes 0")?;
    }
    Ok(())
}

/// The answer of a row.
pub fn write_answer<W: Words>(
    alloc: Global,
    out: &mut String,
    nav: &Nav<'_, W>,
    bindings: &Bindings,
    input: &str,
) -> Result<(), AllocError> {
    let Ok(expr) = parse(alloc, input) else {
        return out.push_str("no expression");
    };
    if check(&expr, bindings).is_err() {
        return out.push_str("refused");
    }
    match evaluate(alloc, nav, &expr, bindings) {
        Err(fault) => out.push_str(fault_name(fault)),
        Ok(Value::Nodes(list)) => write_nodes(out, nav, &list),
        Ok(value) => match string_of(alloc, nav.table(), &value) {
            Ok(text) => out.push_str(as_str(&text)),
            Err(_) => Err(AllocError),
        },
    }
}

/// The answer of a table of values.
pub fn answer(
    alloc: Global,
    out: &mut String,
    table: &str,
    given: &[u8],
    input: &str,
) -> Result<(), AllocError>
    requires { length given.now < 2 ^ 30 }
{
    match build(alloc, given.to_vec(alloc)?) {
        Ok(doc) => write_answer(alloc, out, &doc.nav(), &bindings_of(alloc, table), input),
        Err(_) => out.push_str("refused"),
    }
}
