//! Values of nodes (XPath 1.0, sections 3.4 and 4.2 to 4.4): as strings and numbers, their sums, comparisons, and the
//! test of `lang`.
//!
//! A value is a number after `#`, a text after `'`, `true`, `false`, or nodes by the indexes of their first records;
//! `none` is no node. The parts of a comparison have ` | ` between them; the index of an attribute has a space and the
//! name of a language after it.

ghost use Rattle.std.specs.Prelude.{◌<◌, ◌^◌, IfOk, length};
ghost use Rattle.std.specs.List.{AllByRecursion};
ghost use Rattle.vtd_words.specs.Table.{IsNodeOf};
ghost use Rattle.xpath_values.specs.Values.{HasNodesOf};

use std::alloc::{AllocError, Global};
use vtd_builder::build;
use vtd_words::{Table, Words};
use xml_model::texts::make_text;
use xml_model::{NoMemory, Node, NodeList, Text};
use xpath_comparisons::compare;
use xpath_tokens::Comparison;
use xpath_values::{
    Number, Value, ValueFault, chars_at, is_language, number_of, number_of_text, number_seen,
    string_of, sum_next, sum_start, sum_value, text_of_number,
};

fn fault_word(fault: ValueFault) -> &'static str {
    match fault {
        ValueFault::Fraction => "fraction",
        ValueFault::Infinite => "infinite",
        ValueFault::Range => "range",
        ValueFault::NoMemory => "no memory",
    }
}

fn write_text(out: &mut String, text: Result<Text, NoMemory>) -> Result<(), AllocError> {
    match text {
        Ok(text) => write!(out, "'{}'", text.held.as_str()),
        Err(_) => out.push_str("no memory"),
    }
}

/// A number's text, or the word of its fault.
fn write_number(
    alloc: Global,
    out: &mut String,
    number: Result<Number, ValueFault>,
) -> Result<(), AllocError> {
    match number {
        Ok(number) => match text_of_number(alloc, number) {
            Ok(text) => out.push_str(text.held.as_str()),
            Err(_) => out.push_str("no memory"),
        },
        Err(fault) => out.push_str(fault_word(fault)),
    }
}

/// Nodes by the indexes of their first records.
fn nodes_in<W: Words>(
    alloc: Global,
    table: &Table<'_, W>,
    part: &str,
) -> Result<Vec<Node>, AllocError>
    ensures { IfOk result (λ v. AllByRecursion
        (λ x. IsNodeOf table.now.bytes (W.lists table.now.words) x) v.items) }
{
    let mut held = Vec::new(alloc);
    for word in part.split(" ") {
        if let Some(node) = table.node_at(word.parse::<u32>().unwrap_or(u32::MAX)) {
            held.push(node)?;
        }
    }
    Ok(held)
}

/// The value that a part of a row is.
fn value_in<W: Words>(alloc: Global, table: &Table<'_, W>, part: &str) -> Result<Value, AllocError>
    ensures { IfOk result (λ v. HasNodesOf table.now.bytes (W.lists table.now.words) v) }
{
    if let Some(text) = part.strip_prefix("'") {
        return Ok(Value::Text(make_text(alloc, text)?));
    }
    if let Some(number) = part.strip_prefix("#") {
        return Ok(Value::Number(number_of_text(number).unwrap_or(Number::Nan)));
    }
    match part {
        "true" => Ok(Value::Truth(true)),
        "false" => Ok(Value::Truth(false)),
        _ => Ok(Value::Nodes(NodeList {
            held: nodes_in(alloc, table, part)?,
        })),
    }
}

fn comparison_in(part: &str) -> Option<Comparison> {
    match part {
        "=" => Some(Comparison::Equal),
        "!=" => Some(Comparison::Unequal),
        "<" => Some(Comparison::Less),
        ">" => Some(Comparison::Greater),
        "<=" => Some(Comparison::AtMost),
        ">=" => Some(Comparison::AtLeast),
        _ => None,
    }
}

/// What a comparison answers, or the word of its fault.
fn write_compared<W: Words>(
    alloc: Global,
    out: &mut String,
    table: &Table<'_, W>,
    input: &str,
) -> Result<(), AllocError> {
    let mut parts = input.split(" | ");
    let left = value_in(alloc, table, parts.next().unwrap_or(""))?;
    let Some(how) = comparison_in(parts.next().unwrap_or("")) else {
        return out.push_str("no comparison");
    };
    let right = value_in(alloc, table, parts.next().unwrap_or(""))?;
    match compare(alloc, table, how, &left, &right) {
        Ok(true) => out.push_str("true"),
        Ok(false) => out.push_str("false"),
        Err(fault) => out.push_str(fault_word(fault)),
    }
}

/// The sum of the numbers of nodes.
fn sum_of<W: Words>(table: &Table<'_, W>, nodes: &[Node]) -> Result<Number, ValueFault>
    requires { AllByRecursion (λ x. IsNodeOf table.now.bytes (W.lists table.now.words) x) nodes.now }
{
    let mut sum = sum_start();
    let mut left = nodes;
    while let Some((node, rest)) = left.split_first() {
        sum = sum_next(sum, number_seen(table, *node)?);
        left = rest;
    }
    sum_value(sum)
}

/// Whether the value of an attribute is of a language.
fn write_language<W: Words>(
    alloc: Global,
    out: &mut String,
    table: &Table<'_, W>,
    input: &str,
) -> Result<(), AllocError> {
    let (at, language) = input.split_once(" ").unwrap_or((input, ""));
    let language = make_text(alloc, language)?;
    let Some(node) = table.node_at(at.parse::<u32>().unwrap_or(u32::MAX)) else {
        return out.push_str("no node");
    };
    if is_language(chars_at(table, node), &language) {
        return out.push_str("yes");
    }
    out.push_str("no")
}

/// The answer of a table of values of one document.
fn write_answer<W: Words>(
    alloc: Global,
    out: &mut String,
    name: &str,
    table: &Table<'_, W>,
    input: &str,
) -> Result<(), AllocError> {
    match name {
        "strings" => {
            let value = value_in(alloc, table, input)?;
            write_text(out, string_of(alloc, table, &value))
        }
        "numbers" => {
            let value = value_in(alloc, table, input)?;
            write_number(alloc, out, number_of(alloc, table, &value))
        }
        "sums" => {
            let nodes = nodes_in(alloc, table, input)?;
            write_number(alloc, out, sum_of(table, &nodes))
        }
        "comparisons" => write_compared(alloc, out, table, input),
        "languages" => write_language(alloc, out, table, input),
        _ => out.push_str("no such table"),
    }
}

/// The answer of a table of values.
pub fn answer(
    alloc: Global,
    out: &mut String,
    table: &str,
    given: &[u8],
    input: &str,
) -> Result<(), AllocError>
    requires { length given.now < 2 ^ 30 }
{
    match build(alloc, given.to_vec(alloc)?) {
        Ok(doc) => write_answer(alloc, out, table, doc.nav().table(), input),
        Err(_) => out.push_str("refused"),
    }
}
