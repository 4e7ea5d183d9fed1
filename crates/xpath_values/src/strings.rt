//! Values as strings and numbers: XPath 1.0, sections 4.2 and 4.4.

ghost use Rattle.std.specs.Prelude.{◌≡◌, IfOk, List, ℕ};
ghost use Rattle.std.specs.List.{AllByRecursion};
ghost use Rattle.std.specs.Str.{chars};
ghost use Rattle.vtd_words.specs.Table.{IsNodeOf};
ghost use Rattle.xpath_values.specs.Numbers.{number_of_text};
ghost use Rattle.xpath_values.specs.Seen.{HasString, HaveStrings, IsSeen, first_text, number_seen, string_seen};
ghost use Rattle.xpath_values.specs.Values.{ForEachMeant, HasNodesOf, number_of, number_of_truth, string_of};
ghost use Rattle.xpath_values.specs.Values.{truth_text};

use crate::building::{made, nothing};
use crate::reading::number_of_text;
use crate::spelled::text_of_number;
use crate::values::{nodes_of, number_at};
use crate::{Number, Value, ValueFault};
use std::alloc::Global;
use vtd_text::{Chars, append_to};
use vtd_words::{Table, Words};
use xml_model::texts::{as_str, copy_text};
use xml_model::{NoMemory, Node, Text};

/// The characters of a node's string-value (XPath 1.0, section 5).
pub fn chars_at<'a, W: Words>(table: &Table<'a, W>, node: Node) -> Chars<'a, W>
    requires { IsNodeOf table.now.bytes (W.lists table.now.words) node }
    ensures { (t : List ℕ) → HasString table.now.bytes (W.lists table.now.words) node t → result ≡ t }
{
    Chars::of(table, node)
}

/// The number of a node's string-value.
#[inline(always)]
pub fn number_seen<W: Words>(table: &Table<'_, W>, node: Node) -> Result<Number, ValueFault>
    requires { IsNodeOf table.now.bytes (W.lists table.now.words) node }
    ensures { (t : List ℕ) → HasString table.now.bytes (W.lists table.now.words) node t →
        result ≡ number_of_text t }
{
    number_at(table, node)
}

/// The string-value of a node, as a text.
fn node_text<W: Words>(alloc: Global, table: &Table<'_, W>, node: Node) -> Result<Text, NoMemory>
    requires { IsNodeOf table.now.bytes (W.lists table.now.words) node }
    ensures { (t : List ℕ) → HasString table.now.bytes (W.lists table.now.words) node t →
        IfOk result (λ x. x ≡ t) }
{
    let mut text = nothing(alloc)?;
    append_to(alloc, chars_at(table, node), &mut text)?;
    Ok(text)
}

/// The string-value of the first node, as a text; no characters where there is no node.
fn first_text<W: Words>(
    alloc: Global,
    table: &Table<'_, W>,
    nodes: &[Node],
) -> Result<Text, NoMemory>
    requires { AllByRecursion (λ x. IsNodeOf table.now.bytes (W.lists table.now.words) x) nodes.now }
    ensures { (ts : List (List ℕ)) → HaveStrings table.now.bytes (W.lists table.now.words) nodes.now ts →
        IfOk result (λ x. x ≡ first_text ts) }
{
    match nodes.first() {
        None => nothing(alloc),
        Some(node) => node_text(alloc, table, *node),
    }
}

/// The number of the first node's string-value; NaN where there is no node.
fn first_number<W: Words>(table: &Table<'_, W>, nodes: &[Node]) -> Result<Number, ValueFault>
    requires { AllByRecursion (λ x. IsNodeOf table.now.bytes (W.lists table.now.words) x) nodes.now }
    ensures { (ts : List (List ℕ)) → HaveStrings table.now.bytes (W.lists table.now.words) nodes.now ts →
        result ≡ number_of_text (first_text ts) }
{
    match nodes.first() {
        None => Ok(Number::Nan),
        Some(node) => number_seen(table, *node),
    }
}

/// The text of a boolean.
fn truth_text(truth: bool) -> &'static str
    ensures { chars result.now ≡ truth_text truth }
{
    if truth { "true" } else { "false" }
}

/// A boolean as a number.
pub fn number_of_truth(truth: bool) -> Number
    ensures { result ≡ number_of_truth truth }
{
    Number::Millionths(if truth { 1_000_000 } else { 0 })
}

/// The same text again.
fn copied(alloc: Global, text: &Text) -> Result<Text, NoMemory>
    ensures { IfOk result (λ x. x ≡ text.now) }
{
    match copy_text(alloc, text) {
        Ok(text) => Ok(text),
        Err(_) => Err(NoMemory),
    }
}

/// A value as a string, by the string-values of its nodes.
fn string_seen<W: Words>(
    alloc: Global,
    table: &Table<'_, W>,
    value: &Value,
) -> Result<Text, NoMemory>
    requires { HasNodesOf table.now.bytes (W.lists table.now.words) value.now }
    ensures { (ts : List (List ℕ)) → IsSeen table.now.bytes (W.lists table.now.words) value.now ts →
        IfOk result (λ x. x ≡ string_seen value.now ts) }
{
    match value {
        Value::Nodes(nodes) => first_text(alloc, table, nodes_of(nodes)),
        Value::Truth(truth) => made(alloc, truth_text(*truth)),
        Value::Number(number) => text_of_number(alloc, *number),
        Value::Text(text) => copied(alloc, text),
    }
}

/// A value as a string (XPath 1.0, section 4.2): of a node-set the string-value of its first node in document order,
/// and no characters where there is none; of a number its digits. It takes one pass over what it copies.
///
/// # Errors
/// Where memory was not to be had.
pub fn string_of<W: Words>(
    alloc: Global,
    table: &Table<'_, W>,
    value: &Value,
) -> Result<Text, NoMemory>
    requires { HasNodesOf table.now.bytes (W.lists table.now.words) value.now }
    ensures { ForEachMeant table.now.bytes (W.lists table.now.words) value.now (λ v.
        IfOk result (λ x. x ≡ string_of v)) }
{
    string_seen(alloc, table, value)
}

/// A value as a number, by the string-values of its nodes.
pub fn value_number<W: Words>(table: &Table<'_, W>, value: &Value) -> Result<Number, ValueFault>
    requires { HasNodesOf table.now.bytes (W.lists table.now.words) value.now }
    ensures { (ts : List (List ℕ)) → IsSeen table.now.bytes (W.lists table.now.words) value.now ts →
        result ≡ number_seen value.now ts }
{
    match value {
        Value::Nodes(nodes) => first_number(table, nodes_of(nodes)),
        Value::Truth(truth) => Ok(number_of_truth(*truth)),
        Value::Number(number) => Ok(*number),
        Value::Text(text) => number_of_text(as_str(text)),
    }
}

/// A value as a number (XPath 1.0, section 4.4): of a boolean 1 or 0, of a node-set the number of the string-value of
/// its first node in document order, and NaN where there is none. It takes one pass over the characters, and no
/// memory.
///
/// # Errors
/// `Fraction` where a digit after the sixth place is not 0; else `Range` where the number is out of range. Never
/// `NoMemory`.
pub fn number_of<W: Words>(
    _alloc: Global,
    table: &Table<'_, W>,
    value: &Value,
) -> Result<Number, ValueFault>
    requires { HasNodesOf table.now.bytes (W.lists table.now.words) value.now }
    ensures { ForEachMeant table.now.bytes (W.lists table.now.words) value.now (λ v. result ≡ number_of v) }
{
    value_number(table, value)
}
