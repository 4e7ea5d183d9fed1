//! Values and their conversions: XPath 1.0, sections 3.2, 4.2, 4.3 and 4.4.

ghost use Rattle.std.specs.Prelude.{◌≡◌, IfSome, Ok, fold};
ghost use Rattle.vtd_words.specs.Table.{ForEachEntry, IsNodeOf};
ghost use Rattle.xpath_values.specs.Numbers.{number_of_text, truth_of_number};
ghost use Rattle.xpath_values.specs.Reading.{read_next, read_start};
ghost use Rattle.xpath_values.specs.Seen.{truth_seen};
ghost use Rattle.xpath_values.specs.Values.{Meant, held_as, is_some_list, string_value, truth_of};

use crate::digits::{signed_number, whole_number};
use crate::reading::{NumberReader, read_next, read_start, read_value};
use crate::{Number, Value, ValueFault};
use vtd_text::{Chars, as_written};
use vtd_words::{Table, Words};
use xml_model::texts::{as_str, is_empty};
use xml_model::{Node, NodeList, Text};

/// Whether a number is neither 0 nor NaN.
fn truth_of_number(number: Number) -> bool
    ensures { result ≡ truth_of_number number }
{
    match number {
        Number::Nan => false,
        Number::Millionths(millionths) => millionths != 0,
    }
}

/// Whether a text has a character.
fn is_some_text(text: &Text) -> bool
    ensures { result ≡ is_some_list text.now }
{
    !is_empty(as_str(text))
}

/// Whether there is a node.
fn is_some_node(nodes: &[Node]) -> bool
    ensures { result ≡ is_some_list nodes.now }
{
    !nodes.is_empty()
}

/// The nodes of a list.
pub fn nodes_of(list: &NodeList) -> &[Node]
    ensures { result.now ≡ list.now }
{
    list.held.as_slice()
}

/// A value as a boolean, by what is held.
pub fn truth_seen(value: &Value) -> bool
    ensures { result ≡ truth_seen value.now }
{
    match value {
        Value::Nodes(nodes) => is_some_node(nodes_of(nodes)),
        Value::Truth(truth) => *truth,
        Value::Number(number) => truth_of_number(*number),
        Value::Text(text) => is_some_text(text),
    }
}

/// A value as a boolean (XPath 1.0, section 4.3), in constant time.
pub fn truth_of(value: &Value) -> bool
    ensures { (v : Meant) → value.now ≡ held_as v → result ≡ truth_of v }
{
    truth_seen(value)
}

/// What is known of the number of characters at their end.
fn read_all<W: Words>(chars: Chars<'_, W>) -> NumberReader
    ensures { result ≡ fold read_next read_start chars.entry }
{
    let mut left = chars;
    let mut reader = read_start();
    while let Some(c) = left.next() {
        reader = read_next(reader, c);
    }
    reader
}

/// The number of a node's string-value where that is written in one record, as 1 to 15 digits; `None` for other nodes.
#[inline(always)]
fn whole_written<W: Words>(table: &Table<'_, W>, node: Node) -> Option<Number>
    requires { IsNodeOf table.now.bytes (W.lists table.now.words) node }
    ensures { ForEachEntry table.now.bytes (W.lists table.now.words) node
        (λ nest e. IfSome result (λ x. number_of_text (string_value e) ≡ Ok x)) }
{
    whole_number(as_written(table, node)?)
}

/// The same with a minus before the digits, or without.
fn signed_written<W: Words>(table: &Table<'_, W>, node: Node) -> Option<Number>
    requires { IsNodeOf table.now.bytes (W.lists table.now.words) node }
    ensures { ForEachEntry table.now.bytes (W.lists table.now.words) node
        (λ nest e. IfSome result (λ x. number_of_text (string_value e) ≡ Ok x)) }
{
    signed_number(as_written(table, node)?)
}

/// The number of a node's string-value, read character by character.
fn number_read<W: Words>(table: &Table<'_, W>, node: Node) -> Result<Number, ValueFault>
    requires { IsNodeOf table.now.bytes (W.lists table.now.words) node }
    ensures { ForEachEntry table.now.bytes (W.lists table.now.words) node
        (λ nest e. result ≡ number_of_text (string_value e)) }
{
    read_value(read_all(Chars::of(table, node)))
}

/// The number of a node's string-value that is not of digits alone.
#[inline(never)]
fn number_otherwise<W: Words>(table: &Table<'_, W>, node: Node) -> Result<Number, ValueFault>
    requires { IsNodeOf table.now.bytes (W.lists table.now.words) node }
    ensures { ForEachEntry table.now.bytes (W.lists table.now.words) node
        (λ nest e. result ≡ number_of_text (string_value e)) }
{
    match signed_written(table, node) {
        Some(number) => Ok(number),
        None => number_read(table, node),
    }
}

/// The number of a node's string-value (XPath 1.0, section 4.4), in one pass over its characters, without memory.
///
/// # Errors
/// `Fraction` where a digit after the sixth place is not 0; else `Range` where the number is out of range.
#[inline(always)]
pub fn number_at<W: Words>(table: &Table<'_, W>, node: Node) -> Result<Number, ValueFault>
    requires { IsNodeOf table.now.bytes (W.lists table.now.words) node }
    ensures { ForEachEntry table.now.bytes (W.lists table.now.words) node
        (λ nest e. result ≡ number_of_text (string_value e)) }
{
    match whole_written(table, node) {
        Some(number) => Ok(number),
        None => number_otherwise(table, node),
    }
}
