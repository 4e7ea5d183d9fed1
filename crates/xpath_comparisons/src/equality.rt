//! Comparisons by `=` and `!=`: as booleans if one is a boolean, else as numbers if one is a number, else as strings.

ghost use Rattle.std.specs.Prelude.{◌≡◌, ◌&&◌, ◌∷◌, [], List, MatchOption, Ok, false, ◌||◌, ℕ};
ghost use Rattle.std.specs.List.{AllByRecursion, list_any};
ghost use Rattle.std.specs.Str.{chars};
ghost use Rattle.vtd_words.specs.Table.{IsNodeOf};
ghost use Rattle.xpath_values.specs.declared.Value.TheVariants as held;
ghost use Rattle.xpath_values.specs.Answers.{Gives, each, with};
ghost use Rattle.xpath_values.specs.Numbers.{compare_numbers, number_of_text};
ghost use Rattle.xpath_values.specs.Seen.{HaveStrings, IsSeen};
ghost use Rattle.xpath_values.specs.Values.{HasNodesOf, same_truth};
ghost use Rattle.xpath_comparisons.specs.Comparing.{by_kind, by_strings, equality_of, is_equal, is_nodes};
ghost use Rattle.xpath_comparisons.specs.Comparing.{is_number, is_truth, numbers_seen, strings_seen, takes_memory};

use crate::extents::is_truth;
use crate::index::any_common;
use crate::sets::{any_text, by_equality, differ};
use std::alloc::Global;
use vtd_words::{Table, Words};
use xml_model::Node;
use xml_model::texts::{as_str, same_str};
use xpath_tokens::Comparison;
use xpath_values::{
    Number, Value, ValueFault, compare_numbers, nodes_of, number_seen, truth_seen, value_number,
};

/// `=` or `!=`.
fn equality_of(unequal: bool) -> Comparison
    ensures { result ≡ equality_of unequal }
{
    if unequal {
        Comparison::Unequal
    } else {
        Comparison::Equal
    }
}

/// Whether two booleans are the same.
fn same_truth(one: bool, other: bool) -> bool
    ensures { result ≡ same_truth one other }
{
    one == other
}

/// The number that a value is, if it is one.
fn number_in(value: &Value) -> Option<Number>
    ensures { MatchOption result (is_number value.now ≡ false) (λ x. value.now ≡ held.Number x) }
{
    match value {
        Value::Number(number) => Some(*number),
        _ => None,
    }
}

/// Whether one of two is true.
fn either(one: bool, other: bool) -> bool
    ensures { result ≡ (one || other) }
{
    one || other
}

/// Whether the number of some node compares so with a number; the first fault of a node's number. All are converted.
fn any_number_of_nodes<W: Words>(
    table: &Table<'_, W>,
    how: Comparison,
    nodes: &[Node],
    number: Number,
) -> Result<bool, ValueFault>
    requires { AllByRecursion (λ x. IsNodeOf table.now.bytes (W.lists table.now.words) x) nodes.now }
    ensures { (ts : List (List ℕ)) → HaveStrings table.now.bytes (W.lists table.now.words) nodes.now ts →
        result ≡ with (each number_of_text ts) (list_any (λ x. compare_numbers how x number)) }
{
    let mut found = false;
    let mut left = nodes;
    while let Some((node, rest)) = left.split_first() {
        match number_seen(table, *node) {
            Ok(other) => found = either(found, compare_numbers(how, other, number)),
            Err(fault) => return Err(fault),
        }
        left = rest;
    }
    Ok(found)
}

/// Whether some number of a value compares so with a number.
fn any_number<W: Words>(
    table: &Table<'_, W>,
    how: Comparison,
    value: &Value,
    number: Number,
) -> Result<bool, ValueFault>
    requires { HasNodesOf table.now.bytes (W.lists table.now.words) value.now }
    ensures { (ts : List (List ℕ)) → IsSeen table.now.bytes (W.lists table.now.words) value.now ts →
        result ≡ with (numbers_seen value.now ts) (list_any (λ x. compare_numbers how x number)) }
{
    match value {
        Value::Nodes(nodes) => any_number_of_nodes(table, how, nodes_of(nodes), number),
        _ => match value_number(table, value) {
            Ok(other) => Ok(compare_numbers(how, other, number)),
            Err(fault) => Err(fault),
        },
    }
}

/// Two node-sets compared.
fn sets<W: Words>(
    alloc: Global,
    table: &Table<'_, W>,
    unequal: bool,
    nodes: &[Node],
    others: &[Node],
) -> Result<bool, ValueFault>
    requires left { AllByRecursion (λ x. IsNodeOf table.now.bytes (W.lists table.now.words) x) nodes.now }
    requires right { AllByRecursion (λ x. IsNodeOf table.now.bytes (W.lists table.now.words) x) others.now }
    ensures { (ts us : List (List ℕ)) → HaveStrings table.now.bytes (W.lists table.now.words) nodes.now ts →
        HaveStrings table.now.bytes (W.lists table.now.words) others.now us →
        Gives (is_equal (equality_of unequal)) result (Ok (by_strings (equality_of unequal) ts us)) }
{
    if unequal {
        return Ok(differ(table, nodes, others));
    }
    match any_common(alloc, table, nodes, others) {
        Ok(answer) => Ok(answer),
        Err(_) => Err(ValueFault::NoMemory),
    }
}

/// A text compared with a node-set or a text.
fn text_beside<W: Words>(table: &Table<'_, W>, unequal: bool, text: &str, right: &Value) -> bool
    requires nodes { HasNodesOf table.now.bytes (W.lists table.now.words) right.now }
    requires truth { is_truth right.now ≡ false }
    requires number { is_number right.now ≡ false }
    ensures { (us : List (List ℕ)) → IsSeen table.now.bytes (W.lists table.now.words) right.now us →
        result ≡ by_strings (equality_of unequal) (chars text.now ∷ []) (strings_seen right.now us) }
{
    let how = equality_of(unequal);
    match right {
        Value::Nodes(others) => any_text(table, how, nodes_of(others), text),
        Value::Text(other) => by_equality(how, same_str(text, as_str(other))),
        _ => false,
    }
}

/// A node-set compared with a node-set or a text.
fn nodes_beside<W: Words>(
    alloc: Global,
    table: &Table<'_, W>,
    unequal: bool,
    nodes: &[Node],
    right: &Value,
) -> Result<bool, ValueFault>
    requires left { AllByRecursion (λ x. IsNodeOf table.now.bytes (W.lists table.now.words) x) nodes.now }
    requires right { HasNodesOf table.now.bytes (W.lists table.now.words) right.now }
    requires truth { is_truth right.now ≡ false }
    requires number { is_number right.now ≡ false }
    ensures { (ts us : List (List ℕ)) → HaveStrings table.now.bytes (W.lists table.now.words) nodes.now ts →
        IsSeen table.now.bytes (W.lists table.now.words) right.now us →
        Gives (is_equal (equality_of unequal) && is_nodes right.now) result
        (Ok (by_strings (equality_of unequal) ts (strings_seen right.now us))) }
{
    match right {
        Value::Nodes(others) => sets(alloc, table, unequal, nodes, nodes_of(others)),
        Value::Text(text) => Ok(any_text(table, equality_of(unequal), nodes, as_str(text))),
        _ => Ok(false),
    }
}

/// Two values compared as strings.
fn by_strings<W: Words>(
    alloc: Global,
    table: &Table<'_, W>,
    unequal: bool,
    left: &Value,
    right: &Value,
) -> Result<bool, ValueFault>
    requires left { HasNodesOf table.now.bytes (W.lists table.now.words) left.now }
    requires right { HasNodesOf table.now.bytes (W.lists table.now.words) right.now }
    requires left_truth { is_truth left.now ≡ false }
    requires left_number { is_number left.now ≡ false }
    requires right_truth { is_truth right.now ≡ false }
    requires right_number { is_number right.now ≡ false }
    ensures { (ts us : List (List ℕ)) → IsSeen table.now.bytes (W.lists table.now.words) left.now ts →
        IsSeen table.now.bytes (W.lists table.now.words) right.now us →
        Gives (takes_memory (equality_of unequal) left.now right.now) result
        (Ok (by_strings (equality_of unequal) (strings_seen left.now ts) (strings_seen right.now us))) }
{
    match left {
        Value::Nodes(nodes) => nodes_beside(alloc, table, unequal, nodes_of(nodes), right),
        Value::Text(text) => Ok(text_beside(table, unequal, as_str(text), right)),
        _ => Ok(false),
    }
}

/// Two values compared by `=` or `!=`.
pub fn by_kind<W: Words>(
    alloc: Global,
    table: &Table<'_, W>,
    unequal: bool,
    left: &Value,
    right: &Value,
) -> Result<bool, ValueFault>
    requires left { HasNodesOf table.now.bytes (W.lists table.now.words) left.now }
    requires right { HasNodesOf table.now.bytes (W.lists table.now.words) right.now }
    ensures { (ts us : List (List ℕ)) → IsSeen table.now.bytes (W.lists table.now.words) left.now ts →
        IsSeen table.now.bytes (W.lists table.now.words) right.now us →
        Gives (takes_memory (equality_of unequal) left.now right.now) result
        (by_kind (equality_of unequal) left.now ts right.now us) }
{
    let how = equality_of(unequal);
    if either(is_truth(left), is_truth(right)) {
        return Ok(by_equality(how, same_truth(truth_seen(left), truth_seen(right))));
    }
    if let Some(number) = number_in(left) {
        return any_number(table, how, right, number);
    }
    if let Some(number) = number_in(right) {
        return any_number(table, how, left, number);
    }
    by_strings(alloc, table, unequal, left, right)
}
