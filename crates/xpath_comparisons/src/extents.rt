//! Comparisons by order: the least and the greatest number of each side decide.

ghost use Rattle.std.specs.Prelude.{◌≡◌, List, ℕ};
ghost use Rattle.std.specs.List.{AllByRecursion};
ghost use Rattle.vtd_words.specs.Table.{IsNodeOf};
ghost use Rattle.xpath_values.specs.Answers.{each, with};
ghost use Rattle.xpath_values.specs.Numbers.{number_of_text};
ghost use Rattle.xpath_values.specs.Seen.{HaveStrings, IsSeen};
ghost use Rattle.xpath_values.specs.Values.{HasNodesOf};
ghost use Rattle.xpath_comparisons.specs.Comparing.{beside, is_truth, numbers_seen};
ghost use Rattle.xpath_comparisons.specs.Extents.{compare_extents, extended, extent_of, greater, lesser, no_extent};

use vtd_words::{Table, Words};
use xml_model::Node;
use xpath_tokens::Comparison;
use xpath_values::{
    Number, Value, ValueFault, compare_numbers, nodes_of, number_of_truth, number_seen, truth_seen,
    value_number,
};

/// The least and the greatest of numbers that are not NaN; NaN where there is none.
#[derive(Clone, Copy)]
pub struct Extent {
    /// The least.
    pub least: Number,
    /// The greatest.
    pub greatest: Number,
}

/// The lesser of two numbers; of NaN and another one the other.
fn lesser(one: Number, other: Number) -> Number
    ensures { result ≡ lesser one other }
{
    let Number::Millionths(a) = one else {
        return other;
    };
    let Number::Millionths(b) = other else {
        return one;
    };
    if a <= b { one } else { other }
}

/// The greater of two numbers; of NaN and another one the other.
fn greater(one: Number, other: Number) -> Number
    ensures { result ≡ greater one other }
{
    let Number::Millionths(a) = one else {
        return other;
    };
    let Number::Millionths(b) = other else {
        return one;
    };
    if a <= b { other } else { one }
}

/// The extent of no numbers.
fn no_extent() -> Extent
    ensures { result ≡ no_extent }
{
    Extent {
        least: Number::Nan,
        greatest: Number::Nan,
    }
}

/// An extent with one more number.
fn extended(extent: Extent, number: Number) -> Extent
    ensures { result ≡ extended extent number }
{
    Extent {
        least: lesser(extent.least, number),
        greatest: greater(extent.greatest, number),
    }
}

/// Whether some number of the one side compares so with some of the other, for a comparison by order.
pub fn compare_extents(how: Comparison, left: Extent, right: Extent) -> bool
    ensures { result ≡ compare_extents how left right }
{
    match how {
        Comparison::Less => compare_numbers(how, left.least, right.greatest),
        Comparison::AtMost => compare_numbers(how, left.least, right.greatest),
        _ => compare_numbers(how, left.greatest, right.least),
    }
}

/// The extent of the numbers of nodes, in one pass over their string-values; the first fault of a node's number.
fn extent_of_nodes<W: Words>(table: &Table<'_, W>, nodes: &[Node]) -> Result<Extent, ValueFault>
    requires { AllByRecursion (λ x. IsNodeOf table.now.bytes (W.lists table.now.words) x) nodes.now }
    ensures { (ts : List (List ℕ)) → HaveStrings table.now.bytes (W.lists table.now.words) nodes.now ts →
        result ≡ with (each number_of_text ts) extent_of }
{
    let mut extent = no_extent();
    let mut left = nodes;
    while let Some((node, rest)) = left.split_first() {
        match number_seen(table, *node) {
            Ok(number) => extent = extended(extent, number),
            Err(fault) => return Err(fault),
        }
        left = rest;
    }
    Ok(extent)
}

/// The extent of one number.
fn extent_of_one(number: Result<Number, ValueFault>) -> Result<Extent, ValueFault>
    ensures { result ≡ with number (λ x. extended no_extent x) }
{
    match number {
        Ok(number) => Ok(extended(no_extent(), number)),
        Err(fault) => Err(fault),
    }
}

/// Whether a value is a boolean.
pub fn is_truth(value: &Value) -> bool
    ensures { result ≡ is_truth value.now }
{
    matches!(value, Value::Truth(_))
}

/// The extent of a value's numbers beside another value: beside a boolean a node-set is a boolean.
pub fn extent_beside<W: Words>(
    table: &Table<'_, W>,
    value: &Value,
    other: &Value,
) -> Result<Extent, ValueFault>
    requires { HasNodesOf table.now.bytes (W.lists table.now.words) value.now }
    ensures { (ts : List (List ℕ)) → IsSeen table.now.bytes (W.lists table.now.words) value.now ts →
        result ≡ with (numbers_seen (beside other.now value.now) ts) extent_of }
{
    match value {
        Value::Nodes(nodes) => {
            if is_truth(other) {
                extent_of_one(Ok(number_of_truth(truth_seen(value))))
            } else {
                extent_of_nodes(table, nodes_of(nodes))
            }
        }
        _ => extent_of_one(value_number(table, value)),
    }
}
