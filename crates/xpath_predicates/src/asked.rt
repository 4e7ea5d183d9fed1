//! What is asked of a node.

ghost use Rattle.std.specs.Prelude.{◌≡◌, false, IfSome};
ghost use Rattle.vtd_words.specs.Table.{ForEachEntry, IsNodeOf};
ghost use Rattle.xpath_predicates.specs.Asks.{is_bad, is_right, is_sure};
ghost use Rattle.xpath_values.specs.Values.{by_equality};

use vtd_text::equals_str;
use vtd_words::{Table, Words};
use xml_model::Node;
use xpath_tokens::Comparison;
use xpath_values::{Number, chars_at, compare_numbers, number_seen};

/// What is asked of a node.
#[derive(Clone, Copy)]
pub enum Asked<'t> {
    /// Whether it is there.
    Any,
    /// Whether its number compares so with another.
    Number(Comparison, Number),
    /// Whether its string-value is a text, or, for `!=`, is not.
    Text(Comparison, &'t str),
}

/// What two that are the same, or not, answer to `=`, or to `!=`.
fn by_equality(how: Comparison, same: bool) -> bool
    ensures { result ≡ by_equality how same }
{
    match how {
        Comparison::Unequal => !same,
        _ => same,
    }
}

/// Whether a node is as it is asked; `None` where its number has a fault.
pub fn ask<W: Words>(table: &Table<'_, W>, node: Node, asked: &Asked<'_>) -> Option<bool>
    requires node { IsNodeOf table.now.bytes (W.lists table.now.words) node }
    ensures sound { IfSome result (λ b. ForEachEntry table.now.bytes (W.lists table.now.words) node (λ nest e.
        is_bad asked.now e ≡ false)) }
    ensures right { IfSome result (λ b. ForEachEntry table.now.bytes (W.lists table.now.words) node (λ nest e.
        is_right asked.now e ≡ b)) }
{
    match *asked {
        Asked::Any => Some(true),
        Asked::Number(how, number) => match number_seen(table, node) {
            Ok(other) => Some(compare_numbers(how, other, number)),
            Err(_) => None,
        },
        Asked::Text(how, text) => Some(by_equality(how, equals_str(chars_at(table, node), text))),
    }
}

/// Whether no node can have a fault.
pub fn is_sure(asked: &Asked<'_>) -> bool
    ensures { result ≡ is_sure asked.now }
{
    match asked {
        Asked::Number(_, _) => false,
        _ => true,
    }
}
