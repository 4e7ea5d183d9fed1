//! Comparisons of values: XPath 1.0, section 3.4.

ghost use Rattle.std.specs.Prelude.{◌≡◌, List, false, ℕ};
ghost use Rattle.vtd_words.specs.Table.{ForEachNest, nodes_of};
ghost use Rattle.xpath_values.specs.Answers.{Gives};
ghost use Rattle.xpath_values.specs.Seen.{IsSeen};
ghost use Rattle.xpath_values.specs.Values.{HasNodesOf, IsHeld, Meant, compare, is_equality};
ghost use Rattle.xpath_comparisons.specs.Comparing.{beside, by_numbers, compared, takes_memory};

use crate::equality::by_kind;
use crate::extents::{compare_extents, extent_beside};
use std::alloc::Global;
use vtd_words::{Table, Words};
use xpath_tokens::Comparison;
use xpath_values::{Value, ValueFault};

/// Two values compared by order.
fn by_order<W: Words>(
    table: &Table<'_, W>,
    how: Comparison,
    left: &Value,
    right: &Value,
) -> Result<bool, ValueFault>
    requires left { HasNodesOf table.now.bytes (W.lists table.now.words) left.now }
    requires right { HasNodesOf table.now.bytes (W.lists table.now.words) right.now }
    ensures { (ts us : List (List ℕ)) → IsSeen table.now.bytes (W.lists table.now.words) left.now ts →
        IsSeen table.now.bytes (W.lists table.now.words) right.now us → is_equality how ≡ false →
        result ≡ by_numbers how (beside right.now left.now) ts (beside left.now right.now) us }
{
    match extent_beside(table, left, right) {
        Err(fault) => Err(fault),
        Ok(one) => match extent_beside(table, right, left) {
            Err(fault) => Err(fault),
            Ok(other) => Ok(compare_extents(how, one, other)),
        },
    }
}

/// Two values compared, by the string-values of their nodes.
fn compare_seen<W: Words>(
    alloc: Global,
    table: &Table<'_, W>,
    how: Comparison,
    left: &Value,
    right: &Value,
) -> Result<bool, ValueFault>
    requires left { HasNodesOf table.now.bytes (W.lists table.now.words) left.now }
    requires right { HasNodesOf table.now.bytes (W.lists table.now.words) right.now }
    ensures { (ts us : List (List ℕ)) → IsSeen table.now.bytes (W.lists table.now.words) left.now ts →
        IsSeen table.now.bytes (W.lists table.now.words) right.now us →
        Gives (takes_memory how left.now right.now) result (compared how left.now ts right.now us) }
{
    match how {
        Comparison::Equal => by_kind(alloc, table, false, left, right),
        Comparison::Unequal => by_kind(alloc, table, true, left, right),
        Comparison::Less => by_order(table, how, left, right),
        Comparison::Greater => by_order(table, how, left, right),
        Comparison::AtMost => by_order(table, how, left, right),
        Comparison::AtLeast => by_order(table, how, left, right),
    }
}

/// Two values compared (XPath 1.0, section 3.4): true where some member of the left compares so with some of the right,
/// a node-set having its nodes as members and another value itself. Members are strings or numbers; beside a boolean a
/// node-set is one boolean, and by `=` and `!=` every value is. Where they are numbers, all members of the left are
/// converted and then all of the right, in document order, before any are compared, and the first fault is the answer,
/// also where the other side has no member.
///
/// It passes once over the string-values of each side, and by `!=` of two node-sets reads the first one again beside
/// each other. Two node-sets with `=` take memory for an index of the right one, by hashes and of one hash by the texts
/// themselves, and a look-up for each node of the left: that is linear in the characters of both but for the texts of
/// one hash, of which each is read again beside some log n others. Nothing else takes memory.
///
/// # Errors
/// `Fraction` where a digit after the sixth place is not 0; else `Range` where a number is out of range; `NoMemory`
/// where two node-sets are compared by `=` and memory was not to be had.
pub fn compare<W: Words>(
    alloc: Global,
    table: &Table<'_, W>,
    how: Comparison,
    left: &Value,
    right: &Value,
) -> Result<bool, ValueFault>
    requires left { HasNodesOf table.now.bytes (W.lists table.now.words) left.now }
    requires right { HasNodesOf table.now.bytes (W.lists table.now.words) right.now }
    ensures { ForEachNest table.now.bytes (W.lists table.now.words) (λ nest. (v w : Meant) →
        IsHeld (nodes_of table.now.bytes nest) left.now v → IsHeld (nodes_of table.now.bytes nest) right.now w →
        Gives (takes_memory how left.now right.now) result (compare how v w)) }
{
    compare_seen(alloc, table, how, left, right)
}
