//! Node-sets compared by `=` and `!=`, over the characters of string-values, without copies.

ghost use Rattle.std.specs.Prelude.{◌≡◌, ◌||◌, ◌&&◌, not, List, bytes_eq, ℕ};
ghost use Rattle.std.specs.List.{AllByRecursion, list_any};
ghost use Rattle.std.specs.Str.{chars};
ghost use Rattle.vtd_words.specs.Table.{IsNodeOf};
ghost use Rattle.xpath_values.specs.Seen.{HasString, HaveStrings};
ghost use Rattle.xpath_values.specs.Values.{by_equality, some_pair};

use vtd_text::{equals, equals_str};
use vtd_words::{Table, Words};
use xml_model::Node;
use xpath_tokens::Comparison;
use xpath_values::chars_at;

/// What two that are the same, or not, answer to `=`, or to `!=`.
pub fn by_equality(how: Comparison, same: bool) -> bool
    ensures { result ≡ by_equality how same }
{
    match how {
        Comparison::Unequal => !same,
        _ => same,
    }
}

/// Whether the string-value of some node is a text, or, for `!=`, is not.
pub fn any_text<W: Words>(table: &Table<'_, W>, how: Comparison, nodes: &[Node], text: &str) -> bool
    requires { AllByRecursion (λ x. IsNodeOf table.now.bytes (W.lists table.now.words) x) nodes.now }
    ensures { (ts : List (List ℕ)) → HaveStrings table.now.bytes (W.lists table.now.words) nodes.now ts →
        result ≡ list_any (λ t. by_equality how (bytes_eq t (chars text.now))) ts }
{
    let mut left = nodes;
    while let Some((node, rest)) = left.split_first() {
        if by_equality(how, equals_str(chars_at(table, *node), text)) {
            return true;
        }
        left = rest;
    }
    false
}

/// Whether the string-value of some node is that of another node, or, for `!=`, is not.
pub fn any_like<W: Words>(table: &Table<'_, W>, how: Comparison, one: Node, nodes: &[Node]) -> bool
    requires one { IsNodeOf table.now.bytes (W.lists table.now.words) one }
    requires all { AllByRecursion (λ x. IsNodeOf table.now.bytes (W.lists table.now.words) x) nodes.now }
    ensures { (s : List ℕ) (ts : List (List ℕ)) → HasString table.now.bytes (W.lists table.now.words) one s →
        HaveStrings table.now.bytes (W.lists table.now.words) nodes.now ts →
        result ≡ list_any (λ t. by_equality how (bytes_eq s t)) ts }
{
    let mut left = nodes;
    while let Some((node, rest)) = left.split_first() {
        if by_equality(how, equals(chars_at(table, one), chars_at(table, *node))) {
            return true;
        }
        left = rest;
    }
    false
}

/// Whether some node of the one and some node of the other have string-values that are not the same. It takes one pass
/// over each.
pub fn differ<W: Words>(table: &Table<'_, W>, nodes: &[Node], others: &[Node]) -> bool
    requires left { AllByRecursion (λ x. IsNodeOf table.now.bytes (W.lists table.now.words) x) nodes.now }
    requires right { AllByRecursion (λ x. IsNodeOf table.now.bytes (W.lists table.now.words) x) others.now }
    ensures { (ts us : List (List ℕ)) → HaveStrings table.now.bytes (W.lists table.now.words) nodes.now ts →
        HaveStrings table.now.bytes (W.lists table.now.words) others.now us →
        result ≡ some_pair (λ s t. by_equality Comparison.Unequal (bytes_eq s t)) ts us }
{
    let Some((first, rest)) = nodes.split_first() else {
        return false;
    };
    any_like(table, Comparison::Unequal, *first, others)
        || !others.is_empty() && any_like(table, Comparison::Unequal, *first, rest)
}
