//! Two node-sets compared by `=`: an index of the string-values of the one, in which those of the other are looked up.

ghost use Rattle.std.specs.Prelude.{◌≡◌, IfOk, List, bytes_eq, ℕ};
ghost use Rattle.std.specs.List.{AllByRecursion, list_any};
ghost use Rattle.vtd_words.specs.Table.{IsNodeOf};
ghost use Rattle.xpath_values.specs.Seen.{HasString, HaveStrings};
ghost use Rattle.xpath_values.specs.Values.{some_pair};
ghost use Rattle.xpath_comparisons.specs.Sets.{IsIndex};

use crate::keys::{TextKey, key_at};
use std::alloc::{AllocError, Global};
use std::collections::BTreeSet;
use vtd_words::{Table, Words};
use xml_model::Node;

/// The string-values of nodes.
type Index<'a, W> = BTreeSet<TextKey<'a, W>>;

/// The string-values of nodes, as an index.
fn index_of<'a, W: Words>(
    alloc: Global,
    table: &Table<'a, W>,
    nodes: &[Node],
) -> Result<Index<'a, W>, AllocError>
    requires { AllByRecursion (λ x. IsNodeOf table.now.bytes (W.lists table.now.words) x) nodes.now }
    ensures { (ts : List (List ℕ)) → HaveStrings table.now.bytes (W.lists table.now.words) nodes.now ts →
        IfOk result (λ index. IsIndex index ts) }
{
    let mut index = BTreeSet::new(alloc);
    let mut left = nodes;
    while let Some((node, rest)) = left.split_first() {
        index.insert(key_at(table, *node))?;
        left = rest;
    }
    Ok(index)
}

/// Whether the string-value of a node is in an index.
fn is_among<'a, W: Words>(table: &Table<'a, W>, index: &Index<'a, W>, node: Node) -> bool
    requires { IsNodeOf table.now.bytes (W.lists table.now.words) node }
    ensures { (t : List ℕ) (us : List (List ℕ)) → HasString table.now.bytes (W.lists table.now.words) node t →
        IsIndex index.now us → result ≡ list_any (bytes_eq t) us }
{
    let key = key_at(table, node);
    index.contains(&key)
}

/// Whether the string-value of some node is in an index.
fn any_among<'a, W: Words>(table: &Table<'a, W>, index: &Index<'a, W>, nodes: &[Node]) -> bool
    requires { AllByRecursion (λ x. IsNodeOf table.now.bytes (W.lists table.now.words) x) nodes.now }
    ensures { (ts us : List (List ℕ)) → HaveStrings table.now.bytes (W.lists table.now.words) nodes.now ts →
        IsIndex index.now us → result ≡ some_pair bytes_eq ts us }
{
    let mut left = nodes;
    while let Some((node, rest)) = left.split_first() {
        if is_among(table, index, *node) {
            return true;
        }
        left = rest;
    }
    false
}

/// Whether some node of the one and some node of the other have the same string-value.
pub fn any_common<W: Words>(
    alloc: Global,
    table: &Table<'_, W>,
    nodes: &[Node],
    others: &[Node],
) -> Result<bool, AllocError>
    requires left { AllByRecursion (λ x. IsNodeOf table.now.bytes (W.lists table.now.words) x) nodes.now }
    requires right { AllByRecursion (λ x. IsNodeOf table.now.bytes (W.lists table.now.words) x) others.now }
    ensures { (ts us : List (List ℕ)) → HaveStrings table.now.bytes (W.lists table.now.words) nodes.now ts →
        HaveStrings table.now.bytes (W.lists table.now.words) others.now us →
        IfOk result (λ b. b ≡ some_pair bytes_eq ts us) }
{
    let index = index_of(alloc, table, others)?;
    Ok(any_among(table, &index, nodes))
}
