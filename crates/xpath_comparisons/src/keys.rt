//! String-values in an order, as the keys of an index: by their hashes, and texts of one hash by their characters.

ghost use Rattle.std.specs.Prelude.{◌≡◌, refl, List, ℕ, Some, fold, nat_eq};
ghost use Rattle.std.specs.Ordering.{nat_cmp};
ghost use Rattle.std.specs.Cmp.{on_equiv, on_per, on_po, on_total, partial_equiv_from_equiv};
ghost use Rattle.std.specs.Cmp.Lexicographic.{nat_list_cmp_total, nat_list_eq_equiv, pointwise, slice_cmp};
ghost use Rattle.std.specs.Cmp.Lexicographic.{texts_po, texts_ties};
ghost use Rattle.vtd_words.specs.Table.{IsNodeOf};
ghost use Rattle.xpath_values.specs.Seen.{HasString};
ghost use Rattle.xpath_comparisons.specs.Sets.{hash_of, key_of, mixed};

use std::cmp::Ordering;
use vtd_text::{Chars, equals};
use vtd_words::{Table, Words};
use xml_model::Node;
use xpath_values::chars_at;

/// A hash with one more character.
fn mixed(hash: u64, c: char) -> u64
    ensures { result ≡ mixed hash c }
{
    ((hash as u128 * 0x9E37_79B9_7F4A_7C15 + c as u128) % (1 << 64)) as u64
}

/// The hash of characters.
fn hash_of<W: Words>(chars: Chars<'_, W>) -> u64
    ensures { result ≡ hash_of chars.entry }
{
    let mut left = chars;
    let mut hash = 0;
    while let Some(c) = left.next() {
        hash = mixed(hash, c);
    }
    hash
}

/// How two texts are ordered: by the first characters in which they differ, and a text before those that go on after
/// it.
fn order<W: Words>(one: Chars<'_, W>, other: Chars<'_, W>) -> Ordering
    ensures { result ≡ slice_cmp nat_cmp one.entry other.entry }
{
    let mut one = one;
    let mut other = other;
    while let Some(c) = one.next() {
        let Some(d) = other.next() else {
            return Ordering::Greater;
        };
        if c < d {
            return Ordering::Less;
        }
        if d < c {
            return Ordering::Greater;
        }
    }
    if other.next().is_some() {
        Ordering::Less
    } else {
        Ordering::Equal
    }
}

/// A text in the order of texts, which is read from its document at each comparison.
#[derive(Drop)]
pub struct OrderedText<'a, W: Words> {
    /// Its characters.
    pub chars: Chars<'a, W>,
}

impl<'a, W: Words> PartialEq for OrderedText<'a, W> {
    ghost eq = { λ x y. pointwise nat_eq x.chars y.chars };

    ghost laws = { on_per (λ x. x.chars) (partial_equiv_from_equiv nat_list_eq_equiv) };

    fn eq(&self, other: &Self) -> bool {
        equals(self.chars.again(), other.chars.again())
    }
}

impl<'a, W: Words> Eq for OrderedText<'a, W> {
    ghost laws = { on_equiv (λ x. x.chars) nat_list_eq_equiv };
}

impl<'a, W: Words> PartialOrd for OrderedText<'a, W> {
    ghost partial_cmp = { λ x y. Some (slice_cmp nat_cmp x.chars y.chars) };

    ghost laws = { on_po (λ x. x.chars) texts_po };

    fn partial_cmp(&self, other: &Self) -> Option<Ordering> {
        Some(self.cmp(other))
    }
}

impl<'a, W: Words> Ord for OrderedText<'a, W> {
    ghost cmp = { λ x y. slice_cmp nat_cmp x.chars y.chars };

    ghost total = { on_total (λ x. x.chars) nat_list_cmp_total };

    ghost matches_partial_cmp = { λ x y. refl };

    ghost matches_eq = { λ x y. texts_ties x.chars y.chars };

    fn cmp(&self, other: &Self) -> Ordering {
        order(self.chars.again(), other.chars.again())
    }
}

/// A text with its hash before it. Keys are ordered by their hashes, and of one hash by their texts.
pub type TextKey<'a, W> = (u64, OrderedText<'a, W>);

/// The key of a node's string-value. It reads it once.
pub fn key_at<'a, W: Words>(table: &Table<'a, W>, node: Node) -> TextKey<'a, W>
    requires { IsNodeOf table.now.bytes (W.lists table.now.words) node }
    ensures { (t : List ℕ) → HasString table.now.bytes (W.lists table.now.words) node t → result ≡ key_of t }
{
    let chars = chars_at(table, node);
    let hash = hash_of(chars.again());
    (hash, OrderedText { chars })
}
