//! How splices are staged: their order on the bytes, and whether they overlap.

ghost use Rattle.std.specs.Prelude.{◌≡◌, ℕ, ◌+◌, ◌-◌, ◌*◌, ◌%◌, ◌^◌, ◌<◌, ◌≤◌, ◌++◌, true, false};
ghost use Rattle.std.specs.Prelude.{length, filter, nat_lt, IfOk, IfSome, MatchOption, OnOk, OnSome};
ghost use Rattle.std.specs.List.{All};
ghost use Rattle.std.specs.List.Sorted.{IsNonDecreasing, IsPermutation};
ghost use Rattle.vtd_edits.specs.Splices.{overlap, splice_at, start_of, text_limit, text_size};
ghost use Rattle.vtd_edits.specs.Splices.{AreApart, IsWithin, Refuses};
ghost use Rattle.vtd_edits.specs.Order.{apart_to, keys_from, order_of, overlaps_last, taken_size, IsFirstPartner};

use crate::splice::{Splice, StageFault, end_of, overlap, slot_of, start_of, text_of};
use std::alloc::Global;
use xml_model::NoMemory;

/// How many bytes all staged texts have at most.
const TEXT_LIMIT: u32 = 268_435_456;

/// By how much a key is more than its index.
pub(crate) const INDEXES: u64 = 4_294_967_296;

/// What edits hold beside their splices.
#[derive(Drop)]
pub(crate) struct Plan {
    pub(crate) order: Vec<u64>,
    pub(crate) text: u32,
    pub(crate) taken: u32,
}

/// The splice with an index, of staged splices and a list after them.
fn splice_at<'a>(staged: &'a [Splice], list: &'a [Splice], i: usize) -> &'a Splice
    requires { i < length staged.now + length list.now }
    ensures { result.now ≡ splice_at (staged.now ++ list.now) i }
{
    if i < staged.len() {
        &staged[i]
    } else {
        &list[i - staged.len()]
    }
}

/// Appends the keys of splices, whose indexes are from `first` on.
fn push_keys(order: &mut Vec<u64>, first: usize, list: &[Splice]) -> Result<(), NoMemory>
    requires few { first + length list.now ≤ 2 ^ 32 }
    requires low { All (λ x. start_of x < 2 ^ 30) list.now }
    ensures { OnOk result (order.new.items ≡ order.old.items ++ keys_from first list.now) }
{
    for (i, splice) in list.iter().enumerate() {
        if order
            .push(slot_of(splice) * INDEXES + (first + i) as u64)
            .is_err()
        {
            return Err(NoMemory);
        }
    }
    Ok(())
}

/// The keys of an order and those of splices whose indexes are from `first` on, in order. The sort keeps runs, so it is
/// linear where the list is in the order of the document or in the reverse of it.
fn sorted_with(
    alloc: Global,
    order: &[u64],
    first: usize,
    list: &[Splice],
) -> Result<Vec<u64>, NoMemory>
    requires few { first + length list.now ≤ 2 ^ 32 }
    requires low { All (λ x. start_of x < 2 ^ 30) list.now }
    ensures rises { IfOk result (λ v. IsNonDecreasing v.items) }
    ensures same { IfOk result (λ v. IsPermutation (order.now ++ keys_from first list.now) v.items) }
{
    let Ok(mut all) = Vec::from_slice(alloc, order) else {
        return Err(NoMemory);
    };
    push_keys(&mut all, first, list)?;
    sort_keys(&mut all)?;
    Ok(all)
}

/// Sorts keys. It keeps runs.
fn sort_keys(keys: &mut Vec<u64>) -> Result<(), NoMemory>
    ensures rises { OnOk result (IsNonDecreasing keys.new.items) }
    ensures same { OnOk result (IsPermutation keys.old.items keys.new.items) }
{
    match keys.sort() {
        Ok(()) => Ok(()),
        Err(_) => Err(NoMemory),
    }
}

/// The order of staged splices and a list after them; `None` for want of memory.
pub(crate) fn order_with(
    alloc: Global,
    order: &[u64],
    staged: &[Splice],
    list: &[Splice],
) -> Option<Vec<u64>>
    requires sorted { order.now ≡ order_of staged.now }
    requires few { length staged.now < 2 ^ 32 }
    requires low { All (λ x. start_of x < 2 ^ 30) list.now }
    ensures order { IfSome result (λ v. v.items ≡ order_of (staged.now ++ list.now)) }
    ensures few { OnSome result (length staged.now + length list.now < 2 ^ 32) }
{
    if list.len() >= INDEXES as usize - staged.len() {
        return None;
    }
    match sorted_with(alloc, order, staged.len(), list) {
        Ok(all) => Some(all),
        Err(NoMemory) => None,
    }
}

/// Whether a splice overlaps the last one, if there is one.
fn overlaps_last(staged: &[Splice], list: &[Splice], last: Option<usize>, i: usize) -> bool
    requires here { i < length staged.now + length list.now }
    requires there { MatchOption last (Unit {0}) (λ k. k < length staged.now + length list.now) }
    ensures { result ≡ overlaps_last (staged.now ++ list.now) last (splice_at (staged.now ++ list.now) i) }
{
    match last {
        Some(k) => overlap(splice_at(staged, list, k), splice_at(staged, list, i)),
        None => false,
    }
}

/// Whether no splice of an order overlaps the one before it, where those from an index on are left out.
pub(crate) fn are_apart(order: &[u64], staged: &[Splice], list: &[Splice], count: usize) -> bool
    requires { count ≤ length staged.now + length list.now }
    ensures { result ≡ apart_to (staged.now ++ list.now) order.now count }
{
    let mut last: Option<usize> = None;
    for key in order {
        let i = (*key % INDEXES) as usize;
        if i < count {
            if overlaps_last(staged, list, last, i) {
                return false;
            }
            last = Some(i);
        }
    }
    true
}

/// The index of the first splice that overlaps an earlier one, where no two staged ones do: a search by halves.
fn first_late(order: &[u64], staged: &[Splice], list: &[Splice]) -> usize
    requires apart { apart_to (staged.now ++ list.now) order.now (length staged.now) ≡ true }
    requires overlaps { apart_to (staged.now ++ list.now) order.now (length staged.now + length list.now) ≡ false }
    ensures below { result < length staged.now + length list.now }
    ensures before { apart_to (staged.now ++ list.now) order.now result ≡ true }
    ensures after { apart_to (staged.now ++ list.now) order.now (result + 1) ≡ false }
{
    let mut low = staged.len();
    let mut high = staged.len() + list.len();
    while low + 1 < high {
        let middle = low + (high - low) / 2;
        if are_apart(order, staged, list, middle) {
            low = middle;
        } else {
            high = middle;
        }
    }
    low
}

/// The first splice in staging order that the one with an index overlaps.
fn first_partner(staged: &[Splice], list: &[Splice], later: usize) -> Option<usize>
    requires { later < length staged.now + length list.now }
    ensures { MatchOption result
        ((k : ℕ) → k < later →
        overlap (splice_at (staged.now ++ list.now) later) (splice_at (staged.now ++ list.now) k) ≡ false)
        (λ i. IsFirstPartner (staged.now ++ list.now) later i) }
{
    let splice = splice_at(staged, list, later);
    for i in 0..later {
        if overlap(splice, splice_at(staged, list, i)) {
            return Some(i);
        }
    }
    None
}

/// The overlap for which a list is not staged after splices of which no two overlap.
pub(crate) fn first_overlap(order: &[u64], staged: &[Splice], list: &[Splice]) -> StageFault
    requires sorted { order.now ≡ order_of (staged.now ++ list.now) }
    requires few { length staged.now + length list.now < 2 ^ 32 }
    requires within { (len : ℕ) × All (IsWithin len) (staged.now ++ list.now) }
    requires apart { AreApart staged.now }
    requires overlaps { apart_to (staged.now ++ list.now) order.now (length staged.now + length list.now) ≡ false }
    ensures { Refuses (staged.now ++ list.now) result }
{
    let later = first_late(order, staged, list);
    match first_partner(staged, list, later) {
        Some(earlier) => StageFault::Overlap {
            earlier: start_of(splice_at(staged, list, earlier)),
            later: start_of(splice_at(staged, list, later)),
        },
        None => unreachable!(),
    }
}

/// Drops the keys of an order whose index is not below a number. It takes no memory.
pub(crate) fn keep_below(order: &mut Vec<u64>, count: u64)
    ensures { order.new.items ≡ filter (λ k. nat_lt (k % 2 ^ 32) count) order.old.items }
{
    order.retain(|key| *key % INDEXES < count);
}

/// How many bytes all texts have, with those of a list; `None` where they are too many.
pub(crate) fn text_with(text: u32, list: &[Splice]) -> Option<u32>
    requires { text ≤ text_limit }
    ensures { MatchOption result (text_limit < text + text_size list.now)
        (λ t. (t ≡ text + text_size list.now) × (t ≤ text_limit)) }
{
    let mut all = text;
    for splice in list {
        let more = text_of(splice).len();
        if more > (TEXT_LIMIT - all) as usize {
            return None;
        }
        all += more as u32;
    }
    Some(all)
}

/// How many bytes the texts of a list have.
pub(crate) fn text_by(list: &[Splice]) -> u32
    requires { text_size list.now < 2 ^ 32 }
    ensures { result ≡ text_size list.now }
{
    let mut text = 0;
    for splice in list {
        text += text_of(splice).len() as u32;
    }
    text
}

/// How many bytes splices take away.
pub(crate) fn taken_by(list: &[Splice]) -> u32
    requires { taken_size list.now < 2 ^ 32 }
    ensures { result ≡ taken_size list.now }
{
    let mut taken = 0;
    for splice in list {
        taken += end_of(splice).saturating_sub(start_of(splice));
    }
    taken
}
