//! The child elements of an element, by the levels.

ghost use Rattle.std.specs.Prelude.{◌≡◌, ℕ, ◌+◌, ◌*◌, ◌-◌, ◌<◌, ◌≤◌, ◌^◌, List, [], ◌∷◌, drop, length, slice_index};
ghost use Rattle.std.specs.Prelude.{IfSome, IfNone, OnSome};
ghost use Rattle.xml_model.specs.Levels.{child_tags};
ghost use Rattle.xml_model.specs.Records.{Record};
ghost use Rattle.vtd_words.specs.Lists.{list_of, TakesWord};
ghost use Rattle.vtd_words.specs.Table.{Shows};
ghost use Rattle.vtd_location.specs.Children.{all_entries, before_bound, entry_record, entry_records, left_in};
ghost use Rattle.vtd_location.specs.Children.{first_of, FirstNotBelow, IsAround, IsLeveled, IsShallowTag};
ghost use Rattle.vtd_location.specs.Children.{NeverFalls, Searching};

use std::marker::Model;
use vtd_words::{Meter, Part, Words, unpack};

/// The child elements of an element that are left to be told. It is plain data: it holds nothing of the words.
/// Contracts see what is left by `left_in`, over the lists that it is read with.
#[derive(Drop)]
pub struct Children {
    part: Part,
    after: u32,
    bound: u32,
    next: Option<u32>,
}

impl Model for Children {
    ghost use Rattle.vtd_location.specs.Children.{Remaining};

    ghost Value = { Remaining };

    ghost view = { λ c. record { part = c.part; after = c.after; bound = c.bound; next = c.next } };
}

/// The record of an entry of a level.
fn entry_record(part: Part, word: u64) -> u32
    requires { TakesWord part word }
    ensures { result ≡ entry_record part word }
{
    match part {
        Part::Level5 => word as u32,
        Part::Records | Part::Level1 | Part::Level2 | Part::Level3 | Part::Level4 => (word
            >> 32) as u32,
    }
}

/// The record of the entry at a position, if there is one and it is below a bound. One read, or none.
fn ahead<W: Words>(meter: &mut Meter<'_, W>, part: Part, at: u32, bound: u32) -> Option<u32>
    ensures some { IfSome result (λ x. before_bound bound (drop at (entry_records part meter.old.lists))
        ≡ x ∷ before_bound bound (drop (at + 1) (entry_records part meter.old.lists))) }
    ensures there { OnSome result (at + 1 < 2 ^ 32) }
    ensures none { IfNone result (before_bound bound (drop at (entry_records part meter.old.lists)) ≡ []) }
    ensures lists { meter.new.lists ≡ meter.old.lists }
    ensures reads { meter.new.reads ≤ meter.old.reads + 1 }
{
    if at >= meter.len(part) {
        return None;
    }
    let found = entry_record(part, meter.word(part, at));
    if found < bound { Some(found) } else { None }
}

/// The entries of a level from a position on that are below a bound. At most one read.
fn from_position<W: Words>(meter: &mut Meter<'_, W>, part: Part, at: u32, bound: u32) -> Children
    ensures left { left_in meter.old.lists result ≡ before_bound bound (drop at (entry_records part meter.old.lists)) }
    ensures lists { meter.new.lists ≡ meter.old.lists }
    ensures reads { meter.new.reads ≤ meter.old.reads + 1 }
{
    match ahead(meter, part, at, bound) {
        Some(found) => Children {
            part,
            after: at + 1,
            bound,
            next: Some(found),
        },
        None => Children {
            part,
            after: at,
            bound,
            next: None,
        },
    }
}

/// The positions that a search has left.
#[derive(Clone, Copy)]
struct Range {
    low: u32,
    high: u32,
}

/// Halves the positions that a search has left. One read.
fn halve<W: Words>(meter: &mut Meter<'_, W>, part: Part, wanted: u32, range: Range) -> Range
    requires sorted { NeverFalls (entry_records part meter.old.lists) }
    requires some { range.low < range.high }
    requires within { range.high ≤ length (list_of part meter.old.lists) }
    ensures on { (start : ℕ) →
        Searching (entry_records part meter.old.lists) wanted start meter.old.reads range.low range.high →
        Searching (entry_records part meter.old.lists) wanted start meter.new.reads result.low result.high }
    ensures lists { meter.new.lists ≡ meter.old.lists }
    ensures within { result.high ≤ range.high }
    ensures smaller { result.high - result.low < range.high - range.low }
{
    let middle = range.low + (range.high - range.low) / 2;
    if entry_record(part, meter.word(part, middle)) < wanted {
        Range {
            low: middle + 1,
            high: range.high,
        }
    } else {
        Range {
            low: range.low,
            high: middle,
        }
    }
}

/// The first position of a level whose record is not below one: a search that halves the level.
fn position_of<W: Words>(meter: &mut Meter<'_, W>, part: Part, wanted: u32) -> u32
    requires { NeverFalls (entry_records part meter.old.lists) }
    ensures found { FirstNotBelow (entry_records part meter.old.lists) wanted result }
    ensures lists { meter.new.lists ≡ meter.old.lists }
    ensures reads { (d : ℕ) → length (entry_records part meter.old.lists) < 2 ^ d →
        meter.new.reads ≤ meter.old.reads + d }
{
    let mut range = Range {
        low: 0,
        high: meter.len(part),
    };
    'search: while range.low < range.high {
        range = halve(meter, part, wanted, range);
    }
    range.low
}

/// The record of the entry at a position, or the number of records where there is none.
fn bound_at<W: Words>(meter: &mut Meter<'_, W>, part: Part, at: u32) -> u32
    ensures value { result ≡ first_of (drop at (entry_records part meter.old.lists)) (length meter.old.lists.records) }
    ensures lists { meter.new.lists ≡ meter.old.lists }
    ensures reads { meter.new.reads ≤ meter.old.reads + 1 }
{
    if at < meter.len(part) {
        entry_record(part, meter.word(part, at))
    } else {
        meter.len(Part::Records)
    }
}

/// The child elements of an element of depth 1 to 4, whose entry is in a level, and theirs in the next.
fn below<W: Words>(meter: &mut Meter<'_, W>, own: Part, deeper: Part, parent: u32) -> Children
    requires { IsAround meter.old.lists own deeper parent }
    ensures left { (rs : List Record) → Shows meter.old.lists.records rs →
        left_in meter.old.lists result ≡ child_tags parent rs }
    ensures lists { meter.new.lists ≡ meter.old.lists }
    ensures reads { (d : ℕ) → length (list_of own meter.old.lists) < 2 ^ d →
        meter.new.reads ≤ meter.old.reads + d + 3 }
{
    let at = position_of(meter, own, parent);
    let first = (meter.word(own, at) % (1 << 32)) as u32;
    let bound = bound_at(meter, own, at + 1);
    from_position(meter, deeper, first, bound)
}

/// The child elements of the element whose first record has an index, in document order, to be told by `next`. The
/// record is a starting tag's of depth 0 to 4, and the levels are those of the records. It reads at most `d + 4`
/// words, where the levels together have fewer than 2 to the power d entries.
pub fn child_elements<W: Words>(meter: &mut Meter<'_, W>, parent: u32) -> Children
    requires leveled { IsLeveled meter.old.lists }
    requires tag { IsShallowTag meter.old.lists parent }
    ensures left { (rs : List Record) → Shows meter.old.lists.records rs →
        left_in meter.old.lists result ≡ child_tags parent rs }
    ensures lists { meter.new.lists ≡ meter.old.lists }
    ensures reads { (d : ℕ) → all_entries meter.old.lists < 2 ^ d → meter.new.reads ≤ meter.old.reads + d + 4 }
{
    let records = meter.len(Part::Records);
    match unpack(meter.word(Part::Records, parent)).depth {
        0 => from_position(meter, Part::Level1, 0, records),
        1 => below(meter, Part::Level1, Part::Level2, parent),
        2 => below(meter, Part::Level2, Part::Level3, parent),
        3 => below(meter, Part::Level3, Part::Level4, parent),
        _ => below(meter, Part::Level4, Part::Level5, parent),
    }
}

impl Children {
    /// The record of the next child element. `Some` reads at most one word, and `None` none.
    pub fn next<W: Words>(&mut self, meter: &mut Meter<'_, W>) -> Option<u32>
        ensures some { IfSome result (λ x. left_in meter.old.lists self.old ≡ x ∷ left_in meter.old.lists self.new) }
        ensures none { IfNone result (left_in meter.old.lists self.old ≡ []) }
        ensures ended { IfNone result (self.new ≡ self.old) }
        ensures lists { meter.new.lists ≡ meter.old.lists }
        ensures reads { meter.new.reads ≤ meter.old.reads + 1 }
        ensures unread { IfNone result (meter.new ≡ meter.old) }
    {
        let found = self.next?;
        *self = from_position(meter, self.part, self.after, self.bound);
        Some(found)
    }
}
