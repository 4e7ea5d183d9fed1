//! Splices, and why they are not staged.

ghost use Rattle.std.specs.Prelude.{◌≡◌, ◌+◌, ◌*◌, ◌^◌, ◌<◌, ◌≤◌, length};
ghost use Rattle.vtd_edits.specs.Splices.{end_of, ends_before, overlap, start_of, text_of};
ghost use Rattle.vtd_edits.specs.Order.{slot_of};

use std::marker::Model;
use xml_model::Bytes;

/// A change of a document's bytes: other bytes for a range, or bytes put in at a place. Places count bytes.
#[derive(Drop)]
pub enum Splice {
    /// `text` takes the place of the bytes from `start` up to `end`, which is left out; the range may be empty.
    Replace { start: u32, end: u32, text: Bytes },
    /// `text` is put in before the byte at `at`, or after the last byte.
    Insert { at: u32, text: Bytes },
}

/// Splices, which contracts see as a list.
#[derive(Drop)]
pub struct Splices {
    pub held: Vec<Splice>,
}

impl Model for Splices {
    ghost use Rattle.std.specs.Prelude.{List};
    ghost use Rattle.vtd_edits.specs.declared.splice.Splice.{Splice};

    ghost Value = { List Splice };

    ghost view = { λ s. s.held.items };
}

/// Why splices are not staged.
#[derive(Clone, Copy, Debug, PartialEq, Eq)]
pub enum StageFault {
    /// A splice of the list overlaps one that is staged or that is before it in the list. `later` is where the first
    /// such splice of the list starts, `earlier` where the first splice in staging order starts that it overlaps.
    Overlap { earlier: u32, later: u32 },
    /// All staged texts would have more than 268,435,456 bytes.
    TextLong,
    /// Memory was not to be had.
    NoMemory,
}

/// Where a splice starts.
pub(crate) fn start_of(splice: &Splice) -> u32
    ensures { result ≡ start_of splice.now }
{
    match splice {
        Splice::Replace { start, .. } => *start,
        Splice::Insert { at, .. } => *at,
    }
}

/// Where a splice ends.
pub(crate) fn end_of(splice: &Splice) -> u32
    ensures { result ≡ end_of splice.now }
{
    match splice {
        Splice::Replace { end, .. } => *end,
        Splice::Insert { at, .. } => *at,
    }
}

/// The text of a splice.
pub(crate) fn text_of(splice: &Splice) -> &[u8]
    ensures { result.now ≡ text_of splice.now }
{
    match splice {
        Splice::Replace { text, .. } => text.held.as_slice(),
        Splice::Insert { text, .. } => text.held.as_slice(),
    }
}

/// Where a splice is in the order of the bytes: its start, and there insertions before an empty range, and this before
/// another range.
pub(crate) fn slot_of(splice: &Splice) -> u64
    ensures value { result ≡ slot_of splice.now }
    ensures bound { start_of splice.now < 2 ^ 30 → result < 2 ^ 32 }
{
    match splice {
        Splice::Insert { at, .. } => *at as u64 * 4,
        Splice::Replace { start, end, .. } if *start == *end => *start as u64 * 4 + 1,
        Splice::Replace { start, .. } => *start as u64 * 4 + 2,
    }
}

fn ends_before(start: u32, end: u32, other_start: u32, other_end: u32) -> bool
    ensures { result ≡ ends_before start end other_start other_end }
{
    end <= other_start && !(start == other_start && end == other_end)
}

/// Whether two splices overlap.
pub(crate) fn overlap(one: &Splice, other: &Splice) -> bool
    ensures { result ≡ overlap one.now other.now }
{
    match (one, other) {
        (Splice::Insert { .. }, Splice::Insert { .. }) => false,
        (Splice::Insert { at, .. }, Splice::Replace { start, end, .. }) => *start < *at
            && *at < *end,
        (Splice::Replace { start, end, .. }, Splice::Insert { at, .. }) => *start < *at
            && *at < *end,
        (
            Splice::Replace { start, end, .. },
            Splice::Replace {
                start: other_start,
                end: other_end,
                ..
            },
        ) => {
            !(ends_before(*start, *end, *other_start, *other_end)
                || ends_before(*other_start, *other_end, *start, *end))
        }
    }
}
