//! Stored levels against those of the records.

ghost use Rattle.std.specs.Prelude.{◌≡◌, ℕ, suc, ◌+◌, ◌-◌, ◌<◌, ◌≤◌, ◌^◌, ◌==◌, cond, List};
ghost use Rattle.std.specs.Prelude.{[], ◌∷◌, length, Some, None, IfErr, OnOk};
ghost use Rattle.xml_model.specs.Records.{Record};
ghost use Rattle.xml_model.specs.Levels.{levels, no_child};
ghost use Rattle.vtd_words.specs.Lists.{list_of};
ghost use Rattle.vtd_words.specs.Packed.{record_of};
ghost use Rattle.vtd_words.specs.Table.{Shows};
ghost use Rattle.vtd_location.specs.Differences.{differ_levels};
ghost use Rattle.vtd_location.specs.Nav.{levels_in, HasLevels};
ghost use Rattle.vtd_location.specs.Scanning.{difference_of, entry_word, found_or, stored_at, with_entry};
ghost use Rattle.vtd_location.specs.Scanning.{LanesTo, PassesOn, PassesOnLast, ScanTo};

use vtd_words::{Part, Parts, Words, parts_at};
use xml_model::TokenKind;

/// The number of starting tags' records.
pub const START_TAG: u8 = TokenKind::StartTag as u8;

/// What is written where there is no child.
const NO_CHILD: u64 = 0xffff_ffff;

/// The entry of an element: its record, and the position of its first child in the next level.
pub fn entry(at: u32, child: u64) -> u64
    requires { child < 2 ^ 32 }
    ensures { result ≡ entry_word at child }
{
    at as u64 * (1 << 32) + child
}

/// The position of a first child, if the next tag is one.
pub fn child_for(deeper: u32, depth: u8, level: u8) -> u64
    requires { level < 2 ^ 7 }
    ensures value { result ≡ cond (depth == suc level) deeper no_child }
    ensures small { result < 2 ^ 32 }
{
    if depth == level + 1 {
        deeper as u64
    } else {
        NO_CHILD
    }
}

/// Whether an entry is stored at a position.
fn is_stored<W: Words>(words: &W, part: Part, at: u32, word: u64) -> bool
    ensures { result ≡ stored_at (list_of part (W.lists words.now)) at word }
{
    at < words.len(part) && words.word(part, at) == word
}

/// How far a level is compared.
#[derive(Clone, Copy)]
pub struct Scan {
    /// How many entries are the stored ones.
    settled: u32,
    /// How many tags of the next level were met.
    deeper: u32,
    /// A tag of the level whose entry waits for the next tag.
    waiting: Option<u32>,
    /// The first difference.
    found: Option<u32>,
}

/// A scan at the first record.
pub const START: Scan = Scan {
    settled: 0,
    deeper: 0,
    waiting: None,
    found: None,
};

/// The tag at a record, if it is of the level.
fn open_for(at: u32, depth: u8, level: u8) -> Option<u32>
    ensures { result ≡ cond (depth == level) (Some at) None }
{
    if depth == level { Some(at) } else { None }
}

/// One more, if a tag is of the next level.
fn count_for(deeper: u32, depth: u8, level: u8) -> u32
    requires level { level < 2 ^ 7 }
    requires few { deeper < 2 ^ 32 - 1 }
    ensures value { result ≡ cond (depth == suc level) (suc deeper) deeper }
    ensures more { result ≤ deeper + 1 }
{
    if depth == level + 1 {
        deeper + 1
    } else {
        deeper
    }
}

/// Compares an entry with the stored one.
fn compared<W: Words>(stored: &W, part: Part, scan: Scan, word: u64) -> Scan
    requires few { scan.settled < 2 ^ 32 - 1 }
    requires going { scan.found ≡ None }
    ensures value { (ws : List ℕ) → found_or (list_of part (W.lists stored.now)) result.found result.settled ws
        ≡ found_or (list_of part (W.lists stored.now)) None scan.settled (word ∷ ws) }
    ensures more { result.settled ≤ scan.settled + 1 }
    ensures waiting { result.waiting ≡ scan.waiting }
{
    if is_stored(stored, part, scan.settled, word) {
        return Scan {
            settled: scan.settled + 1,
            ..scan
        };
    }
    Scan {
        found: Some(scan.settled),
        ..scan
    }
}

/// Compares the entry that waits, now that its child is known.
fn settle<W: Words>(stored: &W, part: Part, scan: Scan, child: u64) -> Scan
    requires child { child < 2 ^ 32 }
    requires few { scan.settled < 2 ^ 32 - 1 }
    requires going { scan.found ≡ None }
    ensures value { (ws : List ℕ) → found_or (list_of part (W.lists stored.now)) result.found result.settled ws
        ≡ found_or (list_of part (W.lists stored.now)) None scan.settled (with_entry scan.waiting child ws) }
    ensures more { result.settled ≤ scan.settled + 1 }
{
    match scan.waiting {
        None => scan,
        Some(tag) => compared(stored, part, scan, entry(tag, child)),
    }
}

/// Compares on over a starting tag.
pub fn pass<W: Words>(stored: &W, part: Part, level: u8, at: u32, parts: Parts, scan: Scan) -> Scan
    requires level { level < 2 ^ 7 }
    requires few { at < 2 ^ 32 - 1 }
    requires tag { parts.token ≡ 0 }
    requires so_far { ScanTo scan at }
    ensures value { PassesOn level (list_of part (W.lists stored.now)) scan at (record_of parts) result }
    ensures to { ScanTo result (at + 1) }
{
    if let Some(_) = scan.found {
        return scan;
    }
    let next = settle(
        stored,
        part,
        scan,
        child_for(scan.deeper, parts.depth, level),
    );
    Scan {
        settled: next.settled,
        deeper: count_for(scan.deeper, parts.depth, level),
        waiting: open_for(at, parts.depth, level),
        found: next.found,
    }
}

/// Compares on over a starting tag, in a last level, whose entries are records alone.
pub fn pass_last<W: Words>(stored: &W, level: u8, at: u32, parts: Parts, scan: Scan) -> Scan
    requires few { at < 2 ^ 32 - 1 }
    requires tag { parts.token ≡ 0 }
    requires settled { scan.settled ≤ at }
    ensures value { PassesOnLast level (W.lists stored.now).level5 scan at (record_of parts) result }
    ensures settled { result.settled ≤ at + 1 }
    ensures waiting { result.waiting ≡ scan.waiting }
{
    if let Some(_) = scan.found {
        return scan;
    }
    if parts.depth != level {
        return scan;
    }
    compared(stored, Part::Level5, scan, at as u64)
}

/// What is left after the last record: the entry that waits, and what is stored beyond it.
pub fn finish<W: Words>(stored: &W, part: Part, scan: Scan) -> Option<u32>
    requires { scan.settled < 2 ^ 32 - 1 }
    ensures { result ≡ found_or (list_of part (W.lists stored.now)) scan.found scan.settled
        (with_entry scan.waiting no_child []) }
{
    if let Some(at) = scan.found {
        return Some(at);
    }
    let last = settle(stored, part, scan, NO_CHILD);
    if let Some(at) = last.found {
        return Some(at);
    }
    if last.settled < stored.len(part) {
        return Some(last.settled);
    }
    None
}

/// How far five levels are compared.
#[derive(Clone, Copy)]
struct Lanes {
    one: Scan,
    two: Scan,
    three: Scan,
    four: Scan,
    five: Scan,
}

/// All levels at the first record.
const START_ALL: Lanes = Lanes {
    one: START,
    two: START,
    three: START,
    four: START,
    five: START,
};

/// The first difference of levels: an entry of a level that differs, is missing or is surplus.
#[derive(Clone, Copy, Debug, PartialEq, Eq)]
pub struct CacheDiff {
    pub level: u8,
    pub at: u32,
}

/// Compares all levels on over a record: starting tags tell.
fn pass_all<W: Words>(stored: &W, at: u32, parts: Parts, lanes: Lanes) -> Lanes
    requires few { at < 2 ^ 32 - 1 }
    requires so_far { LanesTo lanes at }
    ensures to { LanesTo result (at + 1) }
    ensures one { PassesOn 1 (W.lists stored.now).level1 lanes.one at (record_of parts) result.one }
    ensures two { PassesOn 2 (W.lists stored.now).level2 lanes.two at (record_of parts) result.two }
    ensures three { PassesOn 3 (W.lists stored.now).level3 lanes.three at (record_of parts) result.three }
    ensures four { PassesOn 4 (W.lists stored.now).level4 lanes.four at (record_of parts) result.four }
    ensures five { PassesOnLast 5 (W.lists stored.now).level5 lanes.five at (record_of parts) result.five }
{
    if parts.token != START_TAG {
        return lanes;
    }
    Lanes {
        one: pass(stored, Part::Level1, 1, at, parts, lanes.one),
        two: pass(stored, Part::Level2, 2, at, parts, lanes.two),
        three: pass(stored, Part::Level3, 3, at, parts, lanes.three),
        four: pass(stored, Part::Level4, 4, at, parts, lanes.four),
        five: pass_last(stored, 5, at, parts, lanes.five),
    }
}

/// The first difference, after the last record.
fn first_difference<W: Words>(stored: &W, lanes: Lanes) -> Option<CacheDiff>
    requires { LanesTo lanes (2 ^ 32 - 2) }
    ensures { result ≡ difference_of (levels_in (W.lists stored.now)) lanes }
{
    if let Some(at) = finish(stored, Part::Level1, lanes.one) {
        return Some(CacheDiff { level: 1, at });
    }
    if let Some(at) = finish(stored, Part::Level2, lanes.two) {
        return Some(CacheDiff { level: 2, at });
    }
    if let Some(at) = finish(stored, Part::Level3, lanes.three) {
        return Some(CacheDiff { level: 3, at });
    }
    if let Some(at) = finish(stored, Part::Level4, lanes.four) {
        return Some(CacheDiff { level: 4, at });
    }
    let at = finish(stored, Part::Level5, lanes.five)?;
    Some(CacheDiff { level: 5, at })
}

/// Compares the levels with those of the records, by one pass over these.
///
/// # Errors
/// The first level, and in it the first entry, that differs, is missing or is surplus.
pub fn check_levels<W: Words>(words: &W) -> Result<(), CacheDiff>
    requires { length (W.lists words.now).records < 2 ^ 32 - 1 }
    ensures same { OnOk result ((rs : List Record) → Shows (W.lists words.now).records rs →
        HasLevels (W.lists words.now) rs) }
    ensures differ { IfErr result (λ diff. (rs : List Record) → Shows (W.lists words.now).records rs →
        differ_levels (levels_in (W.lists words.now)) (levels rs) ≡ Some diff) }
{
    let mut lanes = START_ALL;
    for at in 0..words.len(Part::Records) {
        lanes = pass_all(words, at, parts_at(words, at), lanes);
    }
    match first_difference(words, lanes) {
        Some(diff) => Err(diff),
        None => Ok(()),
    }
}
