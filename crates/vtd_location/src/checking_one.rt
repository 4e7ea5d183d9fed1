//! The stored levels of the first version, of which there are three, against those of the records.

ghost use Rattle.std.specs.Prelude.{◌≡◌, ◌+◌, ◌-◌, ◌<◌, ◌^◌, List, length, Some, IfErr, OnOk};
ghost use Rattle.xml_model.specs.Records.{Record};
ghost use Rattle.xml_model.specs.Levels.{levels_one};
ghost use Rattle.vtd_words.specs.Numbers.{AreWords};
ghost use Rattle.vtd_words.specs.Packed.{record_of};
ghost use Rattle.vtd_words.specs.Table.{Shows};
ghost use Rattle.vtd_location.specs.Differences.{differ_levels_one, levels_one_of};
ghost use Rattle.vtd_location.specs.Scanning.{PassesOn, PassesOnLast};
ghost use Rattle.vtd_location.specs.ScanningOne.{difference_of_one, levels_one_in, LanesOneTo};

use crate::checking::{CacheDiff, START, START_TAG, Scan, finish, pass, pass_last};
use vtd_words::{Part, Parts, WordView, Words, parts_at};

/// How far three levels are compared.
#[derive(Clone, Copy)]
struct LanesOne {
    one: Scan,
    two: Scan,
    three: Scan,
}

/// All levels at the first record.
const START_ONE: LanesOne = LanesOne {
    one: START,
    two: START,
    three: START,
};

/// Compares three levels on over a record: starting tags tell. The last is stored in place of the fifth.
fn pass_one<W: Words>(stored: &W, at: u32, parts: Parts, lanes: LanesOne) -> LanesOne
    requires few { at < 2 ^ 32 - 1 }
    requires so_far { LanesOneTo lanes at }
    ensures to { LanesOneTo result (at + 1) }
    ensures one { PassesOn 1 (W.lists stored.now).level1 lanes.one at (record_of parts) result.one }
    ensures two { PassesOn 2 (W.lists stored.now).level2 lanes.two at (record_of parts) result.two }
    ensures three { PassesOnLast 3 (W.lists stored.now).level5 lanes.three at (record_of parts) result.three }
{
    if parts.token != START_TAG {
        return lanes;
    }
    LanesOne {
        one: pass(stored, Part::Level1, 1, at, parts, lanes.one),
        two: pass(stored, Part::Level2, 2, at, parts, lanes.two),
        three: pass_last(stored, 3, at, parts, lanes.three),
    }
}

/// The first difference of three levels, after the last record.
fn first_difference_one<W: Words>(stored: &W, lanes: LanesOne) -> Option<CacheDiff>
    requires { LanesOneTo lanes (2 ^ 32 - 2) }
    ensures { result ≡ difference_of_one (levels_one_in (W.lists stored.now)) lanes }
{
    if let Some(at) = finish(stored, Part::Level1, lanes.one) {
        return Some(CacheDiff { level: 1, at });
    }
    if let Some(at) = finish(stored, Part::Level2, lanes.two) {
        return Some(CacheDiff { level: 2, at });
    }
    let at = finish(stored, Part::Level5, lanes.three)?;
    Some(CacheDiff { level: 3, at })
}

/// Compares stored words with the three levels of the records.
fn compare_one<W: Words, V: Words>(words: &W, stored: &V) -> Option<CacheDiff>
    requires { length (W.lists words.now).records < 2 ^ 32 - 1 }
    ensures { (rs : List Record) → Shows (W.lists words.now).records rs →
        result ≡ differ_levels_one (levels_one_in (V.lists stored.now)) (levels_one rs) }
{
    let mut lanes = START_ONE;
    for at in 0..words.len(Part::Records) {
        lanes = pass_one(stored, at, parts_at(words, at), lanes);
    }
    first_difference_one(stored, lanes)
}

/// Compares big-endian entries with the levels that the first version has for the records, by one pass over these. Of
/// the first two levels an entry has 8 bytes, of the third 4; the slices are whole entries, of which a `u32` counts
/// those of each.
///
/// # Errors
/// The first level, and in it the first entry, that differs, is missing or is surplus.
pub fn check_levels_one<W: Words>(
    words: &W,
    level1: &[u8],
    level2: &[u8],
    level3: &[u8],
) -> Result<(), CacheDiff>
    requires few { length (W.lists words.now).records < 2 ^ 32 - 1 }
    requires level1 { AreWords 8 level1.now }
    requires level2 { AreWords 8 level2.now }
    requires level3 { AreWords 4 level3.now }
    ensures same { OnOk result ((rs : List Record) → Shows (W.lists words.now).records rs →
        levels_one_of level1.now level2.now level3.now ≡ levels_one rs) }
    ensures differ { IfErr result (λ diff. (rs : List Record) → Shows (W.lists words.now).records rs →
        differ_levels_one (levels_one_of level1.now level2.now level3.now) (levels_one rs) ≡ Some diff) }
{
    let Some(stored) = WordView::of(&[], level1, level2, &[], &[], level3) else {
        unreachable!()
    };
    match compare_one(words, &stored) {
        Some(diff) => Err(diff),
        None => Ok(()),
    }
}
