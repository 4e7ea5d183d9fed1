//! Levels that are counted, and filled by one pass over the records.

ghost use Rattle.std.specs.Prelude.{◌≡◌, ◌+◌, ◌-◌, ◌<◌, ◌^◌, ◌==◌, cond, List, length};
ghost use Rattle.xml_model.specs.Levels.{with_element, CountsLevels, LevelsAtMost};
ghost use Rattle.xml_model.specs.Records.{Record};
ghost use Rattle.vtd_words.specs.Table.{ArePartsAt, Shows};
ghost use Rattle.vtd_location.specs.Filling.{settled, CanFill, CanSettle, FilledTo, HasLevelRoom, Waits};
ghost use Rattle.vtd_location.specs.Nav.{HasLevels};

use crate::checking::{child_for, entry};
use vtd_words::{Counts, Part, Parts, WordVec, Words, parts_at};
use xml_model::TokenKind;

/// The number of starting tags' records.
const START_TAG: u8 = TokenKind::StartTag as u8;

/// The counts with a record that comes next: a starting tag counts.
fn counted(counts: Counts, parts: Parts) -> Counts
    requires { LevelsAtMost (2 ^ 32 - 2) counts }
    ensures { result ≡ cond (parts.token == 0) (with_element parts.depth counts) counts }
{
    if parts.token != START_TAG {
        return counts;
    }
    counts.with_element(parts.depth as u32)
}

/// How many words the levels of the records have, by one pass over these; and how many records there are.
pub fn count_levels<W: Words>(words: &W) -> Counts
    requires { length (W.lists words.now).records < 2 ^ 32 - 1 }
    ensures records { result.records ≡ length (W.lists words.now).records }
    ensures levels { (rs : List Record) → Shows (W.lists words.now).records rs → CountsLevels result rs }
{
    let records = words.len(Part::Records);
    let mut counts = Counts {
        records,
        level1: 0,
        level2: 0,
        level3: 0,
        level4: 0,
        level5: 0,
    };
    for at in 0..records {
        counts = counted(counts, parts_at(words, at));
    }
    counts
}

/// A starting tag whose entry waits for the next tag, which tells its first child.
#[derive(Clone, Copy)]
struct Waiting {
    at: u32,
    level: u8,
}

/// The tag at a record, if it is of a level that is kept.
fn waiting_at(at: u32, depth: u8) -> Option<Waiting>
    ensures { Waits at depth result }
{
    if depth >= 1 && depth <= 5 {
        Some(Waiting { at, level: depth })
    } else {
        None
    }
}

/// Appends the entry of the tag that waits, now that the depth of the next tag is known.
fn settle(words: &mut WordVec, waiting: Option<Waiting>, depth: u8)
    requires { CanSettle waiting words.old }
    ensures lists { words.new.lists ≡ settled waiting depth words.old.lists }
    ensures room { (rs : List Record) → HasLevelRoom rs words.old → HasLevelRoom rs words.new }
{
    let Some(tag) = waiting else { return };
    match tag.level {
        1 => {
            let child = child_for(words.len(Part::Level2), depth, 1);
            words.push(Part::Level1, entry(tag.at, child));
        }
        2 => {
            let child = child_for(words.len(Part::Level3), depth, 2);
            words.push(Part::Level2, entry(tag.at, child));
        }
        3 => {
            let child = child_for(words.len(Part::Level4), depth, 3);
            words.push(Part::Level3, entry(tag.at, child));
        }
        4 => {
            let child = child_for(words.len(Part::Level5), depth, 4);
            words.push(Part::Level4, entry(tag.at, child));
        }
        _ => words.push(Part::Level5, tag.at as u64),
    }
}

/// Takes the next record: where it is a starting tag's, settles the tag that waits, and lets this one wait.
fn take(words: &mut WordVec, at: u32, parts: Parts, waiting: Option<Waiting>) -> Option<Waiting>
    requires within { at < length words.old.lists.records }
    requires parts { ArePartsAt words.old.lists.records at parts }
    requires so_far { FilledTo words.old.lists.records words.old waiting at }
    ensures { FilledTo words.old.lists.records words.new result (at + 1) }
{
    if parts.token != START_TAG {
        return waiting;
    }
    settle(words, waiting, parts.depth);
    waiting_at(at, parts.depth)
}

/// Writes the levels of the records, by one pass over these. The levels are empty, and have room for so many words as
/// `count_levels` tells.
pub fn fill_levels(words: &mut WordVec)
    requires { CanFill words.old }
    ensures records { words.new.lists.records ≡ words.old.lists.records }
    ensures levels { (rs : List Record) → Shows words.old.lists.records rs → HasLevels words.new.lists rs }
{
    let mut waiting = None;
    for at in 0..words.len(Part::Records) {
        let parts = parts_at(&*words, at);
        waiting = take(words, at, parts, waiting);
    }
    settle(words, waiting, 0);
}
