//! The levels of documents, stored levels against them, and the child elements that they tell.

ghost use Rattle.std.specs.Prelude.{IsTrue};
ghost use Rattle.vtd_location.specs.Children.{IsLeveled, IsShallowTag};

use std::alloc::{AllocError, Global};
use views::Lent;
use vtd_location::{CacheDiff, Nav, check_levels, check_levels_one, child_elements};
use vtd_words::{Meter, Part, WordView, Words, parts_at};
use xml_model::TokenKind;

/// The entries of a level, in hexadecimal digits.
fn write_level<W: Words>(
    out: &mut String,
    words: &W,
    name: &str,
    part: Part,
) -> Result<(), AllocError> {
    out.push_str(name)?;
    for at in 0..words.len(part) {
        let word = words.word(part, at);
        write!(out, " {word:016x}")?;
    }
    out.push_str(";")
}

/// The levels of a document.
fn write_levels<W: Words>(out: &mut String, words: &W) -> Result<(), AllocError> {
    write_level(out, words, "1", Part::Level1)?;
    write_level(out, words, "2", Part::Level2)?;
    write_level(out, words, "3", Part::Level3)?;
    write_level(out, words, "4", Part::Level4)?;
    write_level(out, words, "5", Part::Level5)
}

/// The number that begins a row.
fn number_of(input: &str) -> u32 {
    input.parse::<u32>().unwrap_or(u32::MAX)
}

/// Whether a record is that of a starting tag of depth 0 to 4.
fn is_shallow_tag<W: Words>(words: &W, at: u32) -> bool
    ensures { IsTrue result → IsShallowTag (W.lists words.now) at }
{
    if at >= words.len(Part::Records) {
        return false;
    }
    let parts = parts_at(words, at);
    if parts.token != TokenKind::StartTag as u8 {
        return false;
    }
    parts.depth <= 4
}

/// How many child elements an element has, the first and the last, and whether telling them reads so many words or
/// fewer.
fn write_children<W: Words>(
    out: &mut String,
    meter: &mut Meter<'_, W>,
    at: u32,
    most: u64,
) -> Result<(), AllocError>
    requires leveled { IsLeveled meter.old.lists }
    requires tag { IsShallowTag meter.old.lists at }
{
    let mut children = child_elements(meter, at);
    let mut count = 0u32;
    let mut first = 0;
    let mut last = 0;
    for _ in 0..u32::MAX {
        let Some(child) = children.next(meter) else {
            break;
        };
        first = if count == 0 { child } else { first };
        last = child;
        count = count.wrapping_add(1);
    }
    write!(out, "{count}")?;
    if count > 0 {
        write!(out, ", {first} to {last}")?;
    }
    if meter.reads() > most {
        write!(out, ", {} reads", meter.reads())?;
    }
    Ok(())
}

/// The child elements of the element whose record is the first number of the input. The second says how many reads
/// there are at most.
fn write_children_of<W: Words>(
    out: &mut String,
    nav: &Nav<'_, W>,
    input: &str,
) -> Result<(), AllocError> {
    let (at, most) = input.split_once(" ").unwrap_or((input, ""));
    let at = number_of(at);
    if !is_shallow_tag(nav.table().words(), at) {
        return out.push_str("no element of depth 0 to 4");
    }
    let mut meter = nav.meter();
    write_children(out, &mut meter, at, number_of(most) as u64)
}

/// Entries in hexadecimal digits as bytes, 8 for each, or 4.
fn entries_in(alloc: Global, input: &str, long: bool) -> Result<Vec<u8>, AllocError> {
    let mut bytes = Vec::new(alloc);
    for digits in input.split_whitespace() {
        let word = u64::from_str_radix(digits, 16).unwrap_or(0);
        if long {
            bytes.extend_from_slice(&word.to_be_bytes())?;
        } else {
            let word = u32::from_str_radix(digits, 16).unwrap_or(0);
            bytes.extend_from_slice(&word.to_be_bytes())?;
        }
    }
    Ok(bytes)
}

/// Where levels differ, if they do.
fn write_difference(out: &mut String, checked: Result<(), CacheDiff>) -> Result<(), AllocError> {
    match checked {
        Ok(()) => out.push_str("same"),
        Err(diff) => write!(out, "level {} at {}", diff.level, diff.at),
    }
}

/// The next list of an input that has a semicolon after each.
fn next_list<'t>(input: &mut &'t str) -> &'t str {
    match input.split_once(";") {
        Some((list, rest)) => {
            *input = rest;
            list
        }
        None => "",
    }
}

/// Where five stored levels differ from those of a document.
fn write_checked<W: Words>(
    alloc: Global,
    out: &mut String,
    nav: &Nav<'_, W>,
    input: &str,
) -> Result<(), AllocError> {
    let mut rest = input;
    let mut lent = Lent::of(alloc, nav.table().words())?;
    lent.level1 = entries_in(alloc, next_list(&mut rest), true)?;
    lent.level2 = entries_in(alloc, next_list(&mut rest), true)?;
    lent.level3 = entries_in(alloc, next_list(&mut rest), true)?;
    lent.level4 = entries_in(alloc, next_list(&mut rest), true)?;
    lent.level5 = entries_in(alloc, next_list(&mut rest), false)?;
    match lent.view() {
        Some(view) if view.len(Part::Records) < u32::MAX => {
            write_difference(out, check_levels(&view))
        }
        _ => out.push_str("no view"),
    }
}

/// Where three stored levels differ from those that the first version has for a document.
fn write_checked_one<W: Words>(
    alloc: Global,
    out: &mut String,
    nav: &Nav<'_, W>,
    input: &str,
) -> Result<(), AllocError> {
    let mut rest = input;
    let level1 = entries_in(alloc, next_list(&mut rest), true)?;
    let level2 = entries_in(alloc, next_list(&mut rest), true)?;
    let level3 = entries_in(alloc, next_list(&mut rest), false)?;
    let words = nav.table().words();
    let whole = WordView::of(&[], &level1, &level2, &[], &[], &level3).is_some();
    if whole && words.len(Part::Records) < u32::MAX {
        return write_difference(out, check_levels_one(words, &level1, &level2, &level3));
    }
    out.push_str("no entries")
}

/// The answer of a table of the levels of a document.
pub fn answer<W: Words>(
    alloc: Global,
    out: &mut String,
    table: &str,
    nav: &Nav<'_, W>,
    input: &str,
) -> Result<(), AllocError> {
    match table {
        "levels" => write_levels(out, nav.table().words()),
        "children" => write_children_of(out, nav, input),
        "checked" => write_checked(alloc, out, nav, input),
        "checked for version 1" => write_checked_one(alloc, out, nav, input),
        _ => out.push_str("no such table"),
    }
}
