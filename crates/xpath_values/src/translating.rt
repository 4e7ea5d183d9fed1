//! `translate`: XPath 1.0, section 4.2.

ghost use Rattle.std.specs.Prelude.{◌≡◌, ◌==◌, ◌++◌, ◌∷◌, [], IfOk, List, MatchOption, OnOk, cond, encode_utf8_all};
ghost use Rattle.std.specs.Prelude.{option_to_list, string_bytes, ℕ};
ghost use Rattle.std.specs.BTreeMap.{get};
ghost use Rattle.std.specs.List.{flat_map};
ghost use Rattle.std.specs.Ordering.{nat_cmp};
ghost use Rattle.std.specs.Str.{chars};
ghost use Rattle.xpath_values.specs.Texts.{translate};
ghost use Rattle.xpath_values.specs.Translating.{becomes, noted};

use crate::bytewise;
use std::alloc::{AllocError, Global};
use std::collections::BTreeMap;
use xml_chars::text::step;
use xml_model::texts::as_str;
use xml_model::{NoMemory, Text};

/// What becomes of characters: another one, or none; a character that is not here stays.
type Changes = BTreeMap<char, Option<char>>;

/// Notes what becomes of a character, where nothing is noted of it.
fn note(changes: &mut Changes, from: char, to: Option<char>) -> Result<(), AllocError>
    ensures { OnOk result ((c : ℕ) (other : List ℕ) → noted (get nat_cmp changes.new c) other
        ≡ noted (get nat_cmp changes.old c) (cond (from == c) (option_to_list to) other)) }
{
    if changes.contains_key(&from) {
        return Ok(());
    }
    changes.insert(from, to)?;
    Ok(())
}

/// The first character of a text, if it has one, and what follows it.
fn split(text: &str) -> (Option<char>, &str)
    ensures { MatchOption result.0 ((chars text.now ≡ []) × (chars result.1.now ≡ []))
        (λ c. chars text.now ≡ c ∷ chars result.1.now) }
{
    match step(text) {
        None => (None, text),
        Some((c, rest)) => (Some(c), rest),
    }
}

/// What becomes of characters: one of the first text becomes the one at the same place in the other, or goes; the first
/// place counts.
fn changes(alloc: Global, from: &str, to: &str) -> Result<Changes, AllocError>
    ensures { IfOk result (λ m. (c : ℕ) → noted (get nat_cmp m c) (c ∷ [])
        ≡ becomes (chars from.now) (chars to.now) c) }
{
    let mut found = BTreeMap::new(alloc);
    let mut left = from;
    let mut there = to;
    while let Some((c, rest)) = step(left) {
        let (d, after) = split(there);
        note(&mut found, c, d)?;
        left = rest;
        there = after;
    }
    Ok(found)
}

/// What becomes of a character.
fn change_of(changes: &Changes, c: char) -> Option<char>
    ensures { option_to_list result ≡ noted (get nat_cmp changes.now c) (c ∷ []) }
{
    match changes.get(&c) {
        None => Some(c),
        Some(to) => *to,
    }
}

/// Writes what becomes of a character.
fn push_change(held: &mut String, change: Option<char>) -> Result<(), AllocError>
    ensures { OnOk result (string_bytes held.new
        ≡ string_bytes held.old ++ encode_utf8_all (option_to_list change)) }
{
    match change {
        None => Ok(()),
        Some(c) => {
            held.push(c)?;
            Ok(())
        }
    }
}

/// The characters of a text, changed.
fn translated(alloc: Global, text: &str, changes: &Changes) -> Result<String, AllocError>
    ensures { IfOk result (λ s. string_bytes s ≡ encode_utf8_all
        (flat_map (λ c. noted (get nat_cmp changes.now c) (c ∷ [])) (chars text.now))) }
{
    let mut held = String::new(alloc);
    let mut rest = text;
    while let Some((c, after)) = step(rest) {
        push_change(&mut held, change_of(changes, c))?;
        rest = after;
    }
    Ok(held)
}

/// The same as a text.
fn translated_text(alloc: Global, text: &str, from: &str, to: &str) -> Result<Text, AllocError>
    ensures { IfOk result (λ t. t ≡ translate (chars text.now) (chars from.now) (chars to.now)) }
{
    if from.is_ascii() && to.is_ascii() && from.len() <= to.len() {
        return bytewise::translated(alloc, text, from, to);
    }
    let changes = changes(alloc, from, to)?;
    Ok(Text {
        held: translated(alloc, text, &changes)?,
    })
}

/// A text in which each character that is in the second text becomes the one at the same place in the third, or goes
/// where the third has none there; of a character that is twice in the second the first place counts (XPath 1.0,
/// section 4.2). It takes one pass over each text, and a look-up in the second for each character of the first; where
/// both are ASCII and none goes, the look-up is in a table of bytes.
///
/// # Errors
/// Where memory was not to be had.
pub fn translate(alloc: Global, text: &Text, from: &Text, to: &Text) -> Result<Text, NoMemory>
    ensures { IfOk result (λ t. t ≡ translate text.now from.now to.now) }
{
    match translated_text(alloc, as_str(text), as_str(from), as_str(to)) {
        Ok(text) => Ok(text),
        Err(_) => Err(NoMemory),
    }
}
