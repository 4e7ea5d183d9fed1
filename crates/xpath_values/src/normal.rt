//! `normalize-space`: XPath 1.0, section 4.2.

ghost use Rattle.std.specs.Prelude.{◌≡◌, ◌≤◌, ◌++◌, ◌∷◌, IfOk, List, ℕ, drop, encode_utf8_all, length, string_bytes};
ghost use Rattle.std.specs.Prelude.{◌+◌, ◌<◌, IsTrue, false, slice_index, take, true};
ghost use Rattle.std.specs.Str.{IsCharBoundary, chars};
ghost use Rattle.xml_model.specs.Chars.{is_space};
ghost use Rattle.xpath_values.specs.Normal.{AreSingle, IsSingle, Stays, due, left};
ghost use Rattle.xpath_values.specs.Texts.{normalize_space};

use crate::reading::is_space;
use std::alloc::{AllocError, Global};
use xml_chars::text::step;
use xml_model::texts::as_str;
use xml_model::{NoMemory, Text};

/// Where a text is among its words.
#[derive(Clone, Copy)]
struct Passed {
    /// A word was written.
    pub some: bool,
    /// White space was passed since its last character.
    pub gap: bool,
}

/// What is due before a character of a word: a space, where it begins a word that is not the first.
fn due(passed: Passed) -> &'static str
    ensures { result.now ≡ due passed.some passed.gap }
{
    if passed.some && passed.gap { " " } else { "" }
}

/// Writes what one more character adds.
fn take_next(held: &mut String, passed: Passed, c: char) -> Result<Passed, AllocError>
    ensures { IfOk result (λ p. (t : List ℕ) → string_bytes held.new ++ encode_utf8_all (left p.some p.gap t)
        ≡ string_bytes held.old ++ encode_utf8_all (left passed.some passed.gap (c ∷ t))) }
{
    if is_space(c) {
        return Ok(Passed {
            some: passed.some,
            gap: true,
        });
    }
    held.push_str(due(passed))?;
    held.push(c)?;
    Ok(Passed {
        some: true,
        gap: false,
    })
}

/// Whether a byte is white space (XML 1.0, production 3).
#[inline(always)]
#[tactic(auto, unfolding(xml_model::specs::Chars::is_space, xml_model::specs::Chars::in_ranges))]
fn is_space_byte(b: u8) -> bool
    ensures { result ≡ is_space b }
{
    matches!(b, b' ' | b'\t' | b'\n' | b'\r')
}

/// How many bytes are tested at once.
const STRETCH: usize = 64;

/// Whether a byte is white space, without a branch: many are tested at once.
#[inline(always)]
#[tactic(auto, unfolding(xml_model::specs::Chars::is_space, xml_model::specs::Chars::in_ranges))]
fn is_blank(b: u8) -> bool
    ensures { result ≡ is_space b }
{
    (b == b' ') | (b == b'\t') | (b == b'\n') | (b == b'\r')
}

/// Whether a byte before another is no white space, or a space before none.
#[inline(always)]
fn is_single(b: u8, after: u8) -> bool
    ensures { IsTrue result → IsSingle b after }
{
    !is_blank(b) | ((b == b' ') & (after != b' '))
}

/// Whether all bytes but the last are.
fn are_single(bytes: &[u8]) -> bool
    ensures { IsTrue result → (k : ℕ) → k + 1 < length bytes.now →
        IsSingle (slice_index bytes.now k) (slice_index bytes.now (k + 1)) }
{
    let mut all = true;
    for k in 1..bytes.len() {
        all = all & is_single(bytes[k - 1], bytes[k]);
    }
    all
}

/// The length of the stretches before the first in which a byte is not.
fn single_len(bytes: &[u8]) -> usize
    ensures within { result ≤ length bytes.now }
    ensures single { AreSingle bytes.now result }
{
    let mut start = 0;
    while bytes.len() - start > STRETCH {
        if !are_single(&bytes[start..start + STRETCH + 1]) {
            return start;
        }
        start += STRETCH;
    }
    start
}

/// Where the last word ends before a place.
fn word_end(bytes: &[u8], place: usize) -> usize
    requires within { place ≤ length bytes.now }
    requires single { AreSingle bytes.now place }
    ensures { Stays bytes.now result place }
{
    if place == 0 {
        return 0;
    }
    if bytes[place - 1] == b' ' {
        return place - 1;
    }
    place
}

/// The length of the longest prefix that stays as it is after a character of a word: words with single spaces between
/// them, up to the end of one. A place between characters, where the bytes are UTF-8.
fn stays_len(bytes: &[u8]) -> usize
    ensures same { left true false bytes.now ≡ take result bytes.now ++ left true false (drop result bytes.now) }
    ensures place { IsCharBoundary bytes.now result }
{
    let start = single_len(bytes);
    let mut end = word_end(bytes, start);
    for i in start..bytes.len() {
        let b = bytes[i];
        if !is_space_byte(b) {
            end = i + 1;
        } else if b != b' ' || i != end {
            return end;
        }
    }
    end
}

/// How many bytes of a text stay as they are: none where it is in no word.
fn kept_len(passed: Passed, text: &str) -> usize
    ensures same { left passed.some passed.gap text.now
        ≡ take result text.now ++ left passed.some passed.gap (drop result text.now) }
    ensures place { IsCharBoundary text.now result }
{
    if !passed.some {
        return 0;
    }
    if passed.gap {
        return 0;
    }
    stays_len(text.as_bytes())
}

/// What of a text stays as it is, and what follows that.
fn kept(passed: Passed, text: &str) -> (&str, &str)
    ensures same { encode_utf8_all (left passed.some passed.gap (chars text.now))
        ≡ result.0.now ++ encode_utf8_all (left passed.some passed.gap (chars result.1.now)) }
    ensures shorter { length result.1.now ≤ length text.now }
{
    text.split_at(kept_len(passed, text))
}

/// The words of a text with one space between them.
fn normalized(alloc: Global, text: &str) -> Result<String, AllocError>
    ensures { IfOk result (λ s. string_bytes s ≡ encode_utf8_all (normalize_space (chars text.now))) }
{
    let mut held = String::new(alloc);
    let mut passed = Passed {
        some: false,
        gap: false,
    };
    let mut rest = text;
    while let Some((c, after)) = step(rest) {
        passed = take_next(&mut held, passed, c)?;
        let (piece, next) = kept(passed, after);
        held.push_str(piece)?;
        rest = next;
    }
    Ok(held)
}

/// The same as a text.
fn normalized_text(alloc: Global, text: &str) -> Result<Text, AllocError>
    ensures { IfOk result (λ t. t ≡ normalize_space (chars text.now)) }
{
    Ok(Text {
        held: normalized(alloc, text)?,
    })
}

/// A text without white space at its ends, and with one space for each inner white space (XPath 1.0, section 4.2). It
/// takes one pass.
///
/// # Errors
/// Where memory was not to be had.
pub fn normalize_space(alloc: Global, text: &Text) -> Result<Text, NoMemory>
    ensures { IfOk result (λ t. t ≡ normalize_space text.now) }
{
    match normalized_text(alloc, as_str(text)) {
        Ok(text) => Ok(text),
        Err(_) => Err(NoMemory),
    }
}
