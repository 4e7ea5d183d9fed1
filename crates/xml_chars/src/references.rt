//! References at the start of a text (XML 1.0, productions 66 to 68). No call takes memory.
#![tactic(auto)]

ghost use Rattle.std.specs.Prelude.{◌≡◌, ◌≤◌, ◌<◌, ◌+◌, length, option_map, IfSome, Some, true};
ghost use Rattle.std.specs.List.{prefix_len, list_all};
ghost use Rattle.std.specs.Char.{is_digit};
ghost use Rattle.std.specs.Str.{chars};
ghost use Rattle.xml_model.specs.Items.{number_of};
ghost use Rattle.xml_chars.specs.Numbers.{capped_from};
ghost use Rattle.xml_chars.specs.Readers.{Gives, run, mapped};
ghost use Rattle.xml_chars.specs.Reading.{read_digits, read_number, read_reference, read_form, named};
ghost use Rattle.xml_chars.specs.Shown.{name, shown, referred};

use crate::is_char;
use crate::names::name_of;
use crate::text::word_of;

/// One above the last code point: a larger number is none either.
const TOO_LARGE: u32 = 0x11_0000;

/// The length of the longest prefix of digits of the base.
fn digits_len(bytes: &[u8], base: u32) -> usize
    requires low { 2 ≤ base }
    requires high { base ≤ 36 }
    ensures value { result ≡ prefix_len (λ c. is_digit c base) bytes.now }
    ensures within { result ≤ length bytes.now }
{
    for (i, b) in bytes.iter().enumerate() {
        if !(*b as char).is_digit(base) {
            return i;
        }
    }
    bytes.len()
}

/// The number that the digits write, or one above the last code point where it is larger.
fn capped_number(digits: &[u8], base: u32) -> u32
    requires low { 2 ≤ base }
    requires high { base ≤ 36 }
    requires digits { list_all (λ c. is_digit c base) digits.now ≡ true }
    ensures { result ≡ capped_from base 0 digits.now }
{
    let mut number = 0u32;
    for b in digits {
        let digit = (*b as char).to_digit(base).unwrap_or(0);
        number = (number * base + digit).min(TOO_LARGE);
    }
    number
}

/// The longest prefix of digits of the base, and what follows it.
fn digits_of(text: &str, base: u32) -> (&str, &str)
    requires low { 2 ≤ base }
    requires high { base ≤ 36 }
    ensures read { run (λ c. is_digit c base) (chars text.now) ≡ Some (chars result.0.now, chars result.1.now) }
    ensures ascii { chars result.0.now ≡ result.0.now }
    ensures digits { list_all (λ c. is_digit c base) result.0.now ≡ true }
    ensures lengths { length result.0.now + length result.1.now ≡ length text.now }
{
    text.split_at(digits_len(text.as_bytes(), base))
}

/// The Char that the digits at the start name, and what follows them; None where there are none or they name no Char.
fn number_of(text: &str, base: u32) -> Option<(char, &str)>
    requires low { 2 ≤ base }
    requires high { base ≤ 36 }
    ensures read { Gives (λ x. (x.0, chars x.1.now)) result
        (mapped (number_of base) (read_digits base) (chars text.now)) }
    ensures shorter { IfSome result (λ x. length x.1.now ≤ length text.now) }
{
    let (digits, rest) = digits_of(text, base);
    let c = char::from_u32(capped_number(digits.as_bytes(), base))?;
    if is_char(c) { Some((c, rest)) } else { None }
}

/// The Char that the digits at the start name, with the semicolon after them that ends a reference, and what follows;
/// None where either is missing.
fn ended_number_of(text: &str, base: u32) -> Option<(char, &str)>
    requires low { 2 ≤ base }
    requires high { base ≤ 36 }
    ensures read { Gives (λ x. (x.0, chars x.1.now)) result
        (mapped (λ p. number_of base p.0) (read_number base) (chars text.now)) }
    ensures shorter { IfSome result (λ x. length x.1.now ≤ length text.now) }
{
    let (c, rest) = number_of(text, base)?;
    let rest = word_of(rest, ";")?;
    Some((c, rest))
}

/// The reference by a name at the start, and what follows it.
fn named_of(text: &str) -> Option<(&str, &str)>
    ensures read { Gives (λ x. (name (chars x.0.now), chars x.1.now)) result
        (mapped shown (read_form named) (chars text.now)) }
    ensures shorter { IfSome result (λ x. length x.1.now < length text.now) }
{
    let rest = word_of(text, "&")?;
    let (entity, rest) = name_of(rest)?;
    let rest = word_of(rest, ";")?;
    Some((entity, rest))
}

/// What a reference refers to: a character by its number, or the name of an entity.
#[derive(Clone, Copy)]
pub enum Referred<'a> {
    Char(char),
    Named(&'a str),
}

/// The reference at the start of the text, and what follows it; None where no reference begins the text.
pub fn reference_of(text: &str) -> Option<(Referred<'_>, &str)>
    ensures read { Gives (λ x. (referred x.0, chars x.1.now)) result (mapped shown read_reference (chars text.now)) }
    ensures shorter { IfSome result (λ x. length x.1.now < length text.now) }
{
    if let Some(rest) = word_of(text, "&#x") {
        let (c, rest) = ended_number_of(rest, 16)?;
        return Some((Referred::Char(c), rest));
    }
    if let Some(rest) = word_of(text, "&#") {
        let (c, rest) = ended_number_of(rest, 10)?;
        return Some((Referred::Char(c), rest));
    }
    let (entity, rest) = named_of(text)?;
    Some((Referred::Named(entity), rest))
}
