//! `substring`: XPath 1.0, section 4.2.

ghost use Rattle.std.specs.Prelude.{◌≡◌, ◌++◌, ◌∷◌, IfOk, IfSome, List, OnOk, cond, encode_utf8_all, option_map};
ghost use Rattle.std.specs.Prelude.{string_bytes, ℕ};
ghost use Rattle.std.specs.Str.{chars};
ghost use Rattle.xpath_values.specs.Numbers.{IsNumber, is_before_sum, reaches, round};
ghost use Rattle.xpath_values.specs.Texts.{at_positions, is_within, substring};

use crate::Number;
use crate::numbers::{ONE, compare_numbers, round};
use std::alloc::{AllocError, Global};
use xml_chars::text::step;
use xml_model::texts::as_str;
use xml_model::{NoMemory, Text};
use xpath_tokens::Comparison;

/// Whether a position is a number or after it.
fn reaches(first: Number, position: u64) -> bool
    ensures { result ≡ reaches first position }
{
    compare_numbers(
        Comparison::AtMost,
        first,
        Number::Millionths(ONE * position as i128),
    )
}

/// Whether a position is before the sum of two numbers.
fn is_before_sum(first: Number, count: Number, position: u64) -> bool
    requires first { IsNumber first }
    requires count { IsNumber count }
    ensures { result ≡ is_before_sum first count position }
{
    match (first, count) {
        (Number::Millionths(x), Number::Millionths(y)) => ONE * (position as i128) < x + y,
        _ => false,
    }
}

/// Whether a position is at least a number, and where a count is there, below the sum of the two.
fn is_within(first: Number, count: Option<Number>, position: u64) -> bool
    requires first { IsNumber first }
    requires count { IfSome count IsNumber }
    ensures { result ≡ is_within first count position }
{
    match count {
        None => reaches(first, position),
        Some(count) => reaches(first, position) && is_before_sum(first, count, position),
    }
}

/// Writes a character, where it is kept.
fn keep(held: &mut String, kept: bool, c: char) -> Result<(), AllocError>
    ensures { OnOk result ((t : List ℕ) → string_bytes held.new ++ encode_utf8_all t
        ≡ string_bytes held.old ++ encode_utf8_all (cond kept (c ∷ t) t)) }
{
    if kept {
        held.push(c)?;
        return Ok(());
    }
    Ok(())
}

/// The characters of a text at the positions within two numbers.
fn kept(
    alloc: Global,
    text: &str,
    first: Number,
    count: Option<Number>,
) -> Result<String, AllocError>
    requires first { IsNumber first }
    requires count { IfSome count IsNumber }
    ensures { IfOk result (λ s. string_bytes s
        ≡ encode_utf8_all (at_positions (is_within first count) 1 (chars text.now))) }
{
    let mut held = String::new(alloc);
    let mut rest = text;
    let mut position = 1u64;
    while let Some((c, after)) = step(rest) {
        keep(&mut held, is_within(first, count, position), c)?;
        position += 1;
        rest = after;
    }
    Ok(held)
}

/// The same as a text.
fn kept_text(
    alloc: Global,
    text: &str,
    first: Number,
    count: Option<Number>,
) -> Result<Text, AllocError>
    requires first { IsNumber first }
    requires count { IfSome count IsNumber }
    ensures { IfOk result (λ t. t ≡ at_positions (is_within first count) 1 (chars text.now)) }
{
    Ok(Text {
        held: kept(alloc, text, first, count)?,
    })
}

/// A count, rounded.
fn rounded(count: Option<Number>) -> Option<Number>
    requires { IfSome count IsNumber }
    ensures value { result ≡ option_map round count }
    ensures fits { IfSome result IsNumber }
{
    match count {
        None => None,
        Some(count) => Some(round(count)),
    }
}

/// The characters at the positions, from 1 on, that are at least the rounded first number and, where a count is there,
/// below the sum of both rounded; none where a number is NaN (XPath 1.0, section 4.2). It takes one pass.
///
/// # Errors
/// Where memory was not to be had.
pub fn substring(
    alloc: Global,
    text: &Text,
    from: Number,
    count: Option<Number>,
) -> Result<Text, NoMemory>
    requires from { IsNumber from }
    requires count { IfSome count IsNumber }
    ensures { IfOk result (λ t. t ≡ substring text.now from count) }
{
    match kept_text(alloc, as_str(text), round(from), rounded(count)) {
        Ok(text) => Ok(text),
        Err(_) => Err(NoMemory),
    }
}
