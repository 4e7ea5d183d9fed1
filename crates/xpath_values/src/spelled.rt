//! The text of a number: XPath 1.0, section 4.2. Each call takes constant time.

ghost use Rattle.std.specs.Prelude.{◌≡◌, ◌≤◌, ◌<◌, ◌++◌, ◌%◌, IfOk, OnOk, string_bytes};
ghost use Rattle.std.specs.Fmt.{decimal};
ghost use Rattle.xpath_values.specs.Numbers.{digit_at, one, signed_text, text_of_number, unsigned_text};
ghost use Rattle.xpath_values.specs.Spelled.{minus, place, point_and_places, places};

use crate::Number;
use std::alloc::{AllocError, Global};
use xml_model::texts::make_text;
use xml_model::{NoMemory, Text};

/// The digit of a number of millionths at a place after the point, where a 1 there adds the unit.
fn digit_at(millionths: u32, unit: u32) -> char
    requires { 0 < unit }
    ensures { result ≡ digit_at millionths unit }
{
    (48 + (millionths / unit % 10) as u8) as char
}

/// Writes the digit with a unit, where it or one after it is not 0.
fn push_place(held: &mut String, millionths: u32, unit: u32) -> Result<(), AllocError>
    requires some { 0 < unit }
    requires few { unit ≤ 100000 }
    ensures { OnOk result (string_bytes held.new ≡ string_bytes held.old ++ place millionths unit) }
{
    if millionths % (10 * unit) == 0 {
        return Ok(());
    }
    held.push(digit_at(millionths, unit))?;
    Ok(())
}

/// Writes the places after the point of less than a million millionths, up to the last that is not 0.
fn push_places(held: &mut String, millionths: u32) -> Result<(), AllocError>
    ensures { OnOk result (string_bytes held.new ≡ string_bytes held.old ++ places millionths) }
{
    push_place(held, millionths, 100_000)?;
    push_place(held, millionths, 10_000)?;
    push_place(held, millionths, 1_000)?;
    push_place(held, millionths, 100)?;
    push_place(held, millionths, 10)?;
    push_place(held, millionths, 1)
}

/// Writes a point and the places, where there are some.
fn push_point(held: &mut String, millionths: u32) -> Result<(), AllocError>
    ensures { OnOk result (string_bytes held.new ≡ string_bytes held.old ++ point_and_places millionths) }
{
    if millionths == 0 {
        return Ok(());
    }
    held.push('.')?;
    push_places(held, millionths)
}

/// A minus, or nothing.
fn minus(negative: bool) -> &'static str
    ensures { result.now ≡ minus negative }
{
    if negative { "-" } else { "" }
}

/// The digits of a whole number, with a minus before them or without.
fn whole_part(alloc: Global, negative: bool, whole: u128) -> Result<String, AllocError>
    ensures { IfOk result (λ s. string_bytes s ≡ minus negative ++ decimal whole) }
{
    let sign = minus(negative);
    format!(in alloc; "{sign}{whole}")
}

/// How many of so many millionths are after the point.
fn after_point(millionths: u128) -> u32
    ensures { result ≡ millionths % one }
{
    (millionths % 1_000_000) as u32
}

/// The spelling of so many millionths, with a minus before it or without.
fn spelled(alloc: Global, negative: bool, millionths: u128) -> Result<String, AllocError>
    ensures { IfOk result (λ s. string_bytes s ≡ minus negative ++ unsigned_text millionths) }
{
    let mut held = whole_part(alloc, negative, millionths / 1_000_000)?;
    push_point(&mut held, after_point(millionths))?;
    Ok(held)
}

/// The text of so many millionths.
fn signed_text(alloc: Global, millionths: i128) -> Result<Text, AllocError>
    ensures { IfOk result (λ t. t ≡ signed_text millionths) }
{
    Ok(Text {
        held: spelled(alloc, millionths.is_negative(), millionths.unsigned_abs())?,
    })
}

/// The text of a number.
fn number_text(alloc: Global, number: Number) -> Result<Text, AllocError>
    ensures { IfOk result (λ t. t ≡ text_of_number number) }
{
    match number {
        Number::Nan => make_text(alloc, "NaN"),
        Number::Millionths(millionths) => signed_text(alloc, millionths),
    }
}

/// The text of a number (XPath 1.0, section 4.2): `NaN`, or its digits, with a minus before a negative one, and a point
/// and at most six places where it is not whole. It takes constant time.
///
/// # Errors
/// Where memory was not to be had.
pub fn text_of_number(alloc: Global, number: Number) -> Result<Text, NoMemory>
    ensures { IfOk result (λ t. t ≡ text_of_number number) }
{
    match number_text(alloc, number) {
        Ok(text) => Ok(text),
        Err(_) => Err(NoMemory),
    }
}
