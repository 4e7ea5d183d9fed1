//! Text functions that take memory: XPath 1.0, section 4.2.

ghost use Rattle.std.specs.Prelude.{◌≡◌, ◌++◌, [], IfOk, string_bytes};
ghost use Rattle.std.specs.Str.{chars};
ghost use Rattle.xpath_values.specs.Texts.{substring_after, substring_before};

use crate::texts::cut;
use std::alloc::{AllocError, Global};
use xml_model::texts::{as_str, make_text};
use xml_model::{NoMemory, Text};

/// Two pieces joined.
fn joined(alloc: Global, one: &str, other: &str) -> Result<String, AllocError>
    ensures { IfOk result (λ s. string_bytes s ≡ one.now ++ other.now) }
{
    let mut held = String::from_str(alloc, one)?;
    held.push_str(other)?;
    Ok(held)
}

/// Two texts joined (XPath 1.0, section 4.2).
///
/// # Errors
/// Where memory was not to be had.
pub fn concat(alloc: Global, one: &Text, other: &Text) -> Result<Text, NoMemory>
    ensures { IfOk result (λ t. t ≡ one.now ++ other.now) }
{
    match joined_text(alloc, as_str(one), as_str(other)) {
        Ok(text) => Ok(text),
        Err(_) => Err(NoMemory),
    }
}

/// The text of two pieces joined.
fn joined_text(alloc: Global, one: &str, other: &str) -> Result<Text, AllocError>
    ensures { IfOk result (λ t. t ≡ chars one.now ++ chars other.now) }
{
    Ok(Text {
        held: joined(alloc, one, other)?,
    })
}

/// The text with the characters of a piece.
pub fn made(alloc: Global, piece: &str) -> Result<Text, NoMemory>
    ensures { IfOk result (λ t. t ≡ chars piece.now) }
{
    match make_text(alloc, piece) {
        Ok(text) => Ok(text),
        Err(_) => Err(NoMemory),
    }
}

/// The text with no characters.
pub fn nothing(alloc: Global) -> Result<Text, NoMemory>
    ensures { IfOk result (λ t. t ≡ []) }
{
    made(alloc, "")
}

/// What is before the first place where a text is in another one; nothing where it is nowhere (XPath 1.0, section 4.2).
/// It takes time linear in both.
///
/// # Errors
/// Where memory was not to be had.
pub fn substring_before(alloc: Global, one: &Text, other: &Text) -> Result<Text, NoMemory>
    ensures { IfOk result (λ t. t ≡ substring_before one.now other.now) }
{
    match cut(one, other) {
        Some((before, _)) => made(alloc, before),
        None => nothing(alloc),
    }
}

/// What is after the first place where a text is in another one; nothing where it is nowhere (XPath 1.0, section 4.2).
/// It takes time linear in both.
///
/// # Errors
/// Where memory was not to be had.
pub fn substring_after(alloc: Global, one: &Text, other: &Text) -> Result<Text, NoMemory>
    ensures { IfOk result (λ t. t ≡ substring_after one.now other.now) }
{
    match cut(one, other) {
        Some((_, after)) => made(alloc, after),
        None => nothing(alloc),
    }
}
