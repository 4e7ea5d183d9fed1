//! `translate` of characters of ASCII, one for one, byte by byte: XPath 1.0, section 4.2.

ghost use Rattle.std.specs.Prelude.{◌≡◌, ◌≤◌, ◌<◌, IfOk, length, map, slice_index, string_bytes, ℕ};
ghost use Rattle.std.specs.Str.{IsAscii, IsUtf8, chars};
ghost use Rattle.xpath_values.specs.Texts.{translate};
ghost use Rattle.xpath_values.specs.Translating.{IsBytewise, swap};

use std::alloc::{AllocError, Global};
use xml_model::Text;

/// A table in which each byte stays.
fn unchanged() -> [u8; 256]
    ensures { (k : ℕ) → k < 256 → slice_index result k ≡ k }
{
    let mut table = [0; 256];
    for b in 0..256 {
        table[b] = b as u8;
    }
    table
}

/// What becomes of each byte: one of the first text becomes the one at the same place in the other; the first place
/// counts.
fn byte_table(from: &[u8], to: &[u8]) -> [u8; 256]
    requires from { IsAscii from.now }
    requires to { IsAscii to.now }
    requires room { length from.now ≤ length to.now }
    ensures { IsBytewise from.now to.now (slice_index result) }
{
    let mut table = unchanged();
    let mut left = from.len();
    while left > 0 {
        left -= 1;
        table[from[left] as usize] = to[left];
    }
    table
}

/// Changes each byte.
fn change(bytes: &mut [u8], table: &[u8; 256])
    ensures { bytes.new ≡ map (slice_index table.now) bytes.old }
{
    for i in 0..bytes.len() {
        bytes[i] = table[bytes[i] as usize];
    }
}

/// A text of which each byte is changed.
fn changed(alloc: Global, text: &str, table: &[u8; 256]) -> Result<String, AllocError>
    requires { IsUtf8 (map (slice_index table.now) text.now) }
    ensures { IfOk result (λ s. string_bytes s ≡ map (slice_index table.now) text.now) }
{
    let mut bytes = Vec::from_slice(alloc, text.as_bytes())?;
    change(&mut bytes, table);
    Ok(unsafe { String::from_utf8_unchecked(bytes) })
}

/// One byte or another.
#[inline(always)]
fn swapped(b: u8, from: u8, to: u8) -> u8
    ensures { result ≡ swap from to b }
{
    if from == b { to } else { b }
}

/// Changes one byte to another, wherever it is.
fn swap(bytes: &mut [u8], from: u8, to: u8)
    ensures { bytes.new ≡ map (swap from to) bytes.old }
{
    for i in 0..bytes.len() {
        bytes[i] = swapped(bytes[i], from, to);
    }
}

/// A text of which one byte is changed to another.
fn with_swap(alloc: Global, text: &str, from: u8, to: u8) -> Result<String, AllocError>
    requires { IsUtf8 (map (swap from to) text.now) }
    ensures { IfOk result (λ s. string_bytes s ≡ map (swap from to) text.now) }
{
    let mut bytes = Vec::from_slice(alloc, text.as_bytes())?;
    swap(&mut bytes, from, to);
    Ok(unsafe { String::from_utf8_unchecked(bytes) })
}

/// A text translated of which one character becomes another.
fn translated_one(alloc: Global, text: &str, from: &str, to: &str) -> Result<Text, AllocError>
    requires from { IsAscii from.now }
    requires to { IsAscii to.now }
    requires one { length from.now ≡ 1 }
    requires room { 1 ≤ length to.now }
    ensures { IfOk result (λ t. t ≡ translate (chars text.now) (chars from.now) (chars to.now)) }
{
    Ok(Text {
        held: with_swap(alloc, text, from.as_bytes()[0], to.as_bytes()[0])?,
    })
}

/// A text translated byte by byte.
pub fn translated(alloc: Global, text: &str, from: &str, to: &str) -> Result<Text, AllocError>
    requires from { IsAscii from.now }
    requires to { IsAscii to.now }
    requires room { length from.now ≤ length to.now }
    ensures { IfOk result (λ t. t ≡ translate (chars text.now) (chars from.now) (chars to.now)) }
{
    if from.len() == 1 {
        return translated_one(alloc, text, from, to);
    }
    let table = byte_table(from.as_bytes(), to.as_bytes());
    Ok(Text {
        held: changed(alloc, text, &table)?,
    })
}
