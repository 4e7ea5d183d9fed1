//! The line of a string.

ghost use Rattle.std.specs.Prelude.{◌≡◌, ℕ, ◌+◌, ◌-◌, ◌<◌, ◌≤◌, List, ◌∷◌, ◌++◌, [], length, encode_utf8_all, OnOk};
ghost use Rattle.std.specs.Prelude.{IfOk};
ghost use Rattle.std.specs.List.{flat_map};
ghost use Rattle.vtd_listing.specs.Escapes.{doubled_char, escaped_char, value_line};

use crate::lines::push_text;
use memchr::{memchr, memchr3};
use std::alloc::Global;
use xml_model::{NoMemory, Text};

/// Adds a text, each backslash twice.
fn push_doubled(line: &mut Vec<u8>, text: &[u8]) -> Result<(), NoMemory>
    ensures { OnOk result (line.new.items ≡ line.old.items ++ flat_map doubled_char text.now) }
{
    let mut rest = text;
    while let Some(before) = memchr(b'\\', rest) {
        let (kept, _) = rest.split_at(before);
        let (_, after) = rest.split_at(before + 1);
        push_text(line, kept)?;
        push_text(line, b"\\\\")?;
        rest = after;
    }
    push_text(line, rest)
}

/// Adds a byte of a text, as it is written in a field.
fn push_escape(line: &mut Vec<u8>, byte: u8) -> Result<(), NoMemory>
    ensures { OnOk result (line.new.items ≡ line.old.items ++ escaped_char byte) }
{
    match byte {
        b'\t' => push_text(line, b"\\t"),
        b'\n' => push_text(line, b"\\n"),
        b'\r' => push_text(line, b"\\r"),
        b'\\' => push_text(line, b"\\\\"),
        _ => push_text(line, &[byte]),
    }
}

/// Adds a text, as it is written in a field. Runs of bytes that stand for themselves are copied whole.
fn push_escaped(line: &mut Vec<u8>, text: &[u8]) -> Result<(), NoMemory>
    ensures { OnOk result (line.new.items ≡ line.old.items ++ flat_map escaped_char text.now) }
{
    let mut rest = text;
    while let Some(before) = memchr3(b'\t', b'\n', b'\r', rest) {
        let byte = rest[before];
        let (kept, _) = rest.split_at(before);
        let (_, after) = rest.split_at(before + 1);
        push_doubled(line, kept)?;
        push_escape(line, byte)?;
        rest = after;
    }
    push_doubled(line, rest)
}

/// The bytes of a text, in UTF-8.
fn bytes_of(text: &Text) -> &[u8]
    ensures { result.now ≡ encode_utf8_all text.now }
{
    text.held.as_str().as_bytes()
}

/// The line of a string: `value`, and the string as it is written in a field. It is made in one piece, of which the
/// bytes of the string are copied by runs.
///
/// # Errors
/// `NoMemory` where the memory for the line was not to be had.
#[tactic(auto, unfolding(crate::specs::Escapes::value_line))]
pub fn value_lines(alloc: Global, text: &Text) -> Result<Vec<u8>, NoMemory>
    ensures { IfOk result (λ line. line.items ≡ value_line text.now) }
{
    let bytes = bytes_of(text);
    let Ok(mut line) = Vec::with_capacity(alloc, bytes.len() + 7) else {
        return Err(NoMemory);
    };
    push_text(&mut line, b"value ")?;
    push_escaped(&mut line, bytes)?;
    push_text(&mut line, b"\n")?;
    Ok(line)
}
