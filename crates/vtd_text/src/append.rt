//! Appending resolved texts: the only call here that takes memory.
#![tactic(auto)]

ghost use Rattle.std.specs.Prelude.{◌≡◌, ◌++◌, List, ℕ, take, string_bytes, length, encode_utf8_all, OnOk, OnErr};

use crate::chars::Chars;
use std::alloc::{AllocError, Global};
use vtd_words::Words;
use xml_model::{NoMemory, Text};

/// Appends what is left to a text; after `AllocError` the text begins with what it held.
fn append<W: Words>(left: Chars<'_, W>, held: &mut String) -> Result<(), AllocError>
    ensures all { OnOk result (string_bytes held.new ≡ string_bytes held.old ++ encode_utf8_all left.entry) }
    ensures kept { take (length (string_bytes held.old)) (string_bytes held.new) ≡ string_bytes held.old }
{
    let mut left = left;
    held.push_str(left.next_plain())?;
    while let Some(c) = left.next() {
        held.push(c)?;
        held.push_str(left.next_plain())?;
    }
    Ok(())
}

/// Appends code points to a text; after `NoMemory` the text is as before. The allocator says that the call may take
/// memory.
pub fn append_to<W: Words>(
    _alloc: Global,
    chars: Chars<'_, W>,
    text: &mut Text,
) -> Result<(), NoMemory>
    ensures all { OnOk result (text.new ≡ text.old ++ chars.entry) }
    ensures full { OnErr result (text.new ≡ text.old) }
{
    let before = text.held.as_str().len();
    match append(chars, &mut text.held) {
        Ok(()) => Ok(()),
        Err(_) => {
            text.held.truncate(before);
            Err(NoMemory)
        }
    }
}
