//! Plain text as it is written in a document.

ghost use Rattle.std.specs.Prelude.{◌≡◌, ◌++◌, codes, IfOk, OnOk};
ghost use Rattle.std.specs.List.{flat_map};
ghost use Rattle.vtd_modifier.specs.Escapes.{escaped, escaped_byte, escaped_in_text, escaped_in_value};

use std::alloc::Global;
use xml_model::{Bytes, NoMemory};

/// Where a text is to be written.
#[derive(Clone, Copy)]
pub(crate) enum Escape {
    /// As the text of an element.
    Text,
    /// As the value of an attribute between this quote.
    Value(u8),
}

fn push_all(out: &mut Vec<u8>, bytes: &[u8]) -> Result<(), NoMemory>
    ensures { OnOk result (out.new.items ≡ out.old.items ++ bytes.now) }
{
    out.extend_from_slice(bytes).map_err(|_| NoMemory)
}

/// What a byte becomes in the text of an element.
fn push_in_text(out: &mut Vec<u8>, byte: u8) -> Result<(), NoMemory>
    ensures { OnOk result (out.new.items ≡ out.old.items ++ escaped_in_text byte) }
{
    match byte {
        b'&' => push_all(out, b"&amp;"),
        b'<' => push_all(out, b"&lt;"),
        b'>' => push_all(out, b"&gt;"),
        b'\r' => push_all(out, b"&#13;"),
        _ => push_all(out, &[byte]),
    }
}

/// What a byte becomes in a value between a quote.
fn push_in_value(out: &mut Vec<u8>, quote: u8, byte: u8) -> Result<(), NoMemory>
    ensures { OnOk result (out.new.items ≡ out.old.items ++ escaped_in_value quote byte) }
{
    match byte {
        b'&' => push_all(out, b"&amp;"),
        b'<' => push_all(out, b"&lt;"),
        b'"' if quote == b'"' => push_all(out, b"&quot;"),
        b'\'' if quote == b'\'' => push_all(out, b"&apos;"),
        b'\t' => push_all(out, b"&#9;"),
        b'\n' => push_all(out, b"&#10;"),
        b'\r' => push_all(out, b"&#13;"),
        _ => push_all(out, &[byte]),
    }
}

fn push_escaped(out: &mut Vec<u8>, escape: Escape, byte: u8) -> Result<(), NoMemory>
    ensures { OnOk result (out.new.items ≡ out.old.items ++ escaped_byte escape byte) }
{
    match escape {
        Escape::Text => push_in_text(out, byte),
        Escape::Value(quote) => push_in_value(out, quote, byte),
    }
}

/// A plain text as it is written.
pub(crate) fn escaped(alloc: Global, escape: Escape, text: &[u8]) -> Result<Bytes, NoMemory>
    ensures { IfOk result (λ bytes. bytes ≡ escaped escape text.now) }
{
    let Ok(mut held) = Vec::with_capacity(alloc, text.len()) else {
        return Err(NoMemory);
    };
    for byte in text {
        push_escaped(&mut held, escape, *byte)?;
    }
    Ok(Bytes { held })
}
