//! What is staged, and the bytes that it makes.

ghost use Rattle.std.specs.Prelude.{◌≡◌, ◌<◌, ◌≤◌, ◌^◌, length, IfOk, IfSome};
ghost use Rattle.std.specs.List.{All};
ghost use Rattle.vtd_edits.specs.Splices.{IsWithin};

use crate::files::{compare_written, write_saved};
use std::alloc::{AllocError, Global};
use vtd_edits::{Edits, Splice, Splices, StageFault, spliced};
use xml_model::Bytes;

/// The longest text that a word stands for.
const LONGEST: u32 = 200_000;

/// A text as bytes.
fn bytes_of(alloc: Global, text: &str) -> Result<Bytes, AllocError> {
    Ok(Bytes {
        held: text.as_bytes().to_vec(alloc)?,
    })
}

/// The insertion that is written as `AT+TEXT`, where it is within a length.
fn insertion(alloc: Global, len: u32, at: &str, text: &str) -> Result<Option<Splice>, AllocError>
    ensures { IfOk result (λ o. IfSome o (IsWithin len)) }
{
    let text = bytes_of(alloc, text)?;
    match at.parse::<u32>() {
        Ok(at) if at <= len => Ok(Some(Splice::Insert { at, text })),
        _ => Ok(None),
    }
}

/// The range that is written as `START-END=TEXT`, where it is within a length.
fn replacement(
    alloc: Global,
    len: u32,
    range: &str,
    text: &str,
) -> Result<Option<Splice>, AllocError>
    ensures { IfOk result (λ o. IfSome o (IsWithin len)) }
{
    let text = bytes_of(alloc, text)?;
    let Some((start, end)) = range.split_once("-") else {
        return Ok(None);
    };
    match (start.parse::<u32>(), end.parse::<u32>()) {
        (Ok(start), Ok(end)) if start <= end && end <= len => {
            Ok(Some(Splice::Replace { start, end, text }))
        }
        _ => Ok(None),
    }
}

/// The insertion of so many letters that is written as `AT*COUNT`, where it is within a length.
fn long_insertion(
    alloc: Global,
    len: u32,
    at: &str,
    count: &str,
) -> Result<Option<Splice>, AllocError>
    ensures { IfOk result (λ o. IfSome o (IsWithin len)) }
{
    let mut held = Vec::new(alloc);
    for _ in 0..count.parse::<u32>().unwrap_or(0).min(LONGEST) {
        held.push(b'x')?;
    }
    match at.parse::<u32>() {
        Ok(at) if at <= len => Ok(Some(Splice::Insert {
            at,
            text: Bytes { held },
        })),
        _ => Ok(None),
    }
}

/// The splice that a word writes.
fn splice_in(alloc: Global, len: u32, word: &str) -> Result<Option<Splice>, AllocError>
    ensures { IfOk result (λ o. IfSome o (IsWithin len)) }
{
    if let Some((range, text)) = word.split_once("=") {
        return replacement(alloc, len, range, text);
    }
    if let Some((at, count)) = word.split_once("*") {
        return long_insertion(alloc, len, at, count);
    }
    match word.split_once("+") {
        Some((at, text)) => insertion(alloc, len, at, text),
        None => Ok(None),
    }
}

/// Stages a list, and writes how that went.
fn stage(out: &mut String, edits: &mut Edits, list: Splices) -> Result<(), AllocError>
    requires { All (IsWithin edits.old.len) list }
    ensures { edits.new.len ≡ edits.old.len }
{
    match edits.stage(list) {
        Ok(()) => {
            let count = edits.count();
            write!(out, "staged {count}")?;
        }
        Err((list, fault)) => {
            let back = list.held.len();
            match fault {
                StageFault::Overlap { earlier, later } => write!(out, "overlap {earlier} {later}")?,
                StageFault::TextLong => out.push_str("text-long")?,
                StageFault::NoMemory => return Err(AllocError),
            }
            write!(out, ", back {back}")?;
        }
    }
    out.push_str(";")
}

/// Writes the new bytes and their number.
fn write_made(
    alloc: Global,
    out: &mut String,
    document: &[u8],
    edits: &Edits,
) -> Result<(), AllocError>
    requires { length document.now ≡ edits.now.len }
{
    let Ok(made) = spliced(alloc, document, edits) else {
        return Err(AllocError);
    };
    let length = edits.length();
    let text = str::from_utf8(&made).unwrap_or("?");
    write!(out, "{length} {text};")
}

/// Takes as many splices off as a text says, and writes how many came.
fn cut(out: &mut String, edits: &mut Edits, count: &str) -> Result<(), AllocError>
    ensures { edits.new.len ≡ edits.old.len }
{
    match count.parse::<u64>() {
        Ok(count) if count <= edits.count() => {
            let Ok(taken) = edits.cut_off(count) else {
                return Err(AllocError);
            };
            let taken = taken.held.len();
            write!(out, "cut {taken};")
        }
        _ => out.push_str("no count;"),
    }
}

/// Writes the new bytes to a file, as a word asks: `saveK:P` where call K fails, or `sameP` to compare the file with
/// the new bytes; a call moves P bytes at most.
fn save(
    alloc: Global,
    out: &mut String,
    document: &[u8],
    edits: &Edits,
    word: &str,
) -> Result<(), AllocError>
    requires { length document.now ≡ edits.now.len }
{
    if let Some(piece) = word.strip_prefix("same") {
        let piece = piece.parse::<usize>().unwrap_or(1).max(1);
        return compare_written(alloc, out, document, edits, piece);
    }
    match word
        .strip_prefix("save")
        .and_then(|plan| plan.split_once(":"))
    {
        Some((failing, piece)) => {
            let failing = failing.parse::<u32>().unwrap_or(0);
            let piece = piece.parse::<usize>().unwrap_or(1).max(1);
            write_saved(alloc, out, document, edits, failing, piece)
        }
        None => out.push_str("no such word;"),
    }
}

/// Carries a word out that writes no splice.
fn carry_out(
    alloc: Global,
    out: &mut String,
    document: &[u8],
    edits: &mut Edits,
    word: &str,
) -> Result<(), AllocError>
    requires { length document.now ≡ edits.old.len }
    ensures { edits.new.len ≡ edits.old.len }
{
    match word {
        "made" => write_made(alloc, out, document, edits),
        "clear" => {
            edits.clear();
            Ok(())
        }
        _ => match word.strip_prefix("cut") {
            Some(count) => cut(out, edits, count),
            None => save(alloc, out, document, edits, word),
        },
    }
}

/// Carries out words, each of which writes a splice, stages those that were written by `stage`, or asks.
pub fn answer(
    alloc: Global,
    out: &mut String,
    document: &[u8],
    words: &str,
) -> Result<(), AllocError> {
    if document.len() > 1000 {
        return out.push_str("too long");
    }
    let mut edits = Edits::new(alloc, document.len() as u32);
    let mut list = Splices {
        held: Vec::new(alloc),
    };
    for word in words.split(" ") {
        if word == "stage" {
            stage(out, &mut edits, list)?;
            list = Splices {
                held: Vec::new(alloc),
            };
        } else if let Some(splice) = splice_in(alloc, document.len() as u32, word)? {
            list.held.push(splice)?;
        } else {
            carry_out(alloc, out, document, &mut edits, word)?;
        }
    }
    Ok(())
}
