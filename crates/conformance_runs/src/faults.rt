//! Runs in which each call of one object fails in turn.

ghost use Rattle.std.specs.Prelude.{◌<◌};

use crate::runs::{Left, Object, Plan, plain, run_over};
use std::alloc::{AllocError, Global};
use vtd_running::Status;

/// The object that a word names, and the most bytes that one call moves, before the words of the run.
fn plan_in(words: &str) -> Option<(Object, usize, &str)> {
    let (object, words) = words.split_once(" ")?;
    let (piece, words) = words.split_once(" ").unwrap_or((words, ""));
    let piece = piece.parse::<usize>().ok()?;
    let object = match object {
        "script" => Object::Script,
        "out" => Object::Out,
        "err" => Object::Err,
        "files" => Object::Files,
        _ => return None,
    };
    Some((object, piece, words))
}

/// Whether a run ended by a fault.
fn is_fault(status: Status) -> bool {
    match status {
        Status::ReadFault | Status::WriteFault | Status::FileFault => true,
        Status::Done | Status::Refused | Status::Usage | Status::NoMemory => false,
    }
}

/// Whether a file is not there, or holds a prefix of what it holds after a whole run.
fn is_front(left: &Left, whole: &Left, name: &str) -> bool {
    match (left.files.bytes_of(name), whole.files.bytes_of(name)) {
        (None, _) => true,
        (Some(bytes), Some(all)) => all.starts_with(bytes),
        (Some(_), None) => false,
    }
}

/// Whether a run took a prefix of what a whole one takes, left the document, and wrote of a file `f` a prefix at most.
fn is_prefix(left: &Left, whole: &Left, doc: &[u8]) -> bool {
    whole.out.taken().starts_with(left.out.taken())
        && whole.err.taken().starts_with(left.err.taken())
        && left.files.bytes_of("doc") == Some(doc)
        && is_front(left, whole, "f")
}

/// The number of a status, how many bytes were sent, and how many the file `f` has, where it is there.
fn write_end(out: &mut String, left: &Left, whole: &Left, doc: &[u8]) -> Result<(), AllocError> {
    let number = left.status.number();
    let printed = left.out.taken().len();
    let said = left.err.taken().len();
    write!(out, "{number}:{}", printed.saturating_add(said))?;
    if let Some(bytes) = left.files.bytes_of("f") {
        write!(out, ":{}", bytes.len())?;
    }
    if !is_prefix(left, whole, doc) {
        out.push_str("?")?;
    }
    out.push_str(";")
}

/// How runs end in which the first, the second and each further call of an object fails, up to one without a fault.
fn write_ends(
    alloc: Global,
    out: &mut String,
    words: &str,
    doc: &[u8],
    script: &[u8],
    object: Object,
    piece: usize,
) -> Result<(), AllocError>
    requires { 0 < piece }
{
    let whole = run_over(alloc, words, doc, script.to_vec(alloc)?, plain(piece))?;
    for call in 0..1000u32 {
        let failing = Some((object, call));
        let plan = Plan { failing, piece };
        let left = run_over(alloc, words, doc, script.to_vec(alloc)?, plan)?;
        write_end(out, &left, &whole, doc)?;
        if !is_fault(left.status) {
            return Ok(());
        }
    }
    Ok(())
}

/// The answer of a table of faults.
pub fn answer(
    alloc: Global,
    out: &mut String,
    words: &str,
    doc: &[u8],
    script: &[u8],
) -> Result<(), AllocError> {
    match plan_in(words) {
        Some((object, piece, words)) if piece > 0 => {
            write_ends(alloc, out, words, doc, script, object, piece)
        }
        _ => out.push_str("no plan"),
    }
}
