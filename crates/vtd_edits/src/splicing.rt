//! How the new bytes are made: one pass over the splices in the order of the bytes.

ghost use Rattle.std.specs.Prelude.{◌≡◌, ◌-◌, ◌<◌, ◌≤◌, ◌++◌, length, take, drop, IfOk, OnOk};
ghost use Rattle.vtd_edits.specs.Splices.{end_of, spliced, start_of, text_of};

use crate::edits::Edits;
use crate::splice::{Splice, end_of, start_of, text_of};
use std::alloc::Global;
use xml_model::NoMemory;

/// What one splice gives the new bytes.
#[derive(Clone, Copy)]
pub struct Turn<'a> {
    /// The old bytes from where the splice before it ends up to where it starts.
    pub kept: &'a [u8],
    /// Its text, which comes after them.
    pub text: &'a [u8],
    /// Where it ends in the old bytes.
    pub end: u32,
}

/// What a splice gives the new bytes, where the one before it in the order of the bytes ended at `done`. The splices of
/// edits, taken in that order, and then the bytes from where the last one ends (`rest_of`) give all new bytes.
pub fn turn_of<'a>(splice: &'a Splice, bytes: &'a [u8], done: u32) -> Turn<'a>
    requires after { done ≤ start_of splice.now }
    requires within { start_of splice.now ≤ length bytes.now }
    ensures kept { result.kept.now ≡ take (start_of splice.now - done) (drop done bytes.now) }
    ensures text { result.text.now ≡ text_of splice.now }
    ensures end { result.end ≡ end_of splice.now }
{
    let start = start_of(splice);
    Turn {
        kept: &bytes[done as usize..start as usize],
        text: text_of(splice),
        end: end_of(splice),
    }
}

/// The bytes from a place on.
pub fn rest_of(bytes: &[u8], done: u32) -> &[u8]
    requires { done ≤ length bytes.now }
    ensures { result.now ≡ drop done bytes.now }
{
    &bytes[done as usize..]
}

/// Appends bytes.
fn push_all(out: &mut Vec<u8>, bytes: &[u8]) -> Result<(), NoMemory>
    ensures { OnOk result (out.new.items ≡ out.old.items ++ bytes.now) }
{
    out.extend_from_slice(bytes).map_err(|_| NoMemory)
}

/// The new bytes of a document of the length that the edits are for. Where splices begin at one place, the insertions
/// come first, in staging order, then the text of an empty range, then that of another range.
///
/// # Errors
/// `NoMemory`.
pub fn spliced(alloc: Global, bytes: &[u8], edits: &Edits) -> Result<Vec<u8>, NoMemory>
    requires { length bytes.now ≡ edits.now.len }
    ensures { IfOk result (λ out. out.items ≡ spliced bytes.now edits.now.splices) }
{
    let Ok(mut out) = Vec::with_capacity(alloc, edits.length() as usize) else {
        return Err(NoMemory);
    };
    let mut done = 0;
    for i in 0..edits.turns() {
        let turn = turn_of(edits.splice(i), bytes, done);
        push_all(&mut out, turn.kept)?;
        push_all(&mut out, turn.text)?;
        done = turn.end;
    }
    push_all(&mut out, rest_of(bytes, done))?;
    Ok(out)
}
