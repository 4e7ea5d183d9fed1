//! What the first bytes of a document are refused for, for each number of them.

ghost use Rattle.std.specs.Prelude.{◌<◌, ◌≤◌, ◌^◌, length};

use std::alloc::AllocError;
use vtd_builder::check;
use xml_model::DocFault;

/// How the first bytes of a document are answered.
#[derive(Clone, Copy, PartialEq, Eq)]
enum Ending {
    Accepted,
    /// Refused for their nesting, at their end.
    Open,
    /// Refused for something else, or elsewhere.
    Refused(DocFault),
}

/// How bytes are answered.
fn ending_of(bytes: &[u8]) -> Ending
    requires { length bytes.now < 2 ^ 30 }
{
    match check(bytes) {
        Ok(_) => Ending::Accepted,
        Err(DocFault::Nesting { at }) if at as usize == bytes.len() => Ending::Open,
        Err(fault) => Ending::Refused(fault),
    }
}

fn write_fault(out: &mut String, fault: DocFault) -> Result<(), AllocError> {
    match fault {
        DocFault::Utf8 { at } => write!(out, "utf8 {at}"),
        DocFault::Syntax { at } => write!(out, "syntax {at}"),
        DocFault::Nesting { at } => write!(out, "nesting {at}"),
        _ => out.push_str("another refusal"),
    }
}

fn write_ending(out: &mut String, ending: Ending) -> Result<(), AllocError> {
    match ending {
        Ending::Accepted => out.push_str("accepted"),
        Ending::Open => out.push_str("nesting at the end"),
        Ending::Refused(fault) => write_fault(out, fault),
    }
}

/// How the first bytes are answered, for each number of them from one up to another; answers that repeat the one
/// before them are written once.
fn write_range(out: &mut String, document: &[u8], from: usize, to: usize) -> Result<(), AllocError>
    requires { length document.now < 2 ^ 30 }
{
    let mut last = None;
    for len in from..=to {
        let Some(bytes) = document.get(..len) else {
            return out.push_str(" too few");
        };
        let ending = ending_of(bytes);
        if last != Some(ending) {
            if last.is_some() {
                out.push_str("; ")?;
            }
            write_ending(out, ending)?;
        }
        last = Some(ending);
    }
    Ok(())
}

/// Answers a row: two numbers, of the first bytes of the document.
pub fn answer(out: &mut String, document: &[u8], words: &str) -> Result<(), AllocError> {
    let Some((from, to)) = words.split_once(" ") else {
        return out.push_str("no range");
    };
    match (from.parse::<usize>(), to.parse::<usize>()) {
        (Ok(from), Ok(to)) if document.len() < 1_073_741_824 => write_range(
            out, document, from, to,
        ),
        _ => out.push_str("no range"),
    }
}
