//! The line of a document that is refused.

ghost use Rattle.std.specs.Prelude.{◌≡◌, ◌++◌, codes, IfOk};
ghost use Rattle.vtd_script.specs.Faults.{fault_line, fault_place, fault_word, width_word};

use std::alloc::Global;
use vtd_listing::{push_decimal, push_text};
use xml_model::{DocFault, Field, NoMemory};

/// The words for the part of a record that is too wide.
pub fn width_word(field: Field) -> &'static [u8]
    ensures { result.now ≡ width_word field }
{
    match field {
        Field::Token => b"width token ",
        Field::Name => b"width name ",
        Field::Prefix => b"width prefix ",
    }
}

/// The words for a document's fault, before its place.
fn fault_word(fault: DocFault) -> &'static [u8]
    ensures { result.now ≡ fault_word fault }
{
    match fault {
        DocFault::Utf8 { .. } => b"utf8 ",
        DocFault::Syntax { .. } => b"syntax ",
        DocFault::Entity { .. } => b"entity ",
        DocFault::Encoding { .. } => b"encoding ",
        DocFault::Nesting { .. } => b"nesting ",
        DocFault::Depth { .. } => b"depth ",
        DocFault::Width { field, .. } => width_word(field),
        DocFault::Twice { .. } => b"twice ",
        DocFault::Namespace { .. } => b"namespace ",
    }
}

/// Where a document's fault is.
fn fault_place(fault: DocFault) -> u32
    ensures { result ≡ fault_place fault }
{
    match fault {
        DocFault::Utf8 { at }
        | DocFault::Syntax { at }
        | DocFault::Entity { at }
        | DocFault::Encoding { at }
        | DocFault::Nesting { at }
        | DocFault::Depth { at }
        | DocFault::Width { at, .. }
        | DocFault::Twice { at }
        | DocFault::Namespace { at } => at,
    }
}

/// The line of a document that is refused: `refused`, the words of the fault, and its place.
///
/// # Errors
/// `NoMemory` where the memory for the line was not to be had.
#[tactic(auto, unfolding(crate::specs::Faults::fault_line))]
pub fn fault_line(alloc: Global, fault: DocFault) -> Result<Vec<u8>, NoMemory>
    ensures { IfOk result (λ line. line.items ≡ fault_line fault) }
{
    let mut line = Vec::new(alloc);
    push_text(&mut line, b"refused ")?;
    push_text(&mut line, fault_word(fault))?;
    push_decimal(&mut line, u64::from(fault_place(fault)))?;
    push_text(&mut line, b"\n")?;
    Ok(line)
}
