//! The lines of commands that tell nothing of the document.

ghost use Rattle.std.specs.Prelude.{◌≡◌, IfOk};
ghost use Rattle.vtd_script.specs.Steps.{ok_line, redone_line, undone_line};

use std::alloc::Global;
use vtd_listing::push_text;
use xml_model::NoMemory;

/// The line of a command that succeeds and has nothing to tell.
///
/// # Errors
/// `NoMemory` where the memory for the line was not to be had.
pub fn ok_lines(alloc: Global) -> Result<Vec<u8>, NoMemory>
    ensures { IfOk result (λ lines. lines.items ≡ ok_line) }
{
    let mut lines = Vec::new(alloc);
    push_text(&mut lines, b"ok\n")?;
    Ok(lines)
}

/// The line of a change that was undone.
///
/// # Errors
/// `NoMemory` where the memory for the line was not to be had.
pub fn undone_lines(alloc: Global) -> Result<Vec<u8>, NoMemory>
    ensures { IfOk result (λ lines. lines.items ≡ undone_line) }
{
    let mut lines = Vec::new(alloc);
    push_text(&mut lines, b"undone\n")?;
    Ok(lines)
}

/// The line of a change that was redone.
///
/// # Errors
/// `NoMemory` where the memory for the line was not to be had.
pub fn redone_lines(alloc: Global) -> Result<Vec<u8>, NoMemory>
    ensures { IfOk result (λ lines. lines.items ≡ redone_line) }
{
    let mut lines = Vec::new(alloc);
    push_text(&mut lines, b"redone\n")?;
    Ok(lines)
}
