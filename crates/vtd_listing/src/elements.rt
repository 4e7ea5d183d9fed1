//! The lines of the elements of a document.

ghost use Rattle.std.specs.Prelude.{◌≡◌, ℕ, ◌-◌, ◌<◌, ◌≤◌, List, ◌∷◌, ◌++◌, [], length, OnOk, IfOk};
ghost use Rattle.xml_model.specs.Items.{first_place};
ghost use Rattle.xml_model.specs.Nest.{Forest};
ghost use Rattle.vtd_location.specs.Nav.{IsNavOf};
ghost use Rattle.vtd_listing.specs.Listing.{element_line, elements, listed, listing};
ghost use Rattle.vtd_listing.specs.Spans.{spans_of};

use crate::lines::{push_decimal, push_text};
use std::alloc::Global;
use vtd_cursor::element_spans as spans_of_elements;
use vtd_location::Nav;
use vtd_words::Words;
use xml_model::{NoMemory, Span};

/// The spans of all elements, in document order.
#[tactic(auto, unfolding(crate::specs::Listing::elements))]
fn element_spans<W: Words>(alloc: Global, nav: &Nav<'_, W>) -> Result<Vec<Span>, NoMemory>
    ensures { IfOk result (λ spans. (nest : Forest) → IsNavOf nav.now.bytes (W.lists nav.now.words) nest →
        spans.items ≡ spans_of (elements nest (first_place nav.now.bytes))) }
{
    spans_of_elements(alloc, nav)
}

fn push_element(lines: &mut Vec<u8>, span: Span) -> Result<(), NoMemory>
    ensures { OnOk result (lines.new.items ≡ lines.old.items ++ element_line span) }
{
    push_text(lines, b"element ")?;
    push_decimal(lines, u64::from(span.start))?;
    push_text(lines, b" ")?;
    push_decimal(lines, u64::from(span.end.saturating_sub(span.start)))?;
    push_text(lines, b"\n")
}

/// How many there are, and the start and the length of each.
#[tactic(auto, unfolding(crate::specs::Listing::listing))]
fn span_lines(alloc: Global, spans: &[Span]) -> Result<Vec<u8>, NoMemory>
    ensures { IfOk result (λ lines. lines.items ≡ listing spans.now) }
{
    let mut lines = Vec::new(alloc);
    push_text(&mut lines, b"nodes ")?;
    push_decimal(&mut lines, spans.len() as u64)?;
    push_text(&mut lines, b"\n")?;
    for span in spans {
        push_element(&mut lines, *span)?;
    }
    Ok(lines)
}

/// The lines of the elements of a document: how many there are, and the start and the length of each in bytes, in
/// document order. It goes twice over all records.
///
/// # Errors
/// `NoMemory` where the memory for the lines was not to be had.
pub fn element_lines<W: Words>(alloc: Global, nav: &Nav<'_, W>) -> Result<Vec<u8>, NoMemory>
    ensures { IfOk result (λ lines. (nest : Forest) → IsNavOf nav.now.bytes (W.lists nav.now.words) nest →
        lines.items ≡ listed nest (first_place nav.now.bytes)) }
{
    let spans = element_spans(alloc, nav)?;
    span_lines(alloc, &spans)
}
