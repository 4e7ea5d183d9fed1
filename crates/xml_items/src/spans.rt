//! Spans of parts of a text that begins at a place.
#![tactic(auto)]

ghost use Rattle.std.specs.Prelude.{◌≡◌, ◌≤◌, ◌<◌, ◌+◌, ◌-◌, ◌^◌, length};

use xml_model::Span;

/// The span from the start of one rest of the text to the start of a later one. The text begins at the place.
#[inline(always)]
pub fn span_between(at: u32, text: &str, from: &str, to: &str) -> Span
    requires room { at + length text.now < 2 ^ 32 }
    requires from { length from.now ≤ length text.now }
    requires to { length to.now ≤ length from.now }
    ensures { result ≡ record
        { start = at + (length text.now - length from.now); end = at + (length text.now - length to.now) } }
{
    Span {
        start: at + (text.len() - from.len()) as u32,
        end: at + (text.len() - to.len()) as u32,
    }
}
