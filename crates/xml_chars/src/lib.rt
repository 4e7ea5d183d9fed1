//! Characters, names and references of XML 1.0 (Fifth Edition, productions 2 to 5 and 66 to 68).
#![tactic(auto)]

mod classes;
pub mod names;
pub mod references;
pub mod text;

ghost use Rattle.std.specs.Prelude.{◌≡◌, ◌↔◌, ◌<◌, ◌≤◌, ◌^◌, length, drop, IsNone, IfSome, IfNone};
ghost use Rattle.std.specs.Str.{IsUtf8, IsCharBoundary, chars};
ghost use Rattle.xml_model.specs.Chars.{is_char, is_name_start, is_name_char};
ghost use Rattle.xml_chars.specs.Places.{IsCharAt, IsLongestName, HasNoName, IsLongestSpace, IsReferenceAt};
ghost use Rattle.xml_chars.specs.Places.{HasNoReference, HasTextPlaces};

use names::name_of;
pub use names::{is_ncname, is_qname};
use references::{Referred, reference_of};
use text::{space_of, step, text_at};
use xml_model::Span;

/// Whether the character may be in a document (XML 1.0, production 2).
#[tactic(auto, unfolding(xml_model::specs::Chars::is_char, xml_model::specs::Chars::in_ranges))]
pub fn is_char(c: char) -> bool
    ensures { result ≡ is_char c }
{
    let code = c as u32;
    (0x9 <= code && code <= 0xA)
        || (0xD <= code && code <= 0xD)
        || (0x20 <= code && code <= 0xD7FF)
        || (0xE000 <= code && code <= 0xFFFD)
        || (0x1_0000 <= code && code <= 0x10_FFFF)
}

/// Whether a name may begin with the character (XML 1.0, production 4).
pub fn is_name_start(c: char) -> bool
    ensures { result ≡ is_name_start c }
{
    let code = c as u32;
    if code < 128 {
        classes::is_ascii_start(code as u8)
    } else {
        classes::is_wide_start(code)
    }
}

/// Whether the character may be in a name (XML 1.0, production 4a).
pub fn is_name_char(c: char) -> bool
    ensures { result ≡ is_name_char c }
{
    let code = c as u32;
    if code < 128 {
        classes::is_ascii_name(code as u8)
    } else {
        classes::is_wide_start(code) || classes::is_wide_rest(code)
    }
}

/// What a reference refers to, and the place after it (XML 1.0, productions 66 to 68).
#[derive(Clone, Copy, Debug, PartialEq)]
pub enum Reference {
    /// A reference to a character by its number.
    Char { value: char, end: u32 },
    /// A reference to an entity by its name.
    Named { name: Span, end: u32 },
}

/// The character at the place and the place after it, in bytes; None exactly at the end.
pub fn char_at(bytes: &[u8], at: u32) -> Option<(char, u32)>
    requires utf8 { IsUtf8 bytes.now }
    requires place { IsCharBoundary bytes.now at }
    requires size { length bytes.now < 2 ^ 32 }
    ensures end { IsNone result ↔ (at ≡ length bytes.now) }
    ensures char { IfSome result (IsCharAt bytes.now at) }
    ensures place { IfSome result (λ found. IsCharBoundary bytes.now found.1) }
{
    let (c, rest) = step(text_at(bytes, at))?;
    Some((c, (bytes.len() - rest.len()) as u32))
}

/// The place after the longest Name at the place, in bytes (XML 1.0, production 5); None exactly where no Name begins.
pub fn name_end(bytes: &[u8], at: u32) -> Option<u32>
    requires utf8 { IsUtf8 bytes.now }
    requires place { IsCharBoundary bytes.now at }
    requires size { length bytes.now < 2 ^ 32 }
    ensures name { IfSome result (IsLongestName bytes.now at) }
    ensures none { IfNone result (HasNoName bytes.now at) }
    ensures place { IfSome result (λ end. IsCharBoundary bytes.now end) }
{
    let (_, rest) = name_of(text_at(bytes, at))?;
    Some((bytes.len() - rest.len()) as u32)
}

/// The place after the longest white space at the place, in bytes; the place itself where none is there (XML 1.0,
/// production 3).
pub fn space_end(bytes: &[u8], at: u32) -> u32
    requires utf8 { IsUtf8 bytes.now }
    requires place { IsCharBoundary bytes.now at }
    requires size { length bytes.now < 2 ^ 32 }
    ensures space { IsLongestSpace bytes.now at result }
    ensures place { IsCharBoundary bytes.now result }
{
    let (_, rest) = space_of(text_at(bytes, at));
    (bytes.len() - rest.len()) as u32
}

/// What the reference at the place refers to, and the place after it, in bytes (XML 1.0, productions 66 to 68); None
/// exactly where no reference begins. A number has any length, and names a Char.
pub fn reference_at(bytes: &[u8], at: u32) -> Option<Reference>
    requires utf8 { IsUtf8 bytes.now }
    requires place { IsCharBoundary bytes.now at }
    requires size { length bytes.now < 2 ^ 32 }
    ensures reference { IfSome result (IsReferenceAt bytes.now at) }
    ensures none { IfNone result (HasNoReference bytes.now at) }
    ensures place { IfSome result (HasTextPlaces bytes.now) }
{
    let (referred, rest) = reference_of(text_at(bytes, at))?;
    let end = (bytes.len() - rest.len()) as u32;
    Some(match referred {
        Referred::Char(value) => Reference::Char { value, end },
        Referred::Named(_) => Reference::Named {
            name: Span {
                start: at + 1,
                end: end - 1,
            },
            end,
        },
    })
}
