//! Attributes (XML 1.0, productions 41, 25 and 10).

ghost use Rattle.std.specs.Prelude.{◌≡◌, ◌<◌, ◌≤◌, ◌+◌, ◌^◌, length, slice_index, IfSome};
ghost use Rattle.std.specs.Str.{IsUtf8, IsCharBoundary};
ghost use Rattle.xml_swift.specs.Fronts.{HasAttribute, HasSpace};

use crate::names::{BEHIND, plain_name_end};
use crate::runs::run_to;
use xml_chars::space_end;
use xml_chars::text::text_at;
use xml_items::after_attribute;
use xml_lanes::{LANES, SingleValueByte, ValueByte};

/// How many bytes are to be left where an item or an attribute is read.
pub const ROOM: usize = 64;

/// How many bytes are to be left where a name is read.
const NAME_ROOM: usize = LANES + BEHIND;

/// Where the attribute at the place ends, whose white space ends at `first`, if it is of the common form: a name of ASCII
/// characters, `="`, and a value without references, quotes and other white space than blanks.
#[inline(always)]
fn common_attribute_end(bytes: &[u8], at: usize, first: usize) -> Option<usize>
    requires utf8 { IsUtf8 bytes.now }
    requires room { first + NAME_ROOM ≤ length bytes.now }
    requires some { at < first }
    requires space { HasSpace bytes.now at first }
    ensures attribute { IfSome result (HasAttribute bytes.now at) }
    ensures within { IfSome result (λ end. (at < end) × (end ≤ length bytes.now)) }
{
    let name = plain_name_end(bytes, first)?;
    if bytes[name] != b'=' || bytes[name + 1] != b'"' {
        return None;
    }
    let close = run_to(&ValueByte, bytes, name + 2, b'"')?;
    Some(close + 1)
}

/// The same with single quotes.
#[inline(always)]
fn single_attribute_end(bytes: &[u8], at: usize, first: usize) -> Option<usize>
    requires utf8 { IsUtf8 bytes.now }
    requires room { first + NAME_ROOM ≤ length bytes.now }
    requires some { at < first }
    requires space { HasSpace bytes.now at first }
    ensures attribute { IfSome result (HasAttribute bytes.now at) }
    ensures within { IfSome result (λ end. (at < end) × (end ≤ length bytes.now)) }
{
    let name = plain_name_end(bytes, first)?;
    if bytes[name] != b'=' || bytes[name + 1] != b'\'' {
        return None;
    }
    let close = run_to(&SingleValueByte, bytes, name + 2, b'\'')?;
    Some(close + 1)
}

/// Where the attribute at the place ends, whatever its form is.
#[inline(never)]
fn any_attribute_end(bytes: &[u8], at: usize) -> Option<usize>
    requires utf8 { IsUtf8 bytes.now }
    requires place { IsCharBoundary bytes.now at }
    requires size { length bytes.now < 2 ^ 32 }
    ensures attribute { IfSome result (HasAttribute bytes.now at) }
    ensures within { IfSome result (λ end. (at < end) × (end ≤ length bytes.now)) }
{
    let rest = after_attribute(text_at(bytes, at as u32))?;
    Some(bytes.len() - rest.len())
}

/// Where the attribute at the place ends, which has other white space before it than one blank, or is not of the common
/// form. None where the tag closes behind the white space.
#[inline(never)]
fn other_attribute_end(bytes: &[u8], at: usize) -> Option<usize>
    requires utf8 { IsUtf8 bytes.now }
    requires place { IsCharBoundary bytes.now at }
    requires size { length bytes.now < 2 ^ 32 }
    ensures attribute { IfSome result (HasAttribute bytes.now at) }
    ensures within { IfSome result (λ end. (at < end) × (end ≤ length bytes.now)) }
{
    let first = space_end(bytes, at as u32) as usize;
    if first <= at || bytes.len() - first < NAME_ROOM || matches!(bytes[first], b'/' | b'>') {
        return None;
    }
    if let Some(end) = common_attribute_end(bytes, at, first) {
        return Some(end);
    }
    match single_attribute_end(bytes, at, first) {
        Some(end) => Some(end),
        None => any_attribute_end(bytes, at),
    }
}

/// Where the attribute at the place ends, with the white space before it.
#[inline(always)]
pub fn attribute_end(bytes: &[u8], at: usize) -> Option<usize>
    requires utf8 { IsUtf8 bytes.now }
    requires place { IsCharBoundary bytes.now at }
    requires size { length bytes.now < 2 ^ 32 }
    requires room { at + ROOM ≤ length bytes.now }
    ensures attribute { IfSome result (HasAttribute bytes.now at) }
    ensures within { IfSome result (λ end. (at < end) × (end ≤ length bytes.now)) }
{
    if bytes[at] == b' ' {
        if let Some(end) = common_attribute_end(bytes, at, at + 1) {
            return Some(end);
        }
    }
    other_attribute_end(bytes, at)
}
