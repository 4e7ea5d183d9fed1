//! The tags and the texts of an accepted document, cut at the bytes that end their parts. What may be in them was
//! checked before, so a byte is looked at once.

ghost use Rattle.std.specs.Prelude.{◌≡◌, ◌+◌, ◌≤◌, ◌<◌, ◌^◌, length, drop};
ghost use Rattle.std.specs.List.{prefix_len};
ghost use Rattle.xml_model.specs.Items.{Attribute};
ghost use Rattle.vtd_builder.specs.Cuts.{in_name, is_low, is_other, AttributeAt, cut_of};

use memchr::memchr;
use xml_items::AttributeItem;
use xml_lanes::{InTag, LANES, Other, far_end, run_end, run_len};
use xml_model::Span;

/// The places of an attribute, and where it ends.
#[derive(Clone, Copy)]
pub struct AttributeCut {
    pub item: AttributeItem,
    /// The place after the closing quote.
    pub end: u32,
}

/// The place where the name at a place ends.
#[inline(always)]
pub fn past_name(bytes: &[u8], at: u32) -> u32
    requires place { at ≤ length bytes.now }
    requires size { length bytes.now < 2 ^ 30 }
    ensures value { result ≡ at + prefix_len in_name (drop at bytes.now) }
    ensures within { result ≤ length bytes.now }
{
    let place = at as usize;
    if bytes.len() - place < LANES {
        return far_end(&InTag, bytes, place) as u32;
    }
    run_end(&InTag, bytes, place) as u32
}

/// The place where the white space at a place ends.
#[inline(always)]
pub fn past_space(bytes: &[u8], at: u32) -> u32
    requires place { at ≤ length bytes.now }
    requires size { length bytes.now < 2 ^ 30 }
    ensures value { result ≡ at + prefix_len is_low (drop at bytes.now) }
    ensures within { result ≤ length bytes.now }
{
    let mut end = at as usize;
    while end < bytes.len() && bytes[end] <= b' ' {
        end += 1;
    }
    end as u32
}

/// The place of the next such byte, or the end of the bytes where there is none, by `memchr`.
#[inline(never)]
fn far_byte(bytes: &[u8], at: u32, byte: u8) -> u32
    requires place { at ≤ length bytes.now }
    requires size { length bytes.now < 2 ^ 30 }
    ensures value { result ≡ at + prefix_len (is_other byte) (drop at bytes.now) }
    ensures within { result ≤ length bytes.now }
{
    let (_, rest) = bytes.split_at(at as usize);
    at + memchr(byte, rest).unwrap_or(rest.len()) as u32
}

/// The place of the next such byte, or the end of the bytes where there is none. It is near most times, so 16 bytes are
/// looked at before `memchr` is called.
#[inline(always)]
pub fn next_byte(bytes: &[u8], at: u32, byte: u8) -> u32
    requires place { at ≤ length bytes.now }
    requires size { length bytes.now < 2 ^ 30 }
    ensures value { result ≡ at + prefix_len (is_other byte) (drop at bytes.now) }
    ensures within { result ≤ length bytes.now }
{
    let place = at as usize;
    if bytes.len() - place < LANES {
        return far_byte(bytes, at, byte);
    }
    let run = run_len(&Other { byte }, bytes, place);
    if run < LANES {
        return (place + run) as u32;
    }
    far_byte(bytes, (place + LANES) as u32, byte)
}

/// Where the attribute lies whose name begins at a place.
#[inline(always)]
pub fn attribute_cut(bytes: &[u8], at: u32) -> AttributeCut
    requires size { length bytes.now < 2 ^ 30 }
    requires attribute { (a : Attribute) × AttributeAt bytes.now at a }
    ensures { (a : Attribute) → AttributeAt bytes.now at a → result ≡ cut_of at a }
{
    let name_end = past_name(bytes, at);
    let equals = past_space(bytes, name_end);
    let quote = past_space(bytes, equals + 1);
    let start = quote + 1;
    let end = next_byte(bytes, start, bytes[quote as usize]);
    AttributeCut {
        item: AttributeItem {
            name: Span {
                start: at,
                end: name_end,
            },
            value: Span { start, end },
        },
        end: end + 1,
    }
}
