//! Names (XML 1.0, production 5).

ghost use Rattle.std.specs.Prelude.{◌≡◌, ◌<◌, ◌≤◌, ◌+◌, ◌^◌, length, slice_index, true, IfSome};
ghost use Rattle.xml_lanes.specs.Classes.{is_plain_start};
ghost use Rattle.std.specs.Str.{IsUtf8, IsCharBoundary};
ghost use Rattle.xml_swift.specs.Fronts.{HasName};

use xml_lanes::{LANES, NameByte, far_end, is_plain_start, run_len};

/// How many bytes are left behind a name that is answered.
pub const BEHIND: usize = 32;

/// Where the name ends that begins at the place with an ASCII character: the ASCII characters of names are taken.
#[inline(never)]
fn far_name_end(bytes: &[u8], at: usize) -> Option<usize>
    requires within { at < length bytes.now }
    requires start { is_plain_start (slice_index bytes.now at) ≡ true }
    ensures name { IfSome result (HasName bytes.now at) }
    ensures behind { IfSome result (λ end. (at ≤ end) × (end + BEHIND ≤ length bytes.now)) }
{
    let end = far_end(&NameByte, bytes, at);
    if bytes.len() - end < BEHIND {
        return None;
    }
    Some(end)
}

/// Where the name at the place ends, as far as it is of ASCII characters; None where no ASCII character begins it.
#[inline(always)]
pub fn plain_name_end(bytes: &[u8], at: usize) -> Option<usize>
    requires room { at + LANES + BEHIND ≤ length bytes.now }
    ensures name { IfSome result (HasName bytes.now at) }
    ensures behind { IfSome result (λ end. (at ≤ end) × (end + BEHIND ≤ length bytes.now)) }
{
    if !is_plain_start(bytes[at]) {
        return None;
    }
    let run = run_len(&NameByte, bytes, at);
    if run >= LANES {
        return far_name_end(bytes, at);
    }
    Some(at + run)
}

/// Where the name at the place ends, whatever its characters are.
#[inline(never)]
fn any_name_end(bytes: &[u8], at: usize) -> Option<usize>
    requires utf8 { IsUtf8 bytes.now }
    requires place { IsCharBoundary bytes.now at }
    requires size { length bytes.now < 2 ^ 32 }
    ensures name { IfSome result (HasName bytes.now at) }
    ensures behind { IfSome result (λ end. (at ≤ end) × (end + BEHIND ≤ length bytes.now)) }
{
    let end = xml_chars::name_end(bytes, at as u32)? as usize;
    if bytes.len() - end < BEHIND {
        return None;
    }
    Some(end)
}

/// Where the name at the place ends.
#[inline(always)]
pub fn name_end(bytes: &[u8], at: usize) -> Option<usize>
    requires utf8 { IsUtf8 bytes.now }
    requires place { IsCharBoundary bytes.now at }
    requires size { length bytes.now < 2 ^ 32 }
    requires room { at + LANES + BEHIND ≤ length bytes.now }
    ensures name { IfSome result (HasName bytes.now at) }
    ensures behind { IfSome result (λ end. (at ≤ end) × (end + BEHIND ≤ length bytes.now)) }
{
    match plain_name_end(bytes, at) {
        Some(end) if bytes[end] < 128 => Some(end),
        _ => any_name_end(bytes, at),
    }
}
