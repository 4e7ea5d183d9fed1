//! Runs up to a byte.

ghost use Rattle.std.specs.Prelude.{◌≡◌, ◌<◌, ◌≤◌, ◌+◌, ◌-◌, ◌^◌, length, drop, slice_index, IfSome};
ghost use Rattle.std.specs.List.{prefix_len};

use xml_lanes::{ByteClass, LANES, far_end, run_len};
use xml_model::Span;

/// The span between two places.
#[inline(always)]
pub fn span(start: usize, end: usize) -> Span
    requires end { end < 2 ^ 32 }
    requires order { start ≤ end }
    ensures { result ≡ record { start = start; end = end } }
{
    Span {
        start: start as u32,
        end: end as u32,
    }
}

/// Where the bytes of the class end that begin at the place, if the byte follows.
#[inline(never)]
fn far_run<C: ByteClass>(class: &C, bytes: &[u8], at: usize, stop: u8) -> Option<usize>
    requires { at ≤ length bytes.now }
    ensures run { IfSome result (λ end. end ≡ at + prefix_len (C.has class.now) (drop at bytes.now)) }
    ensures stop { IfSome result (λ end. (end < length bytes.now) × (slice_index bytes.now end ≡ stop)) }
{
    let end = far_end(class, bytes, at);
    if end < bytes.len() && bytes[end] == stop {
        Some(end)
    } else {
        None
    }
}

/// Where the bytes of the class end that begin at the place, if the byte follows. Most runs are short: only the others
/// are left to a call.
#[inline(always)]
pub fn run_to<C: ByteClass>(class: &C, bytes: &[u8], at: usize, stop: u8) -> Option<usize>
    requires { at + LANES < length bytes.now }
    ensures run { IfSome result (λ end. end ≡ at + prefix_len (C.has class.now) (drop at bytes.now)) }
    ensures stop { IfSome result (λ end. (end < length bytes.now) × (slice_index bytes.now end ≡ stop)) }
{
    let run = run_len(class, bytes, at);
    if run >= LANES {
        return far_run(class, bytes, at, stop);
    }
    let end = at + run;
    if bytes[end] == stop { Some(end) } else { None }
}
