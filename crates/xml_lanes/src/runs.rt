//! Runs of the bytes of any class.

ghost use Rattle.std.specs.Prelude.{◌≡◌, ℕ, Bool, not, ◌+◌, ◌≤◌, map, length, take, drop};
ghost use Rattle.std.specs.List.{prefix_len};
ghost use Rattle.std.specs.Simd.Lanes.{mask_l};
ghost use Rattle.xml_lanes.specs.Lanes.{first_set};

use std::simd::prelude::*;

/// How many bytes are tested at once.
pub const LANES: usize = 16;

/// A class of bytes: a test of one byte, and of 16 at once.
pub trait ByteClass {
    ghost has: { Self → ℕ → Bool };

    /// Whether the byte is of the class.
    fn has(&self, byte: u8) -> bool
        ensures { result ≡ has self.now byte };

    /// A bit for each byte that is not of the class, the lowest for the first.
    fn outside(&self, v: u8x16) -> u64
        ensures { result ≡ mask_l (map (λ b. not (has self.now b)) v) };
}

/// The place of the lowest bit, or 16 where none is set.
#[inline(always)]
fn first_set(mask: u64) -> usize
    ensures { result ≡ first_set mask }
{
    if mask == 0 {
        LANES
    } else {
        mask.trailing_zeros() as usize
    }
}

/// How many of the 16 bytes at the place, from the first on, are of the class.
#[inline(always)]
pub fn run_len<C: ByteClass>(class: &C, bytes: &[u8], at: usize) -> usize
    requires { at + LANES ≤ length bytes.now }
    ensures run { result ≡ prefix_len (C.has class.now) (take LANES (drop at bytes.now)) }
    ensures few { result ≤ LANES }
{
    first_set(class.outside(u8x16::from_slice(&bytes[at..])))
}

/// The place where the bytes of the class end that begin at the place, one by one.
fn near_end<C: ByteClass>(class: &C, bytes: &[u8], at: usize) -> usize
    requires { at ≤ length bytes.now }
    ensures value { result ≡ at + prefix_len (C.has class.now) (drop at bytes.now) }
    ensures within { result ≤ length bytes.now }
{
    let mut end = at;
    while end < bytes.len() && class.has(bytes[end]) {
        end += 1;
    }
    end
}

/// The place where the bytes of the class end that begin at the place.
#[inline(never)]
pub fn far_end<C: ByteClass>(class: &C, bytes: &[u8], at: usize) -> usize
    requires { at ≤ length bytes.now }
    ensures value { result ≡ at + prefix_len (C.has class.now) (drop at bytes.now) }
    ensures within { result ≤ length bytes.now }
{
    let mut place = at;
    while bytes.len() - place >= LANES {
        let run = run_len(class, bytes, place);
        if run < LANES {
            return place + run;
        }
        place += LANES;
    }
    near_end(class, bytes, place)
}

/// The place where the bytes of the class end that begin at the place, which 16 bytes follow. Most runs are short: only
/// the others are left to a call.
#[inline(always)]
pub fn run_end<C: ByteClass>(class: &C, bytes: &[u8], at: usize) -> usize
    requires { at + LANES ≤ length bytes.now }
    ensures value { result ≡ at + prefix_len (C.has class.now) (drop at bytes.now) }
    ensures within { result ≤ length bytes.now }
{
    let run = run_len(class, bytes, at);
    if run < LANES {
        at + run
    } else {
        far_end(class, bytes, at + LANES)
    }
}
