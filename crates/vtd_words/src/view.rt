//! Words in borrowed bytes, which stay where they lie.

ghost use Rattle.std.specs.Prelude.{◌≡◌, ◌<◌, ◌↔◌, ◌*◌, ◌+◌, ◌≤◌, IfSome, IsSome, IsTrue, length, drop, slice_index};
ghost use Rattle.vtd_words.specs.Numbers.{AreWords, number, words_in};
ghost use Rattle.vtd_words.specs.View.{CanView, lists_in};

use crate::word_vec::{Part, Words};
use byteorder::{BigEndian, ByteOrder};
use std::marker::Model;

/// Whether bytes are whole words of 8 bytes, no more than a `u32` counts.
fn are_long(bytes: &[u8]) -> bool
    ensures { IsTrue result ↔ AreWords 8 bytes.now }
{
    bytes.len() % 8 == 0 && bytes.len() / 8 <= u32::MAX as usize
}

/// Whether bytes are whole words of 4 bytes, no more than a `u32` counts.
fn are_short(bytes: &[u8]) -> bool
    ensures { IsTrue result ↔ AreWords 4 bytes.now }
{
    bytes.len() % 4 == 0 && bytes.len() / 4 <= u32::MAX as usize
}

/// How many words of 8 bytes there are.
fn long_len(bytes: &[u8]) -> u32
    requires { AreWords 8 bytes.now }
    ensures { result ≡ length (words_in 8 bytes.now) }
{
    (bytes.len() / 8) as u32
}

/// How many words of 4 bytes there are.
fn short_len(bytes: &[u8]) -> u32
    requires { AreWords 4 bytes.now }
    ensures { result ≡ length (words_in 4 bytes.now) }
{
    (bytes.len() / 4) as u32
}

/// The big-endian number in the 8 bytes from a place on.
#[inline(always)]
#[tactic(auto, unfolding(crate::specs::Numbers::number))]
pub fn long_from(bytes: &[u8], at: usize) -> u64
    requires { at + 8 ≤ length bytes.now }
    ensures { result ≡ number 8 (drop at bytes.now) }
{
    BigEndian::read_u64(&bytes[at..])
}

/// The big-endian number in the 4 bytes from a place on.
#[inline(always)]
#[tactic(auto, unfolding(crate::specs::Numbers::number))]
pub fn short_from(bytes: &[u8], at: usize) -> u32
    requires { at + 4 ≤ length bytes.now }
    ensures { result ≡ number 4 (drop at bytes.now) }
{
    BigEndian::read_u32(&bytes[at..])
}

/// The word of 8 bytes at an index.
#[inline(always)]
fn long_at(bytes: &[u8], at: u32) -> u64
    requires words { AreWords 8 bytes.now }
    requires within { at < length (words_in 8 bytes.now) }
    ensures { result ≡ slice_index (words_in 8 bytes.now) at }
{
    long_from(bytes, 8 * at as usize)
}

/// The word of 4 bytes at an index.
#[inline(always)]
fn short_at(bytes: &[u8], at: u32) -> u32
    requires words { AreWords 4 bytes.now }
    requires within { at < length (words_in 4 bytes.now) }
    ensures { result ≡ slice_index (words_in 4 bytes.now) at }
{
    short_from(bytes, 4 * at as usize)
}

/// Words that stay where they lie: big-endian numbers in six slices, of 8 bytes each, and of 4 in the last. Contracts
/// see the six lists of these numbers.
#[derive(Drop)]
pub struct WordView<'a> {
    records: &'a [u8],
    level1: &'a [u8],
    level2: &'a [u8],
    level3: &'a [u8],
    level4: &'a [u8],
    level5: &'a [u8],
}

impl<'a> Model for WordView<'a> {
    ghost use Rattle.vtd_words.specs.Lists.{Lists};
    ghost use Rattle.vtd_words.specs.View.{CanView, lists_in};

    ghost Value = { Lists };

    ghost view = { λ v. lists_in v.records.now v.level1.now v.level2.now v.level3.now v.level4.now v.level5.now };

    ghost invariant = { λ v. CanView v.records.now v.level1.now v.level2.now v.level3.now v.level4.now v.level5.now };
}

impl<'a> WordView<'a> {
    /// The words in six slices; `None` exactly where one of the first five lengths is no multiple of 8, the last is no
    /// multiple of 4, or a slice has more words than a `u32` counts. Nothing is read.
    pub fn of(
        records: &'a [u8],
        level1: &'a [u8],
        level2: &'a [u8],
        level3: &'a [u8],
        level4: &'a [u8],
        level5: &'a [u8],
    ) -> Option<WordView<'a>>
        ensures lists { IfSome result (λ v. v ≡ lists_in records.entry.now level1.entry.now level2.entry.now
            level3.entry.now level4.entry.now level5.entry.now) }
        ensures there { IsSome result ↔ CanView records.entry.now level1.entry.now level2.entry.now level3.entry.now
            level4.entry.now level5.entry.now }
    {
        let whole = are_long(records)
            && are_long(level1)
            && are_long(level2)
            && are_long(level3)
            && are_long(level4)
            && are_short(level5);
        if !whole {
            return None;
        }
        Some(WordView {
            records,
            level1,
            level2,
            level3,
            level4,
            level5,
        })
    }
}

impl<'a> Words for WordView<'a> {
    ghost lists = { λ v. v };

    fn len(&self, part: Part) -> u32 {
        match part {
            Part::Records => long_len(self.records),
            Part::Level1 => long_len(self.level1),
            Part::Level2 => long_len(self.level2),
            Part::Level3 => long_len(self.level3),
            Part::Level4 => long_len(self.level4),
            Part::Level5 => short_len(self.level5),
        }
    }

    fn word(&self, part: Part, at: u32) -> u64 {
        match part {
            Part::Records => long_at(self.records, at),
            Part::Level1 => long_at(self.level1, at),
            Part::Level2 => long_at(self.level2, at),
            Part::Level3 => long_at(self.level3, at),
            Part::Level4 => long_at(self.level4, at),
            Part::Level5 => short_at(self.level5, at) as u64,
        }
    }
}
