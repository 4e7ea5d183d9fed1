//! A fingerprint filter: it notes keys, holds none of them, and says of a key whether it may have been noted. It sits
//! on the stack, 256 KiB, and no call takes memory.
#![tactic(auto)]

ghost use Rattle.std.specs.Prelude.{◌≡◌, ◌+◌, ◌%◌, ◌<◌, ◌^◌, ◌/◌, ℕ, List, true, false, not, length, fold};
ghost use Rattle.std.specs.List.{list_any};
ghost use Rattle.vtd_text.specs.Fingerprints.{mixed, is_taken, is_mark_for};

use crate::chars::Chars;
use std::marker::Model;
use vtd_words::Words;

/// How many slots a filter has.
const SLOTS: usize = 131_072;

/// How many slots a bucket has. A key may be in any slot of its bucket, so that of 50,000 keys hardly any seems noted
/// that is not.
const BUCKET: usize = 16;

/// What a slot holds that no key has taken.
const FREE: u16 = 0;

/// What a slot holds that keys of several marks have taken: it stands for all marks.
const SHARED: u16 = 65_535;

/// The fingerprint of a key, of 32 bits, from that of what is before these bytes of it; that of no bytes is 0. A key in
/// several parts is mixed part by part.
pub fn mix_bytes(before: u64, bytes: &[u8]) -> u64
    requires { before < 2 ^ 32 }
    ensures fingerprint { result ≡ fold mixed before bytes.now }
    ensures fits { result < 2 ^ 32 }
{
    let mut fingerprint = before;
    for byte in bytes {
        fingerprint = (fingerprint * 0x9E37_79B1 + *byte as u64) % (1 << 32);
    }
    fingerprint
}

/// The fingerprint of a key of code points: of two texts with the same code points it is the same, however they are
/// written.
pub fn mix_chars<W: Words>(chars: Chars<'_, W>) -> u64
    ensures fingerprint { result ≡ fold mixed 0 chars.entry }
    ensures fits { result < 2 ^ 32 }
{
    let mut left = chars;
    let mut fingerprint = 0u64;
    while let Some(c) = left.next() {
        fingerprint = (fingerprint * 0x9E37_79B1 + c as u64) % (1 << 32);
    }
    fingerprint
}

/// The bucket of a key, by its fingerprint; the last byte of the key says too.
fn bucket_of(fingerprint: u64) -> usize
    requires { fingerprint < 2 ^ 32 }
    ensures bucket { result ≡ mixed fingerprint 0 / 2 ^ 19 }
    ensures within { result < 8192 }
{
    let upper = (fingerprint * 0x9E37_79B1) % (1 << 32);
    (upper >> 19) as usize
}

/// The mark of a key, by its fingerprint.
fn mark_of(fingerprint: u64) -> u16
    ensures { result ≡ fingerprint % 65521 + 1 }
{
    (fingerprint % 65_521) as u16 + 1
}

/// Whether what a slot holds stands for a mark.
fn is_mark_for(mark: u16, held: u16) -> bool
    ensures { result ≡ is_mark_for mark held }
{
    held == mark || held == SHARED
}

/// What a slot holds once a key with a mark has taken it.
fn taken_by(held: u16, mark: u16) -> u16
    ensures noted { is_mark_for mark result ≡ true }
    ensures kept { (other : ℕ) → 0 < other → is_mark_for other held ≡ true → is_mark_for other result ≡ true }
{
    if held == FREE || held == mark {
        return mark;
    }
    SHARED
}

/// Whether a slot of a bucket stands for a mark.
fn has_mark(bucket: &[u16], mark: u16) -> bool
    ensures { result ≡ list_any (is_mark_for mark) bucket.now }
{
    for held in bucket {
        if is_mark_for(mark, *held) {
            return true;
        }
    }
    false
}

/// The first slot of a bucket that no key has taken; else the last one.
fn free_place(bucket: &[u16]) -> usize
    requires { 0 < length bucket.now }
    ensures { result < length bucket.now }
{
    for (place, held) in bucket.iter().enumerate() {
        if *held == FREE {
            return place;
        }
    }
    bucket.len() - 1
}

/// A set of keys by their fingerprints. A key that was noted is never forgotten; a key that seems noted may be another
/// one with the same bucket and the same mark, or with a bucket one of whose slots keys of several marks share, so that
/// whoever needs to know compares. Contracts see what the slots hold, and read it by `is_taken`.
#[derive(Drop)]
pub struct FingerprintFilter {
    slots: [u16; SLOTS],
}

impl Model for FingerprintFilter {
    ghost Value = { List ℕ };

    ghost view = { λ f. f.slots };
}

impl FingerprintFilter {
    /// A filter in which no key is noted.
    pub fn new() -> FingerprintFilter
        ensures { (key : List ℕ) → is_taken result key ≡ false }
    {
        FingerprintFilter {
            slots: [FREE; SLOTS],
        }
    }

    /// Whether a key with a fingerprint may have been noted: where not, no key that is the same was.
    pub fn may_have(&self, fingerprint: u64) -> bool
        requires { fingerprint < 2 ^ 32 }
        ensures { (key : List ℕ) → fingerprint ≡ fold mixed 0 key → result ≡ is_taken self.now key }
    {
        let first = BUCKET * bucket_of(fingerprint);
        has_mark(&self.slots[first..first + BUCKET], mark_of(fingerprint))
    }

    /// Notes a key of bytes; true where no key that was noted before is the same.
    pub fn note(&mut self, key: &[u8]) -> bool
        ensures new { result ≡ not (is_taken self.old key.now) }
        ensures noted { is_taken self.new key.now ≡ true }
        ensures kept { (other : List ℕ) → is_taken self.old other ≡ true → is_taken self.new other ≡ true }
    {
        self.note_fingerprint(mix_bytes(0, key))
    }

    /// Notes a key by its fingerprint; true where no key that was noted before is the same.
    pub fn note_fingerprint(&mut self, fingerprint: u64) -> bool
        requires { fingerprint < 2 ^ 32 }
        ensures new { (key : List ℕ) → fingerprint ≡ fold mixed 0 key → result ≡ not (is_taken self.old key) }
        ensures noted { (key : List ℕ) → fingerprint ≡ fold mixed 0 key → is_taken self.new key ≡ true }
        ensures kept { (other : List ℕ) → is_taken self.old other ≡ true → is_taken self.new other ≡ true }
    {
        let first = BUCKET * bucket_of(fingerprint);
        let mark = mark_of(fingerprint);
        let bucket = &self.slots[first..first + BUCKET];
        if has_mark(bucket, mark) {
            return false;
        }
        let slot = first + free_place(bucket);
        self.slots[slot] = taken_by(self.slots[slot], mark);
        true
    }
}
