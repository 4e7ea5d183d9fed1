//! Words that are read with a count.

ghost use Rattle.std.specs.Prelude.{◌≡◌, ◌<◌, length, slice_index};
ghost use Rattle.vtd_words.specs.Lists.{list_of, TakesWord};
ghost use Rattle.vtd_words.specs.Metered.{one_read};

use crate::word_vec::{Part, Words};
use std::marker::Model;

/// Words with the number of words that were read from them. It does not hand out the words that it holds, so each that
/// is read through it is counted. Contracts see the lists, and the number of reads.
#[derive(Drop)]
pub struct Meter<'a, W: Words> {
    words: &'a W,
    reads: u64,
}

impl<'a, W: Words> Model for Meter<'a, W> {
    ghost use Rattle.vtd_words.specs.Metered.{Metered};

    ghost Value = { Metered };

    ghost view = { λ m. record { lists = W.lists m.words.now; reads = m.reads } };
}

impl<'a, W: Words> Meter<'a, W> {
    /// Words of which none was read yet.
    pub fn over(words: &'a W) -> Meter<'a, W>
        ensures lists { result.lists ≡ W.lists words.entry.now }
        ensures reads { result.reads ≡ 0 }
    {
        Meter { words, reads: 0 }
    }

    /// The number of words of a part. It counts as no read.
    pub fn len(&self, part: Part) -> u32
        ensures { result ≡ length (list_of part self.now.lists) }
    {
        self.words.len(part)
    }

    /// The word of a part at an index, which is below the part's length; one of the fifth level is below 2 to the power
    /// 32. It counts as one read; the count stays at `u64::MAX`.
    pub fn word(&mut self, part: Part, at: u32) -> u64
        requires { at < length (list_of part self.old.lists) }
        ensures value { result ≡ slice_index (list_of part self.old.lists) at }
        ensures small { TakesWord part result }
        ensures lists { self.new.lists ≡ self.old.lists }
        ensures reads { self.new.reads ≡ one_read self.old.reads }
    {
        self.reads = self.reads.saturating_add(1);
        self.words.word(part, at)
    }

    /// How many words were read.
    pub fn reads(&self) -> u64
        ensures { result ≡ self.now.reads }
    {
        self.reads
    }
}
