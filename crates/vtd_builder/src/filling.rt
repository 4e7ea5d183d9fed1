//! The records of a `WordVec` as a sink.

ghost use Rattle.std.specs.Prelude.{◌≡◌, ◌+◌, ◌<◌, ◌≤◌, ◌^◌, length};

use crate::sink::RecordSink;
use vtd_words::{Part, WordVec, Words};

/// Appends words to the records, up to so many of them.
#[derive(Drop)]
pub struct Filling {
    pub words: WordVec,
    /// How many records there may be; for those that are missing there is room.
    pub most: u32,
    ghost room: { most ≤ length words.lists.records + words.room.records },
}

impl RecordSink for Filling {
    ghost use Rattle.std.specs.Prelude.{nat_le};
    ghost use Rattle.vtd_builder.specs.Documents.{levels_of};

    ghost taken = { λ s. s.words.lists.records };

    ghost rest = { λ s. levels_of s.words };

    // Words are refused once the records are as many as there may be.
    ghost refuses = { λ s. λ taken word. nat_le s.most (length taken) };

    fn take(&mut self, word: u64) -> bool {
        if self.words.len(Part::Records) >= self.most {
            return false;
        }
        self.words.push(Part::Records, word);
        true
    }
}
