//! Stored records that are compared while the records of a document are handed over.

ghost use Rattle.std.specs.Prelude.{◌≡◌, ◌≤◌, length};
ghost use Rattle.vtd_words.specs.Lists.{list_of};

use vtd_builder::RecordSink;
use vtd_words::{Part, WordView, Words};

/// Takes the words of records as long as they are the stored ones.
#[derive(Drop)]
pub struct Comparer<'a, 'b> {
    pub words: &'a WordView<'b>,
    /// How many were taken.
    pub at: u32,
    ghost within: { at ≤ length words.now.records },
}

impl<'a, 'b> RecordSink for Comparer<'a, 'b> {
    ghost use Rattle.std.specs.Prelude.{take, []};
    ghost use Rattle.vtd_index.specs.Comparing.{is_other};

    ghost taken = { λ s. take s.at s.words.now.records };

    ghost rest = { λ s. s.words.now.records };

    // A word is refused that is not the stored one after those taken.
    ghost refuses = { λ s. is_other s.words.now.records };

    fn take(&mut self, word: u64) -> bool {
        if self.at < self.words.len(Part::Records)
            && self.words.word(Part::Records, self.at) == word
        {
            self.at += 1;
            return true;
        }
        false
    }
}
