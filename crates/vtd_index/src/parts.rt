//! A document and its words where they lie in an index file.

ghost use Rattle.std.specs.Prelude.{◌≡◌};
ghost use Rattle.vtd_builder.specs.Documents.{IsDoc};

use std::marker::Model;
use vtd_location::Nav;
use vtd_words::{Table, WordView};

/// A document that no check refuses beside the words of its records and levels, both in the bytes of an index file.
#[derive(Drop)]
pub struct IndexParts<'a> {
    bytes: &'a [u8],
    words: WordView<'a>,
}

impl<'a> Model for IndexParts<'a> {
    ghost use Rattle.vtd_builder.specs.Documents.{Document, IsDoc};

    ghost Value = { Document };

    ghost view = { λ p. record { bytes = p.bytes.now; words = p.words } };

    ghost invariant = { λ p. IsDoc p.bytes.now p.words };
}

impl<'a> IndexParts<'a> {
    /// A document and its words. Nothing is read.
    pub fn of(bytes: &'a [u8], words: WordView<'a>) -> IndexParts<'a>
        requires { IsDoc bytes.now words }
        ensures bytes { result.bytes ≡ bytes.entry.now }
        ensures words { result.words ≡ words.entry }
    {
        IndexParts { bytes, words }
    }

    /// The document's bytes, where they lie in the file.
    pub fn bytes(&self) -> &'a [u8]
        ensures value { result.now ≡ self.now.bytes }
        ensures document { IsDoc self.now.bytes self.now.words }
    {
        self.bytes
    }

    /// The words of its records and levels, where they lie in the file.
    pub fn words(&self) -> &WordView<'a>
        ensures value { result.now ≡ self.now.words }
        ensures document { IsDoc self.now.bytes self.now.words }
    {
        &self.words
    }

    /// The document, ready to be walked.
    pub fn nav(&self) -> Nav<'_, WordView<'_>>
        ensures bytes { result.bytes ≡ self.now.bytes }
        ensures words { result.words ≡ self.now.words }
    {
        Nav::of(Table::of(self.bytes, &self.words))
    }
}
