//! The words of a document in borrowed bytes, as an index file has them, and the document over these: for tables, whose
//! rows are asked over both.
#![tactic(auto)]

ghost use Rattle.std.specs.Prelude.{◌≡◌, IsTrue};
ghost use Rattle.vtd_words.specs.Lists.{list_of};

use std::alloc::{AllocError, Global};
use vtd_location::Nav;
use vtd_words::{Part, Table, WordView, Words};

/// The bytes of six lists of words, the highest byte first.
#[derive(Drop)]
pub struct Lent {
    pub records: Vec<u8>,
    pub level1: Vec<u8>,
    pub level2: Vec<u8>,
    pub level3: Vec<u8>,
    pub level4: Vec<u8>,
    pub level5: Vec<u8>,
}

/// The words of a part in 8 bytes each.
fn long_bytes<W: Words>(alloc: Global, words: &W, part: Part) -> Result<Vec<u8>, AllocError> {
    let mut bytes = Vec::new(alloc);
    for at in 0..words.len(part) {
        bytes.extend_from_slice(&words.word(part, at).to_be_bytes())?;
    }
    Ok(bytes)
}

/// The words of the fifth level in 4 bytes each.
fn short_bytes<W: Words>(alloc: Global, words: &W) -> Result<Vec<u8>, AllocError> {
    let mut bytes = Vec::new(alloc);
    for at in 0..words.len(Part::Level5) {
        let word = words.word(Part::Level5, at) as u32;
        bytes.extend_from_slice(&word.to_be_bytes())?;
    }
    Ok(bytes)
}

impl Lent {
    /// The bytes of words.
    pub fn of<W: Words>(alloc: Global, words: &W) -> Result<Lent, AllocError> {
        Ok(Lent {
            records: long_bytes(alloc, words, Part::Records)?,
            level1: long_bytes(alloc, words, Part::Level1)?,
            level2: long_bytes(alloc, words, Part::Level2)?,
            level3: long_bytes(alloc, words, Part::Level3)?,
            level4: long_bytes(alloc, words, Part::Level4)?,
            level5: short_bytes(alloc, words)?,
        })
    }

    /// The words in the bytes.
    pub fn view(&self) -> Option<WordView<'_>> {
        WordView::of(
            &self.records,
            &self.level1,
            &self.level2,
            &self.level3,
            &self.level4,
            &self.level5,
        )
    }
}

/// Whether two have the same words in a part.
fn same_part<W: Words, V: Words>(one: &W, other: &V, part: Part) -> bool
    ensures { IsTrue result → list_of part (W.lists one.now) ≡ list_of part (V.lists other.now) }
{
    if one.len(part) != other.len(part) {
        return false;
    }
    for at in 0..one.len(part) {
        if one.word(part, at) != other.word(part, at) {
            return false;
        }
    }
    true
}

/// Whether two have the same words.
fn same_words<W: Words, V: Words>(one: &W, other: &V) -> bool
    ensures { IsTrue result → W.lists one.now ≡ V.lists other.now }
{
    same_part(one, other, Part::Records)
        && same_part(one, other, Part::Level1)
        && same_part(one, other, Part::Level2)
        && same_part(one, other, Part::Level3)
        && same_part(one, other, Part::Level4)
        && same_part(one, other, Part::Level5)
}

/// A document over other words, if these are the same as its own.
pub fn nav_over<'a, W: Words, V: Words>(nav: &Nav<'a, W>, words: &'a V) -> Option<Nav<'a, V>> {
    let table = nav.table();
    if same_words(table.words(), words) {
        return Some(Nav::of(Table::of(table.bytes(), words)));
    }
    None
}
