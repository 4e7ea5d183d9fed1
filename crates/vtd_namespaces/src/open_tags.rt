//! The tags that are open where a record is, kept along the records.

ghost use Rattle.std.specs.Prelude.{◌≡◌, ℕ, ◌+◌, ◌<◌, List, length};
ghost use Rattle.std.specs.List.{slice_index_or};
ghost use Rattle.xml_model.specs.Records.{Record};
ghost use Rattle.xml_model.specs.Scan.{record_at};
ghost use Rattle.xml_model.specs.Slots.{slots_with};
ghost use Rattle.vtd_words.specs.Packed.{record_of};
ghost use Rattle.vtd_namespaces.specs.OpenTags.{open_before};

use std::marker::Model;
use vtd_words::Parts;
use xml_model::TokenKind;

/// The starting tags that were passed, the last one of each depth, by the indexes of their records. It goes forward
/// along the records of a document, from the first one on. Before a node's first record those of the depths below the
/// node's level are the elements that hold the node; what deeper ones are is past, and never read. Contracts see the
/// list of the indexes.
#[derive(Drop)]
pub struct OpenTags {
    tags: [u32; 256],
}

impl Model for OpenTags {
    ghost Value = { List ℕ };

    ghost view = { λ o. o.tags };
}

impl OpenTags {
    /// The open tags before the first record: none.
    pub fn new() -> OpenTags
        ensures { (rs : List Record) → result ≡ open_before 0 rs }
    {
        OpenTags { tags: [0; 256] }
    }

    /// Passes the record with an index, which has these parts. It reads nothing.
    pub fn pass(&mut self, index: u32, parts: Parts)
        ensures slots { self.new ≡ slots_with index self.old (record_of parts) }
        ensures passed { (rs : List Record) → index < length rs → record_of parts ≡ record_at index rs →
            self.old ≡ open_before index rs → self.new ≡ open_before (index + 1) rs }
    {
        if parts.token == TokenKind::StartTag as u8 {
            self.tags[parts.depth as usize] = index;
        }
    }

    /// The index of the last starting tag of a depth that was passed; 0 where there was none.
    pub fn tag_at(&self, depth: u8) -> u32
        ensures { result ≡ slice_index_or self.now depth 0 }
    {
        self.tags[depth as usize]
    }
}
