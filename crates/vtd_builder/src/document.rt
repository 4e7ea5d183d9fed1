//! Documents with their records and levels, built from bytes.

ghost use Rattle.std.specs.Prelude.{◌≡◌, ◌+◌, ◌-◌, ◌^◌, ◌<◌, ◌≤◌, All, drop, length, vec_len, IfErr, IfOk, OnErr, OnOk};
ghost use Rattle.xml_model.specs.declared.DocFault.{DocFault};
ghost use Rattle.xml_model.specs.Nest.{Forest};
ghost use Rattle.xml_model.specs.Accepted.{Accepted, IsRefusal};
ghost use Rattle.vtd_builder.specs.Documents.{IsDoc, IsReserved, words_of};
ghost use Rattle.vtd_builder.specs.Exchanges.{growth, with_range, with_records};
ghost use Rattle.vtd_builder.specs.Offered.{record_words};
ghost use Rattle.vtd_words.specs.Exchanged.{CanShift, CanRenumberLists};

use crate::emission::emit;
use crate::exchange::{growth, put};
use crate::filling::Filling;
use std::alloc::Global;
use std::marker::Model;
use vtd_location::{Nav, fill_levels};
use vtd_namespaces::check_names;
use vtd_words::{Counts, Table, WordVec};
use xml_acceptance::check;
use xml_model::{DocFault, NoMemory};

/// Why no document was built.
#[derive(Clone, Copy, Debug, PartialEq, Eq)]
pub enum BuildFault {
    /// The bytes are refused.
    Doc(DocFault),
    /// Memory was not to be had.
    NoMemory,
}

/// A document that no check refuses, with its records and levels.
#[derive(Drop)]
pub struct Doc {
    bytes: Vec<u8>,
    words: WordVec,
}

impl Model for Doc {
    ghost use Rattle.vtd_builder.specs.Documents.{Document, IsDoc};

    ghost Value = { Document };

    ghost view = { λ d. record { bytes = d.bytes.items; words = d.words.lists } };

    ghost invariant = { λ d. IsDoc d.bytes.items d.words.lists };
}

impl Doc {
    ghost use Rattle.vtd_builder.specs.Documents.{IsDoc};

    /// The document of bytes that no check refuses, with the words of its records and levels. Nothing is read.
    pub fn of(bytes: Vec<u8>, words: WordVec) -> Doc
        requires { IsDoc bytes.items words.lists }
        ensures bytes { result.bytes ≡ bytes.items }
        ensures words { result.words ≡ words.lists }
    {
        Doc { bytes, words }
    }

    /// The document's bytes and the words of its records and levels, handed out.
    pub fn into_parts(self) -> (Vec<u8>, WordVec)
        ensures bytes { result.0.items ≡ self.bytes }
        ensures words { result.1.lists ≡ self.words }
        ensures document { IsDoc result.0.items result.1.lists }
    {
        let Doc { bytes, words } = self;
        (bytes, words)
    }

    /// The document's bytes.
    pub fn bytes(&self) -> &[u8]
        ensures value { result.now ≡ self.now.bytes }
        ensures document { IsDoc self.now.bytes self.now.words }
    {
        self.bytes.as_slice()
    }

    /// The words of its records and levels, which are those of the nest of its bytes.
    pub fn words(&self) -> &WordVec
        ensures value { result.now.lists ≡ self.now.words }
        ensures document { IsDoc self.now.bytes self.now.words }
    {
        &self.words
    }

    /// Puts other bytes for those from `start` up to `end`, and the words of their records for the records from `first`
    /// up to `past`. The offsets of the records after them grow as the bytes do, and the indexes in the levels as the
    /// records do. With these bytes and words it is a document again. All memory is taken first. It is linear in the
    /// bytes and words, which are moved, and reads nothing of them.
    ///
    /// # Errors
    /// `NoMemory`; the document is as before then.
    pub fn exchange(
        &mut self,
        start: u32,
        end: u32,
        text: &[u8],
        first: u32,
        past: u32,
        records: &[u64],
    ) -> Result<(), NoMemory>
        requires start { start ≤ end }
        requires end { end ≤ length self.old.bytes }
        requires first { first ≤ past }
        requires past { past ≤ length self.old.words.records }
        requires small { length text.now < 2 ^ 30 }
        requires few { length records.now < 2 ^ 30 }
        requires fewer { length self.old.words.records - (past - first) + length records.now < 2 ^ 32 }
        requires offsets { All (CanShift (growth (length text.now) (end - start)))
            (drop past self.old.words.records) }
        requires indexes { CanRenumberLists past (growth (length records.now) (past - first)) self.old.words }
        requires document { IsDoc (with_range start end text.now self.old.bytes)
            (with_records first past records.now (growth (length text.now) (end - start)) self.old.words) }
        ensures bytes { OnOk result (self.new.bytes ≡ with_range start end text.now self.old.bytes) }
        ensures words { OnOk result (self.new.words
            ≡ with_records first past records.now (growth (length text.now) (end - start)) self.old.words) }
        ensures err { OnErr result (self.new ≡ self.old) }
    {
        if self.bytes.reserve(text.len()).is_err() {
            return Err(NoMemory);
        }
        self.words.reserve(Counts {
            records: records.len() as u32,
            level1: 0,
            level2: 0,
            level3: 0,
            level4: 0,
            level5: 0,
        })?;
        put(&mut self.bytes, start as usize, end as usize, text);
        self.words
            .exchange_records(first, past, records, growth(text.len(), end - start));
        self.words
            .renumber(past, growth(records.len(), past - first));
        Ok(())
    }

    /// The document, ready to be walked.
    pub fn nav(&self) -> Nav<'_, WordVec>
        ensures bytes { result.bytes ≡ self.now.bytes }
        ensures words { result.words.lists ≡ self.now.words }
    {
        Nav::of(Table::of(self.bytes.as_slice(), &self.words))
    }
}

/// A sink with room for so many words of each part.
fn reserve(alloc: Global, counts: Counts) -> Result<Filling, NoMemory>
    ensures reserved { IfOk result (λ sink. IsReserved counts sink.words) }
    ensures most { IfOk result (λ sink. sink.most ≡ counts.records) }
{
    let mut words = WordVec::new(alloc);
    words.reserve(counts)?;
    Ok(Filling {
        words,
        most: counts.records,
    })
}

/// Whether the names of a document are accepted, by its records.
fn check_recorded(bytes: &[u8], words: &WordVec) -> Result<(), DocFault>
    requires size { length bytes.now < 2 ^ 30 }
    requires accepted { (nest : Forest) × Accepted 6 bytes.now nest }
    requires recorded { (nest : Forest) → Accepted 6 bytes.now nest →
        words.now.lists.records ≡ record_words bytes.now nest }
    ensures accepted { OnOk result ((nest : Forest) → Accepted 6 bytes.now nest → Accepted 8 bytes.now nest) }
    ensures refused { IfErr result (IsRefusal bytes.now) }
{
    check_names(&Table::of(bytes, words))
}

/// The document of the bytes, with the words of its records and levels. All memory is taken at once, after `check`,
/// by its counts, so `NoMemory` comes only where that refuses nothing; the names are checked by the records.
///
/// # Errors
/// `Doc` only with the refusal of the bytes; `NoMemory` may come in place of a refusal of names. The bytes come back
/// with each fault.
pub fn build(alloc: Global, bytes: Vec<u8>) -> Result<Doc, (Vec<u8>, BuildFault)>
    requires { vec_len bytes < 2 ^ 30 }
    ensures kept { IfOk result (λ doc. doc.bytes ≡ bytes.items) }
    ensures accepted { IfOk result (λ doc. (nest : Forest) × Accepted 8 bytes.items nest) }
    ensures words { IfOk result (λ doc. (nest : Forest) → Accepted 8 bytes.items nest →
        doc.words ≡ words_of bytes.items nest) }
    ensures given_back { IfErr result (λ e. e.0 ≡ bytes) }
    ensures refused { IfErr result (λ e. (fault : DocFault) → e.1 ≡ BuildFault.Doc fault →
        IsRefusal bytes.items fault) }
    ensures no_memory { IfErr result (λ e. e.1 ≡ BuildFault.NoMemory → (nest : Forest) × Accepted 6 bytes.items nest) }
{
    let counts = match check(&bytes) {
        Ok(counts) => counts,
        Err(fault) => return Err((bytes, BuildFault::Doc(fault))),
    };
    let Ok(mut sink) = reserve(alloc, counts) else {
        return Err((bytes, BuildFault::NoMemory));
    };
    if emit(&bytes, &mut sink).is_err() {
        unreachable!()
    }
    let mut words = sink.words;
    if let Err(fault) = check_recorded(&bytes, &words) {
        return Err((bytes, BuildFault::Doc(fault)));
    }
    fill_levels(&mut words);
    Ok(Doc::of(bytes, words))
}
