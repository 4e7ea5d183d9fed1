//! Whether a file is an index file, and what is wrong with it.

ghost use Rattle.std.specs.Prelude.{◌≡◌, ℕ, ◌-◌, ◌<◌, ◌≤◌, ◌^◌, ◌↔◌, List, length, IfOk, IfErr, OnOk, IsOk, Ok};
ghost use Rattle.std.specs.Prelude.{Err, None, Some};
ghost use Rattle.xml_model.specs.Accepted.{Accepted, IsRefusal, layer};
ghost use Rattle.xml_model.specs.Nest.{Forest};
ghost use Rattle.xml_model.specs.Records.{Record};
ghost use Rattle.vtd_words.specs.Table.{IsNestTo, Shows};
ghost use Rattle.vtd_builder.specs.Offered.{record_words};
ghost use Rattle.vtd_index.specs.Answers.{checked_version, IsChecked};
ghost use Rattle.vtd_index.specs.Heads.{document_in, head_of, lists_at};
ghost use Rattle.vtd_index.specs.Index.{differ_by, IsFault, IsFileBy, IsIndexBy, IsIndexFile, RefusesParts, RefusesRecords};
ghost use Rattle.vtd_index.specs.declared.head.Version.{Version};

use crate::comparer::Comparer;
use crate::faults::IndexFault;
use crate::head::{Head, Version, document, outer_levels, read_head, words};
use crate::parts::IndexParts;
use vtd_builder::{check, emit};
use vtd_location::{CacheDiff, check_levels, check_levels_one};
use vtd_namespaces::check_names;
use vtd_words::{Part, Table, WordView, Words};
use xml_model::DocFault;

/// What an index file holds.
#[derive(Drop)]
pub enum Checked<'a> {
    /// A file of the first version: its document, where it lies in the file. Of its words only the records serve, and
    /// these are to be built.
    One(&'a [u8]),
    /// A file of the second version: its document and its words, where they lie in the file.
    Two(IndexParts<'a>),
}

/// Whether the stored records are those of the document.
///
/// # Errors
/// The first record that differs, is missing or is surplus.
fn compare_records(bytes: &[u8], words: &WordView<'_>) -> Result<(), u32>
    requires size { length bytes.now < 2 ^ 30 }
    requires accepted { (nest : Forest) × Accepted 6 bytes.now nest }
    ensures same { OnOk result ((nest : Forest) → Accepted 6 bytes.now nest →
        words.now.records ≡ record_words bytes.now nest) }
    ensures first { IfErr result (RefusesRecords bytes.now words.now) }
{
    let mut comparer = Comparer { words, at: 0 };
    emit(bytes, &mut comparer)?;
    if comparer.at < words.len(Part::Records) {
        return Err(comparer.at);
    }
    Ok(())
}

/// Whether the names of the document are accepted, by the stored records.
fn check_recorded(bytes: &[u8], words: &WordView<'_>) -> Result<(), DocFault>
    requires size { length bytes.now < 2 ^ 30 }
    requires recorded { (nest : Forest) × IsNestTo 6 bytes.now words.now nest }
    ensures accepted { OnOk result ((nest : Forest) → IsNestTo 6 bytes.now words.now nest → Accepted 8 bytes.now nest) }
    ensures layer { IfErr result (λ fault. 7 ≤ layer fault) }
    ensures refused { IfErr result (IsRefusal bytes.now) }
{
    check_names(&Table::of(bytes, words))
}

/// What is wrong with a document and stored records, in the order of the faults. Both versions store them alike.
fn check_document(bytes: &[u8], words: &WordView<'_>) -> Result<(), IndexFault>
    requires { length bytes.now < 2 ^ 30 }
    ensures document { OnOk result ((nest : Forest) × IsNestTo 8 bytes.now words.now nest) }
    ensures fault { IfErr result (λ fault. (version : Version) → RefusesParts version bytes.now words.now fault) }
{
    if let Err(fault) = check(bytes) {
        return Err(IndexFault::Doc(fault));
    }
    if let Err(at) = compare_records(bytes, words) {
        return Err(IndexFault::Records { at });
    }
    if let Err(fault) = check_recorded(bytes, words) {
        return Err(IndexFault::Doc(fault));
    }
    Ok(())
}

/// Whether the stored levels are those that the version of the file has for the records.
///
/// # Errors
/// The first level that differs, and in it the first entry that differs, is missing or is surplus.
fn compare_levels(file: &[u8], head: &Head, words: &WordView<'_>) -> Result<(), CacheDiff>
    requires few { length file.now < 2 ^ 32 }
    requires head { head_of file.now ≡ Ok head.now }
    requires words { words.now ≡ lists_at file.now head.now }
    requires records { length words.now.records < 2 ^ 32 - 1 }
    ensures same { OnOk result ((rs : List Record) → Shows words.now.records rs →
        differ_by head.now.version words.now rs ≡ None) }
    ensures differ { IfErr result (λ diff. (rs : List Record) → Shows words.now.records rs →
        differ_by head.now.version words.now rs ≡ Some diff) }
{
    match head.version {
        Version::One => {
            let (level1, level2, level3) = outer_levels(file, head);
            check_levels_one(words, level1, level2, level3)
        }
        Version::Two => check_levels(words),
    }
}

/// What is wrong with the document and the words in a file, in the order of the faults.
fn check_parts(
    file: &[u8],
    head: &Head,
    bytes: &[u8],
    words: &WordView<'_>,
) -> Result<(), IndexFault>
    requires few { length file.now < 2 ^ 32 }
    requires head { head_of file.now ≡ Ok head.now }
    requires document { bytes.now ≡ document_in file.now head.now }
    requires words { words.now ≡ lists_at file.now head.now }
    ensures index { OnOk result (IsIndexBy head.now.version file.now bytes.now) }
    ensures fault { IfErr result (IsFault file.now) }
{
    check_document(bytes, words)?;
    if let Err(diff) = compare_levels(file, head, words) {
        return Err(IndexFault::Caches {
            level: diff.level,
            at: diff.at,
        });
    }
    Ok(())
}

/// What lies in an index file: of the first version its document, of the second its document and its words. It takes no
/// memory. It reads the document as `build` does, each stored word at least once, and no other byte but the head and the
/// padding.
///
/// # Errors
/// The fault of the file, exactly where it is the index file of no document.
pub fn check_index(file: &[u8]) -> Result<Checked<'_>, IndexFault>
    requires { length file.now < 2 ^ 32 }
    ensures checked { IfOk result (IsChecked file.now) }
    ensures version { (version : Version) → (checked_version result ≡ Some version) ↔ IsFileBy version file.now }
    ensures accepted { IsOk result ↔ IsIndexFile file.now }
    ensures fault { (fault : IndexFault) → (result ≡ Err fault) ↔ IsFault file.now fault }
{
    let head = read_head(file)?;
    let bytes = document(file, &head);
    let words = words(file, &head);
    if let Err(fault) = check_parts(file, &head, bytes, &words) {
        return Err(fault);
    }
    match head.version {
        Version::One => Ok(Checked::One(bytes)),
        Version::Two => Ok(Checked::Two(IndexParts::of(bytes, words))),
    }
}
