//! The head of an index file, and where its parts lie.

ghost use Rattle.std.specs.Prelude.{◌≡◌, ◌+◌, ◌-◌, ◌*◌, ◌≤◌, ◌<◌, ◌^◌, ◌==◌, length, drop, not, position, Ok};
ghost use Rattle.vtd_words.specs.Numbers.{number};
ghost use Rattle.vtd_index.specs.Heads.{document_at, document_in, end_of, first_nonzero, head_from, head_in, head_of};
ghost use Rattle.vtd_index.specs.Heads.{level1_at, level2_at, level5_at, lists_at, records_at, slice, spare_at};
ghost use Rattle.vtd_index.specs.Heads.{with_size, with_zeros};
ghost use Rattle.vtd_index.specs.declared.head.Version.TheVariants.{One, Two};

use crate::faults::IndexFault;
use crate::pieces::{MAGIC, padded_len};
use vtd_words::{WordView, short_from};

/// The greatest length of a document, in bytes.
const LONGEST: usize = 1_073_741_823;

/// What an index file of the first version begins with.
const MAGIC_ONE: &[u8] = b"VTDIDX01";

/// How many spare bytes there are.
const SPARE: usize = 4;

/// Which layout an index file has.
#[derive(Clone, Copy)]
pub enum Version {
    /// Three levels, read and no longer written.
    One,
    /// Five levels.
    Two,
}

/// How many bytes each part of an index file has. The last level of the first version is in place of the fifth.
#[derive(Clone, Copy)]
pub struct Head {
    pub version: Version,
    pub document: usize,
    pub records: usize,
    pub level1: usize,
    pub level2: usize,
    pub level3: usize,
    pub level4: usize,
    pub level5: usize,
}

/// The number in the 4 bytes from a place on.
fn number_at(file: &[u8], at: usize) -> usize
    requires { at + 4 ≤ length file.now }
    ensures value { result ≡ number 4 (drop at file.now) }
    ensures small { result < 2 ^ 32 }
{
    short_from(file, at) as usize
}

/// So many bytes from a place on.
fn part(file: &[u8], at: usize, len: usize) -> &[u8]
    requires { at + len ≤ length file.now }
    ensures { result.now ≡ slice at len file.now }
{
    &file[at..at + len]
}

/// The index of the first byte that is not zero.
fn nonzero_index(bytes: &[u8]) -> Option<usize>
    ensures { result ≡ position (λ b. not (b == 0)) bytes.now }
{
    bytes.iter().position(|b| *b != 0)
}

/// The place of the first byte that is not zero, among so many from a place on.
fn first_nonzero(file: &[u8], at: usize, len: usize) -> Option<u32>
    requires few { length file.now < 2 ^ 32 }
    requires within { at + len ≤ length file.now }
    ensures { result ≡ first_nonzero at (slice at len file.now) }
{
    match nonzero_index(part(file, at, len)) {
        Some(i) => Some((at + i) as u32),
        None => None,
    }
}

/// Where the spare bytes of a version begin.
fn spare_start(version: Version) -> usize
    ensures value { result ≡ spare_at version }
    ensures small { result ≤ 36 }
{
    match version {
        Version::One => 28,
        Version::Two => 36,
    }
}

/// Where the document begins.
fn document_start(version: Version) -> usize
    ensures value { result ≡ document_at version }
    ensures small { result ≤ 40 }
{
    spare_start(version) + SPARE
}

/// The lengths that the head of a file of the first version tells.
fn head_one(file: &[u8]) -> Head
    requires { 32 ≤ length file.now }
    ensures value { result ≡ head_in One file.now }
    ensures small { end_of result < 2 ^ 63 }
{
    Head {
        version: Version::One,
        document: number_at(file, 8),
        records: 8 * number_at(file, 12),
        level1: 8 * number_at(file, 16),
        level2: 8 * number_at(file, 20),
        level3: 0,
        level4: 0,
        level5: 4 * number_at(file, 24),
    }
}

/// The lengths that the head of a file of the second version tells.
fn head_two(file: &[u8]) -> Head
    requires { 40 ≤ length file.now }
    ensures value { result ≡ head_in Two file.now }
    ensures small { end_of result < 2 ^ 63 }
{
    Head {
        version: Version::Two,
        document: number_at(file, 8),
        records: 8 * number_at(file, 12),
        level1: 8 * number_at(file, 16),
        level2: 8 * number_at(file, 20),
        level3: 8 * number_at(file, 24),
        level4: 8 * number_at(file, 28),
        level5: 4 * number_at(file, 32),
    }
}

/// The lengths that the head of a file of a version tells.
fn head_in(version: Version, file: &[u8]) -> Head
    requires { document_at version ≤ length file.now }
    ensures value { result ≡ head_in version file.now }
    ensures small { end_of result < 2 ^ 63 }
{
    match version {
        Version::One => head_one(file),
        Version::Two => head_two(file),
    }
}

/// Where the records begin.
fn records_start(head: &Head) -> usize
    requires { end_of head.now < 2 ^ 63 }
    ensures { result ≡ records_at head.now }
{
    document_start(head.version) + padded_len(head.document)
}

/// How many bytes a file with that head has.
fn end(head: &Head) -> usize
    requires { end_of head.now < 2 ^ 63 }
    ensures { result ≡ end_of head.now }
{
    records_start(head)
        + head.records
        + head.level1
        + head.level2
        + head.level3
        + head.level4
        + head.level5
}

/// The head, where the bytes that are to be zero are so.
fn with_zeros(file: &[u8], head: Head) -> Result<Head, IndexFault>
    requires few { length file.now < 2 ^ 32 }
    requires size { length file.now ≡ end_of head }
    ensures { result ≡ with_zeros file.now head }
{
    if let Some(at) = first_nonzero(file, spare_start(head.version), SPARE) {
        return Err(IndexFault::Padding { at });
    }
    let past = document_start(head.version) + head.document;
    if let Some(at) = first_nonzero(file, past, records_start(&head) - past) {
        return Err(IndexFault::Padding { at });
    }
    Ok(head)
}

/// The head, where the parts fill the file.
fn with_size(file: &[u8], head: Head) -> Result<Head, IndexFault>
    requires few { length file.now < 2 ^ 32 }
    requires small { end_of head < 2 ^ 63 }
    ensures { result ≡ with_size file.now head }
{
    if head.document > LONGEST || file.len() != end(&head) {
        return Err(IndexFault::Size);
    }
    with_zeros(file, head)
}

/// The head of a file of a version, or the first fault.
fn head_from(version: Version, file: &[u8]) -> Result<Head, IndexFault>
    requires { length file.now < 2 ^ 32 }
    ensures { result ≡ head_from version file.now }
{
    if file.len() < document_start(version) {
        return Err(IndexFault::Short);
    }
    with_size(file, head_in(version, file))
}

/// The head of a file, or the first fault that shows before the document is read.
pub fn read_head(file: &[u8]) -> Result<Head, IndexFault>
    requires { length file.now < 2 ^ 32 }
    ensures { result ≡ head_of file.now }
{
    if file.len() < 32 {
        return Err(IndexFault::Short);
    }
    if file.starts_with(MAGIC_ONE) {
        return head_from(Version::One, file);
    }
    if file.starts_with(MAGIC) {
        return head_from(Version::Two, file);
    }
    Err(IndexFault::Magic)
}

/// The document in a file.
pub fn document<'a>(file: &'a [u8], head: &Head) -> &'a [u8]
    requires { head_of file.now ≡ Ok head.now }
    ensures { result.now ≡ document_in file.now head.now }
{
    part(file, document_start(head.version), head.document)
}

/// The words in a file, which stay where they lie.
pub fn words<'a>(file: &'a [u8], head: &Head) -> WordView<'a>
    requires head { head_of file.now ≡ Ok head.now }
    requires few { length file.now < 2 ^ 32 }
    ensures { result ≡ lists_at file.now head.now }
{
    let records = records_start(head);
    let level1 = records + head.records;
    let level2 = level1 + head.level1;
    let level3 = level2 + head.level2;
    let level4 = level3 + head.level3;
    let level5 = level4 + head.level4;
    let view = WordView::of(
        part(file, records, head.records),
        part(file, level1, head.level1),
        part(file, level2, head.level2),
        part(file, level3, head.level3),
        part(file, level4, head.level4),
        part(file, level5, head.level5),
    );
    match view {
        Some(view) => view,
        None => unreachable!(),
    }
}

/// The first two levels in a file and the last one, as they lie in it.
pub fn outer_levels<'a>(file: &'a [u8], head: &Head) -> (&'a [u8], &'a [u8], &'a [u8])
    requires { head_of file.now ≡ Ok head.now }
    ensures one { result.0.now ≡ slice (level1_at head.now) head.now.level1 file.now }
    ensures two { result.1.now ≡ slice (level2_at head.now) head.now.level2 file.now }
    ensures last { result.2.now ≡ slice (level5_at head.now) head.now.level5 file.now }
{
    let level1 = records_start(head) + head.records;
    let level2 = level1 + head.level1;
    let level5 = level2 + head.level2 + head.level3 + head.level4;
    (
        part(file, level1, head.level1),
        part(file, level2, head.level2),
        part(file, level5, head.level5),
    )
}
