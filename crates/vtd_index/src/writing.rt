//! An index file, written piece by piece.

ghost use Rattle.std.specs.Prelude.{◌≡◌, ◌<◌, ◌^◌, length, true, false};
ghost use Rattle.xml_model.specs.Accepted.{Accepted};
ghost use Rattle.xml_model.specs.Nest.{Forest};
ghost use Rattle.vtd_outside.specs.Causes.{HasFileCause};
ghost use Rattle.vtd_outside.specs.Written.{Adds, Writes};
ghost use Rattle.vtd_index.specs.Index.{index_of};
ghost use Rattle.vtd_index.specs.Layout.{file_of};

use crate::pieces::{append_piece, padded_len, pieces};
use vtd_location::Nav;
use vtd_outside::{Failed, Files};
use vtd_words::{Part, Words};

/// How many bytes the index file of bytes and words has.
fn file_length<W: Words>(bytes: &[u8], words: &W) -> u64
    requires { length bytes.now < 2 ^ 30 }
    ensures { result ≡ length (file_of bytes.now (W.lists words.now)) }
{
    let long = words.len(Part::Records) as u64
        + words.len(Part::Level1) as u64
        + words.len(Part::Level2) as u64
        + words.len(Part::Level3) as u64
        + words.len(Part::Level4) as u64;
    40 + padded_len(bytes.len()) as u64 + 8 * long + 4 * words.len(Part::Level5) as u64
}

/// How many bytes the index file of a document has.
pub fn index_length<W: Words>(nav: &Nav<'_, W>) -> u64
    ensures { (nest : Forest) → Accepted 8 nav.now.bytes nest → result ≡ length (index_of nav.now.bytes nest) }
{
    let table = nav.table();
    file_length(table.bytes(), table.words())
}

/// Adds the index file of bytes and words to the file being written.
fn append_index<W: Words, F: Files>(bytes: &[u8], words: &W, files: &mut F) -> Result<(), Failed>
    requires few { length bytes.now < 2 ^ 30 }
    requires writing { (F.seen files.old).is_writing ≡ true }
    ensures { Adds (F.seen files.old) (F.seen files.new) (file_of bytes.now (W.lists words.now)) result }
{
    let all = pieces(bytes.len() as u32, words);
    for piece in &all {
        append_piece(*piece, bytes, words, files)?;
    }
    Ok(())
}

/// Writes the index file of bytes and words, in place of what the file of that name held.
fn write_parts<W: Words, F: Files>(
    name: &str,
    bytes: &[u8],
    words: &W,
    files: &mut F,
) -> Result<(), Failed>
    requires few { length bytes.now < 2 ^ 30 }
    requires writing { (F.seen files.old).is_writing ≡ false }
    ensures writes { Writes (F.seen files.old).contents (F.seen files.new).contents name.now
        (file_of bytes.now (W.lists words.now)) result }
    ensures writing_ends { (F.seen files.new).is_writing ≡ false }
    ensures cause { HasFileCause false (F.seen files.old).missed (F.seen files.new).missed (F.seen files.old).proper
        (F.seen files.new).proper result }
{
    if let Err(failed) = files.begin_write(name) {
        return Err(failed);
    }
    if let Err(failed) = append_index(bytes, words, files) {
        return Err(failed);
    }
    files.finish()
}

/// Writes the index file of a document to the file of that name, in place of what it held. It takes no memory: the
/// words go through a buffer of 65,536 bytes. No file may be being written at the call, and none is after it.
///
/// # Errors
/// `Failed` only where the proper count of `files` rose. All files are then as before, or the file of that name holds a
/// prefix of the index file.
pub fn write_index<W: Words, F: Files>(
    name: &str,
    nav: &Nav<'_, W>,
    files: &mut F,
) -> Result<(), Failed>
    requires { (F.seen files.old).is_writing ≡ false }
    ensures writes { (nest : Forest) → Accepted 8 nav.now.bytes nest →
        Writes (F.seen files.old).contents (F.seen files.new).contents name.now (index_of nav.now.bytes nest) result }
    ensures writing_ends { (F.seen files.new).is_writing ≡ false }
    ensures cause { HasFileCause false (F.seen files.old).missed (F.seen files.new).missed (F.seen files.old).proper
        (F.seen files.new).proper result }
{
    let table = nav.table();
    write_parts(name, table.bytes(), table.words(), files)
}
