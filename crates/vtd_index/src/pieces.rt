//! The pieces of an index file, and how each is added to the file being written.

ghost use Rattle.std.specs.Prelude.{◌≡◌, ◌+◌, ◌*◌, ◌<◌, ◌≤◌, ◌^◌, length, true, replicate};
ghost use Rattle.vtd_outside.specs.Written.{Adds};
ghost use Rattle.vtd_words.specs.Lists.{list_of};
ghost use Rattle.vtd_words.specs.Numbers.{bytes_of, number_bytes};
ghost use Rattle.vtd_index.specs.Layout.{padded};
ghost use Rattle.vtd_index.specs.Pieces.{piece_bytes, pieces_of, word_size};

use crate::numbers::{put_short, put_words, word_len};
use vtd_outside::{Failed, Files, append_all};
use vtd_words::{Part, Words};

/// A piece of an index file.
#[derive(Clone, Copy)]
pub enum Piece {
    /// What each index file begins with.
    Magic,
    /// The length of the document or of a part.
    Length(u32),
    /// Four zeros.
    Spare,
    Document,
    /// Zeros to a multiple of 8.
    Padding,
    Words(Part),
}

/// The first bytes of an index file.
pub const MAGIC: &[u8] = b"VTDIDX02";

/// How many words are put into the buffer before it is added to the file.
const MANY: u32 = 8192;

/// The pieces of an index file, in order.
#[tactic(auto, unfolding(crate::specs::Pieces::pieces_of))]
pub fn pieces<W: Words>(document: u32, words: &W) -> [Piece; 17]
    ensures { result ≡ pieces_of document (W.lists words.now) }
{
    [
        Piece::Magic,
        Piece::Length(document),
        Piece::Length(words.len(Part::Records)),
        Piece::Length(words.len(Part::Level1)),
        Piece::Length(words.len(Part::Level2)),
        Piece::Length(words.len(Part::Level3)),
        Piece::Length(words.len(Part::Level4)),
        Piece::Length(words.len(Part::Level5)),
        Piece::Spare,
        Piece::Document,
        Piece::Padding,
        Piece::Words(Part::Records),
        Piece::Words(Part::Level1),
        Piece::Words(Part::Level2),
        Piece::Words(Part::Level3),
        Piece::Words(Part::Level4),
        Piece::Words(Part::Level5),
    ]
}

/// The least multiple of 8 from a length on.
pub fn padded_len(len: usize) -> usize
    requires { len < 2 ^ 63 }
    ensures { result ≡ padded len }
{
    (len + 7) / 8 * 8
}

/// Adds a number of 4 bytes to the file being written.
fn append_length<F: Files>(files: &mut F, value: u32) -> Result<(), Failed>
    requires { (F.seen files.old).is_writing ≡ true }
    ensures { Adds (F.seen files.old) (F.seen files.new) (number_bytes 4 value) result }
{
    let mut chunk = [0; 4];
    put_short(&mut chunk, value);
    append_all(files, &chunk)
}

/// Adds at most 7 zeros to the file being written.
fn append_zeros<F: Files>(files: &mut F, count: usize) -> Result<(), Failed>
    requires few { count ≤ 7 }
    requires writing { (F.seen files.old).is_writing ≡ true }
    ensures { Adds (F.seen files.old) (F.seen files.new) (replicate count 0) result }
{
    let zeros = [0; 7];
    append_all(files, &zeros[..count])
}

/// Adds the words of a part to the file being written, through a buffer of 65,536 bytes. It takes no memory.
///
/// # Errors
/// `Failed` only where the proper count of `files` rose. A prefix of the bytes was then added, and no file is being
/// written.
fn append_words<W: Words, F: Files>(words: &W, part: Part, files: &mut F) -> Result<(), Failed>
    requires { (F.seen files.old).is_writing ≡ true }
    ensures { Adds (F.seen files.old) (F.seen files.new)
        (bytes_of (word_size part) (list_of part (W.lists words.now))) result }
{
    let len = words.len(part);
    let size = word_len(part);
    let mut chunk = [0; 65536];
    let mut at = 0;
    while at < len {
        let count = MANY.min(len - at);
        put_words(words, part, at, count, &mut chunk);
        append_all(files, &chunk[..size * count as usize])?;
        at += count;
    }
    Ok(())
}

/// Adds a piece to the file being written.
pub fn append_piece<W: Words, F: Files>(
    piece: Piece,
    bytes: &[u8],
    words: &W,
    files: &mut F,
) -> Result<(), Failed>
    requires few { length bytes.now < 2 ^ 30 }
    requires writing { (F.seen files.old).is_writing ≡ true }
    ensures { Adds (F.seen files.old) (F.seen files.new) (piece_bytes bytes.now (W.lists words.now) piece) result }
{
    match piece {
        Piece::Magic => append_all(files, MAGIC),
        Piece::Length(value) => append_length(files, value),
        Piece::Spare => append_zeros(files, 4),
        Piece::Document => append_all(files, bytes),
        Piece::Padding => append_zeros(files, padded_len(bytes.len()) - bytes.len()),
        Piece::Words(part) => append_words(words, part, files),
    }
}
