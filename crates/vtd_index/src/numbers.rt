//! Words put into a buffer, the highest byte first.

ghost use Rattle.std.specs.Prelude.{◌≡◌, ◌+◌, ◌*◌, ◌<◌, ◌≤◌, ◌^◌, ◌++◌, length, take, drop};
ghost use Rattle.vtd_words.specs.Lists.{list_of, TakesWord};
ghost use Rattle.vtd_words.specs.Numbers.{bytes_of, number_bytes};
ghost use Rattle.vtd_index.specs.Pieces.{word_size};

use byteorder::{BigEndian, ByteOrder};
use vtd_words::{Part, Words};

/// How many bytes a word of a part has.
pub fn word_len(part: Part) -> usize
    ensures { result ≡ word_size part }
{
    match part {
        Part::Level5 => 4,
        _ => 8,
    }
}

/// Puts a number of 8 bytes at the start.
fn put_long(chunk: &mut [u8], word: u64)
    requires { 8 ≤ length chunk.old }
    ensures { chunk.new ≡ number_bytes 8 word ++ drop 8 chunk.old }
{
    BigEndian::write_u64(chunk, word);
}

/// Puts a number of 4 bytes at the start.
pub fn put_short(chunk: &mut [u8], word: u32)
    requires { 4 ≤ length chunk.old }
    ensures { chunk.new ≡ number_bytes 4 word ++ drop 4 chunk.old }
{
    BigEndian::write_u32(chunk, word);
}

/// Puts a word of a part at the start.
fn put_word(chunk: &mut [u8], part: Part, word: u64)
    requires small { TakesWord part word }
    requires room { word_size part ≤ length chunk.old }
    ensures { chunk.new ≡ number_bytes (word_size part) word ++ drop (word_size part) chunk.old }
{
    match part {
        Part::Level5 => put_short(chunk, word as u32),
        _ => put_long(chunk, word),
    }
}

/// Puts so many words of a part, from an index on, into the start of a buffer.
pub fn put_words<W: Words>(words: &W, part: Part, at: u32, count: u32, chunk: &mut [u8])
    requires within { at + count ≤ length (list_of part (W.lists words.now)) }
    requires few { at + count < 2 ^ 32 }
    requires room { word_size part * count ≤ length chunk.old }
    ensures { take (word_size part * count) chunk.new
        ≡ bytes_of (word_size part) (take count (drop at (list_of part (W.lists words.now)))) }
{
    let size = word_len(part);
    for i in 0..count {
        let place = size * i as usize;
        put_word(&mut chunk[place..], part, words.word(part, at + i));
    }
}
