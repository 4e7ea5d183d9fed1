//! What is at the start of a text: each function reads one thing and hands out what is left. No call takes memory.
#![tactic(auto)]

ghost use Rattle.std.specs.Prelude.{◌≡◌, ◌≤◌, ◌<◌, ◌+◌, ℕ, true, length, drop, nat_lt, IfSome, Some};
ghost use Rattle.std.specs.List.{list_all, prefix_len};
ghost use Rattle.std.specs.Str.{chars, IsUtf8, IsCharBoundary};
ghost use Rattle.xml_model.specs.Chars.{begins, is_name_char, is_space};
ghost use Rattle.xml_chars.specs.Readers.{Gives, run, word};
ghost use Rattle.xml_chars.specs.Reading.{ascii_head, read_char, read_name, read_space};

use crate::{classes, is_name_char};

/// The bytes from the place on, which are a text.
pub fn text_at(bytes: &[u8], at: u32) -> &str
    requires utf8 { IsUtf8 bytes.now }
    requires place { IsCharBoundary bytes.now at }
    ensures { result.now ≡ drop at bytes.now }
{
    let (_, rest) = bytes.split_at(at as usize);
    unsafe { std::str::from_utf8_unchecked(rest) }
}

/// The first character where it is ASCII, 0 at the end and 128 where it is not ASCII.
#[inline(always)]
#[tactic(auto, unfolding(crate::specs::Reading::ascii_head))]
pub fn head(text: &str) -> u8
    ensures { result ≡ ascii_head (chars text.now) }
{
    match text.as_bytes() {
        [] => 0,
        [first, ..] => { if *first < 128 { *first } else { 128 } }
    }
}

/// The first character and what follows it.
#[tactic(auto, unfolding(crate::specs::Reading::read_char))]
pub fn step(text: &str) -> Option<(char, &str)>
    ensures read { Gives (λ x. (x.0, chars x.1.now)) result (read_char (chars text.now)) }
    ensures shorter { IfSome result (λ x. length x.1.now < length text.now) }
{
    let mut rest = text.chars();
    let c = rest.next()?;
    Some((c, rest.as_str()))
}

/// Whether the bytes begin with the mark, byte by byte: inlined at a mark that is known, it is a compare for each byte.
#[inline(always)]
fn begins_with(bytes: &[u8], mark: &[u8]) -> bool
    ensures { result ≡ begins mark.now bytes.now }
{
    let mut rest = bytes;
    for wanted in mark {
        let [first, after @ ..] = rest else {
            return false;
        };
        if *first != *wanted {
            return false;
        }
        rest = after;
    }
    true
}

/// What follows the mark, where the text begins with it. The mark is ASCII.
#[inline(always)]
pub fn word_of<'a>(text: &'a str, mark: &str) -> Option<&'a str>
    requires { list_all (λ b. nat_lt b 128) mark.now ≡ true }
    ensures read { Gives (λ r. (tt, chars r.now)) result (word mark.now (chars text.now)) }
    ensures shorter { IfSome result (λ r. length r.now + length mark.now ≤ length text.now) }
{
    if begins_with(text.as_bytes(), mark.as_bytes()) {
        Some(text.split_at(mark.len()).1)
    } else {
        None
    }
}

/// The length of the longest prefix of white space.
#[inline(always)]
fn space_len(bytes: &[u8]) -> usize
    ensures value { result ≡ prefix_len is_space bytes.now }
    ensures within { result ≤ length bytes.now }
{
    for (i, b) in bytes.iter().enumerate() {
        if !classes::is_space(*b) {
            return i;
        }
    }
    bytes.len()
}

/// The longest prefix of white space, which may be empty, and what follows it (XML 1.0, production 3).
#[inline(always)]
#[tactic(auto, unfolding(crate::specs::Reading::read_space))]
pub fn space_of(text: &str) -> (&str, &str)
    ensures read { read_space (chars text.now) ≡ Some (chars result.0.now, chars result.1.now) }
    ensures lengths { length result.0.now + length result.1.now ≡ length text.now }
{
    text.split_at(space_len(text.as_bytes()))
}
