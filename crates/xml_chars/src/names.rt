//! Names at the start of a text (XML 1.0, productions 4 to 5). No call takes memory.
#![tactic(auto)]

ghost use Rattle.std.specs.Prelude.{◌≡◌, ◌≤◌, ◌<◌, ◌+◌, length, option_map, MatchOption, IfSome, true, false};
ghost use Rattle.std.specs.List.{prefix_len};
ghost use Rattle.std.specs.Option.{option_copied};
ghost use Rattle.std.specs.Str.{chars};
ghost use Rattle.xml_model.specs.Chars.{is_name_char, has_colon, before_colon, after_colon, prefix_of};
ghost use Rattle.xml_model.specs.Chars.{is_name, is_ncname, is_qname};
ghost use Rattle.xml_chars.specs.Wide.{is_ascii_name};
ghost use Rattle.xml_chars.specs.Readers.{Gives, one_of, skip, after_run};
ghost use Rattle.xml_chars.specs.Reading.{begins_name, read_name};

use crate::text::{head, step};
use crate::{classes, is_name_char, is_name_start};
use memchr::memchr;

/// The length of the longest prefix of ASCII characters that may be in a name.
#[inline(always)]
fn ascii_name_len(bytes: &[u8]) -> usize
    ensures value { result ≡ prefix_len is_ascii_name bytes.now }
    ensures within { result ≤ length bytes.now }
{
    for (i, b) in bytes.iter().enumerate() {
        if !classes::is_ascii_name(*b) {
            return i;
        }
    }
    bytes.len()
}

/// What follows the longest prefix of ASCII characters that may be in a name.
#[inline(always)]
fn after_ascii_name(text: &str) -> &str
    ensures rest { chars result.now ≡ after_run is_ascii_name (chars text.now) }
    ensures shorter { length result.now ≤ length text.now }
{
    text.split_at(ascii_name_len(text.as_bytes())).1
}

/// What follows the first character, where that may be in a name.
fn after_name_char(text: &str) -> Option<&str>
    ensures read { option_map chars (option_copied result) ≡ skip (one_of is_name_char) (chars text.now) }
    ensures shorter { IfSome result (λ r. length r.now < length text.now) }
{
    let (c, rest) = step(text)?;
    if is_name_char(c) { Some(rest) } else { None }
}

/// What follows the longest prefix of characters that may be in a name, ASCII or not.
#[inline(never)]
fn after_any_name_chars(text: &str) -> &str
    ensures rest { chars result.now ≡ after_run is_name_char (chars text.now) }
    ensures shorter { length result.now ≤ length text.now }
{
    let mut rest = after_ascii_name(text);
    while let Some(after) = after_name_char(rest) {
        rest = after_ascii_name(after);
    }
    rest
}

/// What follows the longest prefix of characters that may be in a name.
#[inline(always)]
fn after_name_chars(text: &str) -> &str
    ensures rest { chars result.now ≡ after_run is_name_char (chars text.now) }
    ensures shorter { length result.now ≤ length text.now }
{
    let rest = after_ascii_name(text);
    if head(rest) < 128 {
        rest
    } else {
        after_any_name_chars(rest)
    }
}

/// Whether a name begins the text, ASCII or not.
#[inline(never)]
fn begins_any_name(text: &str) -> bool
    ensures { result ≡ begins_name (chars text.now) }
{
    match step(text) {
        Some((c, _)) => is_name_start(c),
        None => false,
    }
}

/// Whether a name begins the text.
#[inline(always)]
pub fn begins_name(text: &str) -> bool
    ensures { result ≡ begins_name (chars text.now) }
{
    let first = head(text);
    if first < 128 {
        classes::is_ascii_start(first)
    } else {
        begins_any_name(text)
    }
}

/// The longest name at the start of the text, and what follows it; None where no name begins the text.
#[inline(always)]
#[tactic(auto, unfolding(crate::specs::Reading::read_name))]
pub fn name_of(text: &str) -> Option<(&str, &str)>
    ensures read { Gives (λ x. (chars x.0.now, chars x.1.now)) result (read_name (chars text.now)) }
    ensures lengths { IfSome result (λ x. length x.0.now + length x.1.now ≡ length text.now) }
{
    if !begins_name(text) {
        return None;
    }
    let rest = after_name_chars(text);
    Some(text.split_at(text.len() - rest.len()))
}

/// The length of the prefix of a name in bytes, 0 where there is no colon (Namespaces in XML 1.0, production 10).
pub fn prefix_len(name: &[u8]) -> usize
    ensures value { result ≡ length (prefix_of name.now) }
    ensures within { result ≤ length name.now }
{
    memchr(b':', name).unwrap_or(0)
}

/// What is before the first colon and what after it; None where there is no colon.
fn split_colon(text: &str) -> Option<(&str, &str)>
    ensures { MatchOption result (has_colon (chars text.now) ≡ false)
        (λ x. (has_colon (chars text.now) ≡ true) × (chars x.0.now ≡ before_colon (chars text.now)) ×
        (chars x.1.now ≡ after_colon (chars text.now))) }
{
    let at = memchr(b':', text.as_bytes())?;
    let (before, rest) = text.split_at(at);
    let (_, after) = step(rest)?;
    Some((before, after))
}

/// Whether the text is a Name (XML 1.0, production 5).
fn is_name(text: &str) -> bool
    ensures { result ≡ is_name (chars text.now) }
{
    match name_of(text) {
        Some((_, rest)) => rest.is_empty(),
        None => false,
    }
}

/// Whether the text is an NCName (Namespaces in XML 1.0, production 4).
#[tactic(auto, unfolding(xml_model::specs::Chars::is_ncname))]
pub fn is_ncname(text: &str) -> bool
    ensures { result ≡ is_ncname (chars text.now) }
{
    is_name(text) && split_colon(text).is_none()
}

/// Whether the text is a QName: an NCName, or two that a colon joins (Namespaces in XML 1.0, production 7).
#[tactic(auto, unfolding(xml_model::specs::Chars::is_qname, xml_model::specs::Chars::is_ncname))]
pub fn is_qname(text: &str) -> bool
    ensures { result ≡ is_qname (chars text.now) }
{
    match split_colon(text) {
        Some((prefix, local)) => is_ncname(prefix) && is_ncname(local),
        None => is_ncname(text),
    }
}
