//! The XML declaration (XML 1.0, productions 23 to 26, 32, 80 and 81).
#![tactic(auto)]

ghost use Rattle.std.specs.Prelude.{◌≡◌, ◌≤◌, ◌<◌, ◌+◌, ◌^◌, ◌&&◌, not, true, length, nat_lt, cond, option_map, IfSome};
ghost use Rattle.std.specs.Prelude.{codes, bytes_eq};
ghost use Rattle.std.specs.List.{list_all};
ghost use Rattle.std.specs.Char.{is_ascii_digit};
ghost use Rattle.std.specs.Option.{option_copied};
ghost use Rattle.std.specs.Str.{chars};
ghost use Rattle.xml_model.specs.Items.{is_nil, is_letter, is_version, is_encoding_name, is_yes_or_no};
ghost use Rattle.xml_chars.specs.Readers.{Gives, skip, mapped};
ghost use Rattle.xml_items.specs.Reading.{begins_part, read_part, read_option, read_declaration};
ghost use Rattle.xml_items.specs.Parts.{read_named, value_text, is_encoding_char};
ghost use Rattle.xml_items.specs.Counting.{counted_shown};

use crate::spans::span_between;
use crate::tags::attribute_of;
use crate::{Counted, Item, ItemKind};
use xml_chars::names::name_of;
use xml_chars::text::{space_of, word_of};

/// Whether the text is the wanted one, which is ASCII.
pub fn is_same(text: &str, wanted: &str) -> bool
    requires { list_all (λ b. nat_lt b 128) wanted.now ≡ true }
    ensures { result ≡ bytes_eq (chars text.now) wanted.now }
{
    text == wanted
}

/// Whether each byte is an ASCII digit.
fn all_digits(bytes: &[u8]) -> bool
    ensures { result ≡ list_all is_ascii_digit bytes.now }
{
    bytes.iter().all(|b| b.is_ascii_digit())
}

/// Whether the text has characters, all of them ASCII digits.
fn are_digits(text: &str) -> bool
    ensures { result ≡ (not (is_nil (chars text.now)) && list_all is_ascii_digit (chars text.now)) }
{
    !text.is_empty() && all_digits(text.as_bytes())
}

/// Whether the text is a version (XML 1.0, production 26).
fn is_version(text: &str) -> bool
    ensures { result ≡ is_version (chars text.now) }
{
    match word_of(text, "1.") {
        Some(digits) => are_digits(digits),
        None => false,
    }
}

const LETTER: u8 = 1;

const NAME: u8 = 2;

/// For each byte a digit, whose low bits are the flags above.
static CLASSES: [u8; 256] = *b"\
    00000000000000000000000000000000\
    00000000000002202222222222000000\
    03333333333333333333333333300002\
    03333333333333333333333333300000\
    00000000000000000000000000000000\
    00000000000000000000000000000000\
    00000000000000000000000000000000\
    00000000000000000000000000000000";

fn is_letter(b: u8) -> bool
    ensures { result ≡ is_letter b }
{
    CLASSES[b as usize] & LETTER != 0
}

fn is_encoding_char(b: u8) -> bool
    ensures { result ≡ is_encoding_char b }
{
    CLASSES[b as usize] & NAME != 0
}

/// Whether each byte may be in the name of an encoding.
fn all_encoding_chars(bytes: &[u8]) -> bool
    ensures { result ≡ list_all is_encoding_char bytes.now }
{
    bytes.iter().all(|b| is_encoding_char(*b))
}

/// Whether the bytes are the name of an encoding.
fn are_encoding_name(bytes: &[u8]) -> bool
    ensures { result ≡ is_encoding_name bytes.now }
{
    match bytes {
        [] => false,
        [first, rest @ ..] => is_letter(*first) && all_encoding_chars(rest),
    }
}

/// Whether the text is the name of an encoding (XML 1.0, production 81).
fn is_encoding_name(text: &str) -> bool
    ensures { result ≡ is_encoding_name (chars text.now) }
{
    are_encoding_name(text.as_bytes())
}

/// Whether the text is `yes` or `no` (XML 1.0, production 32).
fn is_yes_or_no(text: &str) -> bool
    ensures { result ≡ is_yes_or_no (chars text.now) }
{
    is_same(text, "yes") || is_same(text, "no")
}

/// The value of the part of that name at the start, and what follows the part.
fn part_of<'a>(text: &'a str, name: &str) -> Option<(&'a str, &'a str)>
    requires { list_all (λ b. nat_lt b 128) name.now ≡ true }
    ensures read { Gives (λ x. (chars x.0.now, chars x.1.now)) result
        (mapped value_text (read_named name.now) (chars text.now)) }
    ensures shorter { IfSome result (λ x. length x.1.now ≤ length text.now) }
{
    let part = attribute_of(text)?;
    let (named, _) = part
        .after_space
        .split_at(part.after_space.len() - part.after_name.len());
    if !is_same(named, name) {
        return None;
    }
    let (value, _) = part
        .value
        .split_at(part.value.len() - part.after_value.len());
    Some((value, part.rest))
}

/// Whether white space, if any, and then that name are at the start.
fn begins_part(text: &str, name: &str) -> bool
    requires { list_all (λ b. nat_lt b 128) name.now ≡ true }
    ensures { result ≡ begins_part name.now (chars text.now) }
{
    let (_, rest) = space_of(text);
    match name_of(rest) {
        Some((found, _)) => is_same(found, name),
        None => false,
    }
}

/// What follows the version at the start.
fn after_version(text: &str) -> Option<&str>
    ensures read { option_map chars (option_copied result) ≡ skip (read_part (codes "version") is_version)
        (chars text.now) }
    ensures shorter { IfSome result (λ r. length r.now ≤ length text.now) }
{
    let (value, rest) = part_of(text, "version")?;
    if is_version(value) { Some(rest) } else { None }
}

/// What follows the encoding at the start, which may be left out.
fn after_encoding(text: &str) -> Option<&str>
    ensures read { option_map chars (option_copied result) ≡ skip (read_option (codes "encoding") is_encoding_name)
        (chars text.now) }
    ensures shorter { IfSome result (λ r. length r.now ≤ length text.now) }
{
    if !begins_part(text, "encoding") {
        return Some(text);
    }
    let (value, rest) = part_of(text, "encoding")?;
    if is_encoding_name(value) {
        Some(rest)
    } else {
        None
    }
}

/// What follows the standalone part at the start, which may be left out.
fn after_standalone(text: &str) -> Option<&str>
    ensures read { option_map chars (option_copied result) ≡ skip (read_option (codes "standalone") is_yes_or_no)
        (chars text.now) }
    ensures shorter { IfSome result (λ r. length r.now ≤ length text.now) }
{
    if !begins_part(text, "standalone") {
        return Some(text);
    }
    let (value, rest) = part_of(text, "standalone")?;
    if is_yes_or_no(value) {
        Some(rest)
    } else {
        None
    }
}

/// How many parts are between two rests of a text, the second of which follows one part of the first, or none.
fn parts_between(from: &str, to: &str) -> u32
    ensures { result ≡ cond (nat_lt (length to.now) (length from.now)) 1 0 }
{
    if to.len() < from.len() { 1 } else { 0 }
}

/// The XML declaration at the start of a text that begins at the place.
pub fn declaration_at(text: &str, at: u32) -> Option<Counted>
    requires { at + length text.now < 2 ^ 32 }
    ensures { result ≡ option_map (λ p. counted_shown at p.0) (read_declaration (chars text.now)) }
{
    let content = word_of(text, "<?xml")?;
    let after_version = after_version(content)?;
    let after_encoding = after_encoding(after_version)?;
    let after_standalone = after_standalone(after_encoding)?;
    let (_, close) = space_of(after_standalone);
    let rest = word_of(close, "?>")?;
    let item = Item {
        kind: ItemKind::Declaration,
        span: span_between(at, text, text, rest),
        name: span_between(at, text, text, text),
        content: span_between(at, text, content, close),
    };
    let options = parts_between(after_version, after_encoding)
        + parts_between(after_encoding, after_standalone);
    Some(Counted {
        item,
        attributes: 1 + options,
    })
}
