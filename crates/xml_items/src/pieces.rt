//! Pieces of texts and values: characters and references.
#![tactic(auto)]

ghost use Rattle.std.specs.Prelude.{◌≡◌, ◌≤◌, ◌<◌, ◌+◌, length, option_map, IfSome, codes, true, false};
ghost use Rattle.std.specs.List.{list_all};
ghost use Rattle.std.specs.Option.{option_copied};
ghost use Rattle.std.specs.Str.{chars};
ghost use Rattle.xml_model.specs.Chars.{is_char, begins};
ghost use Rattle.xml_model.specs.Items.{quote_char};
ghost use Rattle.xml_chars.specs.Readers.{skip, after_run};
ghost use Rattle.xml_chars.specs.Reading.{read_reference};
ghost use Rattle.xml_items.specs.Plain.{is_plain_text, is_plain_value, is_plain_char};
ghost use Rattle.xml_items.specs.Reading.{is_literal, read_piece, ends_text, in_text, read_pieces, ends_value};
ghost use Rattle.xml_items.specs.Reading.{in_value, read_value};
ghost use Rattle.xml_items.specs.Quotes.{quote_of};

use crate::classes::{plain_char_len, plain_text_len, plain_value_len};
use xml_chars::references::reference_of;
use xml_chars::text::{head, step, word_of};

/// What follows the longest prefix of plain characters of a text.
#[inline(always)]
fn after_plain_text(text: &str) -> &str
    ensures rest { chars result.now ≡ after_run is_plain_text (chars text.now) }
    ensures shorter { length result.now ≤ length text.now }
{
    text.split_at(plain_text_len(text.as_bytes())).1
}

/// What follows the longest prefix of plain characters of a value.
#[inline(always)]
pub fn after_plain_value(text: &str) -> &str
    ensures rest { chars result.now ≡ after_run is_plain_value (chars text.now) }
    ensures shorter { length result.now ≤ length text.now }
{
    text.split_at(plain_value_len(text.as_bytes())).1
}

/// What follows the longest prefix of plain Chars.
fn after_plain_char(text: &str) -> &str
    ensures rest { chars result.now ≡ after_run is_plain_char (chars text.now) }
    ensures shorter { length result.now ≤ length text.now }
{
    text.split_at(plain_char_len(text.as_bytes())).1
}

/// What follows the reference at the start.
fn after_reference(text: &str) -> Option<&str>
    ensures read { option_map chars (option_copied result) ≡ skip read_reference (chars text.now) }
    ensures shorter { IfSome result (λ r. length r.now < length text.now) }
{
    let (_, rest) = reference_of(text)?;
    Some(rest)
}

/// Whether the character may be by itself in a text.
fn is_text_literal(c: char) -> bool
    ensures { result ≡ is_literal (λ c. false) c }
{
    xml_chars::is_char(c) && c != '<' && c != '&'
}

/// Whether the character may be by itself in a value that the quote ends.
fn is_value_literal(c: char, quote: u8) -> bool
    requires { quote_char (quote_of quote) ≡ quote }
    ensures { result ≡ is_literal (ends_value (quote_of quote)) c }
{
    xml_chars::is_char(c) && c != '<' && c != '&' && c != quote as char
}

/// What follows the piece of a text at the start.
fn after_text_piece(text: &str) -> Option<&str>
    ensures read { option_map chars (option_copied result) ≡ skip (read_piece (λ c. false)) (chars text.now) }
    ensures shorter { IfSome result (λ r. length r.now < length text.now) }
{
    if head(text) == b'&' {
        return after_reference(text);
    }
    let (c, rest) = step(text)?;
    if is_text_literal(c) { Some(rest) } else { None }
}

/// What follows the piece at the start of a value that the quote ends.
fn after_value_piece(text: &str, quote: u8) -> Option<&str>
    requires { quote_char (quote_of quote) ≡ quote }
    ensures read { option_map chars (option_copied result) ≡ skip (read_piece (ends_value (quote_of quote)))
        (chars text.now) }
    ensures shorter { IfSome result (λ r. length r.now < length text.now) }
{
    if head(text) == b'&' {
        return after_reference(text);
    }
    let (c, rest) = step(text)?;
    if is_value_literal(c, quote) {
        Some(rest)
    } else {
        None
    }
}

/// Whether a text ends here: at the end or at a `<`.
#[inline(always)]
pub fn ends_text(text: &str) -> bool
    ensures { result ≡ ends_text (chars text.now) }
{
    match text.as_bytes() {
        [] => true,
        [first, ..] => *first == b'<',
    }
}

/// Whether a text goes on: neither its end nor `]]>` is at the start.
#[tactic(auto, unfolding(crate::specs::Reading::in_text))]
fn in_text(text: &str) -> bool
    ensures { result ≡ in_text (chars text.now) }
{
    !ends_text(text) && !begins_end(text)
}

/// Whether `]]>` is at the start.
fn begins_end(text: &str) -> bool
    ensures { result ≡ begins (codes "]]>") (chars text.now) }
{
    word_of(text, "]]>").is_some()
}

/// What follows the pieces of a text, whatever they are; None where one of them is wrong.
#[inline(never)]
fn after_any_pieces(text: &str) -> Option<&str>
    ensures read { option_map chars (option_copied result) ≡ skip read_pieces (chars text.now) }
    ensures shorter { IfSome result (λ r. length r.now ≤ length text.now) }
{
    let mut rest = after_plain_text(text);
    while in_text(rest) {
        rest = after_plain_text(after_text_piece(rest)?);
    }
    Some(rest)
}

/// What follows the pieces of a text; None where one of them is wrong.
#[inline(always)]
pub fn after_pieces(text: &str) -> Option<&str>
    ensures read { option_map chars (option_copied result) ≡ skip read_pieces (chars text.now) }
    ensures shorter { IfSome result (λ r. length r.now ≤ length text.now) }
{
    let rest = after_plain_text(text);
    if ends_text(rest) {
        Some(rest)
    } else {
        after_any_pieces(rest)
    }
}

/// What follows the pieces of a value that the quote ends, whatever they are, up to the quote; None where one of them
/// is wrong.
#[inline(never)]
fn after_any_value(text: &str, quote: u8) -> Option<&str>
    requires { quote_char (quote_of quote) ≡ quote }
    ensures read { option_map chars (option_copied result) ≡ skip (read_value (quote_of quote)) (chars text.now) }
    ensures shorter { IfSome result (λ r. length r.now ≤ length text.now) }
{
    let mut rest = after_plain_value(text);
    while head(rest) != quote {
        rest = after_plain_value(after_value_piece(rest, quote)?);
    }
    Some(rest)
}

/// What follows the pieces of a value that the quote ends, up to the quote; None where one of them is wrong.
#[inline(always)]
pub fn after_value(text: &str, quote: u8) -> Option<&str>
    requires { quote_char (quote_of quote) ≡ quote }
    ensures read { option_map chars (option_copied result) ≡ skip (read_value (quote_of quote)) (chars text.now) }
    ensures shorter { IfSome result (λ r. length r.now ≤ length text.now) }
{
    let rest = after_plain_value(text);
    if head(rest) == quote {
        Some(rest)
    } else {
        after_any_value(rest, quote)
    }
}

/// Whether all characters may be in a document.
pub fn are_chars(text: &str) -> bool
    ensures { result ≡ list_all is_char (chars text.now) }
{
    let mut rest = after_plain_char(text);
    while let Some((c, after)) = step(rest) {
        if !xml_chars::is_char(c) {
            return false;
        }
        rest = after_plain_char(after);
    }
    true
}
