//! The document type declaration (XML 1.0, productions 28 to 28b, by its outer form alone).
#![tactic(auto)]

ghost use Rattle.std.specs.Prelude.{◌≡◌, ◌≤◌, ◌<◌, ◌+◌, ◌^◌, ◌&&◌, ◌==◌, not, true, false, length, option_map, IfSome};
ghost use Rattle.std.specs.Option.{option_copied};
ghost use Rattle.std.specs.Str.{chars};
ghost use Rattle.xml_model.specs.Chars.{is_char};
ghost use Rattle.xml_model.specs.Items.{quote_char};
ghost use Rattle.xml_chars.specs.Readers.{skip, one_of, after_run};
ghost use Rattle.xml_items.specs.Quotes.{quote_of};
ghost use Rattle.xml_items.specs.Reading.{read_quoted, in_comment, in_instruction, in_character, with_subset};
ghost use Rattle.xml_items.specs.Reading.{with_character, read_inner_by, read_unit_by, is_inner_char, is_unit_char};
ghost use Rattle.xml_items.specs.Reading.{read_inner, read_subset, read_unit, read_units, read_doctype};
ghost use Rattle.xml_items.specs.Shown.{item_shown};

use crate::marks::{find_past_chars, holds};
use crate::pieces::after_plain_value;
use crate::spans::span_between;
use crate::tags::after_quote;
use crate::{Item, ItemKind};
use xml_chars::names::name_of;
use xml_chars::text::{head, space_of, step, word_of};

/// What follows the first character, where it is a Char other than the quote.
fn after_quoted_char(text: &str, quote: u8) -> Option<&str>
    ensures read { option_map chars (option_copied result) ≡ skip (one_of (λ c. is_char c && not (c == quote)))
        (chars text.now) }
    ensures shorter { IfSome result (λ r. length r.now < length text.now) }
{
    let (c, rest) = step(text)?;
    if is_quoted_char(c, quote) {
        Some(rest)
    } else {
        None
    }
}

fn is_quoted_char(c: char, quote: u8) -> bool
    ensures { result ≡ (is_char c && not (c == quote)) }
{
    xml_chars::is_char(c) && c != quote as char
}

/// What follows the longest prefix of Chars other than the quote.
fn after_quoted_chars(text: &str, quote: u8) -> &str
    requires { quote_char (quote_of quote) ≡ quote }
    ensures rest { chars result.now ≡ after_run (λ c. is_char c && not (c == quote)) (chars text.now) }
    ensures shorter { length result.now ≤ length text.now }
{
    let mut rest = after_plain_value(text);
    while let Some(after) = after_quoted_char(rest, quote) {
        rest = after_plain_value(after);
    }
    rest
}

/// What follows the literal in these quotes at the start.
fn after_quoted(text: &str, quote: u8) -> Option<&str>
    requires { quote_char (quote_of quote) ≡ quote }
    ensures read { option_map chars (option_copied result) ≡ skip (read_quoted (quote_of quote)) (chars text.now) }
    ensures shorter { IfSome result (λ r. length r.now < length text.now) }
{
    let rest = after_quote(text, quote)?;
    after_quote(after_quoted_chars(rest, quote), quote)
}

fn is_inner_char(c: char) -> bool
    ensures { result ≡ is_inner_char c }
{
    xml_chars::is_char(c) && c != '"' && c != '\'' && c != ']'
}

fn is_unit_char(c: char) -> bool
    ensures { result ≡ is_unit_char c }
{
    xml_chars::is_char(c) && c != '"' && c != '\'' && c != '[' && c != ']' && c != '<' && c != '>'
}

/// What follows the comment of a subset.
fn after_comment(text: &str) -> Option<&str>
    ensures read { option_map chars (option_copied result) ≡ skip (read_inner_by in_comment) (chars text.now) }
    ensures shorter { IfSome result (λ r. length r.now < length text.now) }
{
    let content = word_of(text, "<!--")?;
    let end = find_past_chars(content, "--", b'-')?;
    word_of(end, "-->")
}

/// What follows the instruction of a subset.
fn after_instruction(text: &str) -> Option<&str>
    ensures read { option_map chars (option_copied result) ≡ skip (read_inner_by in_instruction) (chars text.now) }
    ensures shorter { IfSome result (λ r. length r.now < length text.now) }
{
    let content = word_of(text, "<?")?;
    let end = find_past_chars(content, "?>", b'?')?;
    word_of(end, "?>")
}

/// What follows the character of a subset.
fn after_inner_char(text: &str) -> Option<&str>
    ensures read { option_map chars (option_copied result) ≡ skip (read_inner_by in_character) (chars text.now) }
    ensures shorter { IfSome result (λ r. length r.now < length text.now) }
{
    let (c, rest) = step(text)?;
    if is_inner_char(c) { Some(rest) } else { None }
}

/// What follows the unit of a subset at the start.
fn after_inner(text: &str) -> Option<&str>
    ensures read { option_map chars (option_copied result) ≡ skip read_inner (chars text.now) }
    ensures shorter { IfSome result (λ r. length r.now < length text.now) }
{
    if holds(text, "<!--") {
        return after_comment(text);
    }
    if holds(text, "<?") {
        return after_instruction(text);
    }
    if head(text) == b'"' {
        return after_quoted(text, b'"');
    }
    if head(text) == b'\'' {
        return after_quoted(text, b'\'');
    }
    after_inner_char(text)
}

/// What follows the units of a subset, up to its `]`.
fn after_subset(text: &str) -> Option<&str>
    ensures read { option_map chars (option_copied result) ≡ skip read_subset (chars text.now) }
    ensures shorter { IfSome result (λ r. length r.now ≤ length text.now) }
{
    let mut rest = text;
    while head(rest) != b']' {
        rest = after_inner(rest)?;
    }
    Some(rest)
}

/// What follows the subset at the start.
fn after_whole_subset(text: &str) -> Option<&str>
    ensures read { option_map chars (option_copied result) ≡ skip (read_unit_by with_subset) (chars text.now) }
    ensures shorter { IfSome result (λ r. length r.now < length text.now) }
{
    let rest = word_of(text, "[")?;
    let rest = after_subset(rest)?;
    word_of(rest, "]")
}

/// What follows the character of a declaration.
fn after_unit_char(text: &str) -> Option<&str>
    ensures read { option_map chars (option_copied result) ≡ skip (read_unit_by with_character) (chars text.now) }
    ensures shorter { IfSome result (λ r. length r.now < length text.now) }
{
    let (c, rest) = step(text)?;
    if is_unit_char(c) { Some(rest) } else { None }
}

/// What follows the unit of a declaration at the start.
fn after_unit(text: &str) -> Option<&str>
    ensures read { option_map chars (option_copied result) ≡ skip read_unit (chars text.now) }
    ensures shorter { IfSome result (λ r. length r.now < length text.now) }
{
    if head(text) == b'"' {
        return after_quoted(text, b'"');
    }
    if head(text) == b'\'' {
        return after_quoted(text, b'\'');
    }
    if head(text) == b'[' {
        return after_whole_subset(text);
    }
    after_unit_char(text)
}

/// What follows the units of a declaration, of which one at most is a subset, up to its `>`.
fn after_units(text: &str) -> Option<&str>
    ensures read { option_map chars (option_copied result) ≡ skip read_units (chars text.now) }
    ensures shorter { IfSome result (λ r. length r.now ≤ length text.now) }
{
    let mut rest = text;
    let mut seen = false;
    while head(rest) != b'>' {
        let opens = head(rest) == b'[';
        if opens & seen {
            return None;
        }
        rest = after_unit(rest)?;
        seen |= opens;
    }
    Some(rest)
}

/// The document type declaration at the start of a text that begins at the place.
pub fn doctype_at(text: &str, at: u32) -> Option<Item>
    requires { at + length text.now < 2 ^ 32 }
    ensures { result ≡ option_map (λ p. item_shown at p.0) (read_doctype (chars text.now)) }
{
    let content = word_of(text, "<!DOCTYPE")?;
    let (space, after_space) = space_of(content);
    if space.is_empty() {
        return None;
    }
    let (_, after_name) = name_of(after_space)?;
    let end = after_units(after_name)?;
    let rest = word_of(end, ">")?;
    Some(Item {
        kind: ItemKind::Doctype,
        span: span_between(at, text, text, rest),
        name: span_between(at, text, after_space, after_name),
        content: span_between(at, text, content, end),
    })
}
