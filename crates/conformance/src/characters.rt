//! Characters, names and references at the start of a text (XML 1.0, productions 2 to 5 and 66 to 68).

ghost use Rattle.std.specs.Prelude.{◌≡◌, ◌<◌, ◌^◌, length};
ghost use Rattle.std.specs.Str.{IsUtf8, IsCharBoundary};

use std::alloc::AllocError;
use xml_chars::{
    Reference, char_at, is_char, is_name_char, is_name_start, is_ncname, is_qname, name_end,
    reference_at, space_end,
};

/// A text as the bytes of a document, at whose start a reader may begin.
pub fn whole(text: &str) -> &[u8]
    ensures value { result.now ≡ text.now }
    ensures utf8 { IsUtf8 result.now }
    ensures start { IsCharBoundary result.now 0 }
{
    text.as_bytes()
}

fn char_word(text: &str) -> &'static str {
    match text.chars().next() {
        Some(c) if is_char(c) => "yes",
        _ => "no",
    }
}

fn name_word(c: char) -> &'static str {
    match (is_name_start(c), is_name_char(c)) {
        (true, true) => "start",
        (false, true) => "later",
        (true, false) => "start alone",
        (false, false) => "no",
    }
}

fn qualified_word(text: &str) -> &'static str {
    match (is_ncname(text), is_qname(text)) {
        (true, true) => "without a colon",
        (false, true) => "with a colon",
        (true, false) => "without a colon alone",
        (false, false) => "no",
    }
}

fn write_first(out: &mut String, text: &str) -> Result<(), AllocError>
    requires { length text.now < 2 ^ 30 }
{
    match char_at(whole(text), 0) {
        Some((c, end)) => write!(out, "{c} {end}"),
        None => out.push_str("none"),
    }
}

fn write_end(out: &mut String, end: Option<u32>) -> Result<(), AllocError> {
    match end {
        Some(end) => write!(out, "{end}"),
        None => out.push_str("none"),
    }
}

fn write_reference(out: &mut String, text: &str) -> Result<(), AllocError>
    requires { length text.now < 2 ^ 30 }
{
    match reference_at(whole(text), 0) {
        Some(Reference::Char { value, end }) => write!(out, "char {value} {end}"),
        Some(Reference::Named { name, end }) => write!(
            out,
            "name {}..{} {end}",
            name.start, name.end
        ),
        None => out.push_str("none"),
    }
}

/// The answer of a table of characters.
pub fn answer(out: &mut String, table: &str, text: &str) -> Result<(), AllocError>
    requires { length text.now < 2 ^ 30 }
{
    match table {
        "chars" => out.push_str(char_word(text)),
        "name characters" => out.push_str(name_word(text.chars().next().unwrap_or('\0'))),
        "first" => write_first(out, text),
        "names" => write_end(out, name_end(whole(text), 0)),
        "qualified names" => out.push_str(qualified_word(text)),
        "spaces" => write_end(out, Some(space_end(whole(text), 0))),
        "references" => write_reference(out, text),
        _ => out.push_str("no such table"),
    }
}
