//! The fields of a line, and what their escapes stand for.

ghost use Rattle.std.specs.Prelude.{◌≡◌, ℕ, ◌≤◌, ◌∷◌, length, option_map, IfOk, IfErr, IfSome, MatchOption};
ghost use Rattle.std.specs.Str.{chars};
ghost use Rattle.vtd_lines.specs.Fields.{fields, escape, unescaped};
ghost use Rattle.vtd_lines.specs.Readings.{fields_of, IsFieldFault};

use crate::commands::LineFault;
use std::alloc::{AllocError, Global};
use xml_model::Text;
use xml_model::texts::text_of;

/// The first field of a line, and what is after the tab that ends it, where one does.
pub fn first_field(line: &str) -> (&str, Option<&str>)
    ensures { fields line.now ≡ result.0.now ∷ fields_of (option_map (λ rest. rest.now) result.1) }
{
    match line.split_once('\t') {
        Some((field, rest)) => (field, Some(rest)),
        None => (line, None),
    }
}

/// The character that a letter after a backslash stands for.
fn escape(letter: char) -> Option<char>
    ensures { result ≡ escape letter }
{
    match letter {
        't' => Some('\t'),
        'n' => Some('\n'),
        'r' => Some('\r'),
        '\\' => Some('\\'),
        _ => None,
    }
}

/// The first character that a field stands for, and what is left of the field; `None` where a backslash begins no
/// escape.
fn first_char(first: char, after: &[char]) -> Option<(char, &[char])>
    ensures value { MatchOption result (unescaped (first ∷ after.now) ≡ None) (λ r.
        unescaped (first ∷ after.now) ≡ option_map (λ cs. r.0 ∷ cs) (unescaped r.1.now)) }
    ensures shorter { IfSome result (λ r. length r.1.now ≤ length after.now) }
{
    if first != '\\' {
        return Some((first, after));
    }
    match after {
        [letter, rest @ ..] => Some((escape(*letter)?, rest)),
        [] => None,
    }
}

/// The characters of a text.
fn chars_of(alloc: Global, text: &str) -> Result<Vec<char>, AllocError>
    ensures { IfOk result (λ v. v.items ≡ chars text.now) }
{
    text.chars().collect(alloc)
}

/// The characters that those of a field stand for.
fn unescaped_chars(alloc: Global, field: &[char]) -> Result<Vec<char>, LineFault>
    ensures text { IfOk result (λ text. unescaped field.now ≡ Some text.items) }
    ensures fault { IfErr result (IsFieldFault (unescaped field.now)) }
{
    let mut text = Vec::new(alloc);
    let mut rest = field;
    while let [first, after @ ..] = rest {
        let Some((c, left)) = first_char(*first, after) else {
            return Err(LineFault::Escape);
        };
        let Ok(()) = text.push(c) else {
            return Err(LineFault::NoMemory);
        };
        rest = left;
    }
    Ok(text)
}

/// The text that a field stands for.
///
/// # Errors
/// `Escape` exactly where a backslash in the field is not before `t`, `n`, `r` or another backslash; `NoMemory`.
pub fn unescape(alloc: Global, field: &str) -> Result<Text, LineFault>
    ensures text { IfOk result (λ text. unescaped (chars field.now) ≡ Some text) }
    ensures fault { IfErr result (IsFieldFault (unescaped (chars field.now))) }
{
    let field = chars_of(alloc, field)?;
    let text = unescaped_chars(alloc, &field)?;
    Ok(text_of(alloc, &text)?)
}
