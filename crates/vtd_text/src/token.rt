//! The characters of one token, resolved (XML 1.0, sections 2.11, 3.3.3 and 4.6). No call takes memory.
#![tactic(auto)]

ghost use Rattle.std.specs.Prelude.{◌≡◌, ℕ, cond, ◌==◌, ◌||◌, List, [], length, ◌<◌, ◌≤◌, IfSome, MatchOption, Some};
ghost use Rattle.std.specs.Prelude.{not, take};
ghost use Rattle.std.specs.List.{prefix_len};
ghost use Rattle.std.specs.Str.{chars, IsCharBoundary};
ghost use Rattle.xml_model.specs.Content.{char_of};
ghost use Rattle.xml_chars.specs.Readers.{Gives, mapped};
ghost use Rattle.xml_chars.specs.Reading.{read_reference};
ghost use Rattle.vtd_text.specs.Tokens.{HasContent, BeginsWith, EndsHere, LeavesRest, is_special, spaced};
ghost use Rattle.vtd_text.specs.Tokens.{after_line_feed, begins_reference};

use crate::entities::entity_char;
use memchr::{memchr, memchr2};
use xml_chars::references::{Referred, reference_of};
use xml_chars::text::step;

/// How the characters of a token are resolved.
#[derive(Clone, Copy)]
pub(crate) enum Rule {
    /// As those of a text: line ends and references.
    Text,
    /// As those of a CDATA section, a comment or an instruction's data: line ends alone.
    Literal,
    /// As those of an attribute value: line ends, white space and references.
    Value,
}

/// A character that is written as itself, where line ends are resolved: in an attribute value white space is a space
/// (XML 1.0, section 3.3.3).
fn spaced(rule: Rule, c: char) -> char
    ensures { result ≡ spaced rule c }
{
    match (rule, c) {
        (Rule::Value, '\t' | '\n') => ' ',
        _ => c,
    }
}

/// Whether the character begins a reference.
fn begins_reference(rule: Rule, c: char) -> bool
    ensures { result ≡ begins_reference rule c }
{
    match rule {
        Rule::Literal => false,
        Rule::Text | Rule::Value => c == '&',
    }
}

/// What follows a carriage return that is a line end: a line feed after it is part of the line end (XML 1.0, section
/// 2.11).
fn after_return(text: &str) -> &str
    ensures rest { chars result.now ≡ after_line_feed (chars text.now) }
    ensures shorter { length result.now ≤ length text.now }
{
    match step(text) {
        Some((c, rest)) => { if c == '\n' { rest } else { text } }
        None => text,
    }
}

/// The character of the reference at the start of the text, and what follows it.
fn referred(text: &str) -> Option<(char, &str)>
    ensures read { Gives (λ x. (x.0, chars x.1.now)) result (mapped char_of read_reference (chars text.now)) }
    ensures shorter { IfSome result (λ x. length x.1.now < length text.now) }
{
    let (referred, rest) = reference_of(text)?;
    let c = match referred {
        Referred::Char(c) => c,
        Referred::Named(name) => entity_char(name),
    };
    Some((c, rest))
}

/// The first character of a token's content, and what is left of the token; `None` exactly at the end.
fn next_char(text: &str, rule: Rule) -> Option<(char, &str)>
    ensures content { (content : List ℕ) → HasContent rule (chars text.now) content →
        MatchOption result (content ≡ []) (λ x. BeginsWith rule content x.0 (chars x.1.now)) }
    ensures shorter { IfSome result (λ x. length x.1.now < length text.now) }
{
    let (c, rest) = step(text)?;
    if c == '\r' {
        return Some((spaced(rule, '\n'), after_return(rest)));
    }
    if begins_reference(rule, c) {
        return referred(text);
    }
    Some((spaced(rule, c), rest))
}

/// The length of the longest prefix of an attribute value that has no tab, line feed, carriage return or ampersand.
fn plain_value_len(bytes: &[u8]) -> usize
    ensures { result ≡ prefix_len (λ b. not (is_special Rule.Value b)) bytes.now }
{
    for (i, b) in bytes.iter().enumerate() {
        if matches!(*b, b'\t' | b'\n' | b'\r' | b'&') {
            return i;
        }
    }
    bytes.len()
}

/// The length of the longest prefix whose characters stand for themselves.
fn plain_len(rule: Rule, bytes: &[u8]) -> usize
    ensures { result ≡ prefix_len (λ b. not (is_special rule b)) bytes.now }
{
    match rule {
        Rule::Text => memchr2(b'\r', b'&', bytes).unwrap_or(bytes.len()),
        Rule::Literal => memchr(b'\r', bytes).unwrap_or(bytes.len()),
        Rule::Value => plain_value_len(bytes),
    }
}

/// How many bytes of a text are looked through at once. A caller copies them while they are still in the processor's
/// cache; of a long text the whole would have left it by then.
const LOOK_AHEAD: usize = 16 * 1024;

/// The longest prefix of a text that has at most `LOOK_AHEAD` bytes: a text is cut between two characters.
fn near(text: &str) -> &str
    ensures prefix { result.now ≡ take (length result.now) text.now }
    ensures boundary { IsCharBoundary text.now (length result.now) }
{
    text.split_at(text.floor_char_boundary(LOOK_AHEAD)).0
}

/// What is left of a token.
#[derive(Clone, Copy, Drop)]
pub(crate) struct TokenChars<'a> {
    pub(crate) text: &'a str,
    pub(crate) rule: Rule,
}

impl<'a> TokenChars<'a> {
    /// The next character of the token's content; `None` exactly at the end.
    pub(crate) fn next(&mut self) -> Option<char>
        ensures content { (content : List ℕ) → HasContent self.old.rule (chars self.old.text.now) content →
            MatchOption result (EndsHere self.old.rule content (chars self.new.text.now))
            (λ c. BeginsWith self.old.rule content c (chars self.new.text.now)) }
        ensures rule { self.new.rule ≡ self.old.rule }
    {
        let (c, rest) = next_char(self.text, self.rule)?;
        self.text = rest;
        Some(c)
    }

    /// Takes a prefix of at most `LOOK_AHEAD` bytes, perhaps an empty one, whose characters stand for themselves.
    pub(crate) fn next_plain(&mut self) -> &'a str
        ensures content { (content : List ℕ) → HasContent self.old.rule (chars self.old.text.now) content →
            LeavesRest self.old.rule content (chars result.now) (chars self.new.text.now) }
        ensures rule { self.new.rule ≡ self.old.rule }
    {
        let plain = plain_len(self.rule, near(self.text).as_bytes());
        let (prefix, rest) = self.text.split_at(plain);
        self.text = rest;
        prefix
    }
}
