//! The characters of a row of records: those of their texts and CDATA sections, joined. No call takes memory. The
//! records of one token are read as one slice, so it does not matter where a long token is cut.
#![tactic(auto)]

ghost use Rattle.std.specs.Prelude.{◌≡◌, ℕ, ◌+◌, ◌-◌, ◌^◌, ◌≤◌, ◌<◌, true, List, [], ◌∷◌, length, MatchOption};
ghost use Rattle.std.specs.Str.{chars};
ghost use Rattle.xml_model.specs.Records.{Record};
ghost use Rattle.vtd_words.specs.Lists.{list_of};
ghost use Rattle.vtd_words.specs.Packed.{record_of};
ghost use Rattle.vtd_words.specs.Table.{Shows};
ghost use Rattle.xml_model.specs.Scan.{is_text_token, is_within};
ghost use Rattle.xml_model.specs.Wholes.{goes_on, wholes, wholes_from};
ghost use Rattle.vtd_text.specs.Joined.{rule_of, slice_of, Gives, Joined, IsText, ShowsReadable, IsLeft, LeavesTail};
ghost use Rattle.vtd_text.specs.Joined.{LeavesAfter, BetweenTokens, IsAtEnd, row};
ghost use Rattle.vtd_text.specs.Tokens.{HasContent};

use crate::token::{Rule, TokenChars};
use vtd_words::{Part, Parts, Words, level_of, parts_at};
use xml_model::TokenKind;

/// The number of a text's records.
const TEXT: u8 = TokenKind::Text as u8;

/// The number of a CDATA section's records.
const CDATA: u8 = TokenKind::Cdata as u8;

/// The rule for the token of a record; `None` exactly where it is of no text and of no CDATA section.
fn rule_of(parts: Parts) -> Option<Rule>
    ensures { result ≡ rule_of parts.token }
{
    match parts.token {
        TEXT => Some(Rule::Text),
        CDATA => Some(Rule::Literal),
        _ => None,
    }
}

/// The text that a record is of.
pub(crate) fn text_of(bytes: &[u8], parts: Parts) -> &str
    requires { IsText bytes.now (record_of parts) }
    ensures { result.now ≡ slice_of bytes.now (record_of parts) }
{
    let (_, from) = bytes.split_at(parts.offset as usize);
    let (slice, _) = from.split_at(parts.length as usize);
    unsafe { std::str::from_utf8_unchecked(slice) }
}

/// The token of a record, of which all is left; an empty one where the record is of no text and of no CDATA section.
fn record_of(bytes: &[u8], parts: Parts) -> TokenChars<'_>
    requires { is_text_token parts.token ≡ true → IsText bytes.now (record_of parts) }
    ensures { (content : List ℕ) → Gives (rule_of parts.token) (slice_of bytes.now (record_of parts)) content →
        HasContent result.rule (chars result.text.now) content }
{
    match rule_of(parts) {
        Some(rule) => TokenChars {
            text: text_of(bytes, parts),
            rule,
        },
        None => TokenChars {
            text: "",
            rule: Rule::Text,
        },
    }
}

/// Whether a record is of a text or a CDATA section.
pub(crate) fn is_text(parts: Parts) -> bool
    ensures { result ≡ is_text_token (record_of parts).token }
{
    matches!(parts.token, TEXT | CDATA)
}

/// Whether a record goes on where another one ends, as those of one long token do.
fn goes_on(first: Parts, second: Parts) -> bool
    requires { first.offset + first.length < 2 ^ 31 }
    ensures { result ≡ goes_on (record_of first) (record_of second) }
{
    is_text(first)
        && first.token == second.token
        && first.depth == second.depth
        && first.offset + first.length == second.offset
}

/// A whole token: the parts of its records as those of one, and the record after them.
#[derive(Clone, Copy, Drop)]
pub(crate) struct Whole {
    pub(crate) parts: Parts,
    pub(crate) next: u32,
}

/// The whole token that a record begins, by the records after it, below another, that go on where it ends.
pub(crate) fn whole_from<W: Words>(words: &W, first: Parts, next: u32, past: u32) -> Whole
    requires first { first.offset + first.length < 2 ^ 31 }
    requires next { next ≤ past }
    requires past { past ≤ length (list_of Part.Records (W.lists words.now)) }
    ensures next { next ≤ result.next }
    ensures past { result.next ≤ past }
    ensures whole { (rs : List Record) → Shows (list_of Part.Records (W.lists words.now)) rs →
        (least : ℕ) → is_within least (record_of first) ≡ true →
        wholes_from (record_of first) (row next record { past = past; least = least } rs)
        ≡ record_of result.parts ∷ wholes (row result.next record { past = past; least = least } rs) }
{
    let mut parts = first;
    let mut at = next;
    while at < past {
        let more = parts_at(words, at);
        if !goes_on(parts, more) {
            return Whole { parts, next: at };
        }
        parts.length += more.length;
        at += 1;
    }
    Whole { parts, next: at }
}

/// Where a row of records ends: below an index, and before the first record of a level below the least.
#[derive(Clone, Copy, Drop)]
pub(crate) struct RowEnd {
    pub(crate) past: u32,
    pub(crate) least: u32,
}

/// What is left of the characters of a row of records: those left of one token, and those of the records from one on.
/// The records of one token are read as one.
#[derive(Drop)]
pub(crate) struct Row<'a, W: Words> {
    pub(crate) bytes: &'a [u8],
    pub(crate) words: &'a W,
    pub(crate) token: TokenChars<'a>,
    pub(crate) at: u32,
    pub(crate) end: RowEnd,
    ghost within: { end.past ≤ length ((W.lists words.now).records) },
    ghost readable: { ∥ ShowsReadable bytes.now (W.lists words.now).records at end ∥₁ },
}

impl<'a, W: Words> Row<'a, W> {
    /// The next character of the token; `None` exactly at its end.
    fn next_of_token(&mut self) -> Option<char>
        ensures content { (rs : List Record) (content : List ℕ) →
            IsLeft self.old.bytes.now rs self.old.token.rule self.old.token.text.now self.old.at self.old.end content →
            MatchOption result (BetweenTokens self.old.bytes.now rs self.new.token.rule self.new.token.text.now
            self.old.at self.old.end content)
            (λ c. LeavesTail (IsLeft self.old.bytes.now rs self.new.token.rule self.new.token.text.now self.old.at
            self.old.end) content c) }
        ensures bytes { self.new.bytes ≡ self.old.bytes }
        ensures words { self.new.words ≡ self.old.words }
        ensures at { self.new.at ≡ self.old.at }
        ensures end { self.new.end ≡ self.old.end }
    {
        self.token.next()
    }

    /// Goes on to the next token, or ends the row where the next record is below its level.
    fn open_next(&mut self)
        requires { self.old.at < self.old.end.past }
        ensures content { (rs : List Record) → Shows (list_of Part.Records (W.lists self.old.words.now)) rs →
            (content : List ℕ) → Joined self.old.bytes.now (wholes (row self.old.at self.old.end rs)) content →
            IsLeft self.old.bytes.now rs self.new.token.rule self.new.token.text.now self.new.at self.new.end content }
        ensures bytes { self.new.bytes ≡ self.old.bytes }
        ensures words { self.new.words ≡ self.old.words }
        ensures shorter { self.new.end.past - self.new.at < self.old.end.past - self.old.at }
    {
        let parts = parts_at(self.words, self.at);
        if level_of(parts) < self.end.least {
            self.token = TokenChars {
                text: "",
                rule: Rule::Text,
            };
            self.end.past = self.at;
            return;
        }
        let whole = whole_from(self.words, parts, self.at + 1, self.end.past);
        self.token = record_of(self.bytes, whole.parts);
        self.at = whole.next;
    }

    /// The next character; `None` exactly at the end.
    pub(crate) fn next(&mut self) -> Option<char>
        ensures content { (rs : List Record) → Shows (list_of Part.Records (W.lists self.old.words.now)) rs →
            (content : List ℕ) →
            IsLeft self.old.bytes.now rs self.old.token.rule self.old.token.text.now self.old.at self.old.end content →
            MatchOption result (IsAtEnd (IsLeft self.old.bytes.now rs self.new.token.rule self.new.token.text.now
            self.new.at self.new.end) content)
            (λ c. LeavesTail (IsLeft self.old.bytes.now rs self.new.token.rule self.new.token.text.now self.new.at
            self.new.end) content c) }
        ensures bytes { self.new.bytes ≡ self.old.bytes }
        ensures words { self.new.words ≡ self.old.words }
    {
        if let Some(c) = self.next_of_token() {
            return Some(c);
        }
        while self.at < self.end.past {
            self.open_next();
            if let Some(c) = self.next_of_token() {
                return Some(c);
            }
        }
        None
    }

    /// Takes a prefix of what is left of the token, perhaps an empty one, whose characters stand for themselves.
    pub(crate) fn next_plain(&mut self) -> &'a str
        ensures content { (rs : List Record) (content : List ℕ) →
            IsLeft self.old.bytes.now rs self.old.token.rule self.old.token.text.now self.old.at self.old.end content →
            LeavesAfter (IsLeft self.old.bytes.now rs self.new.token.rule self.new.token.text.now self.old.at
            self.old.end) content (chars result.now) }
        ensures bytes { self.new.bytes ≡ self.old.bytes }
        ensures words { self.new.words ≡ self.old.words }
        ensures at { self.new.at ≡ self.old.at }
        ensures end { self.new.end ≡ self.old.end }
    {
        self.token.next_plain()
    }
}
