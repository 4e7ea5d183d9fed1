//! Comments, CDATA sections and instructions at the start of a text (XML 1.0, productions 15 to 21).
#![tactic(auto)]

ghost use Rattle.std.specs.Prelude.{◌≡◌, ◌≤◌, ◌<◌, ◌+◌, ◌^◌, ◌==◌, ◌||◌, not, true, length, nat_lt, slice_index};
ghost use Rattle.std.specs.Prelude.{option_map, IfSome};
ghost use Rattle.std.specs.List.{list_all};
ghost use Rattle.std.specs.Option.{option_copied};
ghost use Rattle.std.specs.Str.{chars};
ghost use Rattle.xml_model.specs.Chars.{begins};
ghost use Rattle.xml_chars.specs.Readers.{skip, after_run};
ghost use Rattle.xml_items.specs.Reading.{until, read_until, is_xml, read_comment, read_cdata, read_instruction};
ghost use Rattle.xml_items.specs.Shown.{item_shown};

use crate::pieces::are_chars;
use crate::spans::span_between;
use crate::{Item, ItemKind};
use memchr::memchr;
use xml_chars::names::name_of;
use xml_chars::text::{space_of, step, word_of};

/// What follows the longest prefix without the byte, which is ASCII.
fn after_other(text: &str, byte: u8) -> &str
    requires { byte < 128 }
    ensures rest { chars result.now ≡ after_run (λ c. not (c == byte)) (chars text.now) }
    ensures shorter { length result.now ≤ length text.now }
{
    let n = memchr(byte, text.as_bytes()).unwrap_or(text.len());
    text.split_at(n).1
}

/// Whether the mark, which is ASCII, is at the start.
pub fn holds(text: &str, mark: &str) -> bool
    requires { list_all (λ b. nat_lt b 128) mark.now ≡ true }
    ensures { result ≡ begins mark.now (chars text.now) }
{
    word_of(text, mark).is_some()
}

/// The text from the first place on where the mark is. The mark is ASCII and begins with the byte.
fn find<'a>(text: &'a str, mark: &str, first: u8) -> Option<&'a str>
    requires ascii { list_all (λ b. nat_lt b 128) mark.now ≡ true }
    requires first { (first < 128) × (0 < length mark.now) × (slice_index mark.now 0 ≡ first) }
    ensures read { option_map chars (option_copied result) ≡ skip (until mark.now) (chars text.now) }
    ensures shorter { IfSome result (λ r. length r.now ≤ length text.now) }
{
    let mut rest = after_other(text, first);
    while !holds(rest, mark) {
        let (_, after) = step(rest)?;
        rest = after_other(after, first);
    }
    Some(rest)
}

/// The text from the first place on where the mark is, where all characters before it may be in a document.
pub fn find_past_chars<'a>(text: &'a str, mark: &str, first: u8) -> Option<&'a str>
    requires ascii { list_all (λ b. nat_lt b 128) mark.now ≡ true }
    requires first { (first < 128) × (0 < length mark.now) × (slice_index mark.now 0 ≡ first) }
    ensures read { option_map chars (option_copied result) ≡ skip (read_until mark.now) (chars text.now) }
    ensures shorter { IfSome result (λ r. length r.now ≤ length text.now) }
{
    let rest = find(text, mark, first)?;
    let (prefix, _) = text.split_at(text.len() - rest.len());
    if are_chars(prefix) { Some(rest) } else { None }
}

/// Whether the name is `xml`, ASCII letter case aside.
fn is_xml(name: &str) -> bool
    ensures { result ≡ is_xml (chars name.now) }
{
    name.as_bytes().eq_ignore_ascii_case(b"xml")
}

/// The comment at the start of a text that begins at the place (XML 1.0, production 15).
pub fn comment_at(text: &str, at: u32) -> Option<Item>
    requires { at + length text.now < 2 ^ 32 }
    ensures { result ≡ option_map (λ p. item_shown at p.0) (read_comment (chars text.now)) }
{
    let content = word_of(text, "<!--")?;
    let end = find_past_chars(content, "--", b'-')?;
    let rest = word_of(end, "-->")?;
    Some(Item {
        kind: ItemKind::Comment,
        span: span_between(at, text, text, rest),
        name: span_between(at, text, text, text),
        content: span_between(at, text, content, end),
    })
}

/// The CDATA section at the start of a text that begins at the place (XML 1.0, productions 18 to 21).
pub fn cdata_at(text: &str, at: u32) -> Option<Item>
    requires { at + length text.now < 2 ^ 32 }
    ensures { result ≡ option_map (λ p. item_shown at p.0) (read_cdata (chars text.now)) }
{
    let content = word_of(text, "<![CDATA[")?;
    let end = find_past_chars(content, "]]>", b']')?;
    let rest = word_of(end, "]]>")?;
    Some(Item {
        kind: ItemKind::Cdata,
        span: span_between(at, text, text, rest),
        name: span_between(at, text, text, text),
        content: span_between(at, text, content, end),
    })
}

/// Whether white space is before the data of an instruction, or there are none. The data end where `end` begins.
fn is_parted(space: &str, content: &str, end: &str) -> bool
    ensures { result ≡ (not (length space.now == 0) || length content.now == length end.now) }
{
    !space.is_empty() || content.len() == end.len()
}

/// The instruction at the start of a text that begins at the place (XML 1.0, productions 16 and 17).
pub fn instruction_at(text: &str, at: u32) -> Option<Item>
    requires { at + length text.now < 2 ^ 32 }
    ensures { result ≡ option_map (λ p. item_shown at p.0) (read_instruction (chars text.now)) }
{
    let after_open = word_of(text, "<?")?;
    let (target, after_target) = name_of(after_open)?;
    if is_xml(target) {
        return None;
    }
    let (space, data) = space_of(after_target);
    let end = find_past_chars(data, "?>", b'?')?;
    let rest = word_of(end, "?>")?;
    if !is_parted(space, data, end) {
        return None;
    }
    Some(Item {
        kind: ItemKind::Instruction,
        span: span_between(at, text, text, rest),
        name: span_between(at, text, after_open, after_target),
        content: span_between(at, text, data, end),
    })
}
