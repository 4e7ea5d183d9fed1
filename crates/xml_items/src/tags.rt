//! Attributes and tags at the start of a text (XML 1.0, productions 40 to 44).
#![tactic(auto)]

ghost use Rattle.std.specs.Prelude.{◌≡◌, ◌≤◌, ◌<◌, ◌+◌, ◌-◌, ◌^◌, length, option_map, IfSome, Some, [], ◌∷◌};
ghost use Rattle.std.specs.Option.{option_copied};
ghost use Rattle.std.specs.Str.{chars};
ghost use Rattle.xml_model.specs.Items.{quote_char};
ghost use Rattle.xml_chars.specs.Readers.{Gives, skip, word};
ghost use Rattle.xml_items.specs.Quotes.{quote_of};
ghost use Rattle.xml_items.specs.Reading.{read_quote, read_bare, read_attribute, read_attributes, read_close, read_tag};
ghost use Rattle.xml_items.specs.Reading.{read_end_tag};
ghost use Rattle.xml_items.specs.Shown.{item_shown, tag_kind};
ghost use Rattle.xml_items.specs.Counting.{counted, counted_shown};
ghost use Rattle.xml_items.specs.Suffixes.{suffixes, suffixes_seen};

use crate::pieces::after_value;
use crate::spans::span_between;
use crate::{Counted, Item, ItemKind};
use xml_chars::names::{begins_name, name_of};
use xml_chars::text::{space_of, word_of};

/// The quote at the start, and what follows it.
#[inline(always)]
fn quote_at(text: &str) -> Option<(u8, &str)>
    ensures read { Gives (λ x. (quote_of x.0, chars x.1.now)) result (read_quote (chars text.now)) }
    ensures quote { IfSome result (λ x. quote_char (quote_of x.0) ≡ x.0) }
    ensures shorter { IfSome result (λ x. length x.1.now < length text.now) }
{
    if let Some(rest) = word_of(text, "'") {
        return Some((b'\'', rest));
    }
    let rest = word_of(text, "\"")?;
    Some((b'"', rest))
}

/// What follows the quote, where it is at the start.
#[inline(always)]
pub fn after_quote(text: &str, quote: u8) -> Option<&str>
    ensures read { Gives (λ r. (tt, chars r.now)) result (word (quote_char (quote_of quote) ∷ []) (chars text.now)) }
    ensures shorter { IfSome result (λ r. length r.now < length text.now) }
{
    if quote == b'\'' {
        word_of(text, "'")
    } else {
        word_of(text, "\"")
    }
}

/// What follows the parts of an attribute.
#[derive(Clone, Copy)]
pub struct AttributeText<'a> {
    pub after_space: &'a str,
    pub after_name: &'a str,
    pub value: &'a str,
    pub after_value: &'a str,
    pub rest: &'a str,
}

/// The attribute at the start, without white space before it; None where none begins the text.
#[inline(always)]
pub fn bare_attribute_of(text: &str) -> Option<AttributeText<'_>>
    ensures read { Gives suffixes_seen result (option_map suffixes (read_bare (chars text.now))) }
    ensures first { IfSome result
        (λ f. (length f.after_space.now ≡ length text.now) × (length f.after_name.now ≤ length f.after_space.now)) }
    ensures later { IfSome result
        (λ f. (length f.value.now < length f.after_name.now) × (length f.after_value.now ≤ length f.value.now) ×
        (length f.rest.now < length f.after_value.now)) }
{
    let (_, after_name) = name_of(text)?;
    let (_, rest) = space_of(after_name);
    let rest = word_of(rest, "=")?;
    let (_, rest) = space_of(rest);
    let (quote, value) = quote_at(rest)?;
    let after_value = after_value(value, quote)?;
    let rest = after_quote(after_value, quote)?;
    Some(AttributeText {
        after_space: text,
        after_name,
        value,
        after_value,
        rest,
    })
}

/// The attribute at the start, with the white space before it; None where none begins the text.
pub fn attribute_of(text: &str) -> Option<AttributeText<'_>>
    ensures read { Gives suffixes_seen result (option_map suffixes (read_attribute (chars text.now))) }
    ensures first { IfSome result
        (λ f. (length f.after_space.now ≤ length text.now) × (length f.after_name.now ≤ length f.after_space.now)) }
    ensures later { IfSome result
        (λ f. (length f.value.now < length f.after_name.now) × (length f.after_value.now ≤ length f.value.now) ×
        (length f.rest.now < length f.after_value.now)) }
{
    let (space, after_space) = space_of(text);
    if space.is_empty() {
        return None;
    }
    bare_attribute_of(after_space)
}

/// What follows the attribute at the start, with the white space before it; None where none begins the text. It serves
/// readers that know most attributes by themselves.
#[inline(never)]
pub fn after_attribute(text: &str) -> Option<&str>
    ensures read { option_map chars (option_copied result) ≡ skip read_attribute (chars text.now) }
    ensures shorter { IfSome result (λ r. length r.now ≤ length text.now) }
{
    match attribute_of(text) {
        Some(parts) => Some(parts.rest),
        None => None,
    }
}

/// How many attributes are at the start, and what follows them and the white space after them; None where one of
/// them is wrong.
#[inline(always)]
fn after_attributes(text: &str) -> Option<(u32, &str)>
    requires { length text.now < 2 ^ 32 }
    ensures read { Gives (λ x. (x.0, chars x.1.now)) result (option_map counted (read_attributes (chars text.now))) }
    ensures shorter { IfSome result (λ x. length x.1.now ≤ length text.now) }
{
    let mut count = 0;
    let mut rest = text;
    loop {
        let (space, attribute) = space_of(rest);
        if !begins_name(attribute) {
            return Some((count, attribute));
        }
        if space.is_empty() {
            return None;
        }
        rest = bare_attribute_of(attribute)?.rest;
        count += 1;
    }
}

/// Whether the tag closes with `/>`, and what follows.
#[inline(always)]
fn close_of(text: &str) -> Option<(bool, &str)>
    ensures read { Gives (λ x. (x.0, chars x.1.now)) result (read_close (chars text.now)) }
    ensures shorter { IfSome result (λ x. length x.1.now ≤ length text.now) }
{
    if let Some(rest) = word_of(text, "/>") {
        return Some((true, rest));
    }
    let rest = word_of(text, ">")?;
    Some((false, rest))
}

#[inline(always)]
fn tag_kind(empty: bool) -> ItemKind
    ensures { result ≡ tag_kind empty }
{
    if empty {
        ItemKind::EmptyTag
    } else {
        ItemKind::StartTag
    }
}

/// The start tag or empty tag at the start of a text that begins at the place (XML 1.0, productions 40 and 44).
#[inline(always)]
pub fn tag_at(text: &str, at: u32) -> Option<Counted>
    requires { at + length text.now < 2 ^ 32 }
    ensures { result ≡ option_map (λ p. counted_shown at p.0) (read_tag (chars text.now)) }
{
    let after_open = word_of(text, "<")?;
    let (_, after_name) = name_of(after_open)?;
    let (attributes, close) = after_attributes(after_name)?;
    let (empty, rest) = close_of(close)?;
    let item = Item {
        kind: tag_kind(empty),
        span: span_between(at, text, text, rest),
        name: span_between(at, text, after_open, after_name),
        content: span_between(at, text, after_name, close),
    };
    Some(Counted { item, attributes })
}

/// The end tag at the start of a text that begins at the place (XML 1.0, production 42).
#[inline(always)]
pub fn end_tag_at(text: &str, at: u32) -> Option<Item>
    requires { at + length text.now < 2 ^ 32 }
    ensures { result ≡ option_map (λ p. item_shown at p.0) (read_end_tag (chars text.now)) }
{
    let after_open = word_of(text, "</")?;
    let (_, after_name) = name_of(after_open)?;
    let (_, close) = space_of(after_name);
    let rest = word_of(close, ">")?;
    Some(Item {
        kind: ItemKind::EndTag,
        span: span_between(at, text, text, rest),
        name: span_between(at, text, after_open, after_name),
        content: span_between(at, text, after_name, close),
    })
}
