//! The records of one item, offered to a sink in order. Each function is known how many records came before and answers
//! how many there are then, or as an error the number of the record that the sink refused.

ghost use Rattle.std.specs.Prelude.{◌≡◌, ℕ, List, IfOk, ◌+◌, ◌-◌, ◌<◌, ◌≤◌, ◌^◌, [], ◌∷◌, length, map, slice_index};
ghost use Rattle.std.specs.Prelude.{true};
ghost use Rattle.std.specs.List.{AllByRecursion};
ghost use Rattle.std.specs.Str.{IsUtf8, IsCharBoundary};
ghost use Rattle.xml_model.specs.Items.{Item as ModelItem, begins_at};
ghost use Rattle.xml_model.specs.Records.{word, depth_at, kind_number};
ghost use Rattle.vtd_words.specs.Packed.{fits, record_of};
ghost use Rattle.xml_items.specs.AttributeList.{attributes_left};
ghost use Rattle.xml_items.specs.Shown.{item_kind};
ghost use Rattle.xml_acceptance.specs.Machine.{item_records};
ghost use Rattle.vtd_builder.specs.Offered.{offer, outcome, CanOffer};
ghost use Rattle.xml_model.specs.Chars.{size};
ghost use Rattle.xml_model.specs.Items.{Attribute, written_attributes};
ghost use Rattle.xml_model.specs.Records.{attributes_records};
ghost use Rattle.vtd_builder.specs.Cuts.{AttributesAt, closes_tag, counted, beginning_of, beginning_by, BeginsAs};
ghost use Rattle.vtd_builder.specs.Cuts.{IsPast, passed_count};
ghost use Rattle.vtd_builder.specs.Found.{bytes_of, IsWithin, plain_span, named_span, attribute_found, part_found};
ghost use Rattle.vtd_builder.specs.Found.{cuts_of, parts_found, ShowsItem, AreOrdered, HasPlaces};

use crate::names::{name_token, prefix_len};
use crate::sink::RecordSink;
use crate::tags::{attribute_cut, next_byte, past_name, past_space};
use vtd_words::{Parts, pack};
use xml_items::{AttributeItem, Attributes, Item, ItemKind, next_item};
use xml_model::{Span, TokenKind};

/// The record of what is no name.
#[inline(always)]
fn plain_parts(token: u8, depth: u8, span: Span) -> Parts
    requires { span.start ≤ span.end }
    ensures { record_of result ≡ plain_span token depth span }
{
    Parts {
        token,
        depth,
        prefix: 0,
        length: span.end - span.start,
        offset: span.start,
    }
}

/// The bytes of a span.
#[inline(always)]
fn bytes_of(bytes: &[u8], span: Span) -> &[u8]
    requires { IsWithin bytes.now span }
    ensures { result.now ≡ bytes_of bytes.now span }
{
    &bytes[span.start as usize..span.end as usize]
}

/// The record of a name.
#[inline(always)]
fn name_parts(bytes: &[u8], token: u8, depth: u8, name: Span) -> Parts
    requires { IsWithin bytes.now name }
    ensures { record_of result ≡ named_span bytes.now token depth name }
{
    Parts {
        token,
        depth,
        prefix: prefix_len(bytes_of(bytes, name)) as u32,
        length: name.end - name.start,
        offset: name.start,
    }
}

/// Offers one record.
#[inline(always)]
pub fn offer<R: RecordSink>(parts: Parts, count: u32, into: &mut R) -> Result<u32, u32>
    requires fits { fits parts ≡ true }
    requires counted { count + 1 < 2 ^ 32 }
    ensures outcome { outcome (R.taken into.new) result
        ≡ offer (R.refuses into.old) (R.taken into.old) count (word (record_of parts) ∷ []) }
    ensures rest { R.rest into.new ≡ R.rest into.old }
    ensures test { R.refuses into.new ≡ R.refuses into.old }
{
    let Some(word) = pack(parts) else {
        unreachable!()
    };
    if into.take(word) {
        Ok(count + 1)
    } else {
        Err(count)
    }
}

/// Offers the two records of an attribute: its name and its value.
#[inline(always)]
fn offer_attribute<R: RecordSink>(
    bytes: &[u8],
    depth: u8,
    attribute: AttributeItem,
    count: u32,
    into: &mut R,
) -> Result<u32, u32>
    requires places { HasPlaces bytes.now attribute }
    requires room { CanOffer count (attribute_found bytes.now depth attribute) }
    ensures outcome { outcome (R.taken into.new) result
        ≡ offer (R.refuses into.old) (R.taken into.old) count (map word (attribute_found bytes.now depth attribute)) }
    ensures rest { R.rest into.new ≡ R.rest into.old }
    ensures test { R.refuses into.new ≡ R.refuses into.old }
{
    let token = name_token(bytes_of(bytes, attribute.name));
    let name = name_parts(bytes, token, depth, attribute.name);
    let count = offer(name, count, into)?;
    offer(
        plain_parts(TokenKind::Value as u8, depth, attribute.value),
        count,
        into,
    )
}

/// What an item is by its first bytes.
#[derive(Clone, Copy)]
enum Beginning {
    Text,
    /// A start tag or an empty tag.
    Tag,
    EndTag,
    /// A comment, a CDATA section, an instruction, the XML declaration or a DOCTYPE.
    Mark,
}

/// How many records there were, and a place.
#[derive(Clone, Copy)]
pub struct Reached {
    pub count: u32,
    pub at: u32,
}

/// What was passed: how many records there were then, the place after it, and how many elements are open there.
#[derive(Clone, Copy)]
pub struct Passed {
    pub count: u32,
    pub at: u32,
    pub level: u32,
}

/// Whether the byte begins what closes a tag: `>` or `/>`.
#[inline(always)]
fn closes_tag(byte: u8) -> bool
    ensures { result ≡ closes_tag byte }
{
    byte == b'>' || byte == b'/'
}

/// Offers the records of the attributes of a tag, which begin at a place with the white space before them. The place
/// reached is that of the `>` or `/>` after them.
fn offer_attributes<R: RecordSink>(
    bytes: &[u8],
    at: u32,
    depth: u8,
    count: u32,
    into: &mut R,
) -> Result<Reached, u32>
    requires size { length bytes.now < 2 ^ 30 }
    requires attributes { (xs : List Attribute) × (space : List ℕ) × (close : List ℕ)
        × AttributesAt bytes.now at xs space close × CanOffer count (attributes_records depth at xs) }
    ensures outcome { (xs : List Attribute) (space close : List ℕ) → AttributesAt bytes.now at xs space close →
        CanOffer count (attributes_records depth at xs) →
        outcome (R.taken into.new) (counted result)
        ≡ offer (R.refuses into.old) (R.taken into.old) count (map word (attributes_records depth at xs)) }
    ensures reached { (xs : List Attribute) (space close : List ℕ) → AttributesAt bytes.now at xs space close →
        CanOffer count (attributes_records depth at xs) →
        IfOk result (λ r. r.at ≡ at + size (written_attributes xs) + size space) }
    ensures rest { R.rest into.new ≡ R.rest into.old }
    ensures test { R.refuses into.new ≡ R.refuses into.old }
{
    let mut count = count;
    let mut name = past_space(bytes, at);
    while !closes_tag(bytes[name as usize]) {
        let cut = attribute_cut(bytes, name);
        count = offer_attribute(bytes, depth, cut.item, count, into)?;
        name = past_space(bytes, cut.end);
    }
    Ok(Reached { count, at: name })
}

/// Offers the two records of a part of the XML declaration: its name and its value.
fn offer_part<R: RecordSink>(
    depth: u8,
    part: AttributeItem,
    count: u32,
    into: &mut R,
) -> Result<u32, u32>
    requires name { part.name.start ≤ part.name.end }
    requires value { part.value.start ≤ part.value.end }
    requires room { CanOffer count (part_found depth part) }
    ensures outcome { outcome (R.taken into.new) result
        ≡ offer (R.refuses into.old) (R.taken into.old) count (map word (part_found depth part)) }
    ensures rest { R.rest into.new ≡ R.rest into.old }
    ensures test { R.refuses into.new ≡ R.refuses into.old }
{
    let count = offer(
        plain_parts(TokenKind::PartName as u8, depth, part.name),
        count,
        into,
    )?;
    offer(
        plain_parts(TokenKind::PartValue as u8, depth, part.value),
        count,
        into,
    )
}

/// Offers the records of the parts of the XML declaration that are left, in order.
fn offer_parts<R: RecordSink>(
    parts: Attributes<'_>,
    depth: u8,
    count: u32,
    into: &mut R,
) -> Result<u32, u32>
    requires places { AllByRecursion AreOrdered (attributes_left parts) }
    requires room { CanOffer count (parts_found depth (attributes_left parts)) }
    ensures outcome { outcome (R.taken into.new) result
        ≡ offer (R.refuses into.old) (R.taken into.old) count
        (map word (parts_found depth (attributes_left parts.entry))) }
    ensures rest { R.rest into.new ≡ R.rest into.old }
    ensures test { R.refuses into.new ≡ R.refuses into.old }
{
    let mut count = count;
    for part in parts {
        count = offer_part(depth, part, count, into)?;
    }
    Ok(count)
}

/// Offers the two records of an instruction: its target and its data.
fn offer_instruction<R: RecordSink>(
    item: Item,
    depth: u8,
    count: u32,
    into: &mut R,
) -> Result<u32, u32>
    requires name { item.name.start ≤ item.name.end }
    requires content { item.content.start ≤ item.content.end }
    requires room { CanOffer count (plain_span (kind_number TokenKind.Target) depth item.name
        ∷ plain_span (kind_number TokenKind.Data) depth item.content ∷ []) }
    ensures outcome { outcome (R.taken into.new) result
        ≡ offer (R.refuses into.old) (R.taken into.old) count
        (map word (plain_span (kind_number TokenKind.Target) depth item.name
        ∷ plain_span (kind_number TokenKind.Data) depth item.content ∷ [])) }
    ensures rest { R.rest into.new ≡ R.rest into.old }
    ensures test { R.refuses into.new ≡ R.refuses into.old }
{
    let count = offer(
        plain_parts(TokenKind::Target as u8, depth, item.name),
        count,
        into,
    )?;
    offer(
        plain_parts(TokenKind::Data as u8, depth, item.content),
        count,
        into,
    )
}

/// The depth in the record of what is no tag, with so many elements open round it: 255 outside of all elements.
#[inline(always)]
fn depth_of(level: u32) -> u8
    requires { level ≤ 256 }
    ensures { result ≡ depth_at level }
{
    match level {
        0 => 255,
        _ => (level - 1) as u8,
    }
}

/// The most bytes of one record of a text or a CDATA section.
const CUT_LIMIT: u32 = 1_048_575;

/// Offers the records of a text or a CDATA section, however long: one for each 1,048,575 bytes, and one for the rest.
#[cold]
#[inline(never)]
fn offer_cuts<R: RecordSink>(
    token: u8,
    depth: u8,
    span: Span,
    count: u32,
    into: &mut R,
) -> Result<u32, u32>
    requires span { span.start ≤ span.end }
    requires room { CanOffer count (cuts_of token depth span) }
    ensures outcome { outcome (R.taken into.new) result
        ≡ offer (R.refuses into.old) (R.taken into.old) count (map word (cuts_of token depth span)) }
    ensures rest { R.rest into.new ≡ R.rest into.old }
    ensures test { R.refuses into.new ≡ R.refuses into.old }
{
    let mut count = count;
    let mut at = span.start;
    'cuts: while span.end - at > CUT_LIMIT {
        let cut = plain_parts(
            token,
            depth,
            Span {
                start: at,
                end: at + CUT_LIMIT,
            },
        );
        count = offer(cut, count, into)?;
        at += CUT_LIMIT;
    }
    let last = plain_parts(
        token,
        depth,
        Span {
            start: at,
            end: span.end,
        },
    );
    offer(last, count, into)
}

/// Offers the records of a text or a CDATA section: mostly one.
#[inline(always)]
fn offer_content<R: RecordSink>(
    token: u8,
    depth: u8,
    span: Span,
    count: u32,
    into: &mut R,
) -> Result<u32, u32>
    requires span { span.start ≤ span.end }
    requires room { CanOffer count (cuts_of token depth span) }
    ensures outcome { outcome (R.taken into.new) result
        ≡ offer (R.refuses into.old) (R.taken into.old) count (map word (cuts_of token depth span)) }
    ensures rest { R.rest into.new ≡ R.rest into.old }
    ensures test { R.refuses into.new ≡ R.refuses into.old }
{
    if span.end - span.start > CUT_LIMIT {
        return offer_cuts(token, depth, span, count, into);
    }
    offer(plain_parts(token, depth, span), count, into)
}

/// Offers the records of the tag that begins at a place, with so many elements open round it.
pub fn offer_tag<R: RecordSink>(
    bytes: &[u8],
    at: u32,
    level: u32,
    count: u32,
    into: &mut R,
) -> Result<Passed, u32>
    requires size { length bytes.now < 2 ^ 30 }
    requires place { at ≤ length bytes.now }
    requires tag { (i : ModelItem) × BeginsAs bytes.now at level count Beginning.Tag i }
    ensures outcome { (i : ModelItem) → BeginsAs bytes.now at level count Beginning.Tag i →
        outcome (R.taken into.new) (passed_count result)
        ≡ offer (R.refuses into.old) (R.taken into.old) count (map word (item_records level at i)) }
    ensures passed { (i : ModelItem) → BeginsAs bytes.now at level count Beginning.Tag i →
        IfOk result (IsPast at level i) }
    ensures rest { R.rest into.new ≡ R.rest into.old }
    ensures test { R.refuses into.new ≡ R.refuses into.old }
{
    let depth = level as u8;
    let name = Span {
        start: at + 1,
        end: past_name(bytes, at + 1),
    };
    let count = offer(name_parts(bytes, 0, depth, name), count, into)?;
    let reached = offer_attributes(bytes, name.end, depth, count, into)?;
    if bytes[reached.at as usize] == b'>' {
        return Ok(Passed {
            count: reached.count,
            at: reached.at + 1,
            level: level + 1,
        });
    }
    Ok(Passed {
        count: reached.count,
        at: reached.at + 2,
        level,
    })
}

/// Offers the records of the text that begins at a place, with so many elements open round it; outside of all elements
/// a text has none.
#[inline(always)]
fn offer_text<R: RecordSink>(
    bytes: &[u8],
    at: u32,
    level: u32,
    count: u32,
    into: &mut R,
) -> Result<Passed, u32>
    requires size { length bytes.now < 2 ^ 30 }
    requires place { at ≤ length bytes.now }
    requires level { level ≤ 256 }
    requires text { (i : ModelItem) × BeginsAs bytes.now at level count Beginning.Text i }
    ensures outcome { (i : ModelItem) → BeginsAs bytes.now at level count Beginning.Text i →
        outcome (R.taken into.new) (passed_count result)
        ≡ offer (R.refuses into.old) (R.taken into.old) count (map word (item_records level at i)) }
    ensures passed { (i : ModelItem) → BeginsAs bytes.now at level count Beginning.Text i →
        IfOk result (IsPast at level i) }
    ensures rest { R.rest into.new ≡ R.rest into.old }
    ensures test { R.refuses into.new ≡ R.refuses into.old }
{
    let end = next_byte(bytes, at, b'<');
    if level == 0 {
        return Ok(Passed {
            count,
            at: end,
            level,
        });
    }
    let text = Span { start: at, end };
    let count = offer_content(TokenKind::Text as u8, depth_of(level), text, count, into)?;
    Ok(Passed {
        count,
        at: end,
        level,
    })
}

/// Passes the end tag that begins at a place, which has no record, with so many elements open round it.
#[inline(always)]
fn past_end_tag(bytes: &[u8], at: u32, level: u32, count: u32) -> Passed
    requires size { length bytes.now < 2 ^ 30 }
    requires place { at ≤ length bytes.now }
    requires tag { (i : ModelItem) × BeginsAs bytes.now at level count Beginning.EndTag i }
    ensures count { result.count ≡ count }
    ensures passed { (i : ModelItem) → BeginsAs bytes.now at level count Beginning.EndTag i → IsPast at level i result }
{
    Passed {
        count,
        at: next_byte(bytes, at + 2, b'>') + 1,
        level: level.saturating_sub(1),
    }
}

/// Offers the records of an item that `next_item` answers and that begins with a mark, with so many elements open round
/// it.
#[inline(never)]
fn offer_marked<R: RecordSink>(
    bytes: &[u8],
    item: Item,
    level: u32,
    count: u32,
    into: &mut R,
) -> Result<u32, u32>
    requires utf8 { IsUtf8 bytes.now }
    requires size { length bytes.now < 2 ^ 30 }
    requires start { item.span.start ≤ length bytes.now }
    requires level { level ≤ 256 }
    requires kind { beginning_of item.kind ≡ Beginning.Mark }
    requires item { (i : ModelItem) × ShowsItem bytes.now item i
        × CanOffer count (item_records level item.span.start i) }
    ensures outcome { (i : ModelItem) → ShowsItem bytes.now item i →
        outcome (R.taken into.new) result
        ≡ offer (R.refuses into.old) (R.taken into.old) count (map word (item_records level item.span.start i)) }
    ensures rest { R.rest into.new ≡ R.rest into.old }
    ensures test { R.refuses into.new ≡ R.refuses into.old }
{
    let depth = depth_of(level);
    match item.kind {
        ItemKind::Text | ItemKind::StartTag | ItemKind::EmptyTag | ItemKind::EndTag => {
            unreachable!()
        }
        ItemKind::Comment => offer(
            plain_parts(TokenKind::Comment as u8, depth, item.content),
            count,
            into,
        ),
        ItemKind::Cdata => {
            offer_content(TokenKind::Cdata as u8, depth, item.content, count, into)
        }
        ItemKind::Doctype => offer(
            plain_parts(TokenKind::Doctype as u8, depth, item.content),
            count,
            into,
        ),
        ItemKind::Instruction => offer_instruction(item, depth, count, into),
        ItemKind::Declaration => offer_parts(Attributes::of(bytes, item), depth, count, into),
    }
}

/// Offers the records of the item that begins at a place with a mark, with so many elements open round it. Such items
/// are few, so they are read again.
#[inline(always)]
fn offer_mark<R: RecordSink>(
    bytes: &[u8],
    at: u32,
    level: u32,
    count: u32,
    into: &mut R,
) -> Result<Passed, u32>
    requires utf8 { IsUtf8 bytes.now }
    requires size { length bytes.now < 2 ^ 30 }
    requires place { IsCharBoundary bytes.now at }
    requires inside { at < length bytes.now }
    requires level { level ≤ 256 }
    requires item { (i : ModelItem) × BeginsAs bytes.now at level count Beginning.Mark i }
    ensures outcome { (i : ModelItem) → BeginsAs bytes.now at level count Beginning.Mark i →
        outcome (R.taken into.new) (passed_count result)
        ≡ offer (R.refuses into.old) (R.taken into.old) count (map word (item_records level at i)) }
    ensures passed { (i : ModelItem) → BeginsAs bytes.now at level count Beginning.Mark i →
        IfOk result (IsPast at level i) }
    ensures rest { R.rest into.new ≡ R.rest into.old }
    ensures test { R.refuses into.new ≡ R.refuses into.old }
{
    let Ok(Some(item)) = next_item(bytes, at) else {
        unreachable!()
    };
    let count = offer_marked(bytes, item, level, count, into)?;
    Ok(Passed {
        count,
        at: item.span.end,
        level,
    })
}

/// What an item is by its first two bytes.
#[inline(always)]
fn beginning_by(first: u8, second: u8) -> Beginning
    ensures { result ≡ beginning_by first second }
{
    match (first, second) {
        (b'<', b'/') => Beginning::EndTag,
        (b'<', b'!' | b'?') => Beginning::Mark,
        (b'<', _) => Beginning::Tag,
        _ => Beginning::Text,
    }
}

/// The byte at a place, or 0 after the end.
#[inline(always)]
fn byte_at(bytes: &[u8], at: u32) -> u8
    ensures { result ≡ slice_index bytes.now at }
{
    let at = at as usize;
    if at < bytes.len() { bytes[at] } else { 0 }
}

/// What the item at a place is, by its first two bytes.
#[inline(always)]
fn beginning_at(bytes: &[u8], at: u32) -> Beginning
    requires size { length bytes.now < 2 ^ 30 }
    requires place { at < length bytes.now }
    ensures { (i : ModelItem) → begins_at bytes.now at i ≡ true → result ≡ beginning_of (item_kind i) }
{
    beginning_by(byte_at(bytes, at), byte_at(bytes, at + 1))
}

/// Offers the records of the item at a place, with so many elements open round it.
pub fn offer_item<R: RecordSink>(
    bytes: &[u8],
    at: u32,
    level: u32,
    count: u32,
    into: &mut R,
) -> Result<Passed, u32>
    requires utf8 { IsUtf8 bytes.now }
    requires size { length bytes.now < 2 ^ 30 }
    requires place { IsCharBoundary bytes.now at }
    requires inside { at < length bytes.now }
    requires level { level ≤ 256 }
    requires item { (i : ModelItem) × (begins_at bytes.now at i ≡ true) × CanOffer count (item_records level at i) }
    ensures outcome { (i : ModelItem) → begins_at bytes.now at i ≡ true → CanOffer count (item_records level at i) →
        outcome (R.taken into.new) (passed_count result)
        ≡ offer (R.refuses into.old) (R.taken into.old) count (map word (item_records level at i)) }
    ensures passed { (i : ModelItem) → begins_at bytes.now at i ≡ true → CanOffer count (item_records level at i) →
        IfOk result (IsPast at level i) }
    ensures rest { R.rest into.new ≡ R.rest into.old }
    ensures test { R.refuses into.new ≡ R.refuses into.old }
{
    match beginning_at(bytes, at) {
        Beginning::Text => offer_text(bytes, at, level, count, into),
        Beginning::Tag => offer_tag(bytes, at, level, count, into),
        Beginning::EndTag => Ok(past_end_tag(bytes, at, level, count)),
        Beginning::Mark => offer_mark(bytes, at, level, count, into),
    }
}
