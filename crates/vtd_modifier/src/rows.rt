//! Which splices an operation makes of a node with its parts.

ghost use Rattle.std.specs.Prelude.{◌≡◌, ℕ, ◌+◌, ◌-◌, ◌^◌, ◌<◌, ◌≤◌, ◌++◌, ◌∷◌, [], List, Option, codes};
ghost use Rattle.std.specs.Prelude.{length, IfOk, OnOk};
ghost use Rattle.vtd_modifier.specs.Rows.{bytes_at, end_name, given_attribute, opened, put_after, put_before};
ghost use Rattle.vtd_modifier.specs.Rows.{put_first, put_into};
ghost use Rattle.vtd_modifier.specs.Rows.{put_last, removed, renamed, renamed_tags, replaced, row, set_element, set_to};
ghost use Rattle.vtd_modifier.specs.Rows.{AddsRow, AreTags, IsOne, IsPart};
ghost use Rattle.vtd_edits.specs.declared.splice.Splice.{Splice};

use crate::escaping::{Escape, escaped};
use crate::operation::Operation;
use crate::parts::Part;
use std::alloc::Global;
use vtd_cursor::Tags;
use vtd_edits::Splice;
use xml_model::{Bytes, NoMemory, Span};

/// The bytes of a text.
fn bytes_of(alloc: Global, text: &[u8]) -> Result<Bytes, NoMemory>
    ensures { IfOk result (λ bytes. bytes ≡ text.now) }
{
    match Vec::from_slice(alloc, text) {
        Ok(held) => Ok(Bytes { held }),
        Err(_) => Err(NoMemory),
    }
}

fn push_all(out: &mut Vec<u8>, bytes: &[u8]) -> Result<(), NoMemory>
    ensures { OnOk result (out.new.items ≡ out.old.items ++ bytes.now) }
{
    out.extend_from_slice(bytes).map_err(|_| NoMemory)
}

/// Another text for a span.
fn replace(span: Span, text: Bytes) -> Splice
    ensures { result ≡ Splice.Replace span.start span.end text }
{
    Splice::Replace {
        start: span.start,
        end: span.end,
        text,
    }
}

fn removed(alloc: Global, part: Part) -> Option<Splice>
    ensures { IsOne result (removed part) }
{
    let text = Bytes {
        held: Vec::new(alloc),
    };
    match part {
        Part::Root => None,
        Part::Attribute { before, span, .. } => Some(Splice::Replace {
            start: before,
            end: span.end,
            text,
        }),
        Part::Element { span, .. } => Some(replace(span, text)),
        Part::Text { span } => Some(replace(span, text)),
        Part::Comment { span } => Some(replace(span, text)),
        Part::Instruction { span, .. } => Some(replace(span, text)),
    }
}

fn replaced(text: Bytes, part: Part) -> Option<Splice>
    ensures { IsOne result (replaced text part) }
{
    match part {
        Part::Root => None,
        Part::Attribute { span, .. } => Some(replace(span, text)),
        Part::Element { span, .. } => Some(replace(span, text)),
        Part::Text { span } => Some(replace(span, text)),
        Part::Comment { span } => Some(replace(span, text)),
        Part::Instruction { span, .. } => Some(replace(span, text)),
    }
}

fn put_before(text: Bytes, part: Part) -> Option<Splice>
    ensures { IsOne result (put_before text part) }
{
    match part {
        Part::Root | Part::Attribute { .. } => None,
        Part::Element { span, .. } => Some(Splice::Insert {
            at: span.start,
            text,
        }),
        Part::Text { span } => Some(Splice::Insert {
            at: span.start,
            text,
        }),
        Part::Comment { span } => Some(Splice::Insert {
            at: span.start,
            text,
        }),
        Part::Instruction { span, .. } => Some(Splice::Insert {
            at: span.start,
            text,
        }),
    }
}

fn put_after(text: Bytes, part: Part) -> Option<Splice>
    ensures { IsOne result (put_after text part) }
{
    match part {
        Part::Root | Part::Attribute { .. } => None,
        Part::Element { span, .. } => Some(Splice::Insert { at: span.end, text }),
        Part::Text { span } => Some(Splice::Insert { at: span.end, text }),
        Part::Comment { span } => Some(Splice::Insert { at: span.end, text }),
        Part::Instruction { span, .. } => Some(Splice::Insert { at: span.end, text }),
    }
}

/// The bytes of a span.
fn bytes_at(bytes: &[u8], span: Span) -> &[u8]
    requires order { span.start ≤ span.end }
    requires within { span.end ≤ length bytes.now }
    ensures { result.now ≡ bytes_at bytes.now span }
{
    &bytes[span.start as usize..span.end as usize]
}

/// A start tag's `>`, a text and an end tag.
fn with_end_tag(alloc: Global, name: &[u8], text: &[u8]) -> Result<Bytes, NoMemory>
    ensures { IfOk result (λ bytes. bytes ≡ codes ">" ++ text.now ++ codes "</" ++ name.now ++ codes ">") }
{
    let mut held = Vec::new(alloc);
    push_all(&mut held, b">")?;
    push_all(&mut held, text)?;
    push_all(&mut held, b"</")?;
    push_all(&mut held, name)?;
    push_all(&mut held, b">")?;
    Ok(Bytes { held })
}

/// An empty tag that becomes a start tag, a text and an end tag.
fn opened(alloc: Global, bytes: &[u8], tags: Tags, text: &[u8]) -> Result<Splice, NoMemory>
    requires { AreTags (length bytes.now) tags }
    ensures { IfOk result (λ splice. splice ≡ opened bytes.now tags text.now) }
{
    let text = with_end_tag(alloc, bytes_at(bytes, tags.name), text)?;
    Ok(Splice::Replace {
        start: tags.head_end - 2,
        end: tags.head_end,
        text,
    })
}

/// An insertion into an element that has an end tag, or an end tag for it.
fn put_into(
    alloc: Global,
    bytes: &[u8],
    tags: Tags,
    at: u32,
    text: &[u8],
) -> Result<Splice, NoMemory>
    requires { AreTags (length bytes.now) tags }
    ensures { IfOk result (λ splice. splice ≡ put_into bytes.now tags at text.now) }
{
    if tags.empty {
        return opened(alloc, bytes, tags, text);
    }
    let text = bytes_of(alloc, text)?;
    Ok(Splice::Insert { at, text })
}

fn put_first(
    alloc: Global,
    bytes: &[u8],
    text: &[u8],
    part: Part,
) -> Result<Option<Splice>, NoMemory>
    requires { IsPart (length bytes.now) part }
    ensures { IfOk result (λ found. IsOne found (put_first bytes.now text.now part)) }
{
    match part {
        Part::Element { tags, .. } => {
            let splice = put_into(alloc, bytes, tags, tags.head_end, text)?;
            Ok(Some(splice))
        }
        _ => Ok(None),
    }
}

fn put_last(
    alloc: Global,
    bytes: &[u8],
    text: &[u8],
    part: Part,
) -> Result<Option<Splice>, NoMemory>
    requires { IsPart (length bytes.now) part }
    ensures { IfOk result (λ found. IsOne found (put_last bytes.now text.now part)) }
{
    match part {
        Part::Element { tags, .. } => {
            let splice = put_into(alloc, bytes, tags, tags.tail_start, text)?;
            Ok(Some(splice))
        }
        _ => Ok(None),
    }
}

/// A text with a space before it.
fn with_space(alloc: Global, text: &[u8]) -> Result<Bytes, NoMemory>
    ensures { IfOk result (λ bytes. bytes ≡ 32 ∷ text.now) }
{
    let mut held = Vec::new(alloc);
    push_all(&mut held, b" ")?;
    push_all(&mut held, text)?;
    Ok(Bytes { held })
}

fn given_attribute(alloc: Global, text: &[u8], part: Part) -> Result<Option<Splice>, NoMemory>
    ensures { IfOk result (λ found. IsOne found (given_attribute text.now part)) }
{
    match part {
        Part::Element { tags, .. } => {
            let text = with_space(alloc, text)?;
            Ok(Some(Splice::Insert {
                at: tags.name.end,
                text,
            }))
        }
        _ => Ok(None),
    }
}

/// What an element says.
fn set_element(alloc: Global, bytes: &[u8], text: &[u8], tags: Tags) -> Result<Splice, NoMemory>
    requires { AreTags (length bytes.now) tags }
    ensures { IfOk result (λ splice. splice ≡ set_element bytes.now text.now tags) }
{
    let text = escaped(alloc, Escape::Text, text)?;
    if tags.empty {
        return opened(alloc, bytes, tags, text.held.as_slice());
    }
    Ok(Splice::Replace {
        start: tags.head_end,
        end: tags.tail_start,
        text,
    })
}

fn set_to(alloc: Global, bytes: &[u8], text: &[u8], part: Part) -> Result<Option<Splice>, NoMemory>
    requires { IsPart (length bytes.now) part }
    ensures { IfOk result (λ found. IsOne found (set_to bytes.now text.now part)) }
{
    match part {
        Part::Element { tags, .. } => {
            let splice = set_element(alloc, bytes, text, tags)?;
            Ok(Some(splice))
        }
        Part::Attribute { value, quote, .. } => {
            let text = escaped(alloc, Escape::Value(quote), text)?;
            Ok(Some(replace(value, text)))
        }
        Part::Text { span } => {
            let text = escaped(alloc, Escape::Text, text)?;
            Ok(Some(replace(span, text)))
        }
        _ => Ok(None),
    }
}

/// Appends a splice.
fn push_splice(out: &mut Vec<Splice>, splice: Splice) -> Result<(), NoMemory>
    ensures { OnOk result (out.new.items ≡ out.old.items ++ splice ∷ []) }
{
    match out.push(splice) {
        Ok(()) => Ok(()),
        Err(_) => Err(NoMemory),
    }
}

/// Appends a splice, if there is one.
fn push_one(out: &mut Vec<Splice>, splice: Option<Splice>) -> Result<bool, NoMemory>
    ensures { IfOk result (λ taken. (found : Option (List Splice)) → IsOne splice found →
        AddsRow found out.old.items out.new.items taken) }
{
    match splice {
        Some(splice) => {
            push_splice(out, splice)?;
            Ok(true)
        }
        None => Ok(false),
    }
}

/// The place of the name in the end tag of an element.
fn end_name(tags: Tags) -> Span
    requires low { tags.tail_start + 2 + tags.name.end < 2 ^ 32 }
    requires order { tags.name.start ≤ tags.name.end }
    ensures { result ≡ end_name tags }
{
    let start = tags.tail_start + 2;
    Span {
        start,
        end: start + (tags.name.end - tags.name.start),
    }
}

/// New names in the tags of an element.
fn push_names(alloc: Global, out: &mut Vec<Splice>, name: &[u8], tags: Tags) -> Result<(), NoMemory>
    requires low { tags.tail_start + 2 + tags.name.end < 2 ^ 32 }
    requires order { tags.name.start ≤ tags.name.end }
    ensures { OnOk result (out.new.items ≡ out.old.items ++ renamed_tags name.now tags) }
{
    let first = bytes_of(alloc, name)?;
    push_splice(out, replace(tags.name, first))?;
    if tags.empty {
        return Ok(());
    }
    let last = bytes_of(alloc, name)?;
    push_splice(out, replace(end_name(tags), last))
}

/// New names.
fn push_renamed(
    alloc: Global,
    out: &mut Vec<Splice>,
    name: &[u8],
    part: Part,
) -> Result<bool, NoMemory>
    requires { (len : ℕ) × IsPart len part }
    ensures { IfOk result (AddsRow (renamed name.now part) out.old.items out.new.items) }
{
    match part {
        Part::Element { tags, .. } => {
            push_names(alloc, out, name, tags)?;
            Ok(true)
        }
        Part::Attribute { name: span, .. } => {
            let text = bytes_of(alloc, name)?;
            push_splice(out, replace(span, text))?;
            Ok(true)
        }
        Part::Instruction { target, .. } => {
            let text = bytes_of(alloc, name)?;
            push_splice(out, replace(target, text))?;
            Ok(true)
        }
        _ => Ok(false),
    }
}

/// Appends the splices of an operation on a node; false where it does not take the node's kind.
pub(crate) fn push_row(
    alloc: Global,
    out: &mut Vec<Splice>,
    bytes: &[u8],
    operation: Operation<'_>,
    part: Part,
) -> Result<bool, NoMemory>
    requires { IsPart (length bytes.now) part }
    ensures { IfOk result (AddsRow (row bytes.now operation.entry part) out.old.items out.new.items) }
{
    match operation {
        Operation::Remove => push_one(out, removed(alloc, part)),
        Operation::Replace(text) => {
            let text = bytes_of(alloc, text.as_bytes())?;
            push_one(out, replaced(text, part))
        }
        Operation::Before(text) => {
            let text = bytes_of(alloc, text.as_bytes())?;
            push_one(out, put_before(text, part))
        }
        Operation::After(text) => {
            let text = bytes_of(alloc, text.as_bytes())?;
            push_one(out, put_after(text, part))
        }
        Operation::First(text) => {
            let splice = put_first(alloc, bytes, text.as_bytes(), part)?;
            push_one(out, splice)
        }
        Operation::Last(text) => {
            let splice = put_last(alloc, bytes, text.as_bytes(), part)?;
            push_one(out, splice)
        }
        Operation::Attr(text) => {
            let splice = given_attribute(alloc, text.as_bytes(), part)?;
            push_one(out, splice)
        }
        Operation::Set(text) => {
            let splice = set_to(alloc, bytes, text.as_bytes(), part)?;
            push_one(out, splice)
        }
        Operation::Rename(name) => push_renamed(alloc, out, name.as_bytes(), part),
    }
}
