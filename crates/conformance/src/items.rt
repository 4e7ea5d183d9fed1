//! The item at the start of a text (XML 1.0, productions 14 to 44).

ghost use Rattle.std.specs.Prelude.{◌≡◌, ◌<◌, ◌^◌, length};
ghost use Rattle.xml_items.specs.AttributeList.{has_attributes};

use crate::characters::whole;
use std::alloc::AllocError;
use xml_items::{AttributeItem, Attributes, Item, ItemKind, next_counted, next_item};

fn kind_word(kind: ItemKind) -> &'static str {
    match kind {
        ItemKind::Text => "text",
        ItemKind::StartTag => "start tag",
        ItemKind::EmptyTag => "empty tag",
        ItemKind::EndTag => "end tag",
        ItemKind::Comment => "comment",
        ItemKind::Instruction => "instruction",
        ItemKind::Cdata => "section",
        ItemKind::Declaration => "declaration",
        ItemKind::Doctype => "doctype",
    }
}

fn first_of(text: &str) -> Option<Item>
    requires { length text.now < 2 ^ 30 }
{
    next_item(whole(text), 0).ok().flatten()
}

/// The kind of the item, and whether it is the whole text.
fn write_kind(out: &mut String, text: &str) -> Result<(), AllocError>
    requires { length text.now < 2 ^ 30 }
{
    let Some(item) = first_of(text) else {
        return out.push_str("none");
    };
    out.push_str(kind_word(item.kind))?;
    if item.span.end as usize == text.len() {
        return Ok(());
    }
    out.push_str(" and more")
}

/// Where the name and the content of the item are.
fn write_places(out: &mut String, text: &str) -> Result<(), AllocError>
    requires { length text.now < 2 ^ 30 }
{
    let Some(item) = first_of(text) else {
        return out.push_str("none");
    };
    write!(out, "{}..{}", item.name.start, item.name.end)?;
    write!(out, " {}..{}", item.content.start, item.content.end)
}

/// How many items follow one another from the start of a text, and whether they go to its end.
fn walk(text: &str) -> (u32, bool)
    requires { length text.now < 2 ^ 30 }
{
    let bytes = whole(text);
    let mut at = 0;
    for count in 0..100 {
        match next_item(bytes, at) {
            Ok(Some(item)) => at = item.span.end,
            Ok(None) => return (count, true),
            Err(_) => return (count, false),
        }
    }
    (100, false)
}

fn write_walk(out: &mut String, text: &str) -> Result<(), AllocError>
    requires { length text.now < 2 ^ 30 }
{
    let (count, whole) = walk(text);
    if whole {
        return write!(out, "{count}, whole");
    }
    write!(out, "{count}, broken")
}

fn has_attributes(kind: ItemKind) -> bool
    ensures { result ≡ has_attributes kind }
{
    matches!(
        kind,
        ItemKind::StartTag | ItemKind::EmptyTag | ItemKind::EndTag | ItemKind::Declaration
    )
}

/// Where the name and the value of an attribute are.
fn write_attribute(out: &mut String, attribute: AttributeItem) -> Result<(), AllocError> {
    write!(out, "{}..{}=", attribute.name.start, attribute.name.end)?;
    write!(out, "{}..{};", attribute.value.start, attribute.value.end)
}

/// Where the names and the values of the attributes are.
fn write_attributes(out: &mut String, text: &str) -> Result<(), AllocError>
    requires { length text.now < 2 ^ 30 }
{
    let bytes = whole(text);
    if let Ok(Some(item)) = next_item(bytes, 0) {
        if has_attributes(item.kind) {
            for attribute in Attributes::of(bytes, item) {
                write_attribute(out, attribute)?;
            }
        }
    }
    if out.as_str().is_empty() {
        return out.push_str("none");
    }
    Ok(())
}

/// The number of attributes or parts of the item.
fn write_count(out: &mut String, text: &str) -> Result<(), AllocError>
    requires { length text.now < 2 ^ 30 }
{
    match next_counted(whole(text), 0) {
        Ok(Some(counted)) => write!(out, "{}", counted.attributes),
        _ => out.push_str("none"),
    }
}

/// The answer of a table of items.
pub fn answer(out: &mut String, table: &str, text: &str) -> Result<(), AllocError>
    requires { length text.now < 2 ^ 30 }
{
    match table {
        "kinds" => write_kind(out, text),
        "places" => write_places(out, text),
        "walks" => write_walk(out, text),
        "attributes" => write_attributes(out, text),
        "counts" => write_count(out, text),
        _ => out.push_str("no such table"),
    }
}
