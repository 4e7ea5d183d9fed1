//! The nodes of a document (XPath 1.0, section 5), where they are, and where their parts are.

ghost use Rattle.std.specs.Prelude.{◌≡◌};
ghost use Rattle.vtd_words.specs.Table.{IsNodeOf};

use std::alloc::AllocError;
use vtd_cursor::{span, tags_of, value_span};
use vtd_location::Nav;
use vtd_words::{Part, Table, Words};
use xml_model::{Kind, Node};

/// The word of a kind of node.
pub fn kind_word(kind: Kind) -> &'static str {
    match kind {
        Kind::Root => "root",
        Kind::Element => "element",
        Kind::Attribute => "attribute",
        Kind::Text => "text",
        Kind::Comment => "comment",
        Kind::Instruction => "instruction",
    }
}

/// The number that begins a row.
pub fn number_of(input: &str) -> u32 {
    input.parse::<u32>().unwrap_or(u32::MAX)
}

/// Where the records of a node end, and which node it is in.
fn write_node<W: Words>(out: &mut String, table: &Table<'_, W>, at: u32) -> Result<(), AllocError> {
    let Some(node) = table.node_at(at) else {
        return out.push_str("none");
    };
    out.push_str(kind_word(node.kind))?;
    write!(out, " to {}", table.end_of(node))?;
    if let Kind::Text = node.kind {
        write!(out, ", run to {}", table.run_end(node))?;
    }
    match table.owner_of(node) {
        Some(owner) => write!(out, " in {}", owner.at),
        None => Ok(()),
    }
}

/// From which byte to which a node is.
fn write_span<W: Words>(out: &mut String, nav: &Nav<'_, W>, at: u32) -> Result<(), AllocError> {
    let Some(node) = nav.table().node_at(at) else {
        return out.push_str("none");
    };
    let span = span(nav, node);
    write!(out, "{}..{}", span.start, span.end)
}

/// Where the tags of an element are.
fn write_tags<W: Words>(out: &mut String, nav: &Nav<'_, W>, node: Node) -> Result<(), AllocError>
    requires node { IsNodeOf nav.now.bytes (W.lists nav.now.words) node }
    requires element { node.kind ≡ Kind.Element }
{
    let tags = tags_of(nav, node);
    write!(out, "{}..{}", tags.name.start, tags.name.end)?;
    write!(out, " {} {}", tags.head_end, tags.tail_start)?;
    if tags.empty {
        return out.push_str(" empty");
    }
    Ok(())
}

/// Where the tags of an element or the value of an attribute are.
fn write_parts<W: Words>(out: &mut String, nav: &Nav<'_, W>, at: u32) -> Result<(), AllocError> {
    let Some(node) = nav.table().node_at(at) else {
        return out.push_str("none");
    };
    match node.kind {
        Kind::Element => write_tags(out, nav, node),
        Kind::Attribute => {
            let value = value_span(nav, node);
            write!(out, "{}..{}", value.start, value.end)
        }
        _ => out.push_str("no parts"),
    }
}

/// Whether a table answers its own bytes, and how many records.
fn write_whole<W: Words>(
    out: &mut String,
    table: &Table<'_, W>,
    given: &[u8],
) -> Result<(), AllocError> {
    if table.bytes() != given {
        return out.push_str("other bytes");
    }
    write!(out, "{}", table.words().len(Part::Records))
}

/// The answer of a table of nodes of a document.
pub fn answer<W: Words>(
    out: &mut String,
    table: &str,
    nav: &Nav<'_, W>,
    given: &[u8],
    input: &str,
) -> Result<(), AllocError> {
    let at = number_of(input);
    match table {
        "kinds" => write_node(out, nav.table(), at),
        "spans" => write_span(out, nav, at),
        "parts" => write_parts(out, nav, at),
        "counts" => write_whole(out, nav.table(), given),
        _ => out.push_str("no such table"),
    }
}
