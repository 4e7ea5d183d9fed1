//! The lines of a list of nodes.

ghost use Rattle.std.specs.Prelude.{◌≡◌, ℕ, ◌-◌, ◌<◌, ◌≤◌, List, ◌∷◌, ◌++◌, [], length, map, All, OnOk, IfOk};
ghost use Rattle.std.specs.List.{AllByRecursion, Contains};
ghost use Rattle.std.specs.List.Sorted.{IsStrictlyIncreasing};
ghost use Rattle.xml_model.specs.Tree.{Entry};
ghost use Rattle.vtd_words.specs.Table.{ForEachNest, IsNodeOf, node_of, nodes_of};
ghost use Rattle.vtd_listing.specs.Nodes.{kind_word, node_listing, paired_lines, span_line};

use crate::lines::{push_decimal, push_text};
use std::alloc::Global;
use vtd_cursor::spans_of;
use vtd_location::Nav;
use vtd_words::Words;
use xml_model::{Kind, NoMemory, Node, NodeList, Span};

/// The word for a kind of node.
fn kind_word(kind: Kind) -> &'static [u8]
    ensures { result.now ≡ kind_word kind }
{
    match kind {
        Kind::Root => b"root",
        Kind::Element => b"element",
        Kind::Attribute => b"attribute",
        Kind::Text => b"text",
        Kind::Comment => b"comment",
        Kind::Instruction => b"instruction",
    }
}

/// Adds the line of a node.
fn push_node(lines: &mut Vec<u8>, kind: Kind, span: Span) -> Result<(), NoMemory>
    ensures { OnOk result (lines.new.items ≡ lines.old.items ++ span_line kind span) }
{
    push_text(lines, kind_word(kind))?;
    push_text(lines, b" ")?;
    push_decimal(lines, u64::from(span.start))?;
    push_text(lines, b" ")?;
    push_decimal(lines, u64::from(span.end.saturating_sub(span.start)))?;
    push_text(lines, b"\n")
}

/// Adds the lines of nodes, each with its span.
fn push_nodes(lines: &mut Vec<u8>, nodes: &[Node], spans: &[Span]) -> Result<(), NoMemory>
    requires { length nodes.now ≡ length spans.now }
    ensures { OnOk result (lines.new.items ≡ lines.old.items ++ paired_lines nodes.now spans.now) }
{
    for i in 0..nodes.len() {
        push_node(lines, nodes[i].kind, spans[i])?;
    }
    Ok(())
}

/// The lines of a list of nodes of a document: how many there are, and the kind, the start and the length of each in
/// bytes. The list is in document order, each node once. It takes one pass along the records (`spans_of`).
///
/// # Errors
/// `NoMemory` where the memory for the lines was not to be had.
#[tactic(auto, unfolding(crate::specs::Nodes::node_listing))]
pub fn node_lines<W: Words>(
    alloc: Global,
    nav: &Nav<'_, W>,
    nodes: &NodeList,
) -> Result<Vec<u8>, NoMemory>
    requires nodes { All (IsNodeOf nav.now.bytes (W.lists nav.now.words)) nodes.now }
    requires order { IsStrictlyIncreasing (map (λ n. n.at) nodes.now) }
    ensures { IfOk result (λ lines. ForEachNest nav.now.bytes (W.lists nav.now.words) (λ nest.
        (es : List Entry) → nodes.now ≡ map node_of es → AllByRecursion (Contains (nodes_of nav.now.bytes nest)) es →
        lines.items ≡ node_listing es)) }
{
    let nodes = nodes.held.as_slice();
    let spans = spans_of(alloc, nav, nodes)?;
    let mut lines = Vec::new(alloc);
    push_text(&mut lines, b"nodes ")?;
    push_decimal(&mut lines, nodes.len() as u64)?;
    push_text(&mut lines, b"\n")?;
    push_nodes(&mut lines, nodes, &spans)?;
    Ok(lines)
}
