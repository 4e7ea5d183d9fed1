//! Where the nodes of a list are, by one pass along the records.

ghost use Rattle.std.specs.Prelude.{◌≡◌, ℕ, suc, ◌<◌, ◌≤◌, List, [], ◌∷◌, ◌++◌, length, map, All, IfOk, OnOk};
ghost use Rattle.std.specs.List.{AllZip};
ghost use Rattle.std.specs.List.Sorted.{IsStrictlyIncreasing};
ghost use Rattle.xml_model.specs.declared.Node.{Node as ListedNode};
ghost use Rattle.xml_model.specs.Items.{first_place};
ghost use Rattle.xml_model.specs.Records.{records};
ghost use Rattle.xml_model.specs.Scan.{level_of as level_of_record, record_at};
ghost use Rattle.vtd_words.specs.Lists.{list_of};
ghost use Rattle.vtd_words.specs.Table.{ForEachNest, IsNodeOf};
ghost use Rattle.vtd_cursor.specs.Listed.{IsSpanOf};
ghost use Rattle.vtd_cursor.specs.Passes.{AreBegun, EndsOne, HasPass, IsBegun, PassOf};

use crate::pieces::{LastPiece, after_end_tags, last_piece};
use crate::slots::OpenElements;
use crate::spans::{node_start, span};
use std::alloc::Global;
use vtd_location::Nav;
use vtd_words::{Part, Table, Words, level_of, parts_at};
use xml_model::{Kind, NoMemory, Node, Span};

/// Where a node is, but for the end of an element, which is left at its start.
fn begun_span<W: Words>(nav: &Nav<'_, W>, node: Node) -> Span
    requires { IsNodeOf nav.now.bytes (W.lists nav.now.words) node }
    ensures { ForEachNest nav.now.bytes (W.lists nav.now.words) (λ nest. IsBegun nav.now.bytes nest node result) }
{
    match node.kind {
        Kind::Element => {
            let start = node_start(nav.table(), node);
            Span { start, end: start }
        }
        _ => span(nav, node),
    }
}

/// Makes room for so many spans.
fn reserve_spans(spans: &mut Vec<Span>, count: usize) -> Result<(), NoMemory>
    ensures { spans.new.items ≡ spans.old.items }
{
    spans.reserve(count).map_err(|_| NoMemory)
}

fn push_span(spans: &mut Vec<Span>, span: Span) -> Result<(), NoMemory>
    ensures { OnOk result (spans.new.items ≡ spans.old.items ++ span ∷ []) }
{
    spans.push(span).map_err(|_| NoMemory)
}

/// The spans of nodes, but for the ends of elements.
fn begun_spans<W: Words>(
    alloc: Global,
    nav: &Nav<'_, W>,
    nodes: &[Node],
) -> Result<Vec<Span>, NoMemory>
    requires { All (IsNodeOf nav.now.bytes (W.lists nav.now.words)) nodes.now }
    ensures { IfOk result (λ spans. ForEachNest nav.now.bytes (W.lists nav.now.words) (λ nest.
        AreBegun nav.now.bytes nest nodes.now spans.items)) }
{
    let mut spans = Vec::new(alloc);
    reserve_spans(&mut spans, nodes.len())?;
    for node in nodes {
        let span = begun_span(nav, *node);
        push_span(&mut spans, span)?;
    }
    Ok(spans)
}

/// Writes the end of a span.
fn write_end(spans: &mut [Span], place: usize, end: u32)
    requires { place < length spans.old }
    ensures { EndsOne spans.old spans.new place end }
{
    spans[place].end = end;
}

/// Ends the open elements of a level and those in them, before a record of that level, or at the end of the records.
fn end_open<W: Words>(
    table: &Table<'_, W>,
    spans: &mut [Span],
    elements: &mut OpenElements,
    level: u32,
    at: u32,
)
    requires within { at ≤ length (list_of Part.Records (W.lists table.now.words)) }
    requires level { ForEachNest table.now.bytes (W.lists table.now.words) (λ nest.
        level ≡ level_of_record (record_at at (records nest (first_place table.now.bytes)))) }
    requires pass { HasPass table.now.bytes (W.lists table.now.words) spans.old elements.old.slots
        elements.old.bound at }
    ensures pass { (nodes : List ListedNode) (done : ℕ) →
        PassOf table.now.bytes (W.lists table.now.words) nodes spans.old
        elements.old.slots elements.old.bound done at →
        PassOf table.now.bytes (W.lists table.now.words) nodes spans.new
        elements.new.slots elements.new.bound done (suc at) }
    ensures bound { elements.new.bound ≤ level }
{
    let bytes = table.bytes();
    let words = table.words();
    if elements.bound() <= level {
        return;
    }
    let mut piece = last_piece(bytes, words, at - 1);
    'ends: while elements.bound() > level {
        let opened = elements.bound() - 1;
        let end = after_end_tags(bytes, piece.end, piece.opened - opened);
        let number = elements.pop();
        write_end(spans, number - 1, end);
        piece = LastPiece { end, opened };
    }
}

/// Goes from a record to another, and ends the open elements that end on the way. Where none is open it is there.
fn pass_to<W: Words>(
    table: &Table<'_, W>,
    spans: &mut [Span],
    elements: &mut OpenElements,
    from: u32,
    to: u32,
)
    requires order { from ≤ to }
    requires within { to ≤ length (list_of Part.Records (W.lists table.now.words)) }
    requires pass { HasPass table.now.bytes (W.lists table.now.words) spans.old elements.old.slots
        elements.old.bound from }
    ensures { (nodes : List ListedNode) (done : ℕ) →
        PassOf table.now.bytes (W.lists table.now.words) nodes spans.old
        elements.old.slots elements.old.bound done from →
        PassOf table.now.bytes (W.lists table.now.words) nodes spans.new
        elements.new.slots elements.new.bound done to }
{
    let words = table.words();
    for at in from..to {
        if elements.bound() == 0 {
            return;
        }
        let level = level_of(parts_at(words, at));
        end_open(table, spans, elements, level, at);
    }
}

/// Writes the ends of the elements of a list.
fn end_all<W: Words>(table: &Table<'_, W>, nodes: &[Node], spans: &mut [Span])
    requires nodes { All (IsNodeOf table.now.bytes (W.lists table.now.words)) nodes.now }
    requires order { IsStrictlyIncreasing (map (λ n. n.at) nodes.now) }
    requires begun { ForEachNest table.now.bytes (W.lists table.now.words) (λ nest.
        AreBegun table.now.bytes nest nodes.now spans.old) }
    ensures { AllZip (IsSpanOf table.now.bytes (W.lists table.now.words)) nodes.now spans.new }
{
    let words = table.words();
    let records = words.len(Part::Records);
    let mut elements = OpenElements::new();
    let mut next = 0;
    for i in 0..nodes.len() {
        let node = nodes[i];
        let Kind::Element = node.kind else {
            continue;
        };
        let level = table.level_at(node);
        pass_to(table, spans, &mut elements, next, node.at);
        end_open(table, spans, &mut elements, level, node.at);
        elements.push(i + 1, level);
        next = table.after_first(node);
    }
    pass_to(table, spans, &mut elements, next, records);
    end_open(table, spans, &mut elements, 0, records);
}

/// Where the nodes of a list are, in bytes, each as `span` gives it. The list is in document order, each node once.
///
/// It goes forward once over the records that the listed elements have, and reads a record at most twice and each end
/// tag at most once, however deep the elements are in one another; a text node takes its own records besides. So it
/// costs at most the records and the bytes that are in some listed node, where `span` of each costs those of all nodes
/// together.
///
/// # Errors
/// `NoMemory` where the memory for the spans was not to be had.
pub fn spans_of<W: Words>(
    alloc: Global,
    nav: &Nav<'_, W>,
    nodes: &[Node],
) -> Result<Vec<Span>, NoMemory>
    requires nodes { All (IsNodeOf nav.now.bytes (W.lists nav.now.words)) nodes.now }
    requires order { IsStrictlyIncreasing (map (λ n. n.at) nodes.now) }
    ensures { IfOk result (λ spans.
        AllZip (IsSpanOf nav.now.bytes (W.lists nav.now.words)) nodes.now spans.items) }
{
    let mut spans = begun_spans(alloc, nav, nodes)?;
    end_all(nav.table(), nodes, &mut spans);
    Ok(spans)
}
