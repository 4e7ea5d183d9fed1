//! Where the elements of a document are.

ghost use Rattle.std.specs.Prelude.{◌≡◌, ◌++◌, ◌∷◌, [], map, All, IfOk, IfSome, OnOk};
ghost use Rattle.std.specs.List.Sorted.{IsStrictlyIncreasing};
ghost use Rattle.vtd_words.specs.Table.{ForEachNest, IsNodeOf, node_of, nodes_of};
ghost use Rattle.vtd_cursor.specs.Elements.{element_node_at, elements_in, span_of};

use crate::listed::spans_of;
use std::alloc::Global;
use vtd_location::Nav;
use vtd_words::{Part, Words};
use xml_model::{Kind, NoMemory, Node, Span};

/// The element that begins at a record; `None` exactly where none does.
fn element_at<W: Words>(nav: &Nav<'_, W>, at: u32) -> Option<Node>
    ensures element { ForEachNest nav.now.bytes (W.lists nav.now.words) (λ nest.
        result ≡ element_node_at at (nodes_of nav.now.bytes nest)) }
    ensures node { IfSome result (IsNodeOf nav.now.bytes (W.lists nav.now.words)) }
{
    let node = nav.table().node_at(at)?;
    match node.kind {
        Kind::Element => Some(node),
        _ => None,
    }
}

fn push_node(nodes: &mut Vec<Node>, node: Node) -> Result<(), NoMemory>
    ensures { OnOk result (nodes.new.items ≡ nodes.old.items ++ node ∷ []) }
{
    nodes.push(node).map_err(|_| NoMemory)
}

/// The elements of a document, in document order. It goes once over all records.
///
/// # Errors
/// `NoMemory` where the memory for the nodes was not to be had.
pub fn elements_of<W: Words>(alloc: Global, nav: &Nav<'_, W>) -> Result<Vec<Node>, NoMemory>
    ensures elements { IfOk result (λ nodes. ForEachNest nav.now.bytes (W.lists nav.now.words) (λ nest.
        nodes.items ≡ map node_of (elements_in (nodes_of nav.now.bytes nest)))) }
    ensures nodes { IfOk result (λ nodes. All (IsNodeOf nav.now.bytes (W.lists nav.now.words)) nodes.items) }
    ensures order { IfOk result (λ nodes. IsStrictlyIncreasing (map (λ n. n.at) nodes.items)) }
{
    let words = nav.table().words();
    let records = words.len(Part::Records);
    let mut nodes = Vec::new(alloc);
    for at in 0..records {
        let Some(node) = element_at(nav, at) else {
            continue;
        };
        push_node(&mut nodes, node)?;
    }
    Ok(nodes)
}

/// Where the elements of a document are, in bytes, in document order. It goes twice over all records, and reads each
/// tag at most once, however deep the elements are in one another.
///
/// # Errors
/// `NoMemory` where the memory for the elements and their spans was not to be had.
pub fn element_spans<W: Words>(alloc: Global, nav: &Nav<'_, W>) -> Result<Vec<Span>, NoMemory>
    ensures { IfOk result (λ spans. ForEachNest nav.now.bytes (W.lists nav.now.words) (λ nest.
        spans.items ≡ map span_of (elements_in (nodes_of nav.now.bytes nest)))) }
{
    let nodes = elements_of(alloc, nav)?;
    let spans = spans_of(alloc, nav, &nodes)?;
    Ok(spans)
}
