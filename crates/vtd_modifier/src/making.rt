//! Which splices an operation makes of nodes.

ghost use Rattle.std.specs.Prelude.{◌≡◌, length, Ok, IfErr, IfOk, OnOk};
ghost use Rattle.std.specs.List.{All, AllByRecursion};
ghost use Rattle.vtd_edits.specs.Splices.{IsWithin};
ghost use Rattle.vtd_words.specs.Table.{ForEachEntry, IsNodeOf};
ghost use Rattle.vtd_modifier.specs.Outcomes.{has_name, outcome, AreNodesOf, ForEachEntries, IsRefused, IsRowRefused};
ghost use Rattle.vtd_modifier.specs.Outcomes.{TakesRow};
ghost use Rattle.vtd_modifier.specs.Parts.{part_of};
ghost use Rattle.vtd_modifier.specs.Rows.{row};

use crate::operation::{EditFault, Operation};
use crate::places::part_of;
use crate::rows::push_row;
use std::alloc::Global;
use vtd_cursor::span;
use vtd_edits::{Splice, Splices};
use vtd_location::Nav;
use vtd_words::Words;
use xml_chars::is_qname;
use xml_model::{Node, NodeList};

/// Whether the new name of an operation is a QName, if it has one.
fn has_name(operation: Operation<'_>) -> bool
    ensures { result ≡ has_name operation.entry }
{
    match operation {
        Operation::Rename(name) => is_qname(name),
        _ => true,
    }
}

/// Appends the splices of an operation on a node.
fn push_node<W: Words>(
    alloc: Global,
    nav: &Nav<'_, W>,
    operation: Operation<'_>,
    node: Node,
    out: &mut Vec<Splice>,
) -> Result<(), EditFault>
    requires { IsNodeOf nav.now.bytes (W.lists nav.now.words) node }
    ensures added { OnOk result (ForEachEntry nav.now.bytes (W.lists nav.now.words) node (λ nest e.
        TakesRow (row nav.now.bytes operation.entry (part_of nav.now.bytes e)) out.old.items out.new.items)) }
    ensures refused { IfErr result (λ fault. ForEachEntry nav.now.bytes (W.lists nav.now.words) node (λ nest e.
        IsRowRefused (row nav.now.bytes operation.entry (part_of nav.now.bytes e)) e.start fault)) }
    ensures within { OnOk result (AllByRecursion (IsWithin (length nav.now.bytes)) out.old.items →
        AllByRecursion (IsWithin (length nav.now.bytes)) out.new.items) }
{
    let part = part_of(nav, node);
    match push_row(alloc, out, nav.table().bytes(), operation, part) {
        Ok(true) => Ok(()),
        Ok(false) => Err(EditFault::Kind {
            at: span(nav, node).start,
        }),
        Err(_) => Err(EditFault::NoMemory),
    }
}

/// The splices of an operation on nodes of a document: those of each node, in the order of the list; they are within
/// the document. Texts are raw, but that of `Set` is escaped; what they make of the document is not checked. It is
/// linear in the list, the texts and what is in the elements of the list.
///
/// # Errors
/// `Name` exactly where the new name of `Rename` is no QName (Namespaces in XML 1.0, production 7); then `Kind` exactly
/// where the operation does not take the kind of a node, with the place where the first such node begins. `NoMemory`
/// may come in place of any other answer.
pub fn splices_of<W: Words>(
    alloc: Global,
    nav: &Nav<'_, W>,
    operation: Operation<'_>,
    nodes: &NodeList,
) -> Result<Splices, EditFault>
    requires { AreNodesOf nav.now.bytes (W.lists nav.now.words) nodes.now }
    ensures made { IfOk result (λ splices. ForEachEntries nav.now.bytes (W.lists nav.now.words) nodes.now (λ es.
        outcome nav.now.bytes operation.entry es ≡ Ok splices)) }
    ensures refused { IfErr result (λ fault. ForEachEntries nav.now.bytes (W.lists nav.now.words) nodes.now (λ es.
        IsRefused (outcome nav.now.bytes operation.entry es) fault)) }
    ensures within { IfOk result (All (IsWithin (length nav.now.bytes))) }
{
    if !has_name(operation) {
        return Err(EditFault::Name);
    }
    let mut held = Vec::new(alloc);
    for node in nodes.held.as_slice() {
        push_node(alloc, nav, operation, *node, &mut held)?;
    }
    Ok(Splices { held })
}
