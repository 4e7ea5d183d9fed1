//! What is put in the place of a node's text or value.

ghost use Rattle.std.specs.Prelude.{◌≡◌, ◌⊎◌, ◌∷◌, [], fold, true, IfOk};
ghost use Rattle.std.specs.List.{list_all};
ghost use Rattle.std.specs.Str.{chars};
ghost use Rattle.xml_model.specs.Chars.{is_char};
ghost use Rattle.vtd_words.specs.Table.{ForEachEntry, IsNodeOf};
ghost use Rattle.vtd_patch.specs.Changes.{IsChange, IsIn, IsOnly, both};

use std::alloc::Global;
use vtd_location::Nav;
use vtd_modifier::{EditFault, Operation, Splice, Splices, splices_of};
use vtd_words::Words;
use xml_chars::is_char;
use xml_model::{Bytes, Kind, NoMemory, Node, NodeList};

/// Bytes for a range of a document, up to `end`, which is left out.
#[derive(Drop)]
pub(crate) struct Change {
    pub start: u32,
    pub end: u32,
    pub text: Bytes,
}

/// A list of one node.
fn alone(alloc: Global, node: Node) -> Result<NodeList, NoMemory>
    ensures { IfOk result (λ nodes. nodes ≡ node ∷ []) }
{
    match Vec::from_slice(alloc, &[node]) {
        Ok(held) => Ok(NodeList { held }),
        Err(_) => Err(NoMemory),
    }
}

/// The change of splices that are one, which replaces a range.
fn change_in(splices: Splices) -> Option<Change>
    ensures { IsOnly splices result }
{
    let mut held = splices.held;
    match held.pop() {
        Some(Splice::Replace { start, end, text }) => Some(Change { start, end, text }),
        Some(Splice::Insert { .. }) => None,
        None => None,
    }
}

/// The change that sets a node to a text.
pub(crate) fn change_of<W: Words>(
    alloc: Global,
    nav: &Nav<'_, W>,
    node: Node,
    text: &str,
) -> Result<Change, NoMemory>
    requires node { IsNodeOf nav.now.bytes (W.lists nav.now.words) node }
    requires kind { (node.kind ≡ Kind.Text) ⊎ (node.kind ≡ Kind.Attribute) }
    ensures made { IfOk result (λ change. ForEachEntry nav.now.bytes (W.lists nav.now.words) node (λ nest e.
        IsChange nav.now.bytes text.now e change)) }
    ensures within { IfOk result (IsIn nav.now.bytes) }
{
    let nodes = alone(alloc, node)?;
    let splices = match splices_of(alloc, nav, Operation::Set(text), &nodes) {
        Ok(splices) => splices,
        Err(EditFault::NoMemory) => return Err(NoMemory),
        Err(EditFault::Name) => unreachable!(),
        Err(EditFault::Kind { .. }) => unreachable!(),
    };
    let Some(change) = change_in(splices) else {
        unreachable!()
    };
    Ok(change)
}

/// Whether all so far are Chars, and one more.
fn both(so_far: bool, c: char) -> bool
    ensures { result ≡ both so_far c }
{
    so_far && is_char(c)
}

/// Whether all characters of a text are Chars, one after another.
fn fold_chars(text: &str) -> bool
    ensures { result ≡ fold both true (chars text.now) }
{
    text.chars().fold(true, |so_far, c| both(so_far, c))
}

/// Whether all characters of a text are Chars (XML 1.0, production 2).
#[tactic(auto, using(crate::proofs::Setting::chars_by))]
pub(crate) fn are_chars(text: &str) -> bool
    ensures { result ≡ list_all is_char (chars text.now) }
{
    fold_chars(text)
}
