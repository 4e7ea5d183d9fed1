//! The declarations of the elements round an element that it needs.

ghost use Rattle.std.specs.Prelude.{◌≡◌, ◌+◌, ◌*◌, ◌<◌, ◌≤◌, ◌^◌, ◌++◌, ◌∷◌, [], List, filter, length, take, drop, OnOk};
ghost use Rattle.xml_model.specs.Items.{Attribute};
ghost use Rattle.xml_model.specs.Accepted.{Accepted};
ghost use Rattle.xml_model.specs.declared.Kind.TheVariants as kinds;
ghost use Rattle.xml_model.specs.declared.Node.{Node};
ghost use Rattle.vtd_words.specs.Lists.{list_of};
ghost use Rattle.vtd_words.specs.Table.{ArePartsAt, ForEachEntry, IsNodeOf, nodes_of};
ghost use Rattle.xml_fragments.specs.Fragment.{needed_of, needs, subtree};
ghost use Rattle.vtd_fragment.specs.Prefixes.{AreFound, is_bound_at, known};
ghost use Rattle.vtd_fragment.specs.Round.{AtLevel, nodes_in, inserted};

use crate::names::open_before;
use crate::passing::{note_all, pass_names};
use crate::prefixes::{Prefixes, declared_prefix, known};
use crate::records::{attribute_at, range, slice_of};
use std::alloc::Global;
use vtd_words::{Part, Parts, Table, Words, parts_at};
use xml_model::{NoMemory, Node, TokenKind};

/// What is before a declaration.
const SPACE: &[u8] = b" ";

/// The prefix that is bound for ever.
const XML: &[u8] = b"xml";

/// Appends bytes.
pub fn push_all(out: &mut Vec<u8>, bytes: &[u8]) -> Result<(), NoMemory>
    ensures { OnOk result (out.new.items ≡ out.old.items ++ bytes.now) }
{
    out.extend_from_slice(bytes).map_err(|_| NoMemory)
}

/// Whether the nearest declaration of a prefix round an element is of the element that has a level, and is used.
fn is_bound(prefixes: &Prefixes<'_>, level: u32, prefix: &[u8]) -> bool
    ensures { result ≡ is_bound_at level (known prefixes.now prefix.now) }
{
    match known(prefixes, prefix) {
        Some(declared) => declared.level == level && declared.is_used,
        None => false,
    }
}

/// Whether an element needs an attribute of the element round it that has a level, by the record of its name.
fn is_needed<W: Words>(
    table: &Table<'_, W>,
    prefixes: &Prefixes<'_>,
    level: u32,
    at: u32,
    name: Parts,
) -> bool
    requires room { at + 2 ≤ length (list_of Part.Records (W.lists table.now.words)) }
    requires bound { at + 2 < 2 ^ 32 }
    requires name { ArePartsAt (list_of Part.Records (W.lists table.now.words)) at name }
    ensures { (node : Node) → node.kind ≡ kinds.Element →
        (r : AtLevel table.now.bytes (W.lists table.now.words) node level) →
        AreFound prefixes.now table.now.bytes r.nest r.entry → (before after : List Attribute) (a : Attribute) →
        r.holder.tag.attributes ≡ before ++ a ∷ after → at ≡ r.holder.index + 1 + 2 * length before →
        result ≡ needs (nodes_in r.nest r.entry table.now.bytes) r.holder a }
{
    let words = table.words();
    if name.token != TokenKind::NamespaceName as u8 {
        return false;
    }
    let value = parts_at(words, at + 1);
    if value.length == 0 {
        return false;
    }
    let Some(prefix) = declared_prefix(slice_of(table.bytes(), name)) else {
        return false;
    };
    if prefix == XML {
        return false;
    }
    is_bound(prefixes, level, prefix)
}

/// Appends an attribute after a space, by the records of its name and its value.
fn push_spaced(out: &mut Vec<u8>, bytes: &[u8], name: Parts, value: Parts) -> Result<(), NoMemory>
    requires narrow { value.offset + value.length < 2 ^ 31 }
    ensures { OnOk result (out.new.items ≡ (out.old.items ++ 32 ∷ []) ++ drop name.offset
        (take (value.offset + value.length + 1) bytes.now)) }
{
    push_all(out, SPACE)?;
    push_all(
        out,
        range(bytes, name.offset, value.offset + value.length + 1),
    )
}

/// Appends an attribute of the element round an element that has a level, if it needs it, by the record of its name.
fn push_if_needed<W: Words>(
    out: &mut Vec<u8>,
    table: &Table<'_, W>,
    prefixes: &Prefixes<'_>,
    level: u32,
    at: u32,
    name: Parts,
) -> Result<(), NoMemory>
    requires room { at + 2 ≤ length (list_of Part.Records (W.lists table.now.words)) }
    requires bound { at + 2 < 2 ^ 32 }
    requires name { ArePartsAt (list_of Part.Records (W.lists table.now.words)) at name }
    ensures { OnOk result ((node : Node) → node.kind ≡ kinds.Element →
        (r : AtLevel table.now.bytes (W.lists table.now.words) node level) →
        AreFound prefixes.now table.now.bytes r.nest r.entry →
        (before after : List Attribute) (a : Attribute) → r.holder.tag.attributes ≡ before ++ a ∷ after →
        at ≡ r.holder.index + 1 + 2 * length before →
        out.new.items ≡ out.old.items ++ inserted
        (filter (needs (nodes_in r.nest r.entry table.now.bytes) r.holder) (a ∷ []))) }
{
    if !is_needed(table, prefixes, level, at, name) {
        return Ok(());
    }
    let words = table.words();
    let value = parts_at(words, at + 1);
    push_spaced(out, table.bytes(), name, value)
}

/// Appends what an element needs of the declarations of the element round it that has a level, by its tag's record,
/// each after a space.
fn push_needed<W: Words>(
    out: &mut Vec<u8>,
    table: &Table<'_, W>,
    prefixes: &Prefixes<'_>,
    level: u32,
    tag: u32,
) -> Result<(), NoMemory>
    requires room { tag < length (list_of Part.Records (W.lists table.now.words)) }
    ensures { OnOk result ((node : Node) → node.kind ≡ kinds.Element →
        (r : AtLevel table.now.bytes (W.lists table.now.words) node level) →
        AreFound prefixes.now table.now.bytes r.nest r.entry → tag ≡ r.holder.index →
        out.new.items ≡ out.old.items ++ inserted
        (filter (needs (nodes_in r.nest r.entry table.now.bytes) r.holder) r.holder.tag.attributes)) }
{
    let words = table.words();
    let records = words.len(Part::Records);
    prove!(tag < records);
    let first = tag + 1;
    let mut number = 0;
    while let Some(name) = attribute_at(words, first + 2 * number) {
        push_if_needed(out, table, prefixes, level, first + 2 * number, name)?;
        number += 1;
    }
    Ok(())
}

/// Appends the declarations round an element that it needs, each after a space, those of the outermost element first.
pub fn push_all_needed<W: Words>(
    alloc: Global,
    out: &mut Vec<u8>,
    table: &Table<'_, W>,
    node: Node,
) -> Result<(), NoMemory>
    requires node { IsNodeOf table.now.bytes (W.lists table.now.words) node }
    requires element { node.kind ≡ kinds.Element }
    ensures { OnOk result (ForEachEntry table.now.bytes (W.lists table.now.words) node (λ nest e.
        Accepted 8 table.now.bytes nest → out.new.items ≡ out.old.items ++ inserted
        (needed_of (subtree e.path (nodes_of table.now.bytes nest)) e.holders))) }
{
    let words = table.words();
    let open_tags = open_before(words, table.after_first(node));
    let count = table.level_at(node);
    let mut prefixes = note_all(alloc, table, &open_tags, node)?;
    pass_names(&mut prefixes, table, node)?;
    for level in 0..count {
        let tag = open_tags.tag_at(level as u8);
        push_needed(out, table, &prefixes, level, tag)?;
    }
    Ok(())
}
