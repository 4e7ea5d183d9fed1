//! Which declarations round an element bind names of it or in it (Namespaces in XML 1.0, section 6), by one pass over
//! its records.

ghost use Rattle.std.specs.Prelude.{◌≡◌, ◌+◌, true, List, IfOk, OnOk};
ghost use Rattle.xml_model.specs.Records.{Record};
ghost use Rattle.vtd_words.specs.Lists.{list_of};
ghost use Rattle.vtd_words.specs.Table.{ForEachEntry, IsNodeOf, Shows};
ghost use Rattle.vtd_namespaces.specs.OpenTags.{open_before};
ghost use Rattle.vtd_fragment.specs.Named.{is_named_kind};
ghost use Rattle.vtd_fragment.specs.Prefixes.{AreFound, AreNoted, HidesIn, PassesName};

use crate::names::name_at;
use crate::prefixes::{Prefixes, declares_some, hide, mark, note};
use std::alloc::Global;
use std::collections::BTreeMap;
use vtd_namespaces::{OpenTags, prefix_of};
use vtd_words::{Part, Table, Words, parts_at};
use xml_model::{Kind, NoMemory, Node};

/// The prefixes that the elements round an element declare. The open tags are those after its record.
pub fn note_all<'a, W: Words>(
    alloc: Global,
    table: &Table<'a, W>,
    open_tags: &OpenTags,
    node: Node,
) -> Result<Prefixes<'a>, NoMemory>
    requires node { IsNodeOf table.now.bytes (W.lists table.now.words) node }
    requires element { node.kind ≡ Kind.Element }
    requires opened { (rs : List Record) → Shows (list_of Part.Records (W.lists table.now.words)) rs →
        open_tags.now ≡ open_before (node.at + 1) rs }
    ensures { IfOk result (λ prefixes. ForEachEntry table.now.bytes (W.lists table.now.words) node (λ nest e.
        AreNoted prefixes e.holders)) }
{
    let words = table.words();
    let bytes = table.bytes();
    let count = table.level_at(node);
    let mut prefixes = BTreeMap::new(alloc);
    for level in 0..count {
        let tag = open_tags.tag_at(level as u8);
        note(&mut prefixes, bytes, words, tag, level)?;
    }
    Ok(prefixes)
}

/// Notes that the prefixes that an element's tag declares are declared again in the element. Where it declares one, this
/// goes once over the element's records.
fn hide_in<'a, W: Words>(
    prefixes: &mut Prefixes<'a>,
    table: &Table<'a, W>,
    name: Node,
) -> Result<(), NoMemory>
    requires node { IsNodeOf table.now.bytes (W.lists table.now.words) name }
    requires element { name.kind ≡ Kind.Element }
    ensures { OnOk result (HidesIn table.now.bytes (W.lists table.now.words) name prefixes.old prefixes.new) }
{
    let words = table.words();
    if !declares_some(words, name.at) {
        return Ok(());
    }
    let past = table.end_of(name);
    hide(prefixes, table.bytes(), words, name.at, past)?;
    Ok(())
}

/// Passes over an element's tag and its name.
fn pass_element<'a, W: Words>(
    prefixes: &mut Prefixes<'a>,
    table: &Table<'a, W>,
    name: Node,
) -> Result<(), NoMemory>
    requires node { IsNodeOf table.now.bytes (W.lists table.now.words) name }
    requires element { name.kind ≡ Kind.Element }
    ensures { OnOk result (PassesName table.now.bytes (W.lists table.now.words) name prefixes.old prefixes.new) }
{
    hide_in(prefixes, table, name)?;
    mark(prefixes, prefix_of(table, name), name.at)?;
    Ok(())
}

/// Passes over an attribute's name; without a prefix it is bound by no declaration.
fn pass_attribute<'a, W: Words>(
    prefixes: &mut Prefixes<'a>,
    table: &Table<'a, W>,
    name: Node,
) -> Result<(), NoMemory>
    requires node { IsNodeOf table.now.bytes (W.lists table.now.words) name }
    requires attribute { name.kind ≡ Kind.Attribute }
    ensures { OnOk result (PassesName table.now.bytes (W.lists table.now.words) name prefixes.old prefixes.new) }
{
    let prefix = prefix_of(table, name);
    if prefix.is_empty() {
        return Ok(());
    }
    mark(prefixes, prefix, name.at)?;
    Ok(())
}

/// Passes over the name of an element or an attribute.
fn pass_name<'a, W: Words>(
    prefixes: &mut Prefixes<'a>,
    table: &Table<'a, W>,
    name: Node,
) -> Result<(), NoMemory>
    requires node { IsNodeOf table.now.bytes (W.lists table.now.words) name }
    requires named { is_named_kind name.kind ≡ true }
    ensures { OnOk result (PassesName table.now.bytes (W.lists table.now.words) name prefixes.old prefixes.new) }
{
    match name.kind {
        Kind::Element => pass_element(prefixes, table, name),
        _ => pass_attribute(prefixes, table, name),
    }
}

/// Passes over the names of an element and in it. It goes once over their records, and once more over those of each
/// element among them that declares a prefix.
pub fn pass_names<'a, W: Words>(
    prefixes: &mut Prefixes<'a>,
    table: &Table<'a, W>,
    node: Node,
) -> Result<(), NoMemory>
    requires node { IsNodeOf table.now.bytes (W.lists table.now.words) node }
    requires element { node.kind ≡ Kind.Element }
    ensures { OnOk result (ForEachEntry table.now.bytes (W.lists table.now.words) node (λ nest e.
        AreNoted prefixes.old e.holders → AreFound prefixes.new table.now.bytes nest e)) }
{
    let words = table.words();
    for at in node.at..table.end_of(node) {
        let Some(name) = name_at(table, at, parts_at(words, at)) else {
            continue;
        };
        pass_name(prefixes, table, name)?;
    }
    Ok(())
}
