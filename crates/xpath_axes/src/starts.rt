//! Where the walks over the axes of a node begin (XPath 1.0, section 2.2).

ghost use Rattle.std.specs.Prelude.{◌≡◌, ◌+◌, ◌^◌, ◌⊎◌, ◌<◌, ◌≤◌, false, length};
ghost use Rattle.xml_model.specs.declared.Axis.TheVariants as axes;
ghost use Rattle.xml_model.specs.Items.{first_place};
ghost use Rattle.xml_model.specs.Records.{records};
ghost use Rattle.vtd_words.specs.Lists.{list_of};
ghost use Rattle.vtd_words.specs.Table.{ForEachEntry, IsNodeOf, nodes_of};
ghost use Rattle.xpath_axes.specs.Walks.{stop_of, Covers};

use crate::walk::Walk;
use vtd_words::{Part, Table, Words};
use xml_model::{Kind, Node};

/// The walk over nothing.
pub fn nothing<W: Words>(table: &Table<'_, W>, attributes: bool) -> Walk
    ensures few { length table.now.bytes < 2 ^ 30 }
    ensures end { length (list_of Part.Records (W.lists table.now.words)) ≤ result.at }
    ensures attributes { result.attributes ≡ attributes }
{
    Walk {
        at: table.words().len(Part::Records),
        floor: 0,
        level: None,
        attributes,
    }
}

/// The walk over what is in a node, the root or an element: from the record after its first on, over records of a
/// level that is higher than its own.
fn inside<W: Words>(table: &Table<'_, W>, node: Node) -> (u32, u32)
    requires { IsNodeOf table.now.bytes (W.lists table.now.words) node }
    ensures after { result.0 ≡ node.at + 1 }
    ensures level { ForEachEntry table.now.bytes (W.lists table.now.words) node (λ nest e.
        result.1 ≡ length e.holders + 1) }
{
    (table.after_first(node), table.level_at(node) + 1)
}

/// The walk over the descendants of a node.
pub fn descendants_of<W: Words>(table: &Table<'_, W>, node: Node) -> Walk
    requires { IsNodeOf table.now.bytes (W.lists table.now.words) node }
    ensures axis { ForEachEntry table.now.bytes (W.lists table.now.words) node (λ nest e.
        Covers axes.Descendant result (records nest (first_place table.now.bytes)) (nodes_of table.now.bytes nest) e) }
    ensures children { result.attributes ≡ false }
    ensures stop { ForEachEntry table.now.bytes (W.lists table.now.words) node (λ nest e.
        (node.kind ≡ Kind.Root) ⊎ (node.kind ≡ Kind.Element) →
        stop_of result (records nest (first_place table.now.bytes)) ≡ e.past) }
{
    match node.kind {
        Kind::Root => Walk {
            at: 1,
            floor: 0,
            level: None,
            attributes: false,
        },
        Kind::Element => {
            let (at, floor) = inside(table, node);
            Walk {
                at,
                floor,
                level: None,
                attributes: false,
            }
        }
        _ => nothing(table, false),
    }
}

/// The walk over the children of a node.
pub fn children_of<W: Words>(table: &Table<'_, W>, node: Node) -> Walk
    requires { IsNodeOf table.now.bytes (W.lists table.now.words) node }
    ensures axis { ForEachEntry table.now.bytes (W.lists table.now.words) node (λ nest e.
        Covers axes.Child result (records nest (first_place table.now.bytes)) (nodes_of table.now.bytes nest) e) }
    ensures children { result.attributes ≡ false }
    ensures stop { ForEachEntry table.now.bytes (W.lists table.now.words) node (λ nest e.
        (node.kind ≡ Kind.Root) ⊎ (node.kind ≡ Kind.Element) →
        stop_of result (records nest (first_place table.now.bytes)) ≡ e.past) }
{
    match node.kind {
        Kind::Root => Walk {
            at: 1,
            floor: 0,
            level: Some(0),
            attributes: false,
        },
        Kind::Element => {
            let (at, floor) = inside(table, node);
            Walk {
                at,
                floor,
                level: Some(floor),
                attributes: false,
            }
        }
        _ => nothing(table, false),
    }
}

/// The walk over the attributes of a node.
pub fn attributes_of<W: Words>(table: &Table<'_, W>, node: Node) -> Walk
    requires { IsNodeOf table.now.bytes (W.lists table.now.words) node }
    ensures { ForEachEntry table.now.bytes (W.lists table.now.words) node (λ nest e.
        Covers axes.Attribute result (records nest (first_place table.now.bytes)) (nodes_of table.now.bytes nest) e) }
{
    match node.kind {
        Kind::Element => {
            let (at, floor) = inside(table, node);
            Walk {
                at,
                floor,
                level: Some(floor),
                attributes: true,
            }
        }
        _ => nothing(table, true),
    }
}

/// The walk over what follows a node. To find where the node ends it reads the records of what is in the node.
pub fn following_of<W: Words>(table: &Table<'_, W>, node: Node) -> Walk
    requires { IsNodeOf table.now.bytes (W.lists table.now.words) node }
    ensures { ForEachEntry table.now.bytes (W.lists table.now.words) node (λ nest e.
        Covers axes.Following result (records nest (first_place table.now.bytes)) (nodes_of table.now.bytes nest) e) }
{
    Walk {
        at: table.end_of(node),
        floor: 0,
        level: None,
        attributes: false,
    }
}

/// The walk over the later siblings of a node. To find where the node ends it reads the records of what is in it.
pub fn following_siblings_of<W: Words>(table: &Table<'_, W>, node: Node) -> Walk
    requires { IsNodeOf table.now.bytes (W.lists table.now.words) node }
    ensures { ForEachEntry table.now.bytes (W.lists table.now.words) node (λ nest e.
        Covers axes.FollowingSibling result (records nest (first_place table.now.bytes))
        (nodes_of table.now.bytes nest) e) }
{
    if !node.kind.is_child() {
        return nothing(table, false);
    }
    let level = table.level_at(node);
    Walk {
        at: table.end_of(node),
        floor: level,
        level: Some(level),
        attributes: false,
    }
}
