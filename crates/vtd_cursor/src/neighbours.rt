//! The nodes next to a node, on the axes of XPath 1.0, section 2.2.

ghost use Rattle.std.specs.Prelude.{◌≡◌, ◌+◌, ◌<◌, ◌≤◌, List, length, Contains, filter, true, IfSome};
ghost use Rattle.xml_model.specs.declared.Axis.TheVariants as axes;
ghost use Rattle.xml_model.specs.Nest.{Forest};
ghost use Rattle.xml_model.specs.Tree.{axis_list, before, on_axis, Entry, Identifies};
ghost use Rattle.vtd_words.specs.Lists.{list_of};
ghost use Rattle.vtd_words.specs.Table.{ForEachEntry, IsNestOf, IsNodeOf, nodes_of};
ghost use Rattle.vtd_cursor.specs.Moves.{first_of, last_of};

use crate::searches::{attribute_from, child_before, child_from};
use vtd_words::{Part, Table, Words};
use xml_model::{Kind, Node};

/// The parent; `None` for the root.
pub fn parent_of<W: Words>(table: &Table<'_, W>, node: Node) -> Option<Node>
    requires { IsNodeOf table.now.bytes (W.lists table.now.words) node }
    ensures axis { ForEachEntry table.now.bytes (W.lists table.now.words) node (λ nest e.
        result ≡ first_of (axis_list axes.Parent e.path (nodes_of table.now.bytes nest))) }
    ensures node { IfSome result (λ found. IsNodeOf table.now.bytes (W.lists table.now.words) found) }
{
    table.owner_of(node)
}

/// The first child.
pub fn first_child_of<W: Words>(table: &Table<'_, W>, node: Node) -> Option<Node>
    requires { IsNodeOf table.now.bytes (W.lists table.now.words) node }
    ensures axis { ForEachEntry table.now.bytes (W.lists table.now.words) node (λ nest e.
        result ≡ first_of (axis_list axes.Child e.path (nodes_of table.now.bytes nest))) }
    ensures node { IfSome result (λ found. IsNodeOf table.now.bytes (W.lists table.now.words) found) }
{
    match node.kind {
        Kind::Root => child_from(table, 1, 0),
        Kind::Element => {
            let level = table.level_at(node);
            child_from(table, table.after_first(node), level + 1)
        }
        _ => None,
    }
}

/// The last child.
pub fn last_child_of<W: Words>(table: &Table<'_, W>, node: Node) -> Option<Node>
    requires { IsNodeOf table.now.bytes (W.lists table.now.words) node }
    ensures axis { ForEachEntry table.now.bytes (W.lists table.now.words) node (λ nest e.
        result ≡ last_of (axis_list axes.Child e.path (nodes_of table.now.bytes nest))) }
    ensures node { IfSome result (λ found. IsNodeOf table.now.bytes (W.lists table.now.words) found) }
{
    match node.kind {
        Kind::Root => child_before(table, past_of(table, node), 0),
        Kind::Element => child_before(table, past_of(table, node), table.level_at(node) + 1),
        _ => None,
    }
}

/// The next sibling; an attribute has none.
pub fn next_of<W: Words>(table: &Table<'_, W>, node: Node) -> Option<Node>
    requires { IsNodeOf table.now.bytes (W.lists table.now.words) node }
    ensures axis { ForEachEntry table.now.bytes (W.lists table.now.words) node (λ nest e.
        result ≡ first_of (axis_list axes.FollowingSibling e.path (nodes_of table.now.bytes nest))) }
    ensures node { IfSome result (λ found. IsNodeOf table.now.bytes (W.lists table.now.words) found) }
{
    if !node.kind.is_child() {
        return None;
    }
    child_from(table, table.end_of(node), table.level_at(node))
}

/// The sibling before this one; an attribute has none.
pub fn previous_of<W: Words>(table: &Table<'_, W>, node: Node) -> Option<Node>
    requires { IsNodeOf table.now.bytes (W.lists table.now.words) node }
    ensures axis { ForEachEntry table.now.bytes (W.lists table.now.words) node (λ nest e.
        result ≡ first_of (axis_list axes.PrecedingSibling e.path (nodes_of table.now.bytes nest))) }
    ensures node { IfSome result (λ found. IsNodeOf table.now.bytes (W.lists table.now.words) found) }
{
    if !node.kind.is_child() {
        return None;
    }
    child_before(table, node.at, table.level_at(node))
}

/// The first attribute.
pub fn first_attribute_of<W: Words>(table: &Table<'_, W>, node: Node) -> Option<Node>
    requires { IsNodeOf table.now.bytes (W.lists table.now.words) node }
    ensures axis { ForEachEntry table.now.bytes (W.lists table.now.words) node (λ nest e.
        result ≡ first_of (axis_list axes.Attribute e.path (nodes_of table.now.bytes nest))) }
    ensures node { IfSome result (λ found. IsNodeOf table.now.bytes (W.lists table.now.words) found) }
{
    match node.kind {
        Kind::Element => {
            let level = table.level_at(node);
            attribute_from(table, table.after_first(node), level + 1)
        }
        _ => None,
    }
}

/// The attribute of the same element that comes next; what is no attribute has none.
pub fn next_attribute_of<W: Words>(table: &Table<'_, W>, node: Node) -> Option<Node>
    requires { IsNodeOf table.now.bytes (W.lists table.now.words) node }
    ensures axis { ForEachEntry table.now.bytes (W.lists table.now.words) node (λ nest e.
        (z : Entry) → Contains (nodes_of table.now.bytes nest) z → on_axis axes.Attribute z.path e.path ≡ true →
        result ≡ first_of (filter (λ y. before e.path y.path)
        (axis_list axes.Attribute z.path (nodes_of table.now.bytes nest)))) }
    ensures other { (node.kind ≡ Kind.Attribute → ⊥) → result ≡ None }
    ensures node { IfSome result (λ found. IsNodeOf table.now.bytes (W.lists table.now.words) found) }
{
    match node.kind {
        Kind::Attribute => attribute_from(table, table.end_of(node), table.level_at(node)),
        _ => None,
    }
}

/// The first record past those of a node and of all that is in it, which is at most the number of records.
fn past_of<W: Words>(table: &Table<'_, W>, node: Node) -> u32
    requires { IsNodeOf table.now.bytes (W.lists table.now.words) node }
    ensures past { ForEachEntry table.now.bytes (W.lists table.now.words) node (λ nest e. result ≡ e.past) }
    ensures within { result ≤ length (list_of Part.Records (W.lists table.now.words)) }
{
    let records = table.words().len(Part::Records);
    let past = table.end_of(node);
    if past < records { past } else { records }
}
