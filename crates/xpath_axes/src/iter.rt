//! The nodes on an axis, one after another, without memory.

ghost use Rattle.std.specs.Prelude.{◌≡◌, ◌+◌, ◌<◌, ◌++◌, [], length, IfSome, IfNone, option_to_list};
ghost use Rattle.xml_model.specs.Items.{first_place};
ghost use Rattle.std.specs.Prelude.{List, map, filter, false};
ghost use Rattle.xml_model.specs.Names.{Test, passes as passes_test};
ghost use Rattle.xml_model.specs.Tree.{Entry};
ghost use Rattle.xml_model.specs.Records.{records};
ghost use Rattle.vtd_words.specs.Lists.{list_of};
ghost use Rattle.vtd_words.specs.Table.{ForEachEntry, ForEachNest, IdentifiesInEach, IsNodeOf};
ghost use Rattle.vtd_words.specs.Table.{node_of, nodes_of};
ghost use Rattle.xpath_axes.specs.Iters.{nodes_after_first, one_first, records_left, rest_of, to_come};
ghost use Rattle.xpath_axes.specs.Iters.{AreNodes, IsFirstOf, IsRest};
ghost use Rattle.xpath_axes.specs.Tests.{node_test, nodes_on};
ghost use Rattle.xpath_axes.specs.Told.{IsChildWalk};

use crate::back::{preceding_of, preceding_siblings_of};
use crate::names::{LookBack, Names};
use crate::node_tests::passes;
use crate::rest::Rest;
use crate::starts::{
    attributes_of, children_of, descendants_of, following_of, following_siblings_of,
};
use crate::told::{next_left, told_of};
use std::marker::Model;
use vtd_location::{Children, Nav};
use vtd_words::{Part, Table, Words};
use xml_model::{Axis, Node, NodeTest};

/// The nodes of an axis that are still to come. It holds the document, a copy of the test and where it is, and no list.
/// A child step by a name that goes by the levels is seen as the walk over the records after the last child element.
#[derive(Drop)]
pub struct AxisIter<'n, 'a, W: Words> {
    nav: &'n Nav<'a, W>,
    first: Option<Node>,
    rest: Rest,
    told: Option<Children>,
    test: NodeTest<'n>,
}

impl<'n, 'a, W: Words> Model for AxisIter<'n, 'a, W> {
    ghost use Rattle.std.specs.Prelude.{IfSome};
    ghost use Rattle.vtd_words.specs.Table.{IsNodeOf};
    ghost use Rattle.xpath_axes.specs.Iters.{IterOf, IsRest};
    ghost use Rattle.xpath_axes.specs.Tests.{node_test};
    ghost use Rattle.xpath_axes.specs.Told.{IsTold};

    ghost Value = { IterOf W };

    ghost view = { λ i. record {
      bytes = i.nav.now.bytes;
      words = i.nav.now.words;
      first = i.first;
      rest = i.rest;
      test = i.test;
    } };

    ghost invariant = { λ i. IfSome i.first (IsNodeOf i.nav.now.bytes (W.lists i.nav.now.words))
        × IsRest i.nav.now.bytes (W.lists i.nav.now.words) i.rest
        × IsTold i.nav.now.bytes (W.lists i.nav.now.words) (node_test i.test) i.rest i.told };
}

impl<'n, 'a, W: Words> AxisIter<'n, 'a, W> {
    /// The next node in axis order; `None` exactly at the end. It reads the records from one node to the next; along
    /// the ancestor axes those back to the first record of the node that it answers; and in a child step by a name
    /// from an element that at most four others hold one word of a level for each child element, and no record of
    /// what else the element holds. A name test with a URI, the empty
    /// one too, reads back to the tags above each node of that local name, and where nothing is declared over all
    /// records before it; where many are met `next_by` reads less.
    pub fn next(&mut self) -> Option<Node>
        ensures left { ForEachNest self.old.bytes (W.lists self.old.words) (λ nest.
            to_come self.old nest ≡ option_to_list result ++ to_come self.new nest) }
        ensures end { IfNone result (ForEachNest self.old.bytes (W.lists self.old.words) (λ nest.
            to_come self.new nest ≡ [])) }
        ensures bytes { self.new.bytes ≡ self.old.bytes }
        ensures words { self.new.words ≡ self.old.words }
        ensures test { self.new.test ≡ self.old.test }
        ensures node { IfSome result (IsNodeOf self.old.bytes (W.lists self.old.words)) }
        // what bounds a loop over the nodes
        ensures fewer { IfSome result (λ node.
            one_first self.new.first
            + records_left (length (list_of Part.Records (W.lists self.old.words))) self.new.rest
            < one_first self.old.first
            + records_left (length (list_of Part.Records (W.lists self.old.words))) self.old.rest) }
    {
        self.next_by(&mut LookBack)
    }

    /// The same, with name tests asked of a resolver of the document, or of another that knows its names. A resolver
    /// reads each record once, as long as nodes come in document order, and nothing where the document declares no
    /// namespace. Asked against document order it begins anew at each name.
    pub fn next_by<N: Names<W>>(&mut self, names: &mut N) -> Option<Node>
        requires { N.knows names.old (record { bytes = self.old.bytes; words = self.old.words }) }
        ensures left { ForEachNest self.old.bytes (W.lists self.old.words) (λ nest.
            to_come self.old nest ≡ option_to_list result ++ to_come self.new nest) }
        ensures end { IfNone result (ForEachNest self.old.bytes (W.lists self.old.words) (λ nest.
            to_come self.new nest ≡ [])) }
        ensures bytes { self.new.bytes ≡ self.old.bytes }
        ensures words { self.new.words ≡ self.old.words }
        ensures test { self.new.test ≡ self.old.test }
        ensures node { IfSome result (IsNodeOf self.old.bytes (W.lists self.old.words)) }
        // what bounds a loop over the nodes
        ensures fewer { IfSome result (λ node.
            one_first self.new.first
            + records_left (length (list_of Part.Records (W.lists self.old.words))) self.new.rest
            < one_first self.old.first
            + records_left (length (list_of Part.Records (W.lists self.old.words))) self.old.rest) }
        ensures names { N.knows names.new (record { bytes = self.old.bytes; words = self.old.words }) }
    {
        if let Some(node) = self.first {
            self.first = None;
            return Some(node);
        }
        let next = next_left(self.nav, names, &mut self.told, self.rest, &self.test);
        self.rest = next.rest;
        next.node
    }
}

/// The node that comes first on an axis, before those of a walk: the node itself on `self` and the axes `..-or-self`,
/// and its parent on `parent`.
fn before_walk<W: Words>(table: &Table<'_, W>, node: Node, axis: Axis) -> Option<Node>
    requires { IsNodeOf table.now.bytes (W.lists table.now.words) node }
    ensures first { ForEachEntry table.now.bytes (W.lists table.now.words) node (λ nest e.
        IsFirstOf axis e (nodes_of table.now.bytes nest) result) }
    ensures node { IfSome result (IsNodeOf table.now.bytes (W.lists table.now.words)) }
{
    match axis {
        Axis::Parent => table.owner_of(node),
        Axis::Itself => Some(node),
        Axis::DescendantOrSelf => Some(node),
        Axis::AncestorOrSelf => Some(node),
        _ => None,
    }
}

/// A node, if there is one and it passes a test.
fn if_passes<W: Words, N: Names<W>>(
    table: &Table<'_, W>,
    names: &mut N,
    node: Option<Node>,
    test: &NodeTest<'_>,
) -> Option<Node>
    requires names { N.knows names.old table.now }
    requires node { IfSome node (IsNodeOf table.now.bytes (W.lists table.now.words)) }
    ensures passed { ForEachNest table.now.bytes (W.lists table.now.words) (λ nest.
        (xs : List Entry) → AreNodes node xs (nodes_of table.now.bytes nest) →
        option_to_list result ≡ map node_of (filter (passes_test (node_test test.now) false) xs)) }
    ensures node { IfSome result (IsNodeOf table.now.bytes (W.lists table.now.words)) }
    ensures names { N.knows names.new table.now }
{
    let found = node?;
    if passes(table, names, found, false, test) {
        Some(found)
    } else {
        None
    }
}

/// The walk over the nodes on an axis that come after the first.
fn walk_of<W: Words>(table: &Table<'_, W>, node: Node, axis: Axis) -> Rest
    requires node { IsNodeOf table.now.bytes (W.lists table.now.words) node }
    requires each { IdentifiesInEach table.now.bytes (W.lists table.now.words) node }
    ensures walk { ForEachEntry table.now.bytes (W.lists table.now.words) node (λ nest e.
        (test : Test) → rest_of result test (records nest (first_place table.now.bytes))
        (nodes_of table.now.bytes nest) ≡ nodes_after_first axis test e (nodes_of table.now.bytes nest)) }
    ensures children { axis ≡ Axis.Child → IsChildWalk table.now.bytes (W.lists table.now.words) node result }
    ensures rest { IsRest table.now.bytes (W.lists table.now.words) result }
{
    match axis {
        Axis::Itself => Rest::Nothing,
        Axis::Parent => Rest::Nothing,
        Axis::Ancestor => Rest::Upward(node),
        Axis::AncestorOrSelf => Rest::Upward(node),
        Axis::Child => Rest::Forward(children_of(table, node)),
        Axis::Descendant => Rest::Forward(descendants_of(table, node)),
        Axis::DescendantOrSelf => Rest::Forward(descendants_of(table, node)),
        Axis::Attribute => Rest::Forward(attributes_of(table, node)),
        Axis::Following => Rest::Forward(following_of(table, node)),
        Axis::FollowingSibling => Rest::Forward(following_siblings_of(table, node)),
        Axis::Preceding => Rest::Backward(preceding_of(table, node)),
        Axis::PrecedingSibling => {
            if node.kind.is_child() {
                Rest::Backward(preceding_siblings_of(table, node))
            } else {
                Rest::Nothing
            }
        }
    }
}

/// The nodes on an axis of a node that pass a test, one after another in axis order, each once (XPath 1.0, sections 2.2
/// to 2.4). The node is one of the document. It reads what is in the node on `following` and `following-sibling`, back
/// to the tag of the parent on `parent`, and a constant number of records on the other axes; on `self`, `parent` and
/// the axes `..-or-self` a name test looks back as in `AxisIter::next`. A child step by a name from an element that at
/// most four others hold goes by the levels, unless the element ends within eight records: it reads at most d + 14
/// words, where these together have fewer than 2 to the power d entries.
pub fn axis_iter<'n, 'a, W: Words>(
    nav: &'n Nav<'a, W>,
    node: Node,
    axis: Axis,
    test: &NodeTest<'n>,
) -> AxisIter<'n, 'a, W>
    requires { IsNodeOf nav.now.bytes (W.lists nav.now.words) node }
    ensures axis { ForEachEntry nav.now.bytes (W.lists nav.now.words) node (λ nest e.
        to_come result nest ≡ nodes_on axis (node_test test.now) e (nodes_of nav.now.bytes nest)) }
    ensures bytes { result.bytes ≡ nav.entry.now.bytes }
    ensures words { result.words ≡ nav.entry.now.words }
    ensures test { result.test ≡ test.now }
{
    axis_iter_by(nav, &mut LookBack, node, axis, test)
}

/// The same, with the name test of the node itself, or of its parent, asked of a resolver of the document, or of
/// another that knows its names. `AxisIter::next_by` asks it of the nodes after.
pub fn axis_iter_by<'n, 'a, W: Words, N: Names<W>>(
    nav: &'n Nav<'a, W>,
    names: &mut N,
    node: Node,
    axis: Axis,
    test: &NodeTest<'n>,
) -> AxisIter<'n, 'a, W>
    requires names { N.knows names.old (record { bytes = nav.now.bytes; words = nav.now.words }) }
    requires node { IsNodeOf nav.now.bytes (W.lists nav.now.words) node }
    ensures axis { ForEachEntry nav.now.bytes (W.lists nav.now.words) node (λ nest e.
        to_come result nest ≡ nodes_on axis (node_test test.now) e (nodes_of nav.now.bytes nest)) }
    ensures bytes { result.bytes ≡ nav.entry.now.bytes }
    ensures words { result.words ≡ nav.entry.now.words }
    ensures test { result.test ≡ test.now }
    ensures names { N.knows names.new (record { bytes = nav.now.bytes; words = nav.now.words }) }
{
    let table = nav.table();
    let first = if_passes(table, names, before_walk(table, node, axis), test);
    let rest = walk_of(table, node, axis);
    let told = told_of(nav, node, axis, test, rest);
    AxisIter {
        nav,
        first,
        rest,
        told,
        test: *test,
    }
}
