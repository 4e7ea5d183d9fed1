//! Child elements, by the levels.

ghost use Rattle.std.specs.Prelude.{◌≡◌, ◌++◌, ◌<◌, [], length, IfSome, IfNone, option_to_list};
ghost use Rattle.xml_model.specs.Items.{first_place};
ghost use Rattle.xml_model.specs.Records.{records};
ghost use Rattle.vtd_words.specs.Lists.{list_of};
ghost use Rattle.vtd_words.specs.Table.{ForEachNest, IsNodeOf, nodes_of};
ghost use Rattle.xpath_axes.specs.Iters.{rest_of, records_left, IsRest};
ghost use Rattle.xpath_axes.specs.Tests.{node_test};
ghost use Rattle.xpath_axes.specs.Told.{IsChildWalk, IsTold, Tells};

use crate::names::Names;
use crate::node_tests::passes;
use crate::rest::{Next, Rest, next_of};
use crate::walk::Walk;
use vtd_location::{Children, Nav, child_elements};
use vtd_words::{Part, Words, level_of, parts_at};
use xml_model::{Axis, Kind, Node, NodeTest};

/// The greatest depth of an element whose child elements the levels tell.
const DEEPEST: u32 = 4;

/// How many records of an element are read to see whether it ends before them. So many cost less than a search of a
/// level.
const FEW: u32 = 8;

/// Whether an element of a level ends within a few records from one on. It reads no more of them.
fn ends_soon<W: Words>(words: &W, level: u32, from: u32) -> bool {
    let records = words.len(Part::Records);
    let stop = records.min(from.saturating_add(FEW));
    for at in from..stop {
        if level_of(parts_at(words, at)) <= level {
            return true;
        }
    }
    false
}

/// What tells the child elements of a node: the levels, where a name is asked of the children of an element that at
/// most four others hold, and that does not end within a few records: these are passed sooner than the levels are
/// searched. It reads at most `FEW` words more than `child_elements`, and one.
pub fn told_of<W: Words>(
    nav: &Nav<'_, W>,
    node: Node,
    axis: Axis,
    test: &NodeTest<'_>,
    rest: Rest,
) -> Option<Children>
    requires node { IsNodeOf nav.now.bytes (W.lists nav.now.words) node }
    requires walk { axis ≡ Axis.Child → IsChildWalk nav.now.bytes (W.lists nav.now.words) node rest }
    ensures { IsTold nav.now.bytes (W.lists nav.now.words) (node_test test.now) rest result }
{
    let NodeTest::Name(_) = *test else {
        return None;
    };
    if axis != Axis::Child || node.kind != Kind::Element {
        return None;
    }
    let table = nav.table();
    let level = table.level_at(node);
    if level > DEEPEST {
        return None;
    }
    if ends_soon(table.words(), level, table.after_first(node)) {
        return None;
    }
    Some(child_elements(&mut nav.meter(), node.at))
}

/// The next node of a walk over child elements that are told, and what is left after it. It reads a word for each
/// element that it passes, and what the test reads.
fn next_told<W: Words, N: Names<W>>(
    nav: &Nav<'_, W>,
    names: &mut N,
    told: &mut Children,
    walk: Walk,
    test: &NodeTest<'_>,
) -> Next
    requires names { N.knows names.old nav.now }
    requires told { Tells nav.now.bytes (W.lists nav.now.words) (node_test test.now) walk told.old }
    ensures left { ForEachNest nav.now.bytes (W.lists nav.now.words) (λ nest.
        let rs = records nest (first_place nav.now.bytes) in
        let es = nodes_of nav.now.bytes nest in
        rest_of (Rest.Forward walk) (node_test test.now) rs es
        ≡ option_to_list result.node ++ rest_of result.rest (node_test test.now) rs es) }
    ensures end { IfNone result.node (ForEachNest nav.now.bytes (W.lists nav.now.words) (λ nest.
        rest_of result.rest (node_test test.now) (records nest (first_place nav.now.bytes))
        (nodes_of nav.now.bytes nest) ≡ [])) }
    ensures rest { IsRest nav.now.bytes (W.lists nav.now.words) result.rest }
    ensures told { IsTold nav.now.bytes (W.lists nav.now.words) (node_test test.now) result.rest (Some told.new) }
    ensures node { IfSome result.node (IsNodeOf nav.now.bytes (W.lists nav.now.words)) }
    ensures fewer { IfSome result.node (λ node.
        records_left (length (list_of Part.Records (W.lists nav.now.words))) result.rest
        < records_left (length (list_of Part.Records (W.lists nav.now.words))) (Rest.Forward walk)) }
    ensures names { N.knows names.new nav.now }
{
    let table = nav.table();
    let records = table.words().len(Part::Records);
    let mut meter = nav.meter();
    let mut next = walk.at;
    while let Some(at) = told.next(&mut meter) {
        prove!(at < records);
        next = at + 1;
        let node = Node {
            kind: Kind::Element,
            at,
        };
        if passes(table, names, node, false, test) {
            return Next {
                node: Some(node),
                rest: Rest::Forward(Walk { at: next, ..walk }),
            };
        }
    }
    Next {
        node: None,
        rest: Rest::Forward(Walk { at: next, ..walk }),
    }
}

/// The next node of what is left, and what is left after it: by what is told, where something is.
pub fn next_left<W: Words, N: Names<W>>(
    nav: &Nav<'_, W>,
    names: &mut N,
    told: &mut Option<Children>,
    rest: Rest,
    test: &NodeTest<'_>,
) -> Next
    requires names { N.knows names.old nav.now }
    requires rest { IsRest nav.now.bytes (W.lists nav.now.words) rest }
    requires told { IsTold nav.now.bytes (W.lists nav.now.words) (node_test test.now) rest told.old }
    ensures left { ForEachNest nav.now.bytes (W.lists nav.now.words) (λ nest.
        let rs = records nest (first_place nav.now.bytes) in
        let es = nodes_of nav.now.bytes nest in
        rest_of rest (node_test test.now) rs es
        ≡ option_to_list result.node ++ rest_of result.rest (node_test test.now) rs es) }
    ensures end { IfNone result.node (ForEachNest nav.now.bytes (W.lists nav.now.words) (λ nest.
        rest_of result.rest (node_test test.now) (records nest (first_place nav.now.bytes))
        (nodes_of nav.now.bytes nest) ≡ [])) }
    ensures rest { IsRest nav.now.bytes (W.lists nav.now.words) result.rest }
    ensures told { IsTold nav.now.bytes (W.lists nav.now.words) (node_test test.now) result.rest told.new }
    ensures node { IfSome result.node (IsNodeOf nav.now.bytes (W.lists nav.now.words)) }
    ensures fewer { IfSome result.node (λ node.
        records_left (length (list_of Part.Records (W.lists nav.now.words))) result.rest
        < records_left (length (list_of Part.Records (W.lists nav.now.words))) rest) }
    ensures names { N.knows names.new nav.now }
{
    match (told, rest) {
        (Some(told), Rest::Forward(walk)) => next_told(nav, names, told, walk, test),
        (_, rest) => next_of(nav.table(), names, rest, test),
    }
}
