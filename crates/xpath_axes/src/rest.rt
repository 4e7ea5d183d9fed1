//! What is left of a walk of any direction.

ghost use Rattle.std.specs.Prelude.{◌≡◌, ◌<◌, ◌++◌, [], length, IfSome, IfNone, option_to_list};
ghost use Rattle.xml_model.specs.Items.{first_place};
ghost use Rattle.xml_model.specs.Records.{records};
ghost use Rattle.vtd_words.specs.Lists.{list_of};
ghost use Rattle.vtd_words.specs.Table.{ForEachNest, IdentifiesInEach, IsNodeOf, nodes_of};
ghost use Rattle.xpath_axes.specs.Iters.{rest_of, records_left, IsRest};
ghost use Rattle.xpath_axes.specs.Tests.{node_test};

use crate::back::{Back, find_before};
use crate::climb::find_above;
use crate::names::Names;
use crate::walk::{Walk, find};
use vtd_words::{Part, Table, Words};
use xml_model::{Node, NodeTest};

/// What is left: nothing, a walk forward, what is above a node, or a walk backward.
#[derive(Clone, Copy)]
pub enum Rest {
    Nothing,
    Forward(Walk),
    Upward(Node),
    Backward(Back),
}

/// The next node of a walk, and what is left after it.
#[derive(Drop)]
pub struct Next {
    pub node: Option<Node>,
    pub rest: Rest,
}

/// The next node of a walk forward.
fn next_forward<W: Words, N: Names<W>>(
    table: &Table<'_, W>,
    names: &mut N,
    walk: Walk,
    test: &NodeTest<'_>,
) -> Next
    requires { N.knows names.old table.now }
    ensures left { ForEachNest table.now.bytes (W.lists table.now.words) (λ nest.
        let rs = records nest (first_place table.now.bytes) in
        let es = nodes_of table.now.bytes nest in
        rest_of (Rest.Forward walk) (node_test test.now) rs es
        ≡ option_to_list result.node ++ rest_of result.rest (node_test test.now) rs es) }
    ensures end { IfNone result.node (ForEachNest table.now.bytes (W.lists table.now.words) (λ nest.
        rest_of result.rest (node_test test.now) (records nest (first_place table.now.bytes))
        (nodes_of table.now.bytes nest) ≡ [])) }
    ensures rest { IsRest table.now.bytes (W.lists table.now.words) result.rest }
    ensures node { IfSome result.node (IsNodeOf table.now.bytes (W.lists table.now.words)) }
    ensures fewer { IfSome result.node (λ node.
        records_left (length (list_of Part.Records (W.lists table.now.words))) result.rest
        < records_left (length (list_of Part.Records (W.lists table.now.words))) (Rest.Forward walk)) }
    ensures names { N.knows names.new table.now }
{
    let found = find(table, names, walk, test);
    Next {
        node: found.node,
        rest: Rest::Forward(Walk {
            at: found.next,
            ..walk
        }),
    }
}

/// The next node above a node.
fn next_upward<W: Words, N: Names<W>>(
    table: &Table<'_, W>,
    names: &mut N,
    node: Node,
    test: &NodeTest<'_>,
) -> Next
    requires node { IsNodeOf table.now.bytes (W.lists table.now.words) node }
    requires each { IdentifiesInEach table.now.bytes (W.lists table.now.words) node }
    requires names { N.knows names.old table.now }
    ensures left { ForEachNest table.now.bytes (W.lists table.now.words) (λ nest.
        let rs = records nest (first_place table.now.bytes) in
        let es = nodes_of table.now.bytes nest in
        rest_of (Rest.Upward node) (node_test test.now) rs es
        ≡ option_to_list result.node ++ rest_of result.rest (node_test test.now) rs es) }
    ensures end { IfNone result.node (ForEachNest table.now.bytes (W.lists table.now.words) (λ nest.
        rest_of result.rest (node_test test.now) (records nest (first_place table.now.bytes))
        (nodes_of table.now.bytes nest) ≡ [])) }
    ensures rest { IsRest table.now.bytes (W.lists table.now.words) result.rest }
    ensures node { IfSome result.node (IsNodeOf table.now.bytes (W.lists table.now.words)) }
    ensures fewer { IfSome result.node (λ found.
        records_left (length (list_of Part.Records (W.lists table.now.words))) result.rest
        < records_left (length (list_of Part.Records (W.lists table.now.words))) (Rest.Upward node)) }
    ensures names { N.knows names.new table.now }
{
    match find_above(table, names, node, test) {
        Some(above) => Next {
            node: Some(above),
            rest: Rest::Upward(above),
        },
        None => Next {
            node: None,
            rest: Rest::Nothing,
        },
    }
}

/// The next node of a walk backward.
fn next_backward<W: Words, N: Names<W>>(
    table: &Table<'_, W>,
    names: &mut N,
    back: Back,
    test: &NodeTest<'_>,
) -> Next
    requires rest { IsRest table.now.bytes (W.lists table.now.words) (Rest.Backward back) }
    requires names { N.knows names.old table.now }
    ensures left { ForEachNest table.now.bytes (W.lists table.now.words) (λ nest.
        let rs = records nest (first_place table.now.bytes) in
        let es = nodes_of table.now.bytes nest in
        rest_of (Rest.Backward back) (node_test test.now) rs es
        ≡ option_to_list result.node ++ rest_of result.rest (node_test test.now) rs es) }
    ensures end { IfNone result.node (ForEachNest table.now.bytes (W.lists table.now.words) (λ nest.
        rest_of result.rest (node_test test.now) (records nest (first_place table.now.bytes))
        (nodes_of table.now.bytes nest) ≡ [])) }
    ensures rest { IsRest table.now.bytes (W.lists table.now.words) result.rest }
    ensures node { IfSome result.node (IsNodeOf table.now.bytes (W.lists table.now.words)) }
    ensures fewer { IfSome result.node (λ node.
        records_left (length (list_of Part.Records (W.lists table.now.words))) result.rest
        < records_left (length (list_of Part.Records (W.lists table.now.words))) (Rest.Backward back)) }
    ensures names { N.knows names.new table.now }
{
    let found = find_before(table, names, back, test);
    Next {
        node: found.node,
        rest: Rest::Backward(found.rest),
    }
}

/// The next node of what is left, and what is left after it.
pub fn next_of<W: Words, N: Names<W>>(
    table: &Table<'_, W>,
    names: &mut N,
    rest: Rest,
    test: &NodeTest<'_>,
) -> Next
    requires rest { IsRest table.now.bytes (W.lists table.now.words) rest }
    requires names { N.knows names.old table.now }
    ensures left { ForEachNest table.now.bytes (W.lists table.now.words) (λ nest.
        let rs = records nest (first_place table.now.bytes) in
        let es = nodes_of table.now.bytes nest in
        rest_of rest (node_test test.now) rs es
        ≡ option_to_list result.node ++ rest_of result.rest (node_test test.now) rs es) }
    ensures end { IfNone result.node (ForEachNest table.now.bytes (W.lists table.now.words) (λ nest.
        rest_of result.rest (node_test test.now) (records nest (first_place table.now.bytes))
        (nodes_of table.now.bytes nest) ≡ [])) }
    ensures rest { IsRest table.now.bytes (W.lists table.now.words) result.rest }
    ensures node { IfSome result.node (IsNodeOf table.now.bytes (W.lists table.now.words)) }
    ensures fewer { IfSome result.node (λ node.
        records_left (length (list_of Part.Records (W.lists table.now.words))) result.rest
        < records_left (length (list_of Part.Records (W.lists table.now.words))) rest) }
    ensures names { N.knows names.new table.now }
{
    match rest {
        Rest::Nothing => Next {
            node: None,
            rest: Rest::Nothing,
        },
        Rest::Forward(walk) => next_forward(table, names, walk, test),
        Rest::Upward(node) => next_upward(table, names, node, test),
        Rest::Backward(back) => next_backward(table, names, back, test),
    }
}
