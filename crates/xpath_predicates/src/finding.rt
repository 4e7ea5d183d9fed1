//! Whether steps find a node that is as it is asked.

ghost use Rattle.std.specs.Prelude.{◌≡◌, ◌||◌, true, IfSome};
ghost use Rattle.std.specs.List.{list_any};
ghost use Rattle.vtd_words.specs.Table.{IsNodeOf};
ghost use Rattle.xpath_axes.specs.Tests.{node_test};
ghost use Rattle.xpath_grammar.specs.Tree.{trees_of, walk_of};
ghost use Rattle.xpath_meaning.specs.Context.{on_axis};
ghost use Rattle.xpath_predicates.specs.Asks.{any_found, are_bare, Decides, ForEachContext};

use crate::asked::{Asked, ask, is_sure};
use vtd_location::Nav;
use vtd_words::Words;
use xml_model::{Axis, Node, NodeTest};
use xpath_axes::{Names, axis_iter_by};
use xpath_grammar::{Bindings, Exprs, StepAxis, Steps};
use xpath_nodes::resolved;

/// Whether no step has predicates.
pub fn are_bare(steps: &Steps) -> bool
    ensures { result ≡ are_bare (walk_of steps.now) }
{
    match steps {
        Steps::End => true,
        Steps::More(step, rest) => match step.predicates {
            Exprs::End => are_bare(rest),
            Exprs::More(_, _) => false,
        },
    }
}

/// Whether one of two is true.
fn either(one: bool, other: bool) -> bool
    ensures { result ≡ (one || other) }
{
    one || other
}

/// Whether some node that steps find from a node, their predicates left aside, is as it is asked; `None` where one has a
/// fault, or where a step is along the namespace axis. Where none can have one it ends at the first node that is right.
/// It takes no memory.
#[cycle(finding)]
pub fn any_found<W: Words, N: Names<W>>(
    nav: &Nav<'_, W>,
    names: &mut N,
    bindings: &Bindings,
    node: Node,
    steps: &Steps,
    asked: &Asked<'_>,
) -> Option<bool>
    requires names { N.knows names.old (record { bytes = nav.now.bytes; words = nav.now.words }) }
    requires node { IsNodeOf nav.now.bytes (W.lists nav.now.words) node }
    ensures decides { IfSome result (λ b.
        ForEachContext nav.now.bytes (W.lists nav.now.words) bindings.now node (λ c e.
        Decides asked.now (λ q. any_found (walk_of steps.now) c q e) b)) }
    ensures names { N.knows names.new (record { bytes = nav.now.bytes; words = nav.now.words }) }
{
    match steps {
        Steps::End => ask(nav.table(), node, asked),
        Steps::More(step, rest) => match step.axis {
            StepAxis::Known(axis) => {
                let test = resolved(bindings, &step.test);
                any_along(nav, names, bindings, node, axis, &test, rest, asked)
            }
            StepAxis::Namespace => None,
        },
    }
}

/// The same from the nodes on an axis that pass a test.
#[cycle(finding)]
fn any_along<W: Words, N: Names<W>>(
    nav: &Nav<'_, W>,
    names: &mut N,
    bindings: &Bindings,
    node: Node,
    axis: Axis,
    test: &NodeTest<'_>,
    rest: &Steps,
    asked: &Asked<'_>,
) -> Option<bool>
    requires names { N.knows names.old (record { bytes = nav.now.bytes; words = nav.now.words }) }
    requires node { IsNodeOf nav.now.bytes (W.lists nav.now.words) node }
    ensures decides { IfSome result (λ b.
        ForEachContext nav.now.bytes (W.lists nav.now.words) bindings.now node (λ c e.
        Decides asked.now
        (λ q. list_any (any_found (walk_of rest.now) c q) (on_axis axis (node_test test.now) e c.document)) b)) }
    ensures names { N.knows names.new (record { bytes = nav.now.bytes; words = nav.now.words }) }
{
    let sure = is_sure(asked);
    let mut found = false;
    let mut left = axis_iter_by(nav, names, node, axis, test);
    while let Some(next) = left.next_by(names) {
        found = either(found, any_found(nav, names, bindings, next, rest, asked)?);
        if sure && found {
            return Some(true);
        }
    }
    Some(found)
}
