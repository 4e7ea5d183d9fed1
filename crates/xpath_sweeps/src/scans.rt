//! Which steps are taken at once.

ghost use Rattle.std.specs.Prelude.{◌≡◌};
ghost use Rattle.xpath_grammar.specs.Tree.{trees_of};
ghost use Rattle.xpath_sweeps.specs.Sweeps.{are_in_order, is_any_node, is_none, is_scan, is_sweep, is_to_children};
ghost use Rattle.xpath_sweeps.specs.Sweeps.{is_to_selves};

use crate::analysis::are_positionless;
use xml_model::{Axis, Node};
use xpath_grammar::{Exprs, Step, StepAxis, StepTest};

/// Whether nodes are in document order, each once. It reads each node once.
fn are_in_order(nodes: &[Node]) -> bool
    ensures { result ≡ are_in_order nodes.now }
{
    let mut low: u64 = 0;
    for i in 0..nodes.len() {
        let at = u64::from(nodes[i].at);
        if at < low {
            return false;
        }
        low = at + 1;
    }
    true
}

/// Whether a step with predicates may be taken from some nodes at once: the nodes are in document order, each once, and
/// the predicates do not ask for the position. It reads each node once.
pub fn is_sweep(nodes: &[Node], predicates: &Exprs) -> bool
    ensures { result ≡ is_sweep nodes.now (trees_of predicates.now) }
{
    are_positionless(predicates) && are_in_order(nodes)
}

fn is_to_selves(axis: StepAxis) -> bool
    ensures { result ≡ is_to_selves axis }
{
    match axis {
        StepAxis::Known(Axis::DescendantOrSelf) => true,
        _ => false,
    }
}

fn is_to_children(axis: StepAxis) -> bool
    ensures { result ≡ is_to_children axis }
{
    match axis {
        StepAxis::Known(Axis::Child) => true,
        _ => false,
    }
}

fn is_any_node(test: &StepTest) -> bool
    ensures { result ≡ is_any_node test.now }
{
    match test {
        StepTest::Node => true,
        _ => false,
    }
}

fn is_none(predicates: &Exprs) -> bool
    ensures { result ≡ is_none (trees_of predicates.now) }
{
    match predicates {
        Exprs::End => true,
        Exprs::More(_, _) => false,
    }
}

/// Whether two steps from some nodes are `descendant-or-self::node()` and then one to children that may be taken at
/// once. It reads each node once.
pub fn is_scan(nodes: &[Node], step: &Step, after: &Step) -> bool
    ensures { result ≡ is_scan nodes.now step.now after.now }
{
    is_to_selves(step.axis)
        && is_any_node(&step.test)
        && is_none(&step.predicates)
        && is_to_children(after.axis)
        && is_sweep(nodes, &after.predicates)
}
