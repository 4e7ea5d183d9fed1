//! The first refusal of an expression.

ghost use Rattle.std.specs.Prelude.{◌≡◌, ◌&&◌, not, [], IfOk, IfErr};
ghost use Rattle.xpath_grammar.specs.Tree.{tree_of, trees_of, walk_of};
ghost use Rattle.xpath_grammar.specs.Static.{refusals, IsFirst, wanted, marks, list_marks, step_marks};
ghost use Rattle.xpath_grammar.specs.Functions.{gives_nodes};
ghost use Rattle.xpath_grammar.specs.Checking.{first_in, marks_after};
ghost use Rattle.xpath_grammar.specs.Passes.{Passes};

use crate::bindings::Bindings;
use crate::expr::{Expr, Exprs, Steps};
use crate::faults::{StaticFault, axis_fault, earlier, test_fault};
use crate::functions::gives_nodes;
use crate::parts::{Tail, inner_part, needed_fault, needs_nodes, own_fault, tail_of};

/// Whether nodes are needed of an expression of another type.
fn lacks_nodes(nodes: bool, expr: &Expr) -> bool
    ensures { result ≡ (nodes && not (gives_nodes (tree_of expr.now))) }
{
    nodes && !gives_nodes(expr)
}

/// The first refusal. It goes down the expressions at the start, so that a chain of operators is a loop.
#[cycle(refusal)]
fn expr_fault(bindings: &Bindings, expr: &Expr) -> Option<StaticFault>
    ensures { result ≡ first_in bindings.now (marks (tree_of expr.now)) }
{
    let mut prefix = expr;
    let mut found = tail_fault(bindings, tail_of(prefix));
    while let Some(part) = inner_part(prefix) {
        if lacks_nodes(needs_nodes(prefix), part) {
            return Some(needed_fault(bindings, part));
        }
        prefix = part;
        found = earlier(tail_fault(bindings, tail_of(prefix)), found);
    }
    earlier(own_fault(prefix), found)
}

/// The first refusal of what is after the part at the start.
#[cycle(refusal)]
fn tail_fault(bindings: &Bindings, tail: Tail<'_>) -> Option<StaticFault>
    ensures { result ≡ first_in bindings.now (marks_after tail.entry) }
{
    match tail {
        Tail::Nothing => None,
        Tail::Operand(nodes, expr) => wanted_fault(nodes, bindings, expr),
        Tail::Steps(steps) => steps_fault(bindings, steps),
        Tail::List(nodes, list) => list_fault(nodes, bindings, list),
    }
}

/// The first refusal of an expression of which nodes are needed, or not.
#[cycle(refusal)]
fn wanted_fault(nodes: bool, bindings: &Bindings, expr: &Expr) -> Option<StaticFault>
    ensures { result ≡ first_in bindings.now (wanted nodes (tree_of expr.now) (marks (tree_of expr.now))) }
{
    if lacks_nodes(nodes, expr) {
        return Some(needed_fault(bindings, expr));
    }
    expr_fault(bindings, expr)
}

/// The first refusal of a list, and whether nodes are needed of the first expression.
#[cycle(refusal)]
fn list_fault(nodes: bool, bindings: &Bindings, list: &Exprs) -> Option<StaticFault>
    ensures { result ≡ first_in bindings.now (list_marks nodes (trees_of list.now)) }
{
    let mut needed = nodes;
    let mut rest = list;
    while let Exprs::More(first, after) = rest {
        let fault = wanted_fault(needed, bindings, first);
        if fault.is_some() {
            return fault;
        }
        needed = false;
        rest = after;
    }
    None
}

/// The first refusal of steps.
#[cycle(refusal)]
fn steps_fault(bindings: &Bindings, steps: &Steps) -> Option<StaticFault>
    ensures { result ≡ first_in bindings.now (step_marks (walk_of steps.now)) }
{
    let mut rest = steps;
    while let Steps::More(step, after) = rest {
        let own = earlier(axis_fault(step.axis), test_fault(bindings, &step.test));
        let fault = earlier(own, list_fault(false, bindings, &step.predicates));
        if fault.is_some() {
            return fault;
        }
        rest = after;
    }
    None
}

/// Whether an expression may meet a document, with the prefixes that are bound. It takes no memory, and one pass over
/// the expression with a look-up for each prefix.
///
/// # Errors
/// The refusal at the earliest token, and at one token the first in the order of `StaticFault`. The first token
/// of an expression is taken with the brackets round it left aside, and with `child::` left out.
#[tactic(auto, using(crate::proofs::PassLemmas::first_passes, crate::proofs::FirstFault::first_refusal))]
pub fn check(expr: &Expr, bindings: &Bindings) -> Result<(), StaticFault>
    ensures none { IfOk result (λ _. refusals bindings.now (tree_of expr.now) ≡ []) }
    ensures passes { IfOk result (λ _. Passes bindings.now (tree_of expr.now)) }
    ensures first { IfErr result (λ fault. IsFirst fault (refusals bindings.now (tree_of expr.now))) }
{
    match expr_fault(bindings, expr) {
        None => Ok(()),
        Some(fault) => Err(fault),
    }
}
