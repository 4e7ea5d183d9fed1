//! An expression by the part at its start and what is after that.

ghost use Rattle.std.specs.Prelude.{◌≡◌, ◌<◌, None, option_map};
ghost use Rattle.xpath_grammar.specs.Tree.{tree_of, walk_of};
ghost use Rattle.xpath_grammar.specs.Static.{word_fault};
ghost use Rattle.xpath_grammar.specs.Checking.{prefix_of, inner_of, needs_nodes, tail_marks, own_fault, step_word};
ghost use Rattle.xpath_grammar.specs.Checking.{walk_word, first_word, needed_fault, marks_after, weight, tail_weight};

use crate::bindings::Bindings;
use crate::expr::{Expr, Exprs, StepTest, Steps};
use crate::faults::{StaticFault, axis_fault, call_fault, number_fault, test_fault, wants_nodes};
use xml_model::Axis;
use xpath_tokens::StepAxis;

/// What is after the part at the start of an expression.
pub enum Tail<'a> {
    /// Nothing is there.
    Nothing,
    /// Another operand, of which nodes are needed or not.
    Operand(bool, &'a Expr),
    /// The steps of a path.
    Steps(&'a Steps),
    /// Predicates or arguments, and whether nodes are needed of the first.
    List(bool, &'a Exprs),
}

/// The expression at the start of another, with the same first token.
fn prefix_part(expr: &Expr) -> Option<&Expr>
    ensures { option_map (λ e. tree_of e.now) result ≡ prefix_of (tree_of expr.now) }
{
    match expr {
        Expr::Or(left, _) | Expr::And(left, _) | Expr::Union(left, _) => Some(left),
        Expr::Compare(_, left, _) | Expr::Arithmetic(_, left, _) => Some(left),
        Expr::From { start, steps: _ } => Some(start),
        Expr::Filter {
            start,
            predicates: _,
        } => Some(start),
        _ => None,
    }
}

/// The expression at the start of another, or after a minus sign.
pub fn inner_part(expr: &Expr) -> Option<&Expr>
    ensures { option_map (λ e. tree_of e.now) result ≡ inner_of (tree_of expr.now) }
{
    match expr {
        Expr::Negate(part) => Some(part),
        _ => prefix_part(expr),
    }
}

/// Whether nodes are needed of the expression at the start.
pub fn needs_nodes(expr: &Expr) -> bool
    ensures { result ≡ needs_nodes (tree_of expr.now) }
{
    matches!(
        expr,
        Expr::Union(_, _) | Expr::From { .. } | Expr::Filter { .. }
    )
}

/// What is after the part at the start.
pub fn tail_of(expr: &Expr) -> Tail<'_>
    ensures marks { marks_after result ≡ tail_marks (tree_of expr.now) }
    ensures within { tail_weight result < weight (tree_of expr.now) }
{
    match expr {
        Expr::Or(_, right) | Expr::And(_, right) => Tail::Operand(false, right),
        Expr::Compare(_, _, right) | Expr::Arithmetic(_, _, right) => Tail::Operand(false, right),
        Expr::Union(_, right) => Tail::Operand(true, right),
        Expr::Path { absolute: _, steps } => Tail::Steps(steps),
        Expr::From { start: _, steps } => Tail::Steps(steps),
        Expr::Filter {
            start: _,
            predicates,
        } => Tail::List(false, predicates),
        Expr::Call { name, arguments } => Tail::List(wants_nodes(name), arguments),
        Expr::Negate(_) | Expr::Literal(_) | Expr::Number(_) | Expr::Variable(_) => Tail::Nothing,
    }
}

/// What an expression that has no other at its start refuses there.
pub fn own_fault(expr: &Expr) -> Option<StaticFault>
    ensures { result ≡ own_fault (tree_of expr.now) }
{
    match expr {
        Expr::Number(text) => number_fault(text),
        Expr::Variable(_) => Some(StaticFault::Variable),
        Expr::Call { name, arguments } => call_fault(name, arguments),
        _ => None,
    }
}

/// What the first token of a step is refused for.
fn step_fault(bindings: &Bindings, axis: StepAxis, test: &StepTest) -> Option<StaticFault>
    ensures { result ≡ word_fault bindings.now (step_word axis test.now) }
{
    match axis {
        StepAxis::Known(Axis::Child) => test_fault(bindings, test),
        _ => axis_fault(axis),
    }
}

/// What the first token of a path that is not absolute is refused for.
fn walk_fault(bindings: &Bindings, steps: &Steps) -> Option<StaticFault>
    ensures { result ≡ word_fault bindings.now (walk_word (walk_of steps.now)) }
{
    match steps {
        Steps::End => None,
        Steps::More(step, _) => step_fault(bindings, step.axis, &step.test),
    }
}

/// What the first token of an expression that has no other at its start is refused for.
fn leaf_fault(bindings: &Bindings, expr: &Expr) -> Option<StaticFault>
    requires { prefix_of (tree_of expr.now) ≡ None }
    ensures { result ≡ word_fault bindings.now (first_word (tree_of expr.now)) }
{
    match expr {
        Expr::Path {
            absolute: false,
            steps,
        } => walk_fault(bindings, steps),
        _ => own_fault(expr),
    }
}

/// The expression that begins with the same token, and has no other at its start.
fn leaf(expr: &Expr) -> &Expr
    ensures first { first_word (tree_of result.now) ≡ first_word (tree_of expr.now) }
    ensures alone { prefix_of (tree_of result.now) ≡ None }
{
    let mut prefix = expr;
    while let Some(part) = prefix_part(prefix) {
        prefix = part;
    }
    prefix
}

/// What an expression that gives no nodes refuses where they are needed.
pub fn needed_fault(bindings: &Bindings, expr: &Expr) -> StaticFault
    ensures { result ≡ needed_fault bindings.now (tree_of expr.now) }
{
    match leaf_fault(bindings, leaf(expr)) {
        Some(fault) => fault,
        None => StaticFault::NotNodes,
    }
}
