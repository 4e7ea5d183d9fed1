//! What the text of an expression shows.

ghost use Rattle.std.specs.Prelude.{◌≡◌};
ghost use Rattle.xpath_grammar.specs.Tree.{tree_of, trees_of};
ghost use Rattle.xpath_laws.specs.Analysis.{asks_position, reads_position, some_read_position};
ghost use Rattle.xpath_laws.specs.Faults.{answers_call, is_number, kind_of};
ghost use Rattle.xpath_laws.specs.Fused.{are_positionless};

use xpath_grammar::{Expr, Exprs};
use xpath_meaning::{Function, function_named};

/// Whether a function reads the position or the size.
fn asks_position(function: Option<Function>) -> bool
    ensures { result ≡ asks_position function }
{
    match function {
        Some(Function::Last) => true,
        Some(Function::Position) => true,
        _ => false,
    }
}

/// Whether an expression reads the context position or size itself, which its predicates and steps do not.
#[cycle(reading)]
pub fn reads_position(expr: &Expr) -> bool
    ensures { result ≡ reads_position (tree_of expr.now) }
{
    match expr {
        Expr::Or(left, right) => reads_position(left) || reads_position(right),
        Expr::And(left, right) => reads_position(left) || reads_position(right),
        Expr::Compare(_, left, right) => reads_position(left) || reads_position(right),
        Expr::Arithmetic(_, left, right) => reads_position(left) || reads_position(right),
        Expr::Negate(inner) => reads_position(inner),
        Expr::Union(left, right) => reads_position(left) || reads_position(right),
        Expr::Path { .. } => false,
        Expr::From { start, .. } => reads_position(start),
        Expr::Filter { start, .. } => reads_position(start),
        Expr::Literal(_) => false,
        Expr::Number(_) => false,
        Expr::Variable(_) => false,
        Expr::Call { name, arguments } => {
            asks_position(function_named(name)) || some_read_position(arguments)
        }
    }
}

/// Whether one of some expressions reads the context position or size.
#[cycle(reading)]
fn some_read_position(list: &Exprs) -> bool
    ensures { result ≡ some_read_position (trees_of list.now) }
{
    match list {
        Exprs::End => false,
        Exprs::More(first, rest) => reads_position(first) || some_read_position(rest),
    }
}

/// Whether a function answers a number.
fn answers_number(function: Option<Function>) -> bool
    ensures { result ≡ is_number (answers_call function) }
{
    match function {
        Some(Function::Last) => true,
        Some(Function::Position) => true,
        Some(Function::Count) => true,
        Some(Function::StringLength) => true,
        Some(Function::AsNumber) => true,
        Some(Function::Sum) => true,
        Some(Function::Floor) => true,
        Some(Function::Ceiling) => true,
        Some(Function::Round) => true,
        _ => false,
    }
}

/// Whether the value of an expression is a number.
pub fn is_number(expr: &Expr) -> bool
    ensures { result ≡ is_number (kind_of (tree_of expr.now)) }
{
    match expr {
        Expr::Arithmetic(_, _, _) => true,
        Expr::Negate(_) => true,
        Expr::Number(_) => true,
        Expr::Call { name, .. } => answers_number(function_named(name)),
        _ => false,
    }
}

/// Whether predicates do not ask for the position: none reads it, and none is a number.
pub fn are_positionless(predicates: &Exprs) -> bool
    ensures { result ≡ are_positionless (trees_of predicates.now) }
{
    match predicates {
        Exprs::End => true,
        Exprs::More(first, rest) => {
            !reads_position(first) && !is_number(first) && are_positionless(rest)
        }
    }
}
