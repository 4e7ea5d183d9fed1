//! The first part of an expression.

ghost use Rattle.std.specs.Prelude.{◌≡◌, option_map};
ghost use Rattle.xpath_grammar.specs.Checking.{prefix_of};
ghost use Rattle.xpath_grammar.specs.Tree.{tree_of};

use xpath_grammar::Expr;

/// The expression at the start of another: its left operand, or what its steps or its predicates follow.
pub fn first_part(expr: &Expr) -> Option<&Expr>
    ensures { option_map (λ e. tree_of e.now) result ≡ prefix_of (tree_of expr.now) }
{
    match expr {
        Expr::Or(left, _) | Expr::And(left, _) | Expr::Union(left, _) => Some(left),
        Expr::Compare(_, left, _) | Expr::Arithmetic(_, left, _) => Some(left),
        Expr::From { start, steps: _ } => Some(start),
        Expr::Filter {
            start,
            predicates: _,
        } => Some(start),
        _ => None,
    }
}
