//! Minus signs before an expression.

ghost use Rattle.std.specs.Prelude.{◌≡◌, ◌≤◌, IfOk};
ghost use Rattle.xpath_grammar.specs.Checking.{weight};
ghost use Rattle.xpath_grammar.specs.Tree.{negate, tree_of};
ghost use Rattle.xpath_values.specs.Values.{Meant, IsHeld};
ghost use Rattle.xpath_meaning.specs.Context.{Context};
ghost use Rattle.xpath_meaning.specs.Meaning.{mean};
ghost use Rattle.xpath_meaning.specs.Meets.{Meets};
ghost use Rattle.xpath_meaning.specs.Scope.{IsOf, IsScope};
ghost use Rattle.xpath_eval.specs.Signs.{signed, signed_value};

use vtd_words::Words;
use xpath_grammar::Expr;
use xpath_meaning::{Scope, negated};
use xpath_values::{Value, ValueFault};

/// The expression after the minus signs before which one more stands, and whether they are odd in number with that one.
/// It goes over the signs in a loop, so that a chain of them takes no stack.
pub fn after_signs(inner: &Expr) -> (bool, &Expr)
    ensures means { (c : Context) →
        mean (signed result.0 (tree_of result.1.now)) c ≡ mean (negate (tree_of inner.now)) c }
    ensures within { weight (tree_of result.1.now) ≤ weight (tree_of inner.now) }
{
    let mut is_odd = true;
    let mut part = inner;
    while let Expr::Negate(next) = part {
        is_odd = !is_odd;
        part = next;
    }
    (is_odd, part)
}

/// A value after one minus sign, or after two.
pub fn signed<W: Words>(
    scope: &Scope<'_, '_, W>,
    is_odd: bool,
    value: Value,
) -> Result<Value, ValueFault>
    requires { IsOf scope.now value }
    ensures means { (c : Context) → IsScope scope.now c → (v : Meant) → IsHeld c.document value v →
        Meets (IsHeld c.document) result (signed_value is_odd v) }
    ensures of { IfOk result (IsOf scope.now) }
{
    let once = negated(scope, value)?;
    if is_odd {
        return Ok(once);
    }
    negated(scope, once)
}
