//! Comparisons: XPath 1.0, section 3.4.

ghost use Rattle.std.specs.Prelude.{◌≡◌, IfOk};
ghost use Rattle.xpath_values.specs.Answers.{with};
ghost use Rattle.xpath_values.specs.Values.{IsHeld, Meant, truth, compare};
ghost use Rattle.xpath_meaning.specs.Context.{Context};
ghost use Rattle.xpath_meaning.specs.Meets.{Meets};
ghost use Rattle.xpath_meaning.specs.Scope.{IsOf, IsScope};

use vtd_words::Words;
use xpath_comparisons::compare;
use xpath_grammar::Comparison;
use xpath_meaning::{Scope, table_of, truth_value};
use xpath_values::{Value, ValueFault};

/// The comparison of two values.
pub fn compared<W: Words>(
    scope: &Scope<'_, '_, W>,
    how: Comparison,
    left: Value,
    right: Value,
) -> Result<Value, ValueFault>
    requires left { IsOf scope.now left }
    requires right { IsOf scope.now right }
    ensures means { (c : Context) → IsScope scope.now c →
        (v w : Meant) → IsHeld c.document left v → IsHeld c.document right w →
        Meets (IsHeld c.document) result (with (compare how v w) truth) }
    ensures of { IfOk result (IsOf scope.now) }
{
    truth_value(
        scope,
        compare(scope.alloc, table_of(scope), how, &left, &right),
    )
}
