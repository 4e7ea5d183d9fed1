//! Whether an expression holds at a place, where that is told without lists.

ghost use Rattle.std.specs.Prelude.{◌≡◌, ◌<◌, ◌^◌, false, true, Ok, Some as SomeOf, IfSome, List, ℕ};
ghost use Rattle.std.specs.Str.{chars};
ghost use Rattle.xpath_tokens.specs.Numbers.{number_value as spelled};
ghost use Rattle.xpath_grammar.specs.Tree.{call, compare, path, tree_of, trees_of, walk_of};
ghost use Rattle.xpath_values.specs.Numbers.{number_held};
ghost use Rattle.xpath_values.specs.Values.{is_equality, number};
ghost use Rattle.xpath_meaning.specs.declared.function.Function.TheVariants as f;
ghost use Rattle.xpath_meaning.specs.Context.{Context};
ghost use Rattle.xpath_meaning.specs.Functions.{function_named};
ghost use Rattle.xpath_meaning.specs.Meaning.{mean};
ghost use Rattle.xpath_meaning.specs.Scope.{IsContext, IsPlace, source_of};
ghost use Rattle.xpath_laws.specs.Fused.{Passes};
ghost use Rattle.xpath_predicates.specs.Asks.{are_bare, FromHere, Holds};

use crate::asked::Asked;
use crate::finding::{any_found, are_bare};
use vtd_words::Words;
use xml_model::Text;
use xml_model::texts::as_str;
use xpath_grammar::{Comparison, Expr, Exprs, Steps};
use xpath_meaning::{Function, Place, Scope, counted, function_named, table_of};
use xpath_nodes::Walker;
use xpath_tokens::number_value as spelled;
use xpath_values::{Number, compare_numbers};

/// What is asked of the nodes of a path from the context node; `None` where the path is absolute, a step has
/// predicates, or a node has a fault.
fn from_here<W: Words>(
    scope: &Scope<'_, '_, W>,
    walker: &mut Walker<'_, '_, W>,
    place: Place,
    absolute: bool,
    steps: &Steps,
    asked: &Asked<'_>,
) -> Option<bool>
    requires place { IsPlace scope.now place }
    requires walker { walker.old ≡ source_of scope.now }
    ensures relative { IfSome result (λ b. absolute ≡ false) }
    ensures found { IfSome result (λ b. (c : Context) → IsContext scope.now place c →
        FromHere (walk_of steps.now) c asked.now b) }
    ensures walker { walker.new ≡ walker.old }
{
    let _table = table_of(scope);
    if absolute || !are_bare(steps) {
        return None;
    }
    any_found(
        walker.nav,
        &mut walker.resolver,
        scope.bindings,
        place.node,
        steps,
        asked,
    )
}

/// The number of a spelling; `None` where it has a fault.
fn spelled_number(spelling: &Text) -> Option<Number>
    ensures { IfSome result (λ x. number_held (spelled spelling.now) ≡ Ok x) }
{
    match spelled(as_str(spelling)) {
        Ok(n) => Some(Number::Millionths(n as i128)),
        Err(_) => None,
    }
}

/// Whether a comparison is `=` or `!=`.
fn is_equality(how: Comparison) -> bool
    ensures { result ≡ is_equality how }
{
    match how {
        Comparison::Equal => true,
        Comparison::Unequal => true,
        _ => false,
    }
}

/// A path from the context node beside a number or, by `=` or `!=`, a text, that are written.
fn beside<W: Words>(
    scope: &Scope<'_, '_, W>,
    walker: &mut Walker<'_, '_, W>,
    place: Place,
    how: Comparison,
    absolute: bool,
    steps: &Steps,
    right: &Expr,
) -> Option<bool>
    requires place { IsPlace scope.now place }
    requires walker { walker.old ≡ source_of scope.now }
    ensures holds { IfSome result (λ b. (c : Context) → IsContext scope.now place c →
        Holds (mean (compare how (path absolute (walk_of steps.now)) (tree_of right.now)) c) b) }
    ensures walker { walker.new ≡ walker.old }
{
    match right {
        Expr::Number(spelling) => {
            let number = spelled_number(spelling)?;
            let asked = Asked::Number(how, number);
            from_here(scope, walker, place, absolute, steps, &asked)
        }
        Expr::Literal(text) => {
            if !is_equality(how) {
                return None;
            }
            let asked = Asked::Text(how, as_str(text));
            from_here(scope, walker, place, absolute, steps, &asked)
        }
        _ => None,
    }
}

/// The number of a function that is the position or the size, without arguments.
fn number_called(place: Place, function: Option<Function>, arguments: &Exprs) -> Option<Number>
    requires position { place.position < 2 ^ 32 }
    requires size { place.size < 2 ^ 32 }
    ensures { IfSome result (λ x. (c : Context) (name : List ℕ) → function ≡ function_named name →
        c.position ≡ place.position → c.size ≡ place.size →
        mean (call name (trees_of arguments.now)) c ≡ Ok (number x)) }
{
    match arguments {
        Exprs::More(_, _) => None,
        Exprs::End => match function {
            Some(Function::Last) => Some(counted(place.size)),
            Some(Function::Position) => Some(counted(place.position)),
            _ => None,
        },
    }
}

/// The number that an expression is, where it is one that is written, the position or the size.
fn number_here<W: Words>(scope: &Scope<'_, '_, W>, place: Place, expr: &Expr) -> Option<Number>
    requires { IsPlace scope.now place }
    ensures { IfSome result (λ x. (c : Context) → IsContext scope.now place c →
        mean (tree_of expr.now) c ≡ Ok (number x)) }
{
    match expr {
        Expr::Number(spelling) => spelled_number(spelling),
        Expr::Call { name, arguments } => number_called(place, function_named(name), arguments),
        _ => None,
    }
}

/// Whether two expressions that are numbers as `number_here` tells them compare so.
fn numbers_compare<W: Words>(
    scope: &Scope<'_, '_, W>,
    place: Place,
    how: Comparison,
    left: &Expr,
    right: &Expr,
) -> Option<bool>
    requires { IsPlace scope.now place }
    ensures { IfSome result (λ b. (c : Context) → IsContext scope.now place c →
        Holds (mean (compare how (tree_of left.now) (tree_of right.now)) c) b) }
{
    let one = number_here(scope, place, left)?;
    let other = number_here(scope, place, right)?;
    Some(compare_numbers(how, one, other))
}

/// Whether two expressions compare so, where that is told without lists.
fn compared<W: Words>(
    scope: &Scope<'_, '_, W>,
    walker: &mut Walker<'_, '_, W>,
    place: Place,
    how: Comparison,
    left: &Expr,
    right: &Expr,
) -> Option<bool>
    requires place { IsPlace scope.now place }
    requires walker { walker.old ≡ source_of scope.now }
    ensures holds { IfSome result (λ b. (c : Context) → IsContext scope.now place c →
        Holds (mean (compare how (tree_of left.now) (tree_of right.now)) c) b) }
    ensures walker { walker.new ≡ walker.old }
{
    match left {
        Expr::Path { absolute, steps } => {
            beside(scope, walker, place, how, *absolute, steps, right)
        }
        _ => numbers_compare(scope, place, how, left, right),
    }
}

/// Whether a function is `not`.
fn is_not(name: &Text) -> bool
    ensures { result ≡ true → function_named name.now ≡ SomeOf f.Not }
{
    match function_named(name) {
        Some(Function::Not) => true,
        _ => false,
    }
}

/// Whether an expression holds at a place, where that is told without lists; `None` where it is not, or where there is
/// or may be a fault. Told are `or`, `and`, `not`, comparisons of a path without predicates from the context node with a
/// number or a text, of positions and numbers, and whether such a path finds a node. It takes no memory.
#[cycle(holding)]
pub fn holds<W: Words>(
    scope: &Scope<'_, '_, W>,
    walker: &mut Walker<'_, '_, W>,
    place: Place,
    expr: &Expr,
) -> Option<bool>
    requires place { IsPlace scope.now place }
    requires walker { walker.old ≡ source_of scope.now }
    ensures holds { IfSome result (λ b. (c : Context) → IsContext scope.now place c →
        Holds (mean (tree_of expr.now) c) b) }
    ensures walker { walker.new ≡ walker.old }
{
    match expr {
        Expr::Or(left, right) => {
            if holds(scope, walker, place, left)? {
                return Some(true);
            }
            holds(scope, walker, place, right)
        }
        Expr::And(left, right) => {
            if !holds(scope, walker, place, left)? {
                return Some(false);
            }
            holds(scope, walker, place, right)
        }
        Expr::Compare(how, left, right) => compared(scope, walker, place, *how, left, right),
        Expr::Path { absolute, steps } => {
            from_here(scope, walker, place, *absolute, steps, &Asked::Any)
        }
        Expr::Call { name, arguments } => {
            if !is_not(name) {
                return None;
            }
            negated(scope, walker, place, arguments)
        }
        _ => None,
    }
}

/// Whether the one argument of `not` does not hold.
#[cycle(holding)]
fn negated<W: Words>(
    scope: &Scope<'_, '_, W>,
    walker: &mut Walker<'_, '_, W>,
    place: Place,
    arguments: &Exprs,
) -> Option<bool>
    requires place { IsPlace scope.now place }
    requires walker { walker.old ≡ source_of scope.now }
    ensures holds { IfSome result (λ b. (c : Context) → IsContext scope.now place c →
        (name : List ℕ) → function_named name ≡ SomeOf f.Not →
        Holds (mean (call name (trees_of arguments.now)) c) b) }
    ensures walker { walker.new ≡ walker.old }
{
    match arguments {
        Exprs::End => None,
        Exprs::More(first, rest) => match &**rest {
            Exprs::More(_, _) => None,
            Exprs::End => {
                let held = holds(scope, walker, place, first)?;
                Some(!held)
            }
        },
    }
}

/// Whether a predicate passes the node of a place, where that is told without lists: a number that is written or the
/// size, beside the position, and what `holds` tells. It takes no memory.
pub fn passes<W: Words>(
    scope: &Scope<'_, '_, W>,
    walker: &mut Walker<'_, '_, W>,
    place: Place,
    expr: &Expr,
) -> Option<bool>
    requires place { IsPlace scope.now place }
    requires walker { walker.old ≡ source_of scope.now }
    ensures passes { IfSome result (λ b. (c : Context) → IsContext scope.now place c →
        Passes (mean (tree_of expr.now) c) place.position b) }
    ensures walker { walker.new ≡ walker.old }
{
    match number_here(scope, place, expr) {
        Some(number) => Some(compare_numbers(Comparison::Equal, number, counted(place.position))),
        None => holds(scope, walker, place, expr),
    }
}
