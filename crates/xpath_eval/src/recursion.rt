//! The value of an expression, part by part.

ghost use Rattle.std.specs.Prelude.{◌≡◌, true, length, IfOk, None};
ghost use Rattle.xml_model.specs.declared.Axis.TheVariants as axes;
ghost use Rattle.xpath_tokens.specs.declared.StepAxis.TheVariants.{Known};
ghost use Rattle.xpath_grammar.specs.declared.expr.StepTest.TheVariants as written;
ghost use Rattle.xpath_grammar.specs.Checking.{prefix_of};
ghost use Rattle.xpath_grammar.specs.Tree.{none, tree_of, trees_of, walk_of};
ghost use Rattle.xpath_values.specs.Answers.{and_then};
ghost use Rattle.xpath_meaning.specs.Meaning.{mean, filtered, walked, listed, kept, step_from};
ghost use Rattle.xpath_meaning.specs.Scope.{AreFewOf, AreValuesOf, Finds, IsOf, IsPlace, ListMeans, Means, source_of};
ghost use Rattle.xpath_predicates.specs.Asks.{PassesAt};
ghost use Rattle.xpath_sweeps.specs.Sweeps.{is_sweep};
ghost use Rattle.xpath_eval.specs.Parts.{Follows, after_first};

use crate::parts::first_part;
use crate::signs::{after_signs, signed};
use vtd_words::Words;
use xml_model::{Axis, Node, NodeList};
use xpath_calls::answered;
use xpath_grammar::{Expr, Exprs, StepAxis, StepTest, Steps};
use xpath_meaning::{
    Place, Scope, Values, append, keep, literal, no_nodes, no_values, nodes_in, nodes_value,
    numeral, operated, place_at, start, truth_value, with_value,
};
use xpath_nodes::{Walker, compared, in_order, united};
use xpath_predicates::passes;
use xpath_sweeps::{is_scan, is_sweep, step_all, stepped_to, takes_first};
use xpath_values::{Value, ValueFault, truth_of};

/// The value of an expression at a place. What is left to do once its first part has a value has functions of its own,
/// which are not put in line, so that a chain of operators takes little stack for each.
#[cycle(evaluation)]
pub fn value_at<W: Words>(
    scope: &Scope<'_, '_, W>,
    walker: &mut Walker<'_, '_, W>,
    place: Place,
    expr: &Expr,
) -> Result<Value, ValueFault>
    requires place { IsPlace scope.now place }
    requires walker { walker.old ≡ source_of scope.now }
    ensures means { Means scope.now place result (mean (tree_of expr.now)) }
    ensures of { IfOk result (IsOf scope.now) }
    ensures walker { walker.new ≡ walker.old }
{
    match first_part(expr) {
        Some(part) => {
            let first = value_at(scope, walker, place, part)?;
            value_after(scope, walker, place, expr, first)
        }
        None => other_value(scope, walker, place, expr),
    }
}

/// The value of an expression whose first part has this value, at a place.
#[cycle(evaluation)]
#[inline(never)]
fn value_after<W: Words>(
    scope: &Scope<'_, '_, W>,
    walker: &mut Walker<'_, '_, W>,
    place: Place,
    expr: &Expr,
    first: Value,
) -> Result<Value, ValueFault>
    requires place { IsPlace scope.now place }
    requires first { IsOf scope.now first }
    requires walker { walker.old ≡ source_of scope.now }
    ensures follows { Follows scope.now place first result (after_first (tree_of expr.now)) }
    ensures of { IfOk result (IsOf scope.now) }
    ensures walker { walker.new ≡ walker.old }
{
    match expr {
        Expr::Or(_, right) => {
            if truth_of(&first) {
                return truth_value(scope, Ok(true));
            }
            let second = value_at(scope, walker, place, right)?;
            truth_value(scope, Ok(truth_of(&second)))
        }
        Expr::And(_, right) => {
            if !truth_of(&first) {
                return truth_value(scope, Ok(false));
            }
            let second = value_at(scope, walker, place, right)?;
            truth_value(scope, Ok(truth_of(&second)))
        }
        Expr::Compare(how, _, right) => {
            let second = value_at(scope, walker, place, right)?;
            compared(scope, *how, first, second)
        }
        Expr::Arithmetic(how, _, right) => {
            let second = value_at(scope, walker, place, right)?;
            operated(scope, *how, first, second)
        }
        Expr::Union(_, right) => {
            let second = value_at(scope, walker, place, right)?;
            united(scope, first, second)
        }
        Expr::From { start: _, steps } => {
            let found = walked(scope, walker, nodes_in(scope, first), steps)?;
            Ok(nodes_value(scope, found))
        }
        Expr::Filter {
            start: _,
            predicates,
        } => {
            let found = filtered(scope, walker, nodes_in(scope, first), predicates)?;
            Ok(nodes_value(scope, found))
        }
        _ => Ok(first),
    }
}

/// The value of an expression that has no other at its start, at a place. A variable is refused before.
#[cycle(evaluation)]
#[inline(never)]
fn other_value<W: Words>(
    scope: &Scope<'_, '_, W>,
    walker: &mut Walker<'_, '_, W>,
    place: Place,
    expr: &Expr,
) -> Result<Value, ValueFault>
    requires place { IsPlace scope.now place }
    requires first { prefix_of (tree_of expr.now) ≡ None }
    requires walker { walker.old ≡ source_of scope.now }
    ensures means { Means scope.now place result (mean (tree_of expr.now)) }
    ensures of { IfOk result (IsOf scope.now) }
    ensures walker { walker.new ≡ walker.old }
{
    match expr {
        Expr::Negate(inner) => {
            let (is_odd, part) = after_signs(inner);
            let value = value_at(scope, walker, place, part)?;
            signed(scope, is_odd, value)
        }
        Expr::Path { absolute, steps } => {
            let nodes = start(scope, place, *absolute)?;
            let found = walked(scope, walker, nodes, steps)?;
            Ok(nodes_value(scope, found))
        }
        Expr::Literal(text) => literal(scope, text),
        Expr::Number(spelling) => numeral(scope, spelling),
        Expr::Call { name, arguments } => {
            let values = values_at(scope, walker, place, arguments, no_values(scope))?;
            answered(scope, walker, place, name, values)
        }
        _ => Ok(nodes_value(scope, no_nodes(scope))),
    }
}

/// The values of expressions at a place, after others.
#[cycle(evaluation)]
fn values_at<W: Words>(
    scope: &Scope<'_, '_, W>,
    walker: &mut Walker<'_, '_, W>,
    place: Place,
    list: &Exprs,
    done: Values,
) -> Result<Values, ValueFault>
    requires place { IsPlace scope.now place }
    requires done { AreValuesOf scope.now done }
    requires walker { walker.old ≡ source_of scope.now }
    ensures values { ListMeans scope.now place done result (listed (trees_of list.now)) }
    ensures of { IfOk result (AreValuesOf scope.now) }
    ensures walker { walker.new ≡ walker.old }
{
    let mut values = done;
    let mut rest = list;
    while let Exprs::More(first, after) = rest {
        let value = value_at(scope, walker, place, first)?;
        values = with_value(scope, values, value)?;
        rest = after;
    }
    Ok(values)
}

/// The nodes that steps find from some nodes.
#[cycle(evaluation)]
fn walked<W: Words>(
    scope: &Scope<'_, '_, W>,
    walker: &mut Walker<'_, '_, W>,
    nodes: NodeList,
    steps: &Steps,
) -> Result<NodeList, ValueFault>
    requires nodes { AreFewOf scope.now nodes }
    requires walker { walker.old ≡ source_of scope.now }
    ensures found { Finds scope.now nodes result (walked (walk_of steps.now)) }
    ensures of { IfOk result (AreFewOf scope.now) }
    ensures walker { walker.new ≡ walker.old }
{
    let mut found = nodes;
    let mut rest = steps;
    while let Steps::More(step, after) = rest {
        if let Steps::More(second, others) = &**after {
            if is_scan(found.held.as_slice(), step, second) {
                found = scanned(
                    scope,
                    walker,
                    found.held.as_slice(),
                    &second.test,
                    &second.predicates,
                )?;
                rest = others;
                continue;
            }
        }
        found = step_from(
            scope,
            walker,
            found.held.as_slice(),
            step.axis,
            &step.test,
            &step.predicates,
        )?;
        rest = after;
    }
    Ok(found)
}

/// The nodes that the step to each node below or at some nodes, and then one to children, find: all of them first, and
/// then the predicates, once. Where one of these has a fault the steps are taken in turn, since another fault may come
/// first then.
#[cycle(evaluation)]
fn scanned<W: Words>(
    scope: &Scope<'_, '_, W>,
    walker: &mut Walker<'_, '_, W>,
    nodes: &[Node],
    test: &StepTest,
    predicates: &Exprs,
) -> Result<NodeList, ValueFault>
    requires nodes { AreFewOf scope.now nodes.now }
    requires at_once { is_sweep nodes.now (trees_of predicates.now) ≡ true }
    requires walker { walker.old ≡ source_of scope.now }
    ensures found { Finds scope.now nodes.now result (λ c es. and_then
        (step_from (filtered none) (Known axes.DescendantOrSelf) written.Node c es)
        (step_from (filtered (trees_of predicates.now)) (Known axes.Child) test.now c)) }
    ensures of { IfOk result (AreFewOf scope.now) }
    ensures walker { walker.new ≡ walker.old }
{
    let below = StepAxis::Known(Axis::Descendant);
    let all = step_all(scope, walker, nodes, below, test)?;
    match filtered(scope, walker, all, predicates) {
        Ok(found) => Ok(found),
        Err(ValueFault::NoMemory) => Err(ValueFault::NoMemory),
        Err(_) => {
            let selves = StepAxis::Known(Axis::DescendantOrSelf);
            let held = step_all(scope, walker, nodes, selves, &StepTest::Node)?;
            let children = StepAxis::Known(Axis::Child);
            step_each(
                scope,
                walker,
                held.held.as_slice(),
                children,
                test,
                predicates,
            )
        }
    }
}

/// The nodes that a step finds from some nodes.
#[cycle(evaluation)]
fn step_from<W: Words>(
    scope: &Scope<'_, '_, W>,
    walker: &mut Walker<'_, '_, W>,
    nodes: &[Node],
    axis: StepAxis,
    test: &StepTest,
    predicates: &Exprs,
) -> Result<NodeList, ValueFault>
    requires nodes { AreFewOf scope.now nodes.now }
    requires walker { walker.old ≡ source_of scope.now }
    ensures found { Finds scope.now nodes.now result (step_from (filtered (trees_of predicates.now)) axis test.now) }
    ensures of { IfOk result (AreFewOf scope.now) }
    ensures walker { walker.new ≡ walker.old }
{
    if is_sweep(nodes, predicates) {
        return swept(scope, walker, nodes, axis, test, predicates);
    }
    step_each(scope, walker, nodes, axis, test, predicates)
}

/// The nodes that a step finds from some nodes: all of them first, and then the predicates, once. Where one of these has
/// a fault the step is taken from node to node, since another fault may come first then.
#[cycle(evaluation)]
fn swept<W: Words>(
    scope: &Scope<'_, '_, W>,
    walker: &mut Walker<'_, '_, W>,
    nodes: &[Node],
    axis: StepAxis,
    test: &StepTest,
    predicates: &Exprs,
) -> Result<NodeList, ValueFault>
    requires nodes { AreFewOf scope.now nodes.now }
    requires at_once { is_sweep nodes.now (trees_of predicates.now) ≡ true }
    requires walker { walker.old ≡ source_of scope.now }
    ensures found { Finds scope.now nodes.now result (step_from (filtered (trees_of predicates.now)) axis test.now) }
    ensures of { IfOk result (AreFewOf scope.now) }
    ensures walker { walker.new ≡ walker.old }
{
    let all = step_all(scope, walker, nodes, axis, test)?;
    match filtered(scope, walker, all, predicates) {
        Ok(found) => Ok(found),
        Err(ValueFault::NoMemory) => Err(ValueFault::NoMemory),
        Err(_) => step_each(scope, walker, nodes, axis, test, predicates),
    }
}

/// The nodes that a step finds from some nodes, from one after another.
#[cycle(evaluation)]
fn step_each<W: Words>(
    scope: &Scope<'_, '_, W>,
    walker: &mut Walker<'_, '_, W>,
    nodes: &[Node],
    axis: StepAxis,
    test: &StepTest,
    predicates: &Exprs,
) -> Result<NodeList, ValueFault>
    requires nodes { AreFewOf scope.now nodes.now }
    requires walker { walker.old ≡ source_of scope.now }
    ensures found { Finds scope.now nodes.now result (step_from (filtered (trees_of predicates.now)) axis test.now) }
    ensures of { IfOk result (AreFewOf scope.now) }
    ensures walker { walker.new ≡ walker.old }
{
    let first = takes_first(predicates);
    let mut found = Vec::new(scope.alloc);
    for i in 0..nodes.len() {
        let place = place_at(scope, nodes, i);
        let list = stepped_to(scope, walker, place, axis, test, first)?;
        let passed = filtered(scope, walker, list, predicates)?;
        append(&mut found, passed)?;
    }
    Ok(in_order(scope, NodeList { held: found }))
}

/// The nodes that all predicates pass.
#[cycle(evaluation)]
fn filtered<W: Words>(
    scope: &Scope<'_, '_, W>,
    walker: &mut Walker<'_, '_, W>,
    nodes: NodeList,
    predicates: &Exprs,
) -> Result<NodeList, ValueFault>
    requires nodes { AreFewOf scope.now nodes }
    requires walker { walker.old ≡ source_of scope.now }
    ensures found { Finds scope.now nodes result (filtered (trees_of predicates.now)) }
    ensures of { IfOk result (AreFewOf scope.now) }
    ensures walker { walker.new ≡ walker.old }
{
    let mut found = nodes;
    let mut rest = predicates;
    while let Exprs::More(first, after) = rest {
        found = kept(scope, walker, found.held.as_slice(), first)?;
        rest = after;
    }
    Ok(found)
}

/// The nodes that a predicate passes.
#[cycle(evaluation)]
fn kept<W: Words>(
    scope: &Scope<'_, '_, W>,
    walker: &mut Walker<'_, '_, W>,
    nodes: &[Node],
    predicate: &Expr,
) -> Result<NodeList, ValueFault>
    requires nodes { AreFewOf scope.now nodes.now }
    requires walker { walker.old ≡ source_of scope.now }
    ensures found { Finds scope.now nodes.now result (λ c es. kept (mean (tree_of predicate.now)) c (length es) 1 es) }
    ensures of { IfOk result (AreFewOf scope.now) }
    ensures walker { walker.new ≡ walker.old }
{
    let mut found = Vec::new(scope.alloc);
    for i in 0..nodes.len() {
        let place = place_at(scope, nodes, i);
        let value = passed_at(scope, walker, place, predicate)?;
        keep(&mut found, value, place)?;
    }
    Ok(NodeList { held: found })
}

/// A value that passes the node of a place where that of a predicate does; the very value where it is not told without
/// lists whether the predicate passes.
#[cycle(evaluation)]
fn passed_at<W: Words>(
    scope: &Scope<'_, '_, W>,
    walker: &mut Walker<'_, '_, W>,
    place: Place,
    predicate: &Expr,
) -> Result<Value, ValueFault>
    requires place { IsPlace scope.now place }
    requires walker { walker.old ≡ source_of scope.now }
    ensures passes { PassesAt scope.now place result (mean (tree_of predicate.now)) }
    ensures walker { walker.new ≡ walker.old }
{
    match passes(scope, walker, place, predicate) {
        Some(passed) => Ok(Value::Truth(passed)),
        None => value_at(scope, walker, place, predicate),
    }
}
