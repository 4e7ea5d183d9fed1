//! Steps of which the first node alone is asked for.

ghost use Rattle.std.specs.Prelude.{◌≡◌, true, Ok, IfErr, IfOk, List, option_to_list, take};
ghost use Rattle.xml_model.specs.Tree.{Entry, Identifies};
ghost use Rattle.xpath_axes.specs.Tests.{node_test};
ghost use Rattle.xpath_tokens.specs.Numbers.{number_value as spelled};
ghost use Rattle.xpath_grammar.specs.Tree.{tree_of, trees_of};
ghost use Rattle.xpath_values.specs.declared.ValueFault.TheVariants.{NoMemory as OutOfMemory};
ghost use Rattle.xpath_values.specs.Numbers.{counted, number_held};
ghost use Rattle.xpath_values.specs.Values.{number};
ghost use Rattle.xpath_meaning.specs.Context.{Context, on_axis, stepped};
ghost use Rattle.xpath_meaning.specs.Meaning.{filtered, mean};
ghost use Rattle.xpath_meaning.specs.Scope.{AreFewOf, AreNodes, IsPlace, IsScope, source_of};
ghost use Rattle.xpath_sweeps.specs.Sweeps.{fewer};

use std::alloc::Global;
use vtd_words::Words;
use xml_model::texts::as_str;
use xml_model::{Axis, Node, NodeList, NodeTest, Text};
use xpath_axes::axis_iter_by;
use xpath_grammar::{Expr, Exprs, StepAxis, StepTest};
use xpath_meaning::{Place, Scope, no_nodes, table_of};
use xpath_nodes::{Walker, resolved, stepped};
use xpath_tokens::number_value as spelled;
use xpath_values::ValueFault;

/// Whether a spelling is that of 1.
fn spells_one(spelling: &Text) -> bool
    ensures { result ≡ true → number_held (spelled spelling.now) ≡ Ok (counted 1) }
{
    match spelled(as_str(spelling)) {
        Ok(n) => n == 1_000_000,
        Err(_) => false,
    }
}

/// Whether an expression is the number 1, as it is written.
fn is_one(expr: &Expr) -> bool
    ensures { result ≡ true → (c : Context) → mean (tree_of expr.now) c ≡ Ok (number (counted 1)) }
{
    match expr {
        Expr::Number(spelling) => spells_one(spelling),
        _ => false,
    }
}

/// Whether the first of some predicates is the number 1, as it is written: then they ask for the first node alone.
pub fn takes_first(predicates: &Exprs) -> bool
    ensures { (c : Context) (es : List Entry) → filtered (trees_of predicates.now) c (fewer result es) ≡
        filtered (trees_of predicates.now) c es }
{
    match predicates {
        Exprs::End => false,
        Exprs::More(first, _) => is_one(first),
    }
}

/// A list of a node, or of none.
fn list_of(alloc: Global, node: Option<Node>) -> Result<NodeList, ValueFault>
    ensures list { IfOk result (λ list. list ≡ option_to_list node) }
    ensures full { IfErr result (λ e. e ≡ OutOfMemory) }
{
    let mut held = Vec::new(alloc);
    match node {
        None => Ok(NodeList { held }),
        Some(node) => {
            held.push(node)?;
            Ok(NodeList { held })
        }
    }
}

/// The first node on an axis of a place's node that passes a test, in axis order, or none.
fn first_on<W: Words>(
    scope: &Scope<'_, '_, W>,
    walker: &mut Walker<'_, '_, W>,
    place: Place,
    axis: Axis,
    test: &NodeTest<'_>,
) -> Result<NodeList, ValueFault>
    requires place { IsPlace scope.now place }
    requires walker { walker.old ≡ source_of scope.now }
    ensures found { IfOk result (λ list. (c : Context) → IsScope scope.now c →
        (e : Entry) → Identifies place.node.kind place.node.at e c.document →
        AreNodes c.document list (take 1 (on_axis axis (node_test test.now) e c.document))) }
    ensures of { IfOk result (AreFewOf scope.now) }
    ensures full { IfErr result (λ e. e ≡ OutOfMemory) }
    ensures walker { walker.new ≡ walker.old }
{
    let _table = table_of(scope);
    let mut left = axis_iter_by(walker.nav, &mut walker.resolver, place.node, axis, test);
    list_of(scope.alloc, left.next_by(&mut walker.resolver))
}

/// The nodes on an axis of a place's node that pass the test that is written, in axis order (XPath 1.0, sections 2.1 to
/// 2.4); the first one alone where no other is asked for.
pub fn stepped_to<W: Words>(
    scope: &Scope<'_, '_, W>,
    walker: &mut Walker<'_, '_, W>,
    place: Place,
    axis: StepAxis,
    test: &StepTest,
    first: bool,
) -> Result<NodeList, ValueFault>
    requires place { IsPlace scope.now place }
    requires walker { walker.old ≡ source_of scope.now }
    ensures found { IfOk result (λ list. (c : Context) → IsScope scope.now c →
        (e : Entry) → Identifies place.node.kind place.node.at e c.document →
        AreNodes c.document list (fewer first (stepped axis test.now c e))) }
    ensures of { IfOk result (AreFewOf scope.now) }
    ensures full { IfErr result (λ e. e ≡ OutOfMemory) }
    ensures walker { walker.new ≡ walker.old }
{
    if !first {
        return stepped(scope, walker, place, axis, test);
    }
    match axis {
        StepAxis::Known(axis) => {
            let test = resolved(scope.bindings, test);
            first_on(scope, walker, place, axis, &test)
        }
        StepAxis::Namespace => Ok(no_nodes(scope)),
    }
}
