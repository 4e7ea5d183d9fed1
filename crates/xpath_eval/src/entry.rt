//! The value of an expression over a document.

ghost use Rattle.std.specs.Prelude.{◌≡◌, [], IfOk};
ghost use Rattle.xml_model.specs.Nest.{Forest};
ghost use Rattle.vtd_words.specs.Table.{nodes_of};
ghost use Rattle.vtd_location.specs.Nav.{IsNavOf};
ghost use Rattle.xpath_grammar.specs.Tree.{tree_of};
ghost use Rattle.xpath_grammar.specs.Static.{refusals};
ghost use Rattle.xpath_values.specs.Values.{HasNodesOf, IsHeld};
ghost use Rattle.xpath_meaning.specs.Meaning.{mean};
ghost use Rattle.xpath_meaning.specs.Meets.{Meets};
ghost use Rattle.xpath_meaning.specs.Scope.{Fits, IsInOrder, root_context};

use crate::recursion::value_at;
use std::alloc::Global;
use vtd_location::Nav;
use vtd_words::Words;
use xpath_grammar::{Bindings, Expr};
use xpath_meaning::{Scope, root_place, table_of};
use xpath_nodes::walker_of;
use xpath_values::{Value, ValueFault};

/// The value of an expression that is refused nowhere (`check` answers `Ok`), with the root as the context node, at the
/// position 1 of 1 (XPath 1.0, sections 1 to 4). Operands and arguments are evaluated from left to right and then
/// converted from left to right, and the first fault is the answer; `and` and `or` stop early.
///
/// A step goes along its axis from each of its context nodes, and a predicate is evaluated at each node that it is
/// asked of, so predicates in one another cost a power of the document's size.
///
/// # Errors
/// `Fraction`, `Infinite` and `Range` exactly where the expression means that fault; `NoMemory` where memory was not to
/// be had.
pub fn evaluate<W: Words>(
    alloc: Global,
    nav: &Nav<'_, W>,
    expr: &Expr,
    bindings: &Bindings,
) -> Result<Value, ValueFault>
    requires { refusals bindings.now (tree_of expr.now) ≡ [] }
    ensures means { (nest : Forest) → IsNavOf nav.now.bytes (W.lists nav.now.words) nest →
        Meets (IsHeld (nodes_of nav.now.bytes nest)) result
        (mean (tree_of expr.now) (root_context nav.now.bytes nest bindings.now)) }
    ensures nodes { IfOk result (HasNodesOf nav.now.bytes (W.lists nav.now.words)) }
    ensures ordered { IfOk result IsInOrder }
    ensures fits { IfOk result Fits }
{
    let scope = Scope {
        nav,
        bindings,
        alloc,
    };
    let _table = table_of(&scope);
    let mut walker = walker_of(nav);
    let place = root_place(&scope);
    value_at(&scope, &mut walker, place, expr)
}
