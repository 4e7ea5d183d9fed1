//! Steps from whole lists of nodes.

ghost use Rattle.std.specs.Prelude.{◌≡◌, ◌<◌, ◌^◌, true, IfErr, IfOk, List, filter, length};
ghost use Rattle.xml_model.specs.Contexts.{union_list};
ghost use Rattle.xml_model.specs.Names.{passes};
ghost use Rattle.xml_model.specs.Tree.{Entry};
ghost use Rattle.vtd_location.specs.Nav.{IsNav};
ghost use Rattle.xpath_axes.specs.Tests.{node_test};
ghost use Rattle.xpath_grammar.specs.Tree.{none};
ghost use Rattle.xpath_values.specs.declared.ValueFault.TheVariants.{NoMemory as OutOfMemory};
ghost use Rattle.xpath_meaning.specs.Context.{Context, is_attribute_axis};
ghost use Rattle.xpath_meaning.specs.Meaning.{filtered, step_from};
ghost use Rattle.xpath_meaning.specs.Scope.{AreFewOf, AreNodes, Finds, IsScope, source_of};
ghost use Rattle.xpath_sweeps.specs.Sweeps.{are_in_order};

use vtd_words::{Part, Words};
use xml_model::{Axis, Node, NodeList, NodeTest};
use xpath_grammar::{StepAxis, StepTest};
use xpath_meaning::{Scope, no_nodes, table_of};
use xpath_nodes::{Walker, resolved};
use xpath_steps::step_of_all;
use xpath_values::ValueFault;

/// How many records a document has.
fn record_count<W: Words>(scope: &Scope<'_, '_, W>) -> u32
    ensures count { result ≡ length scope.now.lists.records }
    ensures few { length scope.now.lists.records < 2 ^ 32 }
    ensures nav { IsNav scope.now.bytes scope.now.lists }
{
    table_of(scope).words().len(Part::Records)
}

/// The nodes on an axis of some of the nodes that pass a test, in document order, each once.
fn union_along<W: Words>(
    scope: &Scope<'_, '_, W>,
    walker: &mut Walker<'_, '_, W>,
    nodes: &[Node],
    axis: Axis,
    test: &NodeTest<'_>,
) -> Result<NodeList, ValueFault>
    requires nodes { AreFewOf scope.now nodes.now }
    requires order { are_in_order nodes.now ≡ true }
    requires walker { walker.old ≡ source_of scope.now }
    ensures found { IfOk result (λ list. (c : Context) → IsScope scope.now c →
        (es : List Entry) → AreNodes c.document nodes.now es → AreNodes c.document list
        (filter (passes (node_test test.now) (is_attribute_axis axis)) (union_list axis es c.document))) }
    ensures of { IfOk result (AreFewOf scope.now) }
    ensures full { IfErr result (λ e. e ≡ OutOfMemory) }
    ensures walker { walker.new ≡ walker.old }
{
    let _count = record_count(scope);
    let table = walker.nav.table();
    match step_of_all(scope.alloc, table, &mut walker.resolver, axis, nodes, test) {
        Ok(list) => Ok(list),
        Err(_) => Err(ValueFault::NoMemory),
    }
}

/// The nodes that a step without predicates finds from some nodes, which are in document order, each once (XPath 1.0,
/// sections 2.1 to 2.3): in document order, each once. It reads a record a constant number of times. `NoMemory` comes
/// where there is no memory for the list.
pub fn step_all<W: Words>(
    scope: &Scope<'_, '_, W>,
    walker: &mut Walker<'_, '_, W>,
    nodes: &[Node],
    axis: StepAxis,
    test: &StepTest,
) -> Result<NodeList, ValueFault>
    requires nodes { AreFewOf scope.now nodes.now }
    requires order { are_in_order nodes.now ≡ true }
    requires walker { walker.old ≡ source_of scope.now }
    ensures found { Finds scope.now nodes.now result (step_from (filtered none) axis test.now) }
    ensures of { IfOk result (AreFewOf scope.now) }
    ensures full { IfErr result (λ e. e ≡ OutOfMemory) }
    ensures walker { walker.new ≡ walker.old }
{
    match axis {
        StepAxis::Known(axis) => {
            let test = resolved(scope.bindings, test);
            union_along(scope, walker, nodes, axis, &test)
        }
        StepAxis::Namespace => Ok(no_nodes(scope)),
    }
}
