//! Steps from a node.

ghost use Rattle.std.specs.Prelude.{◌≡◌, IfErr, IfOk, List};
ghost use Rattle.xml_model.specs.Tree.{Entry, Identifies};
ghost use Rattle.xpath_axes.specs.Tests.{node_test};
ghost use Rattle.xpath_values.specs.declared.ValueFault.TheVariants.{NoMemory as OutOfMemory};
ghost use Rattle.xpath_meaning.specs.Context.{Context, on_axis, stepped};
ghost use Rattle.xpath_meaning.specs.Scope.{AreFewOf, AreNodes, IsPlace, IsScope, source_of};

use crate::ordering::record_count;
use crate::resolving::resolved;
use crate::walking::nodes_along;
use std::marker::Model;
use vtd_location::Nav;
use vtd_namespaces::Resolver;
use vtd_words::Words;
use xml_model::{Axis, NodeList, NodeTest};
use xpath_grammar::{StepAxis, StepTest};
use xpath_meaning::{Place, Scope, no_nodes};
use xpath_values::ValueFault;

/// What goes along the axes of a document, and knows the URIs of its names.
#[derive(Drop)]
pub struct Walker<'n, 'a, W: Words> {
    pub nav: &'n Nav<'a, W>,
    pub resolver: Resolver<'n, 'a, W>,
}

impl<'n, 'a, W: Words> Model for Walker<'n, 'a, W> {
    ghost use Rattle.std.specs.Prelude.{◌≡◌};
    ghost use Rattle.xpath_meaning.specs.Scope.{Source};

    ghost Value = { Source };

    ghost view = { λ w. record { bytes = w.nav.now.bytes; lists = W.lists w.nav.now.words } };

    ghost invariant = { λ w. w.resolver ≡ w.nav.now };
}

/// A walker of a document. It reads the records from the last one back to the last declaration of a namespace.
pub fn walker_of<'n, 'a, W: Words>(nav: &'n Nav<'a, W>) -> Walker<'n, 'a, W>
    ensures { result ≡ record { bytes = nav.now.bytes; lists = W.lists nav.now.words } }
{
    Walker {
        nav,
        resolver: Resolver::new(nav.table()),
    }
}

/// The nodes on an axis of a place's node that pass a test, in axis order.
fn on_axis<W: Words>(
    scope: &Scope<'_, '_, W>,
    walker: &mut Walker<'_, '_, W>,
    place: Place,
    axis: Axis,
    test: &NodeTest<'_>,
) -> Result<NodeList, ValueFault>
    requires place { IsPlace scope.now place }
    requires walker { walker.old ≡ source_of scope.now }
    ensures found { IfOk result (λ list. (c : Context) → IsScope scope.now c →
        (e : Entry) → Identifies place.node.kind place.node.at e c.document →
        AreNodes c.document list (on_axis axis (node_test test.now) e c.document)) }
    ensures of { IfOk result (AreFewOf scope.now) }
    ensures full { IfErr result (λ e. e ≡ OutOfMemory) }
    ensures walker { walker.new ≡ walker.old }
{
    let _count = record_count(scope);
    nodes_along(
        scope.alloc,
        walker.nav,
        &mut walker.resolver,
        place.node,
        axis,
        test,
    )
}

/// The nodes on an axis of a place's node that pass the test that is written, in axis order (XPath 1.0, sections 2.1 to
/// 2.4).
pub fn stepped<W: Words>(
    scope: &Scope<'_, '_, W>,
    walker: &mut Walker<'_, '_, W>,
    place: Place,
    axis: StepAxis,
    test: &StepTest,
) -> Result<NodeList, ValueFault>
    requires place { IsPlace scope.now place }
    requires walker { walker.old ≡ source_of scope.now }
    ensures found { IfOk result (λ list. (c : Context) → IsScope scope.now c →
        (e : Entry) → Identifies place.node.kind place.node.at e c.document →
        AreNodes c.document list (stepped axis test.now c e)) }
    ensures of { IfOk result (AreFewOf scope.now) }
    ensures full { IfErr result (λ e. e ≡ OutOfMemory) }
    ensures walker { walker.new ≡ walker.old }
{
    match axis {
        StepAxis::Known(axis) => on_axis(
            scope,
            walker,
            place,
            axis,
            &resolved(scope.bindings, test),
        ),
        StepAxis::Namespace => Ok(no_nodes(scope)),
    }
}
