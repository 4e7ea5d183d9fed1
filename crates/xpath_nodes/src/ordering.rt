//! Lists of nodes in document order.

ghost use Rattle.std.specs.Prelude.{◌≡◌, ◌<◌, ◌^◌, Ok, List, length, IfOk};
ghost use Rattle.xml_model.specs.Tree.{Entry};
ghost use Rattle.vtd_location.specs.Nav.{IsNav};
ghost use Rattle.xpath_values.specs.Values.{IsHeld, Meant};
ghost use Rattle.xpath_meaning.specs.Context.{Context, in_order};
ghost use Rattle.xpath_meaning.specs.Meaning.{united};
ghost use Rattle.xpath_meaning.specs.Meets.{Meets};
ghost use Rattle.xpath_meaning.specs.Scope.{AreFewOf, AreNodes, AreOf, IsOf, IsScope};

use vtd_words::{Part, Words};
use xml_model::NodeList;
use xpath_axes::order;
use xpath_meaning::{Scope, append, nodes_in, nodes_value, table_of};
use xpath_values::{Value, ValueFault};

/// How many records a document has.
pub fn record_count<W: Words>(scope: &Scope<'_, '_, W>) -> u32
    ensures count { result ≡ length scope.now.lists.records }
    ensures few { length scope.now.lists.records < 2 ^ 32 }
    ensures nav { IsNav scope.now.bytes scope.now.lists }
{
    table_of(scope).words().len(Part::Records)
}

/// Nodes in document order, each once. It takes no memory.
pub fn in_order<W: Words>(scope: &Scope<'_, '_, W>, found: NodeList) -> NodeList
    requires { AreOf scope.now found }
    ensures ordered { (c : Context) → IsScope scope.now c → (es : List Entry) → AreNodes c.document found es →
        AreNodes c.document result (in_order c.document es) }
    ensures of { AreFewOf scope.now result }
{
    let _count = record_count(scope);
    let mut nodes = found;
    order(&mut nodes);
    nodes
}

/// The nodes of two values, in document order, each once (XPath 1.0, section 3.3).
pub fn united<W: Words>(
    scope: &Scope<'_, '_, W>,
    left: Value,
    right: Value,
) -> Result<Value, ValueFault>
    requires left { IsOf scope.now left }
    requires right { IsOf scope.now right }
    ensures means { (c : Context) → IsScope scope.now c →
        (v w : Meant) → IsHeld c.document left v → IsHeld c.document right w →
        Meets (IsHeld c.document) result (Ok (united c.document v w)) }
    ensures of { IfOk result (IsOf scope.now) }
{
    let mut held = nodes_in(scope, left).held;
    match append(&mut held, nodes_in(scope, right)) {
        Ok(()) => Ok(nodes_value(scope, in_order(scope, NodeList { held }))),
        Err(fault) => Err(fault),
    }
}
