//! Numbers of nodes, and their sum: XPath 1.0, section 4.4.

ghost use Rattle.std.specs.Prelude.{◌≡◌, IfOk, List};
ghost use Rattle.xml_model.specs.Tree.{Entry, Identifies};
ghost use Rattle.vtd_words.specs.Table.{IsNodeOf};
ghost use Rattle.xpath_values.specs.Numbers.{IsNumber, number_of_text};
ghost use Rattle.xpath_values.specs.Values.{Meant, string_value, sum_of_nodes};
ghost use Rattle.xpath_meaning.specs.Context.{Context, nodes_in};
ghost use Rattle.xpath_meaning.specs.Functions.{argument};
ghost use Rattle.xpath_meaning.specs.Scope.{AreFewOf, AreHeld, AreNodes, AreValuesOf, IsPlace, IsScope};

use vtd_words::Words;
use xml_model::Node;
use xpath_meaning::{Place, Scope, Values, nodes_at, place_at, table_of};
use xpath_values::{Number, ValueFault, number_seen, sum_next, sum_start, sum_value};

/// The number of a node's string-value.
pub fn number_there<W: Words>(scope: &Scope<'_, '_, W>, place: Place) -> Result<Number, ValueFault>
    requires { IsPlace scope.now place }
    ensures number { (c : Context) → IsScope scope.now c → (e : Entry) →
        Identifies place.node.kind place.node.at e c.document → result ≡ number_of_text (string_value e) }
    ensures fits { IfOk result IsNumber }
{
    number_seen(table_of(scope), place.node)
}

/// The sum of the numbers of nodes; all are converted, in their order, before any is added.
fn sum_of<W: Words>(scope: &Scope<'_, '_, W>, nodes: &[Node]) -> Result<Number, ValueFault>
    requires { AreFewOf scope.now nodes.now }
    ensures sum { (c : Context) → IsScope scope.now c →
        (es : List Entry) → AreNodes c.document nodes.now es → result ≡ sum_of_nodes es }
    ensures fits { IfOk result IsNumber }
{
    let mut sum = sum_start();
    for i in 0..nodes.len() {
        match number_there(scope, place_at(scope, nodes, i)) {
            Ok(number) => sum = sum_next(sum, number),
            Err(fault) => return Err(fault),
        }
    }
    sum_value(sum)
}

/// The sum of the numbers of the nodes of the first argument. It takes one pass over their string-values, and no
/// memory.
pub fn sum<W: Words>(scope: &Scope<'_, '_, W>, arguments: &Values) -> Result<Number, ValueFault>
    requires { AreValuesOf scope.now arguments.now }
    ensures number { (c : Context) → IsScope scope.now c → (vs : List Meant) →
        AreHeld c.document arguments.now vs → result ≡ sum_of_nodes (nodes_in (argument 0 vs)) }
    ensures fits { IfOk result IsNumber }
{
    sum_of(scope, nodes_at(scope, arguments))
}
