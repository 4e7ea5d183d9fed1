//! Places, lists of nodes and lists of values.

ghost use Rattle.std.specs.Prelude.{◌≡◌, ◌++◌, ◌∷◌, [], ◌<◌, ◌≤◌, ◌+◌, ◌^◌, Ok, List, length, IfOk, IfErr, OnOk};
ghost use Rattle.xml_model.specs.Tree.{Entry};
ghost use Rattle.xpath_values.specs.declared.Value.TheVariants as held;
ghost use Rattle.xpath_values.specs.declared.ValueFault.TheVariants.{NoMemory};
ghost use Rattle.xpath_values.specs.Values.{IsHeld, Meant, held_as};
ghost use Rattle.xpath_meaning.specs.Context.{Context, is_passed, nodes_in, start};
ghost use Rattle.xpath_meaning.specs.Meets.{Meets};
ghost use Rattle.xpath_meaning.specs.Scope.{AreNodes, AreOf, AreFewOf, AreValuesOf, IsAt, IsContext, IsOf, IsPlace};
ghost use Rattle.xpath_meaning.specs.Scope.{node_if};

use crate::operators::is_passed;
use crate::scope::{Place, Scope, Values};
use vtd_words::Words;
use xml_model::{Kind, Node, NodeList};
use xpath_values::{Value, ValueFault};

/// The root.
const ROOT: Node = Node {
    kind: Kind::Root,
    at: 0,
};

/// The place of the root: at the position 1 of 1.
pub fn root_place<W: Words>(_scope: &Scope<'_, '_, W>) -> Place
    ensures is { result ≡ record { node = ROOT; position = 1; size = 1 } }
    ensures place { IsPlace _scope.now result }
{
    Place {
        node: ROOT,
        position: 1,
        size: 1,
    }
}

/// The nodes of a value.
pub fn nodes_in<W: Words>(scope: &Scope<'_, '_, W>, value: Value) -> NodeList
    requires { IsOf scope.now value }
    ensures nodes { (document : List Entry) → (v : Meant) → IsHeld document value v →
        AreNodes document result (nodes_in v) }
    ensures of { AreFewOf scope.now result }
{
    match value {
        Value::Nodes(nodes) => nodes,
        Value::Truth(_) => no_nodes(scope),
        Value::Number(_) => no_nodes(scope),
        Value::Text(_) => no_nodes(scope),
    }
}

/// A list of one node.
pub fn one_node<W: Words>(scope: &Scope<'_, '_, W>, node: Node) -> Result<NodeList, ValueFault>
    ensures one { IfOk result (λ list. list ≡ node ∷ []) }
    ensures full { IfErr result (λ e. e ≡ NoMemory) }
{
    let mut held = Vec::new(scope.alloc);
    held.push(node)?;
    Ok(NodeList { held })
}

/// No nodes.
pub fn no_nodes<W: Words>(scope: &Scope<'_, '_, W>) -> NodeList
    ensures none { result ≡ [] }
    ensures of { AreFewOf scope.now result }
{
    NodeList {
        held: Vec::new(scope.alloc),
    }
}

/// Nodes as a value.
pub fn nodes_value<W: Words>(_scope: &Scope<'_, '_, W>, nodes: NodeList) -> Value
    requires { AreFewOf _scope.now nodes }
    ensures value { result ≡ held.Nodes nodes }
    ensures of { IsOf _scope.now result }
{
    Value::Nodes(nodes)
}

/// The context node as a list.
pub fn own_nodes<W: Words>(scope: &Scope<'_, '_, W>, place: Place) -> Result<NodeList, ValueFault>
    requires { IsPlace scope.now place }
    ensures nodes { IfOk result (λ list. (c : Context) → IsContext scope.now place c →
        AreNodes c.document list (c.node ∷ [])) }
    ensures of { IfOk result (AreFewOf scope.now) }
    ensures full { IfErr result (λ e. e ≡ NoMemory) }
{
    one_node(scope, place.node)
}

/// The nodes from which a path starts (XPath 1.0, section 2).
pub fn start<W: Words>(
    scope: &Scope<'_, '_, W>,
    place: Place,
    absolute: bool,
) -> Result<NodeList, ValueFault>
    requires { IsPlace scope.now place }
    ensures nodes { (c : Context) → IsContext scope.now place c →
        Meets (AreNodes c.document) result (Ok (start absolute c)) }
    ensures of { IfOk result (AreFewOf scope.now) }
{
    if absolute {
        return one_node(scope, ROOT);
    }
    one_node(scope, place.node)
}

/// The place of the node with an index in a list.
pub fn place_at<W: Words>(scope: &Scope<'_, '_, W>, nodes: &[Node], i: usize) -> Place
    requires of { AreFewOf scope.now nodes.now }
    requires within { i < length nodes.now }
    ensures is { IsAt nodes.now i result }
    ensures place { IsPlace scope.now result }
{
    Place {
        node: nodes[i],
        position: i + 1,
        size: nodes.len(),
    }
}

/// Appends a node, where a predicate with this value passes its position.
pub fn keep(found: &mut Vec<Node>, value: Value, place: Place) -> Result<(), ValueFault>
    requires { place.position < 2 ^ 32 }
    ensures kept { OnOk result ((v : Meant) → value ≡ held_as v →
        found.new.items ≡ found.old.items ++ node_if (is_passed v place.position) place.node) }
    ensures few { OnOk result (length found.new.items ≤ length found.old.items + 1) }
    ensures full { IfErr result (λ e. e ≡ NoMemory) }
{
    if is_passed(&value, place.position) {
        found.push(place.node)?;
    }
    Ok(())
}

/// Appends nodes.
pub fn append(found: &mut Vec<Node>, list: NodeList) -> Result<(), ValueFault>
    ensures appended { OnOk result (found.new.items ≡ found.old.items ++ list) }
    ensures full { IfErr result (λ e. e ≡ NoMemory) }
{
    found.extend_from_slice(list.held.as_slice())?;
    Ok(())
}

/// The values with one more.
pub fn with_value<W: Words>(
    _scope: &Scope<'_, '_, W>,
    values: Values,
    value: Value,
) -> Result<Values, ValueFault>
    requires values { AreValuesOf _scope.now values }
    requires value { IsOf _scope.now value }
    ensures of { IfOk result (AreValuesOf _scope.now) }
    ensures more { IfOk result (λ r. r ≡ values ++ value ∷ []) }
    ensures full { IfErr result (λ e. e ≡ NoMemory) }
{
    let mut held = values.held;
    held.push(value)?;
    Ok(Values { held })
}

/// No values.
pub fn no_values<W: Words>(scope: &Scope<'_, '_, W>) -> Values
    ensures none { result ≡ [] }
    ensures of { AreValuesOf scope.now result }
{
    Values {
        held: Vec::new(scope.alloc),
    }
}
