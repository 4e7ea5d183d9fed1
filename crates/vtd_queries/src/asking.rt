//! What the text of an expression answers on a document.

ghost use Rattle.std.specs.Prelude.{◌≡◌, ◌<◌, ◌^◌, length, map, IfOk};
ghost use Rattle.std.specs.List.{All};
ghost use Rattle.std.specs.List.Sorted.{IsStrictlyIncreasing};
ghost use Rattle.xml_model.specs.Nest.{Forest};
ghost use Rattle.vtd_words.specs.Table.{IsNodeOf, nodes_of};
ghost use Rattle.vtd_location.specs.Nav.{IsNavOf};
ghost use Rattle.xpath_values.specs.Values.{HasNodesOf, IsHeld};
ghost use Rattle.xpath_meaning.specs.Scope.{AreNodes, Fits, IsInOrder};
ghost use Rattle.vtd_queries.specs.Meets.{IsString, Meets, held_nodes};
ghost use Rattle.vtd_queries.specs.Questions.{Asks, AsksNodes};

use crate::faults::QueryFault;
use crate::reading::read;
use std::alloc::Global;
use vtd_location::Nav;
use vtd_words::Words;
use xml_model::{NodeList, Text};
use xpath_eval::evaluate;
use xpath_grammar::{Bindings, gives_nodes};
use xpath_values::{Value, string_of};

/// The value of the text of an expression on a document, with the root as the context node, at the position 1 of 1
/// (XPath 1.0, sections 1 to 4). It costs what `parse`, `check` and `evaluate` do.
///
/// # Errors
/// The first that applies: `Long`, `Deep` and `Syntax` exactly where `parse` has them; one of `Axis` to `NeedsNodes`
/// exactly where `check` has it; `Fraction`, `Infinite` and `Range` exactly where the expression means that fault.
/// `NotNodes` never. `NoMemory` may come in place of any other answer.
pub fn ask<W: Words>(
    alloc: Global,
    nav: &Nav<'_, W>,
    bindings: &Bindings,
    text: &str,
) -> Result<Value, QueryFault>
    ensures answers { (nest : Forest) → IsNavOf nav.now.bytes (W.lists nav.now.words) nest →
        Meets (IsHeld (nodes_of nav.now.bytes nest)) (Asks nav.now.bytes nest bindings.now text.now) result }
    ensures nodes { IfOk result (HasNodesOf nav.now.bytes (W.lists nav.now.words)) }
    ensures ordered { IfOk result IsInOrder }
    ensures fits { IfOk result Fits }
{
    let expr = read(alloc, bindings, text)?;
    let value = evaluate(alloc, nav, &expr, bindings)?;
    Ok(value)
}

/// The nodes of a node-set; those of another value are none.
fn nodes_in(alloc: Global, value: Value) -> NodeList
    ensures { result ≡ held_nodes value }
{
    match value {
        Value::Nodes(nodes) => nodes,
        _ => NodeList {
            held: Vec::new(alloc),
        },
    }
}

/// The nodes of the text of an expression on a document, in document order, each once, with the root as the context
/// node, at the position 1 of 1 (XPath 1.0, sections 1 to 4). It costs what `parse`, `check` and `evaluate` do.
///
/// # Errors
/// The first that applies: those of `ask` before evaluation; `NotNodes` exactly where the type of the expression is no
/// node-set; those of evaluation. `NoMemory` may come in place of any other answer.
pub fn ask_nodes<W: Words>(
    alloc: Global,
    nav: &Nav<'_, W>,
    bindings: &Bindings,
    text: &str,
) -> Result<NodeList, QueryFault>
    ensures answers { (nest : Forest) → IsNavOf nav.now.bytes (W.lists nav.now.words) nest →
        Meets (AreNodes (nodes_of nav.now.bytes nest)) (AsksNodes nav.now.bytes nest bindings.now text.now) result }
    ensures nodes { IfOk result (All (IsNodeOf nav.now.bytes (W.lists nav.now.words))) }
    ensures ordered { IfOk result (λ nodes. IsStrictlyIncreasing (map (λ n. n.at) nodes)) }
    ensures few { IfOk result (λ nodes. length nodes < 2 ^ 32) }
{
    let expr = read(alloc, bindings, text)?;
    if !gives_nodes(&expr) {
        return Err(QueryFault::NotNodes);
    }
    let value = evaluate(alloc, nav, &expr, bindings)?;
    Ok(nodes_in(alloc, value))
}

/// The string of the text of an expression on a document: its value, converted (XPath 1.0, section 4.2). It costs what
/// `ask` does, and one pass over the string.
///
/// # Errors
/// Those of `ask`, exactly.
pub fn ask_text<W: Words>(
    alloc: Global,
    nav: &Nav<'_, W>,
    bindings: &Bindings,
    text: &str,
) -> Result<Text, QueryFault>
    ensures { (nest : Forest) → IsNavOf nav.now.bytes (W.lists nav.now.words) nest →
        Meets IsString (Asks nav.now.bytes nest bindings.now text.now) result }
{
    let value = ask(alloc, nav, bindings, text)?;
    let string = string_of(alloc, nav.table(), &value)?;
    Ok(string)
}
