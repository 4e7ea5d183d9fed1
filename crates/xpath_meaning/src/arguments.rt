//! The arguments of a function, converted as it asks: XPath 1.0, sections 3.2 and 4.

ghost use Rattle.std.specs.Prelude.{◌≡◌, [], ◌∷◌, List, IfErr, IfOk, option_map};
ghost use Rattle.std.specs.List.{slice_get};
ghost use Rattle.xpath_values.specs.declared.ValueFault.TheVariants.{NoMemory as OutOfMemory};
ghost use Rattle.xpath_values.specs.Numbers.{IsNumber};
ghost use Rattle.xpath_values.specs.Values.{IsHeld, Meant, nodes, number_of, string_of, truth_of};
ghost use Rattle.xml_model.specs.Tree.{Entry};
ghost use Rattle.xpath_meaning.specs.Context.{Context, nodes_in};
ghost use Rattle.xpath_meaning.specs.Functions.{argument};
ghost use Rattle.xpath_meaning.specs.Scope.{AreFewOf, AreHeld, AreNodes, AreValuesOf, IsContext, IsOf, IsPlace};
ghost use Rattle.xpath_meaning.specs.Scope.{IsScope};

use crate::operators::to_number;
use crate::places::{nodes_value, own_nodes};
use crate::scope::{Place, Scope, Values, table_of};
use vtd_words::Words;
use xml_model::texts::make_text;
use xml_model::{Node, Text};
use xpath_values::{Number, Value, ValueFault, nodes_of, string_of, truth_of};

/// The argument with an index.
pub fn value_at(arguments: &Values, i: usize) -> Option<&Value>
    ensures { option_map (λ v. v.now) result ≡ slice_get arguments.now i }
{
    arguments.held.get(i)
}

/// A text with no characters.
fn no_characters<W: Words>(scope: &Scope<'_, '_, W>) -> Result<Text, ValueFault>
    ensures text { IfOk result (λ t. t ≡ []) }
    ensures full { IfErr result (λ e. e ≡ OutOfMemory) }
{
    Ok(make_text(scope.alloc, "")?)
}

/// A value as a string.
pub fn to_text<W: Words>(scope: &Scope<'_, '_, W>, value: &Value) -> Result<Text, ValueFault>
    requires { IsOf scope.now value.now }
    ensures text { IfOk result (λ t. (c : Context) → IsScope scope.now c →
        (v : Meant) → IsHeld c.document value.now v → t ≡ string_of v) }
    ensures full { IfErr result (λ e. e ≡ OutOfMemory) }
{
    match string_of(scope.alloc, table_of(scope), value) {
        Ok(text) => Ok(text),
        Err(_) => Err(ValueFault::NoMemory),
    }
}

/// The argument with an index as a string; no characters where there is none.
pub fn text_at<W: Words>(
    scope: &Scope<'_, '_, W>,
    arguments: &Values,
    i: usize,
) -> Result<Text, ValueFault>
    requires { AreValuesOf scope.now arguments.now }
    ensures text { IfOk result (λ t. (c : Context) → IsScope scope.now c →
        (vs : List Meant) → AreHeld c.document arguments.now vs → t ≡ string_of (argument i vs)) }
    ensures full { IfErr result (λ e. e ≡ OutOfMemory) }
{
    match value_at(arguments, i) {
        Some(value) => to_text(scope, value),
        None => no_characters(scope),
    }
}

/// The argument with an index as a number; NaN where there is none.
pub fn number_at<W: Words>(
    scope: &Scope<'_, '_, W>,
    arguments: &Values,
    i: usize,
) -> Result<Number, ValueFault>
    requires { AreValuesOf scope.now arguments.now }
    ensures number { (c : Context) → IsScope scope.now c →
        (vs : List Meant) → AreHeld c.document arguments.now vs → result ≡ number_of (argument i vs) }
    ensures fits { IfOk result IsNumber }
{
    match value_at(arguments, i) {
        Some(value) => to_number(scope, value),
        None => Ok(Number::Nan),
    }
}

/// The first argument as a boolean; false where there is none.
pub fn truth_at(arguments: &Values) -> bool
    ensures { (document : List Entry) (vs : List Meant) → AreHeld document arguments.now vs →
        result ≡ truth_of (argument 0 vs) }
{
    match value_at(arguments, 0) {
        Some(value) => truth_of(value),
        None => false,
    }
}

/// The nodes of a value.
fn nodes_among<'v, W: Words>(_scope: &Scope<'_, '_, W>, value: &'v Value) -> &'v [Node]
    requires { IsOf _scope.now value.now }
    ensures nodes { (document : List Entry) → (v : Meant) → IsHeld document value.now v →
        AreNodes document result.now (nodes_in v) }
    ensures of { AreFewOf _scope.now result.now }
{
    match value {
        Value::Nodes(list) => nodes_of(list),
        Value::Truth(_) => &[],
        Value::Number(_) => &[],
        Value::Text(_) => &[],
    }
}

/// The nodes of the first argument.
pub fn nodes_at<'v, W: Words>(scope: &Scope<'_, '_, W>, arguments: &'v Values) -> &'v [Node]
    requires { AreValuesOf scope.now arguments.now }
    ensures nodes { (document : List Entry) (vs : List Meant) → AreHeld document arguments.now vs →
        AreNodes document result.now (nodes_in (argument 0 vs)) }
    ensures of { AreFewOf scope.now result.now }
{
    match value_at(arguments, 0) {
        Some(value) => nodes_among(scope, value),
        None => &[],
    }
}

/// The context node as a value.
pub fn context_value<W: Words>(scope: &Scope<'_, '_, W>, place: Place) -> Result<Value, ValueFault>
    requires { IsPlace scope.now place }
    ensures held { IfOk result (λ value. (c : Context) → IsContext scope.now place c →
        IsHeld c.document value (nodes (c.node ∷ []))) }
    ensures of { IfOk result (IsOf scope.now) }
    ensures full { IfErr result (λ e. e ≡ OutOfMemory) }
{
    match own_nodes(scope, place) {
        Ok(list) => Ok(nodes_value(scope, list)),
        Err(fault) => Err(fault),
    }
}
