//! Which function a call is of, and its answer.

ghost use Rattle.std.specs.Prelude.{◌≡◌, IfOk};
ghost use Rattle.xpath_values.specs.declared.Value.TheVariants as held;
ghost use Rattle.xpath_values.specs.Answers.{with};
ghost use Rattle.xpath_meaning.specs.Functions.{called, function_named};
ghost use Rattle.xpath_meaning.specs.Meaning.{answered};
ghost use Rattle.xpath_meaning.specs.Scope.{Answers, AreValuesOf, IsOf, IsPlace, source_of};

use crate::joining::joined;
use crate::nodes::{lang, local_name, namespace, written_name};
use crate::numbers::{last, length, own_number, position};
use crate::parts::part;
use crate::sums::sum;
use vtd_words::Words;
use xml_model::Text;
use xpath_meaning::calls::{
    after, before, ceiling_of, count, floor_of, has, normalized, own_text, round_of, starts,
    translated,
};
use xpath_meaning::{
    Function, Place, Scope, Values, function_named, no_nodes, nodes_value, number_value, truth_at,
    truth_value,
};
use xpath_nodes::Walker;
use xpath_values::{Value, ValueFault};

/// A text as a value.
fn text_held<W: Words>(
    _scope: &Scope<'_, '_, W>,
    text: Result<Text, ValueFault>,
) -> Result<Value, ValueFault>
    ensures value { result ≡ with text held.Text }
    ensures of { IfOk result (IsOf _scope.now) }
{
    match text {
        Ok(text) => Ok(Value::Text(text)),
        Err(fault) => Err(fault),
    }
}

/// The answer of a function (XPath 1.0, section 4).
fn called<W: Words>(
    scope: &Scope<'_, '_, W>,
    walker: &mut Walker<'_, '_, W>,
    place: Place,
    function: Function,
    arguments: &Values,
) -> Result<Value, ValueFault>
    requires place { IsPlace scope.now place }
    requires arguments { AreValuesOf scope.now arguments.now }
    requires walker { walker.old ≡ source_of scope.now }
    ensures means { Answers scope.now place arguments.now result (called function) }
    ensures of { IfOk result (IsOf scope.now) }
    ensures walker { walker.new ≡ walker.old }
{
    match function {
        Function::Last => number_value(scope, Ok(last(scope, place))),
        Function::Position => number_value(scope, Ok(position(scope, place))),
        Function::Count => number_value(scope, Ok(count(scope, arguments))),
        Function::LocalName => text_held(scope, local_name(scope, place, arguments)),
        Function::NamespaceUri => text_held(scope, namespace(scope, walker, place, arguments)),
        Function::Name => text_held(scope, written_name(scope, place, arguments)),
        Function::AsString => text_held(scope, own_text(scope, place, arguments)),
        Function::Concat => text_held(scope, joined(scope, arguments)),
        Function::StartsWith => truth_value(scope, starts(scope, arguments)),
        Function::Contains => truth_value(scope, has(scope, arguments)),
        Function::SubstringBefore => text_held(scope, before(scope, arguments)),
        Function::SubstringAfter => text_held(scope, after(scope, arguments)),
        Function::Substring => text_held(scope, part(scope, arguments)),
        Function::StringLength => number_value(scope, length(scope, place, arguments)),
        Function::NormalizeSpace => text_held(scope, normalized(scope, place, arguments)),
        Function::Translate => text_held(scope, translated(scope, arguments)),
        Function::AsBoolean => truth_value(scope, Ok(truth_at(arguments))),
        Function::Not => truth_value(scope, Ok(!truth_at(arguments))),
        Function::IsTrue => truth_value(scope, Ok(true)),
        Function::IsFalse => truth_value(scope, Ok(false)),
        Function::Lang => truth_value(scope, lang(scope, place, arguments)),
        Function::AsNumber => number_value(scope, own_number(scope, place, arguments)),
        Function::Sum => number_value(scope, sum(scope, arguments)),
        Function::Floor => number_value(scope, floor_of(scope, arguments)),
        Function::Ceiling => number_value(scope, ceiling_of(scope, arguments)),
        Function::Round => number_value(scope, round_of(scope, arguments)),
    }
}

/// The answer of the function of a name to the values of its arguments (XPath 1.0, section 4). A name that no function
/// has is refused before; for it the answer has no nodes. Each function takes time linear in the characters and nodes
/// that it is asked about, but `lang` and the names of nodes, which go back over the records that hold the node.
///
/// # Errors
/// The first fault of what is converted: `Fraction` where a text's number has a digit after the sixth place that is not
/// 0, `Range` where a number is out of range; else `NoMemory` where memory was not to be had.
pub fn answered<W: Words>(
    scope: &Scope<'_, '_, W>,
    walker: &mut Walker<'_, '_, W>,
    place: Place,
    name: &Text,
    arguments: Values,
) -> Result<Value, ValueFault>
    requires place { IsPlace scope.now place }
    requires arguments { AreValuesOf scope.now arguments }
    requires walker { walker.old ≡ source_of scope.now }
    ensures means { Answers scope.now place arguments result (answered (function_named name.now)) }
    ensures of { IfOk result (IsOf scope.now) }
    ensures walker { walker.new ≡ walker.old }
{
    match function_named(name) {
        Some(function) => called(scope, walker, place, function, &arguments),
        None => Ok(nodes_value(scope, no_nodes(scope))),
    }
}
