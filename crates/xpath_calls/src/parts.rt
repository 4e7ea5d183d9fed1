//! Parts of texts: XPath 1.0, section 4.2.

ghost use Rattle.std.specs.Prelude.{◌≡◌, IfErr, IfOk, IfSome, List};
ghost use Rattle.std.specs.List.{slice_get};
ghost use Rattle.xpath_values.specs.declared.ValueFault.TheVariants.{NoMemory as OutOfMemory};
ghost use Rattle.xpath_values.specs.Answers.{Yields, and_then};
ghost use Rattle.xpath_values.specs.Numbers.{IsNumber};
ghost use Rattle.xpath_values.specs.Texts as texts;
ghost use Rattle.xpath_values.specs.Values.{Meant, number_of, string_of};
ghost use Rattle.xpath_meaning.specs.Context.{Context};
ghost use Rattle.xpath_meaning.specs.Functions.{argument, substring_of};
ghost use Rattle.xpath_meaning.specs.Scope.{AreHeld, AreValuesOf, IsScope};
ghost use Rattle.xpath_calls.specs.Parts.{number_if};

use std::alloc::Global;
use vtd_words::Words;
use xml_model::Text;
use xpath_meaning::{Scope, Values, number_at, text_at, to_number, value_at};
use xpath_values::{Number, ValueFault, substring};

/// The third argument as a number, where it is there.
fn count_at<W: Words>(
    scope: &Scope<'_, '_, W>,
    arguments: &Values,
) -> Result<Option<Number>, ValueFault>
    requires { AreValuesOf scope.now arguments.now }
    ensures number { (c : Context) → IsScope scope.now c → (vs : List Meant) → AreHeld c.document arguments.now vs →
        result ≡ number_if (slice_get vs 2) }
    ensures fits { IfOk result (λ n. IfSome n IsNumber) }
{
    match value_at(arguments, 2) {
        None => Ok(None),
        Some(value) => match to_number(scope, value) {
            Ok(count) => Ok(Some(count)),
            Err(fault) => Err(fault),
        },
    }
}

/// The part of a text from a position on, of so many characters.
fn part_in(
    alloc: Global,
    text: &Text,
    from: Number,
    count: Option<Number>,
) -> Result<Text, ValueFault>
    requires from { IsNumber from }
    requires count { IfSome count IsNumber }
    ensures text { IfOk result (λ t. t ≡ texts.substring text.now from count) }
    ensures full { IfErr result (λ e. e ≡ OutOfMemory) }
{
    match substring(alloc, text, from, count) {
        Ok(text) => Ok(text),
        Err(_) => Err(ValueFault::NoMemory),
    }
}

/// The part of the first argument from a position on, of so many characters.
fn part_at<W: Words>(
    scope: &Scope<'_, '_, W>,
    arguments: &Values,
    from: Number,
    count: Option<Number>,
) -> Result<Text, ValueFault>
    requires arguments { AreValuesOf scope.now arguments.now }
    requires from { IsNumber from }
    requires count { IfSome count IsNumber }
    ensures text { IfOk result (λ t. (c : Context) → IsScope scope.now c → (vs : List Meant) →
        AreHeld c.document arguments.now vs → t ≡ texts.substring (string_of (argument 0 vs)) from count) }
    ensures full { IfErr result (λ e. e ≡ OutOfMemory) }
{
    match text_at(scope, arguments, 0) {
        Err(fault) => Err(fault),
        Ok(text) => part_in(scope.alloc, &text, from, count),
    }
}

/// The part of the first argument from a position on, of as many characters as the third says, or of all.
fn part_from<W: Words>(
    scope: &Scope<'_, '_, W>,
    arguments: &Values,
    from: Number,
) -> Result<Text, ValueFault>
    requires arguments { AreValuesOf scope.now arguments.now }
    requires from { IsNumber from }
    ensures { (c : Context) → IsScope scope.now c → (vs : List Meant) → AreHeld c.document arguments.now vs →
        Yields result (substring_of (string_of (argument 0 vs)) from (slice_get vs 2)) }
{
    match count_at(scope, arguments) {
        Err(fault) => Err(fault),
        Ok(count) => part_at(scope, arguments, from, count),
    }
}

/// The part of the first argument from the position on that the second says, of as many characters as the third says,
/// or of all. The second is converted first.
pub fn part<W: Words>(scope: &Scope<'_, '_, W>, arguments: &Values) -> Result<Text, ValueFault>
    requires { AreValuesOf scope.now arguments.now }
    ensures { (c : Context) → IsScope scope.now c → (vs : List Meant) → AreHeld c.document arguments.now vs →
        Yields result (and_then (number_of (argument 1 vs))
        (λ from. substring_of (string_of (argument 0 vs)) from (slice_get vs 2))) }
{
    match number_at(scope, arguments, 1) {
        Err(fault) => Err(fault),
        Ok(from) => part_from(scope, arguments, from),
    }
}
