//! Numbers that the core functions answer: XPath 1.0, sections 4.1, 4.2 and 4.4.

ghost use Rattle.std.specs.Prelude.{◌≡◌, ◌*◌, IfOk, List, length, pos};
ghost use Rattle.xpath_values.specs.Answers.{Yields};
ghost use Rattle.xpath_values.specs.Numbers.{IsNumber, counted, in_range, one};
ghost use Rattle.xpath_values.specs.Values.{Meant, number_of, string_of};
ghost use Rattle.xpath_meaning.specs.Context.{Context};
ghost use Rattle.xpath_meaning.specs.Functions.{own};
ghost use Rattle.xpath_meaning.specs.Scope.{AreHeld, AreValuesOf, IsContext, IsPlace};

use crate::sums::number_there;
use vtd_words::Words;
use xpath_meaning::calls::{length_in_range, own_text};
use xpath_meaning::{Place, Scope, Values, counted, to_number, value_at};
use xpath_values::{Number, ValueFault};

/// The context size.
pub fn last<W: Words>(_scope: &Scope<'_, '_, W>, place: Place) -> Number
    requires { IsPlace _scope.now place }
    ensures number { (c : Context) → IsContext _scope.now place c → result ≡ counted c.size }
    ensures fits { IsNumber result }
{
    counted(place.size)
}

/// The context position.
pub fn position<W: Words>(_scope: &Scope<'_, '_, W>, place: Place) -> Number
    requires { IsPlace _scope.now place }
    ensures number { (c : Context) → IsContext _scope.now place c → result ≡ counted c.position }
    ensures fits { IsNumber result }
{
    counted(place.position)
}

/// The number of characters of the first argument, or of the context node's string-value.
pub fn length<W: Words>(
    scope: &Scope<'_, '_, W>,
    place: Place,
    arguments: &Values,
) -> Result<Number, ValueFault>
    requires place { IsPlace scope.now place }
    requires arguments { AreValuesOf scope.now arguments.now }
    ensures number { (c : Context) → IsContext scope.now place c → (vs : List Meant) →
        AreHeld c.document arguments.now vs → Yields result (in_range (pos (one * length (string_of (own c vs))))) }
    ensures fits { IfOk result IsNumber }
{
    match own_text(scope, place, arguments) {
        Err(fault) => Err(fault),
        Ok(text) => length_in_range(&text),
    }
}

/// The first argument, or the context node, as a number.
pub fn own_number<W: Words>(
    scope: &Scope<'_, '_, W>,
    place: Place,
    arguments: &Values,
) -> Result<Number, ValueFault>
    requires place { IsPlace scope.now place }
    requires arguments { AreValuesOf scope.now arguments.now }
    ensures number { (c : Context) → IsContext scope.now place c → (vs : List Meant) →
        AreHeld c.document arguments.now vs → result ≡ number_of (own c vs) }
    ensures fits { IfOk result IsNumber }
{
    match value_at(arguments, 0) {
        Some(value) => to_number(scope, value),
        None => number_there(scope, place),
    }
}
