//! Operators on values: XPath 1.0, sections 3.3 to 3.5.

ghost use Rattle.std.specs.Prelude.{◌≡◌, ◌<◌, ◌^◌, Ok, IfOk, List};
ghost use Rattle.std.specs.Str.{chars};
ghost use Rattle.xml_model.specs.Tree.{Entry};
ghost use Rattle.xpath_tokens.specs.Numbers.{number_value as spelled};
ghost use Rattle.xpath_values.specs.Answers.{and_then, with};
ghost use Rattle.xpath_values.specs.Numbers as numbers;
ghost use Rattle.xpath_values.specs.Numbers.{IsNumber, is_position, number_held};
ghost use Rattle.xpath_values.specs.Values.{IsHeld, Meant, number, text, number_of, held_as};
ghost use Rattle.xpath_meaning.specs.Context.{Context, is_passed};
ghost use Rattle.xpath_meaning.specs.Meaning.{operated};
ghost use Rattle.xpath_meaning.specs.Meets.{Meets};
ghost use Rattle.xpath_meaning.specs.Scope.{IsOf, IsScope};

use crate::makers::{counted, number_value, text_value};
use crate::scope::{Scope, table_of};
use vtd_words::Words;
use xml_model::texts::{as_str, copy_text};
use xml_model::{NoMemory, Text};
use xpath_grammar::{Comparison, Operator};
use xpath_tokens::{NumberFault, number_value as spelled};
use xpath_values::{
    Number, Value, ValueFault, arithmetic, compare_numbers, negative, number_of, truth_of,
};

/// Whether a position is a number.
fn is_position(number: Number, position: usize) -> bool
    requires { position < 2 ^ 32 }
    ensures { result ≡ is_position number position }
{
    compare_numbers(Comparison::Equal, number, counted(position))
}

/// Whether a predicate with this value passes a position (XPath 1.0, section 2.4).
pub fn is_passed(value: &Value, position: usize) -> bool
    requires { position < 2 ^ 32 }
    ensures { (v : Meant) → value.now ≡ held_as v → result ≡ is_passed v position }
{
    match value {
        Value::Number(number) => is_position(*number, position),
        _ => truth_of(value),
    }
}

/// A value as a number.
pub fn to_number<W: Words>(scope: &Scope<'_, '_, W>, value: &Value) -> Result<Number, ValueFault>
    requires { IsOf scope.now value.now }
    ensures number { (c : Context) → IsScope scope.now c → (v : Meant) → IsHeld c.document value.now v →
        result ≡ number_of v }
    ensures fits { IfOk result IsNumber }
{
    number_of(scope.alloc, table_of(scope), value)
}

/// An operator on two numbers.
fn combined(how: Operator, left: Number, right: Number) -> Result<Number, ValueFault>
    requires left { IsNumber left }
    requires right { IsNumber right }
    ensures value { result ≡ numbers.arithmetic how left right }
    ensures fits { IfOk result IsNumber }
{
    arithmetic(how, left, right)
}

/// An operator on two values, as a number.
fn operated_number<W: Words>(
    scope: &Scope<'_, '_, W>,
    how: Operator,
    left: &Value,
    right: &Value,
) -> Result<Number, ValueFault>
    requires left { IsOf scope.now left.now }
    requires right { IsOf scope.now right.now }
    ensures number { (c : Context) → IsScope scope.now c →
        (v w : Meant) → IsHeld c.document left.now v → IsHeld c.document right.now w →
        result ≡ and_then (number_of v) (λ x. and_then (number_of w) (numbers.arithmetic how x)) }
    ensures fits { IfOk result IsNumber }
{
    match to_number(scope, left) {
        Err(fault) => Err(fault),
        Ok(x) => match to_number(scope, right) {
            Err(fault) => Err(fault),
            Ok(y) => combined(how, x, y),
        },
    }
}

/// An operator on two values (XPath 1.0, section 3.5); the left one is converted first.
pub fn operated<W: Words>(
    scope: &Scope<'_, '_, W>,
    how: Operator,
    left: Value,
    right: Value,
) -> Result<Value, ValueFault>
    requires left { IsOf scope.now left }
    requires right { IsOf scope.now right }
    ensures means { (c : Context) → IsScope scope.now c →
        (v w : Meant) → IsHeld c.document left v → IsHeld c.document right w →
        Meets (IsHeld c.document) result (operated how v w) }
    ensures of { IfOk result (IsOf scope.now) }
{
    number_value(scope, operated_number(scope, how, &left, &right))
}

/// The opposite of a value as a number, as a number.
fn negated_number<W: Words>(scope: &Scope<'_, '_, W>, value: &Value) -> Result<Number, ValueFault>
    requires { IsOf scope.now value.now }
    ensures number { (c : Context) → IsScope scope.now c → (v : Meant) → IsHeld c.document value.now v →
        result ≡ with (number_of v) numbers.negative }
    ensures fits { IfOk result IsNumber }
{
    match to_number(scope, value) {
        Err(fault) => Err(fault),
        Ok(x) => Ok(negative(x)),
    }
}

/// The opposite of a value as a number (XPath 1.0, section 3.5).
pub fn negated<W: Words>(scope: &Scope<'_, '_, W>, value: Value) -> Result<Value, ValueFault>
    requires { IsOf scope.now value }
    ensures means { (c : Context) → IsScope scope.now c → (v : Meant) → IsHeld c.document value v →
        Meets (IsHeld c.document) result (with (number_of v) (λ x. number (numbers.negative x))) }
    ensures of { IfOk result (IsOf scope.now) }
{
    number_value(scope, negated_number(scope, &value))
}

/// The same text again.
fn copied<W: Words>(scope: &Scope<'_, '_, W>, text: &Text) -> Result<Text, NoMemory>
    ensures { IfOk result (λ x. x ≡ text.now) }
{
    match copy_text(scope.alloc, text) {
        Ok(text) => Ok(text),
        Err(_) => Err(NoMemory),
    }
}

/// A text as a value.
pub fn literal<W: Words>(scope: &Scope<'_, '_, W>, content: &Text) -> Result<Value, ValueFault>
    ensures means { (document : List Entry) → Meets (IsHeld document) result (Ok (text content.now)) }
    ensures of { IfOk result (IsOf scope.now) }
{
    text_value(scope, copied(scope, content))
}

/// The number that a spelling stands for.
fn spelled_number(spelling: &str) -> Result<Number, ValueFault>
    ensures value { result ≡ number_held (spelled (chars spelling.now)) }
    ensures fits { IfOk result IsNumber }
{
    match spelled(spelling) {
        Ok(n) => Ok(Number::Millionths(n as i128)),
        Err(NumberFault::Fraction) => Err(ValueFault::Fraction),
        Err(NumberFault::Range) => Err(ValueFault::Range),
    }
}

/// A number by its spelling (XPath 1.0, section 3.5).
pub fn numeral<W: Words>(scope: &Scope<'_, '_, W>, spelling: &Text) -> Result<Value, ValueFault>
    ensures means { (document : List Entry) →
        Meets (IsHeld document) result (with (number_held (spelled spelling.now)) number) }
    ensures of { IfOk result (IsOf scope.now) }
{
    number_value(scope, spelled_number(as_str(spelling)))
}
