//! Values that are made of what functions answer.

ghost use Rattle.std.specs.Prelude.{◌≡◌, ◌<◌, ◌^◌, List, ℕ, IfErr, IfOk};
ghost use Rattle.xpath_values.specs.declared.Value.TheVariants as held;
ghost use Rattle.xpath_values.specs.declared.ValueFault.TheVariants.{NoMemory as OutOfMemory};
ghost use Rattle.xpath_values.specs.Answers.{with};
ghost use Rattle.xpath_values.specs.Numbers.{IsNumber, counted};
ghost use Rattle.xpath_meaning.specs.Scope.{IsOf};

use crate::scope::Scope;
use vtd_words::Words;
use xml_model::{NoMemory, Text};
use xpath_values::{Number, Value, ValueFault};

/// How many millionths make 1.
const ONE: i128 = 1_000_000;

/// A boolean as a value.
pub fn truth_value<W: Words>(
    _scope: &Scope<'_, '_, W>,
    truth: Result<bool, ValueFault>,
) -> Result<Value, ValueFault>
    ensures value { result ≡ with truth held.Truth }
    ensures of { IfOk result (IsOf _scope.now) }
{
    match truth {
        Ok(truth) => Ok(Value::Truth(truth)),
        Err(fault) => Err(fault),
    }
}

/// A number as a value.
pub fn number_value<W: Words>(
    _scope: &Scope<'_, '_, W>,
    number: Result<Number, ValueFault>,
) -> Result<Value, ValueFault>
    requires fits { IfOk number IsNumber }
    ensures value { result ≡ with number held.Number }
    ensures of { IfOk result (IsOf _scope.now) }
{
    match number {
        Ok(number) => Ok(Value::Number(number)),
        Err(fault) => Err(fault),
    }
}

/// A text as a value.
pub fn text_value<W: Words>(
    _scope: &Scope<'_, '_, W>,
    text: Result<Text, NoMemory>,
) -> Result<Value, ValueFault>
    ensures text { (t : List ℕ) → IfOk text (λ x. x ≡ t) → IfOk result (λ h. h ≡ held.Text t) }
    ensures full { IfErr result (λ e. e ≡ OutOfMemory) }
    ensures of { IfOk result (IsOf _scope.now) }
{
    match text {
        Ok(text) => Ok(Value::Text(text)),
        Err(_) => Err(ValueFault::NoMemory),
    }
}

/// The number that counts something.
pub fn counted(count: usize) -> Number
    requires { count < 2 ^ 32 }
    ensures value { result ≡ counted count }
    ensures fits { IsNumber result }
{
    Number::Millionths(ONE * count as i128)
}
