//! Arithmetic, whole numbers and comparisons: XPath 1.0, sections 3.4, 3.5 and 4.4. Each call takes constant time.

ghost use Rattle.std.specs.Prelude.{◌≡◌, ◌≢◌, ◌≤◌, ◌+◌, ◌*◌, ◌*ℤ◌, IfOk, nat_abs, nat_le, pos};
ghost use Rattle.xpath_tokens.specs.Numbers.{greatest};
ghost use Rattle.xpath_values.specs.Numbers.{IsNumber, arithmetic, ceiling, compare_millionths, compare_numbers, floor};
ghost use Rattle.xpath_values.specs.Numbers.{exactly, in_range, negative, one, operate, quotient, remainder, round};
ghost use Rattle.xpath_values.specs.Numbers.{whole_below};

use crate::products::product;
use crate::{Number, ValueFault};
use xpath_tokens::{Comparison, GREATEST, Operator};

/// How many millionths make 1.
pub const ONE: i128 = 1_000_000;

/// The greatest number, in millionths, with a sign.
const MOST: i128 = GREATEST as i128;

/// Whether so many millionths are in range.
#[inline(always)]
fn is_in_range(millionths: i128) -> bool
    ensures { result ≡ nat_le (nat_abs millionths) greatest }
{
    -MOST <= millionths && millionths <= MOST
}

/// A number of millionths, where it is in range.
#[inline(always)]
fn in_range(millionths: i128) -> Result<Number, ValueFault>
    ensures { result ≡ in_range millionths }
{
    if is_in_range(millionths) {
        Ok(Number::Millionths(millionths))
    } else {
        Err(ValueFault::Range)
    }
}

/// One number over another one that is not 0, where that is whole and in range.
fn exactly(z: i128, y: i128) -> Result<Number, ValueFault>
    requires left { nat_abs z ≤ one * greatest }
    requires right { y ≢ pos 0 }
    ensures { result ≡ exactly z y }
{
    if z % y == 0 {
        in_range(z / y)
    } else {
        Err(ValueFault::Fraction)
    }
}

/// A number of millionths a million times.
fn scaled(x: i128) -> i128
    requires { nat_abs x ≤ greatest }
    ensures { result ≡ pos one *ℤ x }
{
    ONE * x
}

/// The quotient of two numbers of millionths.
fn quotient(x: i128, y: i128) -> Result<Number, ValueFault>
    requires { nat_abs x ≤ greatest }
    ensures { result ≡ quotient x y }
{
    if y == 0 {
        return if x == 0 {
            Ok(Number::Nan)
        } else {
            Err(ValueFault::Infinite)
        };
    }
    exactly(scaled(x), y)
}

/// What is left of a number of millionths after taking another as often as it goes in.
fn remainder(x: i128, y: i128) -> Result<Number, ValueFault>
    requires { nat_abs x ≤ greatest }
    ensures { result ≡ remainder x y }
{
    if y == 0 {
        Ok(Number::Nan)
    } else {
        Ok(Number::Millionths(x % y))
    }
}

/// The sum of two numbers; with NaN it is NaN.
///
/// # Errors
/// `Range` where it is out of range.
#[inline(always)]
pub fn added(left: Number, right: Number) -> Result<Number, ValueFault>
    requires left { IsNumber left }
    requires right { IsNumber right }
    ensures value { result ≡ arithmetic Operator.Add left right }
    ensures fits { IfOk result IsNumber }
{
    match (left, right) {
        (Number::Millionths(x), Number::Millionths(y)) => in_range(x + y),
        _ => Ok(Number::Nan),
    }
}

/// An operator on two numbers of millionths.
fn operate(how: Operator, x: i128, y: i128) -> Result<Number, ValueFault>
    requires left { nat_abs x ≤ greatest }
    requires right { nat_abs y ≤ greatest }
    ensures { result ≡ operate how x y }
{
    match how {
        Operator::Add => in_range(x + y),
        Operator::Subtract => in_range(x - y),
        Operator::Multiply => product(x, y),
        Operator::Divide => quotient(x, y),
        Operator::Modulo => remainder(x, y),
    }
}

/// An operator on two numbers.
fn combine(how: Operator, left: Number, right: Number) -> Result<Number, ValueFault>
    requires left { IsNumber left }
    requires right { IsNumber right }
    ensures { result ≡ arithmetic how left right }
{
    match (left, right) {
        (Number::Millionths(x), Number::Millionths(y)) => operate(how, x, y),
        _ => Ok(Number::Nan),
    }
}

/// An operator on two numbers (XPath 1.0, section 3.5); with NaN it is NaN. `div` by 0 is NaN for 0, and `mod` by 0 is
/// NaN; `mod` has the sign of the left number.
///
/// # Errors
/// `Infinite` where a number that is not 0 is divided by 0; `Fraction` where the result is no whole number of
/// millionths; else `Range` where it is out of range. Never `NoMemory`.
pub fn arithmetic(how: Operator, left: Number, right: Number) -> Result<Number, ValueFault>
    requires left { IsNumber left }
    requires right { IsNumber right }
    ensures value { result ≡ arithmetic how left right }
    ensures fits { IfOk result IsNumber }
{
    combine(how, left, right)
}

/// The opposite of a number; of NaN it is NaN (XPath 1.0, section 3.5).
pub fn negative(number: Number) -> Number
    requires { IsNumber number }
    ensures value { result ≡ negative number }
    ensures fits { IsNumber result }
{
    match number {
        Number::Nan => Number::Nan,
        Number::Millionths(x) => Number::Millionths(-x),
    }
}

/// The greatest whole number, in millionths, that is not above one of millionths.
fn whole_below(millionths: i128) -> i128
    requires { nat_abs millionths ≤ greatest + 500000 }
    ensures { result ≡ whole_below millionths }
{
    millionths - millionths.rem_euclid(ONE)
}

/// The greatest whole number that is not above a number; of NaN it is NaN (XPath 1.0, section 4.4).
pub fn floor(number: Number) -> Number
    requires { IsNumber number }
    ensures value { result ≡ floor number }
    ensures fits { IsNumber result }
{
    match number {
        Number::Nan => Number::Nan,
        Number::Millionths(x) => Number::Millionths(whole_below(x)),
    }
}

/// The least whole number that is not below a number; of NaN it is NaN (XPath 1.0, section 4.4).
pub fn ceiling(number: Number) -> Number
    requires { IsNumber number }
    ensures value { result ≡ ceiling number }
    ensures fits { IsNumber result }
{
    match number {
        Number::Nan => Number::Nan,
        Number::Millionths(x) => Number::Millionths(-whole_below(-x)),
    }
}

/// The whole number that is nearest to a number, of two the greater; of NaN it is NaN (XPath 1.0, section 4.4).
pub fn round(number: Number) -> Number
    requires { IsNumber number }
    ensures value { result ≡ round number }
    ensures fits { IsNumber result }
{
    match number {
        Number::Nan => Number::Nan,
        Number::Millionths(x) => Number::Millionths(whole_below(x + ONE / 2)),
    }
}

/// Whether two numbers of millionths compare so.
fn compare_millionths(how: Comparison, x: i128, y: i128) -> bool
    ensures { result ≡ compare_millionths how x y }
{
    match how {
        Comparison::Equal => x == y,
        Comparison::Unequal => x != y,
        Comparison::Less => x < y,
        Comparison::Greater => x > y,
        Comparison::AtMost => x <= y,
        Comparison::AtLeast => x >= y,
    }
}

/// Whether two numbers compare so (XPath 1.0, section 3.4); with NaN only `!=` is true.
pub fn compare_numbers(how: Comparison, left: Number, right: Number) -> bool
    ensures { result ≡ compare_numbers how left right }
{
    match (left, right) {
        (Number::Millionths(x), Number::Millionths(y)) => compare_millionths(how, x, y),
        _ => matches!(how, Comparison::Unequal),
    }
}
