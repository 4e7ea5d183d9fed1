//! Sums step by step: XPath 1.0, section 4.4. Each call takes constant time.

ghost use Rattle.std.specs.Prelude.{◌≡◌, IfOk};
ghost use Rattle.xpath_values.specs.Numbers.{IsNumber, is_nan, plus};
ghost use Rattle.xpath_values.specs.Sums.{sum_next, sum_start, sum_value};

use crate::numbers::added;
use crate::{Number, ValueFault};

/// What is known of a sum after its first numbers.
#[derive(Clone, Copy)]
pub struct Sum {
    /// One of the numbers is NaN.
    pub nan: bool,
    /// The numbers added from the left, or the first fault of that.
    pub total: Result<Number, ValueFault>,
}

/// Whether a number is NaN.
fn is_nan(number: Number) -> bool
    ensures { result ≡ is_nan number }
{
    matches!(number, Number::Nan)
}

/// A number added to what is there so far.
#[inline(always)]
fn plus(total: Result<Number, ValueFault>, number: Number) -> Result<Number, ValueFault>
    requires total { IfOk total IsNumber }
    requires number { IsNumber number }
    ensures value { result ≡ plus total number }
    ensures fits { IfOk result IsNumber }
{
    match total {
        Ok(total) => added(total, number),
        Err(fault) => Err(fault),
    }
}

/// The sum of no numbers.
pub fn sum_start() -> Sum
    ensures value { result ≡ sum_start }
    ensures fits { IfOk result.total IsNumber }
{
    Sum {
        nan: false,
        total: Ok(Number::Millionths(0)),
    }
}

/// The sum with one more number.
#[inline(always)]
pub fn sum_next(sum: Sum, number: Number) -> Sum
    requires total { IfOk sum.total IsNumber }
    requires number { IsNumber number }
    ensures value { result ≡ sum_next sum number }
    ensures fits { IfOk result.total IsNumber }
{
    Sum {
        nan: sum.nan || is_nan(number),
        total: plus(sum.total, number),
    }
}

/// What numbers come to: NaN where one of them is NaN.
///
/// # Errors
/// `Range` where the numbers added from the left come out of range, and none of all is NaN.
pub fn sum_value(sum: Sum) -> Result<Number, ValueFault>
    ensures { result ≡ sum_value sum }
{
    if sum.nan { Ok(Number::Nan) } else { sum.total }
}
