//! Products of numbers in 128 bits.

ghost use Rattle.std.specs.Prelude.{◌≡◌, ◌≤◌, ◌*◌, IfOk, nat_abs};
ghost use Rattle.xpath_tokens.specs.Numbers.{greatest};
ghost use Rattle.xpath_values.specs.Numbers.{product};
ghost use Rattle.xpath_values.specs.Products.{magnitude, with_sign, differ};

use crate::{Number, ValueFault};
use xpath_tokens::GREATEST;

/// How many millionths make 1.
const ONE: u128 = 1_000_000;

/// The product of two magnitudes in millionths, in millionths: one of them is cut at its point, so that no part of the
/// product has more than 128 bits.
fn magnitude(a: u128, b: u128) -> Result<u128, ValueFault>
    requires left { a ≤ greatest }
    requires right { b ≤ greatest }
    ensures value { result ≡ magnitude (a * b) }
    ensures fits { IfOk result (λ n. n ≤ greatest) }
{
    let rest = a % ONE * b;
    if rest % ONE != 0 {
        return Err(ValueFault::Fraction);
    }
    let product = a / ONE * b + rest / ONE;
    if product <= GREATEST {
        Ok(product)
    } else {
        Err(ValueFault::Range)
    }
}

/// A magnitude with a sign.
pub fn with_sign(negative: bool, size: u128) -> i128
    requires { size ≤ greatest }
    ensures { result ≡ with_sign negative size }
{
    let whole = size as i128;
    if negative { -whole } else { whole }
}

/// Whether two signs differ.
fn differ(one: bool, other: bool) -> bool
    ensures { result ≡ differ one other }
{
    if one { !other } else { other }
}

/// The product of two numbers of millionths.
///
/// # Errors
/// `Fraction` where it is no whole number of millionths; else `Range` where it is out of range.
pub fn product(x: i128, y: i128) -> Result<Number, ValueFault>
    requires left { nat_abs x ≤ greatest }
    requires right { nat_abs y ≤ greatest }
    ensures { result ≡ product x y }
{
    let negative = differ(x.is_negative(), y.is_negative());
    match magnitude(x.unsigned_abs(), y.unsigned_abs()) {
        Ok(n) => Ok(Number::Millionths(with_sign(negative, n))),
        Err(fault) => Err(fault),
    }
}
