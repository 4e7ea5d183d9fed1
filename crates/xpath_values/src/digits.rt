//! The number of a text of few digits, at once: XPath 1.0, section 4.4.

ghost use Rattle.std.specs.Prelude.{◌≡◌, ◌<◌, ◌≤◌, IfSome, Ok, length, true};
ghost use Rattle.std.specs.Str.{chars};
ghost use Rattle.vtd_text.specs.Raw.{are_plain};
ghost use Rattle.xpath_tokens.specs.Tokens.{is_decimal_digit};
ghost use Rattle.xpath_values.specs.Digits.{HasWhole, signed_digits};
ghost use Rattle.xpath_values.specs.Numbers.{number_of_text};

use crate::Number;
use crate::products::with_sign;

/// Whether a byte is an ASCII digit.
#[inline(always)]
fn is_digit(byte: u8) -> bool
    ensures { result ≡ is_decimal_digit byte }
{
    matches!(byte, b'0'..=b'9')
}

/// The whole number that at most 15 digits spell; `None` exactly where a byte is no digit.
#[inline(always)]
fn spelled(bytes: &[u8]) -> Option<u64>
    requires { length bytes.now ≤ 15 }
    ensures { IfSome result (λ n. HasWhole bytes.now n) }
{
    let mut number = 0u64;
    let mut left = bytes;
    while let Some((byte, rest)) = left.split_first() {
        if !is_digit(*byte) {
            return None;
        }
        number = 10 * number + (*byte - b'0') as u64;
        left = rest;
    }
    Some(number)
}

/// The whole number that 1 to 15 digits spell; `None` for other bytes.
#[inline(always)]
fn whole(bytes: &[u8]) -> Option<u64>
    ensures some { IfSome result (λ n. 0 < length bytes.now) }
    ensures whole { IfSome result (λ n. HasWhole bytes.now n) }
{
    if bytes.is_empty() || bytes.len() > 15 {
        return None;
    }
    spelled(bytes)
}

/// The bytes after a minus, and whether there is one.
#[inline(always)]
fn after_minus(bytes: &[u8]) -> (bool, &[u8])
    ensures { bytes.now ≡ signed_digits result.0 result.1.now }
{
    match bytes.split_first() {
        Some((b'-', rest)) => (true, rest),
        _ => (false, bytes),
    }
}

/// The number of a text of 1 to 15 digits; `None` for other texts.
#[inline(always)]
pub fn whole_number(text: &str) -> Option<Number>
    ensures plain { IfSome result (λ x. are_plain (chars text.now) ≡ true) }
    ensures value { IfSome result (λ x. number_of_text (chars text.now) ≡ Ok x) }
{
    let whole = whole(text.as_bytes())?;
    Some(Number::Millionths(with_sign(false, 1_000_000 * whole as u128)))
}

/// The number of a text of 1 to 15 digits, perhaps with a minus before them; `None` for other texts.
pub fn signed_number(text: &str) -> Option<Number>
    ensures plain { IfSome result (λ x. are_plain (chars text.now) ≡ true) }
    ensures value { IfSome result (λ x. number_of_text (chars text.now) ≡ Ok x) }
{
    let (negative, digits) = after_minus(text.as_bytes());
    let whole = whole(digits)?;
    Some(Number::Millionths(with_sign(negative, 1_000_000 * whole as u128)))
}
