//! The number that a spelling stands for, in millionths.

ghost use Rattle.std.specs.Prelude.{◌≡◌, ◌+◌, ◌*◌, fold};
ghost use Rattle.std.specs.Str.{chars};
ghost use Rattle.xpath_tokens.specs.Numbers.{number_value};
ghost use Rattle.xpath_tokens.specs.Scanning.{grown, scan_next, scan_start, scan_value};

/// The greatest number in millionths, that is 9007199254740991: this project's own limit.
pub const GREATEST: u128 = 9_007_199_254_740_991_000_000;

/// Why a spelling stands for no number here.
#[derive(Clone, Copy, Debug, PartialEq)]
pub enum NumberFault {
    /// A digit after the sixth place is not 0.
    Fraction,
    /// The number is above 9007199254740991.
    Range,
}

/// What is known of a number's first characters.
#[derive(Clone, Copy)]
pub struct NumberScan {
    /// The number so far, in millionths. It stays once it is above the greatest.
    pub value: u128,
    /// After the point, how many millionths a 1 at the next place adds; None before it.
    pub unit: Option<u32>,
    /// A digit after the sixth place was not 0.
    pub finer: bool,
}

/// What is known before the first character.
pub fn scan_start() -> NumberScan
    ensures { result ≡ scan_start }
{
    NumberScan {
        value: 0,
        unit: None,
        finer: false,
    }
}

/// A value with one more digit before the point, unless it is above the greatest number.
fn with_digit(value: u128, digit: u32) -> u128
    ensures { result ≡ grown value (10 * value + 1000000 * digit) }
{
    if GREATEST < value {
        value
    } else {
        10 * value + 1_000_000 * digit as u128
    }
}

/// A value with a digit at a place where a 1 adds the unit, unless it is above the greatest number.
fn with_place(value: u128, unit: u32, digit: u32) -> u128
    ensures { result ≡ grown value (value + unit * digit) }
{
    if GREATEST < value {
        value
    } else {
        value + unit as u128 * digit as u128
    }
}

/// What is known with one more character, a digit or the point. It takes constant time.
pub fn scan_next(scan: NumberScan, c: char) -> NumberScan
    ensures { result ≡ scan_next scan c }
{
    let digit = (c as u32).saturating_sub(48);
    match scan.unit {
        None => {
            if c == '.' {
                return NumberScan {
                    value: scan.value,
                    unit: Some(100_000),
                    finer: scan.finer,
                };
            }
            NumberScan {
                value: with_digit(scan.value, digit),
                unit: None,
                finer: scan.finer,
            }
        }
        Some(unit) => NumberScan {
            value: with_place(scan.value, unit, digit),
            unit: Some(unit / 10),
            finer: scan.finer || (unit == 0 && c != '0'),
        },
    }
}

/// The number that was scanned, in millionths.
///
/// # Errors
/// `Fraction` where a digit after the sixth place is not 0; else `Range` where the number is above the greatest.
pub fn scan_value(scan: NumberScan) -> Result<u128, NumberFault>
    ensures { result ≡ scan_value scan }
{
    if scan.finer {
        Err(NumberFault::Fraction)
    } else if GREATEST < scan.value {
        Err(NumberFault::Range)
    } else {
        Ok(scan.value)
    }
}

/// What is known of a number at its end.
fn scan_number(text: &str) -> NumberScan
    ensures { result ≡ fold scan_next scan_start (chars text.now) }
{
    text.chars()
        .fold(scan_start(), |scan, c| scan_next(scan, c))
}

/// The number that digits with a point or without stand for, in millionths. It takes one pass over the text.
///
/// # Errors
/// `Fraction` where a digit after the sixth place is not 0; else `Range` where the number is above the greatest.
#[tactic(auto, using(crate::proofs::SpelledNumbers::scanned))]
pub fn number_value(text: &str) -> Result<u128, NumberFault>
    ensures { result ≡ number_value (chars text.now) }
{
    scan_value(scan_number(text))
}
