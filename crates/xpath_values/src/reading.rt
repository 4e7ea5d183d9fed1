//! The number of a text, read from its characters one after another: XPath 1.0, section 4.4.

ghost use Rattle.std.specs.Prelude.{◌≡◌, ◌≤◌, IfOk, fold};
ghost use Rattle.std.specs.Str.{chars};
ghost use Rattle.xml_model.specs.Chars.{is_space};
ghost use Rattle.xpath_tokens.specs.Numbers.{greatest};
ghost use Rattle.xpath_tokens.specs.Scanning.{scan_value};
ghost use Rattle.xpath_tokens.specs.Tokens.{is_decimal_digit};
ghost use Rattle.xpath_values.specs.Numbers.{number_of_text};
ghost use Rattle.xpath_values.specs.Reading.{begun, ended, next_phase, read_next, read_start, read_value, scanned_to};
ghost use Rattle.xpath_values.specs.Reading.{signed_to, spelled_value};

use crate::products::with_sign;
use crate::{Number, ValueFault};
use xpath_tokens::{NumberFault, NumberScan, scan_next, scan_start, scan_value};

/// Where a text is in the spelling of a number.
#[derive(Clone, Copy)]
pub enum Phase {
    /// Before it, perhaps after white space.
    Before,
    /// After a minus.
    Signed,
    /// After digits, with no point yet.
    Whole,
    /// After a point that no digit is before.
    Lone,
    /// After a point, with a digit before it or after it.
    Places,
    /// In the white space after it.
    After,
    /// In what spells no number.
    Bad,
}

/// What is known of a text's number after its first characters.
#[derive(Clone, Copy)]
pub struct NumberReader {
    /// Where the text is.
    pub phase: Phase,
    /// A minus is before the spelling.
    pub negative: bool,
    /// What is known of the spelling.
    pub scan: NumberScan,
}

/// Whether a character is a digit of a number, which only ten characters are (XPath 1.0, production 31).
fn is_digit(c: char) -> bool
    ensures { result ≡ is_decimal_digit c }
{
    matches!(c, '0'..='9')
}

/// Whether a character is white space (XML 1.0, production 3).
#[tactic(auto, unfolding(xml_model::specs::Chars::is_space, xml_model::specs::Chars::in_ranges))]
pub fn is_space(c: char) -> bool
    ensures { result ≡ is_space c }
{
    matches!(c, ' ' | '\t' | '\n' | '\r')
}

/// The phase after a character where a spelling is to begin.
fn begun(c: char) -> Phase
    ensures { result ≡ begun c }
{
    if is_digit(c) {
        Phase::Whole
    } else if c == '.' {
        Phase::Lone
    } else {
        Phase::Bad
    }
}

/// The phase after a character where a spelling has ended.
fn ended(c: char) -> Phase
    ensures { result ≡ ended c }
{
    if is_space(c) {
        Phase::After
    } else {
        Phase::Bad
    }
}

/// The phase after a character before the spelling.
fn after_space(c: char) -> Phase
    ensures { result ≡ next_phase Phase.Before c }
{
    if is_space(c) {
        Phase::Before
    } else if c == '-' {
        Phase::Signed
    } else {
        begun(c)
    }
}

/// The phase after a character among digits before a point.
fn after_whole(c: char) -> Phase
    ensures { result ≡ next_phase Phase.Whole c }
{
    if is_digit(c) {
        Phase::Whole
    } else if c == '.' {
        Phase::Places
    } else {
        ended(c)
    }
}

/// The phase after a character.
fn next_phase(phase: Phase, c: char) -> Phase
    ensures { result ≡ next_phase phase c }
{
    match phase {
        Phase::Before => after_space(c),
        Phase::Signed => begun(c),
        Phase::Whole => after_whole(c),
        Phase::Lone => {
            if is_digit(c) {
                Phase::Places
            } else {
                Phase::Bad
            }
        }
        Phase::Places => { if is_digit(c) { Phase::Places } else { ended(c) } }
        Phase::After => ended(c),
        Phase::Bad => Phase::Bad,
    }
}

/// What is known of the spelling, where a character took the text to a phase.
fn scanned_to(phase: Phase, scan: NumberScan, c: char) -> NumberScan
    ensures { result ≡ scanned_to phase scan c }
{
    match phase {
        Phase::Whole => scan_next(scan, c),
        Phase::Lone => scan_next(scan, c),
        Phase::Places => scan_next(scan, c),
        _ => scan,
    }
}

/// Whether a minus is before the spelling, where a character took the text to a phase.
fn signed_to(phase: Phase, negative: bool) -> bool
    ensures { result ≡ signed_to phase negative }
{
    match phase {
        Phase::Signed => true,
        _ => negative,
    }
}

/// What is known before the first character.
pub fn read_start() -> NumberReader
    ensures { result ≡ read_start }
{
    NumberReader {
        phase: Phase::Before,
        negative: false,
        scan: scan_start(),
    }
}

/// What is known with one more character. It takes constant time.
pub fn read_next(reader: NumberReader, c: char) -> NumberReader
    ensures { result ≡ read_next reader c }
{
    let phase = next_phase(reader.phase, c);
    NumberReader {
        phase,
        negative: signed_to(phase, reader.negative),
        scan: scanned_to(phase, reader.scan, c),
    }
}

/// The number that was scanned, in millionths.
fn scanned(scan: NumberScan) -> Result<u128, NumberFault>
    ensures value { result ≡ scan_value scan }
    ensures fits { IfOk result (λ n. n ≤ greatest) }
{
    scan_value(scan)
}

/// The number that a spelling stands for, with a minus before it or without.
fn spelled_value(negative: bool, scan: NumberScan) -> Result<Number, ValueFault>
    ensures { result ≡ spelled_value negative scan }
{
    match scanned(scan) {
        Ok(n) => Ok(Number::Millionths(with_sign(negative, n))),
        Err(NumberFault::Fraction) => Err(ValueFault::Fraction),
        Err(NumberFault::Range) => Err(ValueFault::Range),
    }
}

/// The number of a text that has been read to its end; NaN where it spells none. It takes constant time.
///
/// # Errors
/// `Fraction` where a digit after the sixth place is not 0; else `Range` where the number is out of range.
pub fn read_value(reader: NumberReader) -> Result<Number, ValueFault>
    ensures { result ≡ read_value reader }
{
    match reader.phase {
        Phase::Whole => spelled_value(reader.negative, reader.scan),
        Phase::Places => spelled_value(reader.negative, reader.scan),
        Phase::After => spelled_value(reader.negative, reader.scan),
        _ => Ok(Number::Nan),
    }
}

/// What is known of a text's number at its end.
fn read_text(text: &str) -> NumberReader
    ensures { result ≡ fold read_next read_start (chars text.now) }
{
    text.chars()
        .fold(read_start(), |reader, c| read_next(reader, c))
}

/// The number of a text (XPath 1.0, section 4.4): white space at its ends aside, digits with perhaps a point, and
/// perhaps a minus before them; NaN for another text. It takes one pass.
///
/// # Errors
/// `Fraction` where a digit after the sixth place is not 0; else `Range` where the number is out of range.
#[tactic(auto, using(crate::proofs::ReadLemmas::read_number))]
pub fn number_of_text(text: &str) -> Result<Number, ValueFault>
    ensures { result ≡ number_of_text (chars text.now) }
{
    read_value(read_text(text))
}
