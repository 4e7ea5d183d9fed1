//! Text functions that take no memory: XPath 1.0, section 4.2.

ghost use Rattle.std.specs.Prelude.{◌≡◌, ◌*◌, pos, length, Some, None, MatchOption};
ghost use Rattle.std.specs.Str.{chars};
ghost use Rattle.xpath_values.specs.Numbers.{in_range, one};
ghost use Rattle.xpath_values.specs.Texts.{contains, cut_at, starts_with};

use crate::{Number, ValueFault};
use memchr::memmem;
use xml_model::Text;
use xml_model::texts::as_str;
use xpath_tokens::GREATEST;

/// What is before the first place where a piece is in a text, and what is after it; `None` where it is nowhere. It
/// takes time linear in both.
fn cut_at<'a>(text: &'a str, piece: &str) -> Option<(&'a str, &'a str)>
    ensures { MatchOption result (cut_at (chars piece.now) (chars text.now) ≡ None)
        (λ x. cut_at (chars piece.now) (chars text.now) ≡ Some (chars x.0.now, chars x.1.now)) }
{
    match memmem::find(text.as_bytes(), piece.as_bytes()) {
        None => None,
        Some(place) => {
            let (before, there) = text.split_at(place);
            let (_, after) = there.split_at(piece.len());
            Some((before, after))
        }
    }
}

/// A text cut at the first place where another one is.
pub fn cut<'a>(one: &'a Text, other: &Text) -> Option<(&'a str, &'a str)>
    ensures { MatchOption result (cut_at other.now one.now ≡ None)
        (λ x. cut_at other.now one.now ≡ Some (chars x.0.now, chars x.1.now)) }
{
    cut_at(as_str(one), as_str(other))
}

/// Whether a text begins with another one (XPath 1.0, section 4.2). It takes time linear in the other.
pub fn starts_with(one: &Text, other: &Text) -> bool
    ensures { result ≡ starts_with one.now other.now }
{
    begins_with(as_str(one), as_str(other))
}

/// Whether a text begins with a piece.
fn begins_with(text: &str, piece: &str) -> bool
    ensures { result ≡ starts_with (chars text.now) (chars piece.now) }
{
    text.as_bytes().starts_with(piece.as_bytes())
}

/// Whether a text is somewhere in another one (XPath 1.0, section 4.2). It takes time linear in both.
pub fn contains(one: &Text, other: &Text) -> bool
    ensures { result ≡ contains one.now other.now }
{
    cut(one, other).is_some()
}

/// How many code points a text has (XPath 1.0, section 4.2), in one pass.
///
/// # Errors
/// `Range` where they are more than 9007199254740991, and no other fault.
pub fn string_length(text: &Text) -> Result<Number, ValueFault>
    ensures { result ≡ in_range (pos (one * length text.now)) }
{
    counted(char_count(as_str(text)))
}

/// How many code points a text has.
fn char_count(text: &str) -> usize
    ensures { result ≡ length (chars text.now) }
{
    text.chars().count()
}

/// The number that counts something.
fn counted(count: usize) -> Result<Number, ValueFault>
    ensures { result ≡ in_range (pos (one * count)) }
{
    let millionths = 1_000_000 * count as u128;
    if millionths <= GREATEST {
        Ok(Number::Millionths(millionths as i128))
    } else {
        Err(ValueFault::Range)
    }
}
