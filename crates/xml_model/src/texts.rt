//! Texts: made, copied and compared.

ghost use Rattle.std.specs.Prelude.{◌≡◌, IfOk, ◌==◌, length, string_bytes, encode_utf8_all};
ghost use Rattle.std.specs.Str.{bytes_eq, chars};

use crate::Text;
use std::alloc::{AllocError, Global};

/// The string of the characters.
fn string_of(alloc: Global, chars: &[char]) -> Result<String, AllocError>
    ensures { IfOk result (λ s. string_bytes s ≡ encode_utf8_all chars.now) }
{
    chars.iter().copied().collect(alloc)
}

/// The text of the characters.
///
/// # Errors
/// Where memory was not to be had.
pub fn text_of(alloc: Global, chars: &[char]) -> Result<Text, AllocError>
    ensures { IfOk result (λ t. t ≡ chars.now) }
{
    Ok(Text {
        held: string_of(alloc, chars)?,
    })
}

/// The text with the characters of a `str`.
///
/// # Errors
/// Where memory was not to be had.
pub fn make_text(alloc: Global, text: &str) -> Result<Text, AllocError>
    ensures { IfOk result (λ t. t ≡ chars text.now) }
{
    Ok(Text {
        held: String::from_str(alloc, text)?,
    })
}

/// The same text again.
///
/// # Errors
/// Where memory was not to be had.
pub fn copy_text(alloc: Global, text: &Text) -> Result<Text, AllocError>
    ensures { IfOk result (λ t. t ≡ text.now) }
{
    Ok(Text {
        held: String::from_str(alloc, text.held.as_str())?,
    })
}

/// The characters of a text. It takes constant time.
pub fn as_str(text: &Text) -> &str
    ensures { chars result.now ≡ text.now }
{
    text.held.as_str()
}

/// Whether a text is this one.
pub fn is_text(text: &Text, other: &str) -> bool
    ensures { result ≡ bytes_eq text.now (chars other.now) }
{
    text.held.as_str() == other
}

/// Whether two `str` are the same.
pub fn same_str(one: &str, other: &str) -> bool
    ensures { result ≡ bytes_eq (chars one.now) (chars other.now) }
{
    one == other
}

/// Whether a `str` has no characters.
pub fn is_empty(text: &str) -> bool
    ensures { result ≡ (length (chars text.now) == 0) }
{
    text.is_empty()
}
