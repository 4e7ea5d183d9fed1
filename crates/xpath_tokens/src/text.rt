//! Comparisons of characters with names.

ghost use Rattle.std.specs.Prelude.{◌≡◌};
ghost use Rattle.std.specs.Str.{bytes_eq};

/// Whether the code points of the characters are these bytes.
fn same(chars: &[char], bytes: &[u8]) -> bool
    ensures { result ≡ bytes_eq chars.now bytes.now }
{
    match chars {
        [] => bytes.is_empty(),
        [c, chars @ ..] => match bytes {
            [] => false,
            [byte, bytes @ ..] => *c as u32 == *byte as u32 && same(chars, bytes),
        },
    }
}

/// Whether the characters are those of an ASCII text.
pub fn equals(chars: &[char], name: &str) -> bool
    ensures { result ≡ bytes_eq chars.now name.now }
{
    same(chars, name.as_bytes())
}
