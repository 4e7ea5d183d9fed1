//! The classes of ASCII bytes.
#![tactic(auto)]

ghost use Rattle.std.specs.Prelude.{◌≡◌};
ghost use Rattle.xml_model.specs.Chars.{is_space};
ghost use Rattle.xml_chars.specs.Wide.{is_ascii_start, is_ascii_name, is_wide_start, is_wide_rest};

/// The bit that the digits `2` and `3` alone have.
const NAME: u8 = 2;

/// For each byte `3` where a name may begin with it, `2` where it may be further on in a name, `1` where it is white
/// space, `4` where it is not ASCII, and else `0`.
static CLASSES: [u8; 256] = *b"\
    00000000011001000000000000000000\
    10000000000002202222222222300000\
    03333333333333333333333333300003\
    03333333333333333333333333300000\
    44444444444444444444444444444444\
    44444444444444444444444444444444\
    44444444444444444444444444444444\
    44444444444444444444444444444444";

/// Whether the byte is an ASCII character with which a name may begin.
pub fn is_ascii_start(byte: u8) -> bool
    ensures { result ≡ is_ascii_start byte }
{
    CLASSES[byte as usize] == b'3'
}

/// Whether the byte is an ASCII character that may be in a name.
pub fn is_ascii_name(byte: u8) -> bool
    ensures { result ≡ is_ascii_name byte }
{
    CLASSES[byte as usize] & NAME != 0
}

/// Whether the byte is white space (XML 1.0, production 3).
pub fn is_space(byte: u8) -> bool
    ensures { result ≡ is_space byte }
{
    CLASSES[byte as usize] == b'1'
}

/// Whether a name may begin with the code point, which is not ASCII (XML 1.0, production 4).
#[tactic(auto, unfolding(crate::specs::Wide::is_wide_start, xml_model::specs::Chars::in_ranges))]
pub fn is_wide_start(code: u32) -> bool
    ensures { result ≡ is_wide_start code }
{
    (0xC0 <= code && code <= 0xD6)
        || (0xD8 <= code && code <= 0xF6)
        || (0xF8 <= code && code <= 0x2FF)
        || (0x370 <= code && code <= 0x37D)
        || (0x37F <= code && code <= 0x1FFF)
        || (0x200C <= code && code <= 0x200D)
        || (0x2070 <= code && code <= 0x218F)
        || (0x2C00 <= code && code <= 0x2FEF)
        || (0x3001 <= code && code <= 0xD7FF)
        || (0xF900 <= code && code <= 0xFDCF)
        || (0xFDF0 <= code && code <= 0xFFFD)
        || (0x1_0000 <= code && code <= 0xE_FFFF)
}

/// Whether the code point, which is not ASCII, may be further on in a name (XML 1.0, production 4a).
#[tactic(auto, unfolding(crate::specs::Wide::is_wide_rest, xml_model::specs::Chars::in_ranges))]
pub fn is_wide_rest(code: u32) -> bool
    ensures { result ≡ is_wide_rest code }
{
    (0xB7 <= code && code <= 0xB7)
        || (0x300 <= code && code <= 0x36F)
        || (0x203F <= code && code <= 0x2040)
}
