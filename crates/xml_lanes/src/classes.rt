//! The classes of bytes in names, texts, values and tags.

ghost use Rattle.std.specs.Prelude.{◌≡◌};
ghost use Rattle.xml_lanes.specs.Classes.{is_plain_start};

use crate::runs::ByteClass;
use std::simd::prelude::*;

/// Whether the byte is an ASCII character with which a name may begin (XML 1.0, production 4).
#[inline(always)]
pub fn is_plain_start(byte: u8) -> bool
    ensures { result ≡ is_plain_start byte }
{
    ((byte | 32).wrapping_sub(b'a') < 26) | (byte == b'_') | (byte == b':')
}

/// ASCII characters of names (XML 1.0, production 4a).
#[derive(Clone, Copy, Debug, PartialEq)]
pub struct NameByte;

impl ByteClass for NameByte {
    ghost use Rattle.xml_lanes.specs.Classes.{is_name_byte};

    ghost has = { λ s. is_name_byte };

    #[inline(always)]
    fn has(&self, byte: u8) -> bool {
        ((byte | 32).wrapping_sub(b'a') < 26)
            | ((byte.wrapping_sub(b'-') < 14) & (byte != b'/'))
            | (byte == b'_')
    }

    #[inline(always)]
    fn outside(&self, v: u8x16) -> u64 {
        let no_letter = ((v | u8x16::splat(0x20)) - u8x16::splat(b'a')).simd_ge(u8x16::splat(26));
        let no_other = (v - u8x16::splat(b'-')).simd_ge(u8x16::splat(14))
            | v.simd_eq(u8x16::splat(b'/'));
        (no_letter & no_other & v.simd_ne(u8x16::splat(b'_'))).to_bitmask()
    }
}

/// Bytes that only Chars have that may be anywhere in a text: those of `<`, `&` and `]` are left out, and EF, with
/// which two characters begin that are no Chars (XML 1.0, productions 2 and 14).
#[derive(Clone, Copy, Debug, PartialEq)]
pub struct TextByte;

impl ByteClass for TextByte {
    ghost use Rattle.xml_lanes.specs.Classes.{is_text_byte};

    ghost has = { λ s. is_text_byte };

    #[inline(always)]
    fn has(&self, byte: u8) -> bool {
        ((byte >= 32) | (byte == b'\n') | (byte == b'\t') | (byte == b'\r'))
            & (byte != b'<')
            & (byte != b'&')
            & (byte != b']')
            & (byte != 0xEF)
    }

    #[inline(always)]
    fn outside(&self, v: u8x16) -> u64 {
        let control = v.simd_lt(u8x16::splat(32))
            & v.simd_ne(u8x16::splat(b'\n'))
            & v.simd_ne(u8x16::splat(b'\t'))
            & v.simd_ne(u8x16::splat(b'\r'));
        (control
            | v.simd_eq(u8x16::splat(b'<'))
            | v.simd_eq(u8x16::splat(b'&'))
            | v.simd_eq(u8x16::splat(b']'))
            | v.simd_eq(u8x16::splat(0xEF))).to_bitmask()
    }
}

/// Bytes that only Chars have that may be anywhere in a value in double quotes: those of `<`, `&` and `"` are left out,
/// white space but the blank, and EF (XML 1.0, productions 2 and 10).
#[derive(Clone, Copy, Debug, PartialEq)]
pub struct ValueByte;

impl ByteClass for ValueByte {
    ghost use Rattle.xml_lanes.specs.Classes.{is_value_byte};

    ghost has = { λ s. is_value_byte };

    #[inline(always)]
    fn has(&self, byte: u8) -> bool {
        (byte >= 32) & (byte != b'<') & (byte != b'&') & (byte != b'"') & (byte != 0xEF)
    }

    #[inline(always)]
    fn outside(&self, v: u8x16) -> u64 {
        (v.simd_lt(u8x16::splat(32))
            | v.simd_eq(u8x16::splat(b'<'))
            | v.simd_eq(u8x16::splat(b'&'))
            | v.simd_eq(u8x16::splat(b'"'))
            | v.simd_eq(u8x16::splat(0xEF))).to_bitmask()
    }
}

/// Bytes that only Chars have that may be anywhere in a value in single quotes: those of `<`, `&` and `'` are left out,
/// white space but the blank, and EF (XML 1.0, productions 2 and 10).
#[derive(Clone, Copy, Debug, PartialEq)]
pub struct SingleValueByte;

impl ByteClass for SingleValueByte {
    ghost use Rattle.xml_lanes.specs.Classes.{is_single_value_byte};

    ghost has = { λ s. is_single_value_byte };

    #[inline(always)]
    fn has(&self, byte: u8) -> bool {
        (byte >= 32) & (byte != b'<') & (byte != b'&') & (byte != b'\'') & (byte != 0xEF)
    }

    #[inline(always)]
    fn outside(&self, v: u8x16) -> u64 {
        (v.simd_lt(u8x16::splat(32))
            | v.simd_eq(u8x16::splat(b'<'))
            | v.simd_eq(u8x16::splat(b'&'))
            | v.simd_eq(u8x16::splat(b'\''))
            | v.simd_eq(u8x16::splat(0xEF))).to_bitmask()
    }
}

/// Bytes of a tag that are no white space, and none of `/`, `=` and `>`: names go on over them.
#[derive(Clone, Copy, Debug, PartialEq)]
pub struct InTag;

impl ByteClass for InTag {
    ghost use Rattle.xml_lanes.specs.Classes.{is_tag_byte};

    ghost has = { λ s. is_tag_byte };

    #[inline(always)]
    fn has(&self, byte: u8) -> bool {
        byte > b' ' && byte != b'/' && byte != b'=' && byte != b'>'
    }

    #[inline(always)]
    fn outside(&self, v: u8x16) -> u64 {
        (v.simd_lt(u8x16::splat(33))
            | v.simd_eq(u8x16::splat(b'/'))
            | v.simd_eq(u8x16::splat(b'='))
            | v.simd_eq(u8x16::splat(b'>'))).to_bitmask()
    }
}

/// All bytes but one.
#[derive(Clone, Copy, Debug, PartialEq)]
pub struct Other {
    /// The byte that is left out.
    pub byte: u8,
}

impl ByteClass for Other {
    ghost use Rattle.xml_lanes.specs.Classes.{is_other};

    ghost has = { λ s. is_other s.byte };

    #[inline(always)]
    fn has(&self, byte: u8) -> bool {
        byte != self.byte
    }

    #[inline(always)]
    fn outside(&self, v: u8x16) -> u64 {
        v.simd_eq(u8x16::splat(self.byte)).to_bitmask()
    }
}
