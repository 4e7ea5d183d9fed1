//! The fields of a row, in which a backslash begins an escape: `\n`, `\r` and `\t`, a character by its number as
//! `\u{e9}`, a byte as `\x{ff}`, and a repeated text as `\*{255 <a>}`.

use std::alloc::{AllocError, Global};

/// Adds the character of a number in hexadecimal digits.
fn push_char(bytes: &mut Vec<u8>, digits: &str) -> Result<(), AllocError> {
    let number = u32::from_str_radix(digits, 16).unwrap_or(0);
    let mut buffer = [0u8; 4];
    let text = char::from_u32(number)
        .unwrap_or('\0')
        .encode_utf8(&mut buffer);
    bytes.extend_from_slice(text.as_bytes())
}

/// Adds a text so many times.
fn push_repeated(bytes: &mut Vec<u8>, repeated: &str) -> Result<(), AllocError> {
    if let Some((count, text)) = repeated.split_once(" ") {
        for _ in 0..count.parse::<u32>().unwrap_or(0) {
            bytes.extend_from_slice(text.as_bytes())?;
        }
    }
    Ok(())
}

/// Adds what an escape with braces stands for, by its letter and what is in its braces.
fn push_braced(bytes: &mut Vec<u8>, letter: &str, inside: &str) -> Result<(), AllocError> {
    match letter {
        "u" => push_char(bytes, inside),
        "x" => {
            bytes.push(u8::from_str_radix(inside, 16).unwrap_or(0))?;
            Ok(())
        }
        "*" => push_repeated(bytes, inside),
        _ => Ok(()),
    }
}

/// The byte that a letter after a backslash stands for.
fn byte_of(letter: &str) -> Option<u8> {
    match letter {
        "n" => Some(b'\n'),
        "r" => Some(b'\r'),
        "t" => Some(b'\t'),
        _ => None,
    }
}

/// Adds what follows a backslash, up to the next one.
fn push_piece(bytes: &mut Vec<u8>, piece: &str) -> Result<(), AllocError> {
    for letter in ["n", "r", "t"] {
        if let Some(rest) = piece.strip_prefix(letter) {
            if let Some(byte) = byte_of(letter) {
                bytes.push(byte)?;
            }
            return bytes.extend_from_slice(rest.as_bytes());
        }
    }
    if let Some((letter, braced)) = piece.split_once("{") {
        if let Some((inside, rest)) = braced.split_once("}") {
            push_braced(bytes, letter, inside)?;
            return bytes.extend_from_slice(rest.as_bytes());
        }
    }
    Ok(())
}

/// The bytes that a field stands for.
pub fn bytes_of(alloc: Global, field: &str) -> Result<Vec<u8>, AllocError> {
    let mut bytes = Vec::new(alloc);
    let mut pieces = field.split("\\");
    if let Some(plain) = pieces.next() {
        bytes.extend_from_slice(plain.as_bytes())?;
    }
    for piece in pieces {
        push_piece(&mut bytes, piece)?;
    }
    Ok(bytes)
}
