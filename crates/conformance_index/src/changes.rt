//! Files in hexadecimal digits, and what is changed in a file.

use std::alloc::{AllocError, Global};

/// The bytes in hexadecimal digits: groups of sixteen digits are eight bytes, and any other group is one.
pub fn bytes_in(alloc: Global, digits: &str) -> Result<Vec<u8>, AllocError> {
    let mut bytes = Vec::new(alloc);
    for group in digits.split_whitespace() {
        if group.len() == 16 {
            let word = u64::from_str_radix(group, 16).unwrap_or(0);
            bytes.extend_from_slice(&word.to_be_bytes())?;
        } else {
            bytes.push(u8::from_str_radix(group, 16).unwrap_or(0))?;
        }
    }
    Ok(bytes)
}

/// Writes bytes in groups of sixteen digits, the last of which may be shorter.
pub fn write_bytes(out: &mut String, bytes: &[u8]) -> Result<(), AllocError> {
    for (i, byte) in bytes.iter().enumerate() {
        if i % 8 == 0 {
            out.push_str(" ")?;
        }
        write!(out, "{byte:02x}")?;
    }
    Ok(())
}

/// The file with one byte put in place of another, where that is there.
fn with_byte(alloc: Global, file: &[u8], at: usize, byte: u8) -> Result<Vec<u8>, AllocError> {
    let mut bytes = file.to_vec(alloc)?;
    if at < bytes.len() {
        bytes[at] = byte;
    }
    Ok(bytes)
}

/// The byte at a place, or zero where none is.
fn byte_at(file: &[u8], at: usize) -> u8 {
    if at < file.len() { file[at] } else { 0 }
}

/// The file as a row wants it: `put AT BYTE`, `flip AT` (its lowest bit), `cut LENGTH`, `add BYTES`, or any other words
/// for the file as it is.
pub fn changed(alloc: Global, file: &[u8], input: &str) -> Result<Vec<u8>, AllocError> {
    let (word, rest) = input.split_once(" ").unwrap_or((input, ""));
    let (number, byte) = rest.split_once(" ").unwrap_or((rest, ""));
    let at = number.parse::<usize>().unwrap_or(usize::MAX);
    match word {
        "put" => with_byte(alloc, file, at, u8::from_str_radix(byte, 16).unwrap_or(0)),
        "flip" => with_byte(alloc, file, at, byte_at(file, at) ^ 1),
        "cut" => file[..at.min(file.len())].to_vec(alloc),
        "add" => {
            let mut bytes = file.to_vec(alloc)?;
            bytes.extend_from_slice(&bytes_in(alloc, rest)?)?;
            Ok(bytes)
        }
        _ => file.to_vec(alloc),
    }
}
