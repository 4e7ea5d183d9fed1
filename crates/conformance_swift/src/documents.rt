//! The records of a document with more and more white space before and behind it.

use std::alloc::{AllocError, Global};
use vtd_builder::{BuildFault, build};
use vtd_words::{Part, Words};

/// How much white space is before a document, and how much behind it.
const BEFORE: usize = 17;

const BEHIND: usize = 80;

/// What is known of a document: the words of its records, or why it is refused.
#[derive(Drop)]
struct Known {
    words: Vec<u64>,
    fault: Option<BuildFault>,
}

fn known_of(alloc: Global, bytes: Vec<u8>) -> Result<Known, AllocError> {
    let mut words = Vec::new(alloc);
    if bytes.len() >= 1 << 30 {
        return Ok(Known { words, fault: None });
    }
    match build(alloc, bytes) {
        Ok(doc) => {
            let records = doc.words();
            for at in 0..records.len(Part::Records) {
                words.push(records.word(Part::Records, at))?;
            }
            Ok(Known { words, fault: None })
        }
        Err((_, fault)) => Ok(Known {
            words,
            fault: Some(fault),
        }),
    }
}

/// A document with white space before it and behind it.
fn padded(alloc: Global, text: &str, before: usize, behind: usize) -> Result<Vec<u8>, AllocError> {
    let mut bytes = Vec::new(alloc);
    for _ in 0..before {
        bytes.push(b' ')?;
    }
    bytes.extend_from_slice(text.as_bytes())?;
    for _ in 0..behind {
        bytes.push(b'\n')?;
    }
    Ok(bytes)
}

/// Whether the same is known of a document with white space behind it, by so many bytes.
fn is_same(alloc: Global, text: &str, before: usize, alone: &Known) -> Result<bool, AllocError> {
    for behind in 0..BEHIND {
        let other = known_of(alloc, padded(alloc, text, before, behind)?)?;
        if other.words.as_slice() != alone.words.as_slice() || other.fault != alone.fault {
            return Ok(false);
        }
    }
    Ok(true)
}

/// How many records a document has, or why it is refused, and where that is otherwise with white space behind it.
pub fn write(alloc: Global, out: &mut String, text: &str) -> Result<(), AllocError> {
    let first = known_of(alloc, padded(alloc, text, 0, 0)?)?;
    match first.fault {
        None => write!(out, "{} records", first.words.len())?,
        Some(fault) => write!(out, "{fault:?}")?,
    }
    for before in 0..BEFORE {
        let alone = known_of(alloc, padded(alloc, text, before, 0)?)?;
        if alone.words.len() != first.words.len() || !is_same(alloc, text, before, &alone)? {
            write!(out, ", otherwise at {before}")?;
        }
    }
    Ok(())
}
