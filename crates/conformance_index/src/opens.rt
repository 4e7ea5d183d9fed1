//! What is read of a file that is opened.

use crate::changes::bytes_in;
use crate::writes::write_whole;
use std::alloc::{AllocError, Global};
use vtd_index::{LoadFault, Opened, open_index};
use vtd_location::Nav;
use vtd_words::{Part, Words};

/// The parts of a document's words.
const PARTS: [Part; 6] = [
    Part::Records,
    Part::Level1,
    Part::Level2,
    Part::Level3,
    Part::Level4,
    Part::Level5,
];

/// Writes the words of each part, after how many there are.
fn write_words<W: Words>(out: &mut String, words: &W) -> Result<(), AllocError> {
    for part in PARTS {
        let len = words.len(part);
        write!(out, "; {len}")?;
        for at in 0..len {
            let word = words.word(part, at);
            write!(out, " {word:x}")?;
        }
    }
    Ok(())
}

/// Writes what a row asks of a document: its `words`, or the `index` file that is written of it.
fn write_asked<W: Words>(
    alloc: Global,
    out: &mut String,
    nav: &Nav<'_, W>,
    input: &str,
) -> Result<(), AllocError> {
    if input == "index" {
        out.push_str(" ")?;
        return write_whole(alloc, out, nav);
    }
    let length = nav.table().bytes().len();
    write!(out, " {length}")?;
    write_words(out, nav.table().words())
}

/// The answer to what a row asks of a file that is opened, after how it is held.
pub fn answer(
    alloc: Global,
    out: &mut String,
    digits: &str,
    input: &str,
) -> Result<(), AllocError> {
    let file = bytes_in(alloc, digits)?;
    if file.len() > u32::MAX as usize {
        return out.push_str("too long");
    }
    let given = file.clone()?;
    match open_index(alloc, file) {
        Ok(Opened::View(loaded)) => {
            out.push_str("view")?;
            write_asked(alloc, out, &loaded.parts().nav(), input)
        }
        Ok(Opened::Built(doc)) => {
            out.push_str("built")?;
            write_asked(alloc, out, &doc.nav(), input)
        }
        Err((_, LoadFault::NoMemory)) => Err(AllocError),
        Err((back, LoadFault::Index(_))) => {
            let same = back.as_slice() == given.as_slice();
            out.push_str(if same { "given back" } else { "other bytes" })
        }
    }
}
