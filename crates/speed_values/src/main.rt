//! How fast XPath's values are. The first word names what is timed: `sets COUNT` is `=` of two node-sets of so many
//! texts of 20 bytes, `halves FILE` that of the texts in the two halves of a document, `sums COUNT` the sum of so many
//! numbers beside a loop that adds their digits, `texts BYTES` functions on a text of so many bytes beside `append_to`,
//! and `all COUNT BYTES` sets, sums and texts. The times go to standard error, and what came out to standard output.
#![tactic(auto)]

mod documents;
mod sets;
mod sums;
mod texts;

use std::{env, fs, io};

/// A number that is written in a word; 0 where it is none.
fn number_in(word: &str) -> u32 {
    word.parse::<u32>().unwrap_or(0)
}

fn main(rt: HostRuntime) -> io::Result<()> {
    let words = env::args(&rt)?.collect::<Vec<String>>(rt.alloc())?;
    let mut texts = Vec::new(rt.alloc());
    for word in &words {
        texts.push(word.as_str())?;
    }
    match texts.as_slice() {
        [_, "sets", count] => sets::time(&rt, number_in(count)),
        [_, "halves", file] => sets::time_halves(&rt, fs::read(&rt, *file)?),
        [_, "sums", count] => sums::time(&rt, number_in(count)),
        [_, "texts", bytes] => texts::time(&rt, number_in(bytes)),
        [_, "all", count, bytes] => {
            sets::time(&rt, number_in(count))?;
            sums::time(&rt, number_in(count))?;
            texts::time(&rt, number_in(bytes))
        }
        _ => eprintln!(rt;
            "usage: speed_values sets COUNT | halves FILE | sums COUNT | texts BYTES | all COUNT BYTES"
        ),
    }
}
