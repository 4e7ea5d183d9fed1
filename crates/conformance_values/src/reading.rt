//! How many words of records and levels the value of an expression costs.
//!
//! A row is `LEAST MOST EXPRESSION`: at least and at most how many words are to be read, and the rest as in `evaluate`. The
//! answer is the value, and the number of words where there are fewer or more.

ghost use Rattle.std.specs.Prelude.{◌<◌, ◌^◌, length};

use crate::evaluating::{bindings_of, write_answer};
use std::alloc::{AllocError, Global};
use std::cell::Cell;
use vtd_builder::build;
use vtd_location::Nav;
use vtd_words::{Part, Table, WordVec, Words};

/// The words of a document, with how often one of them was read.
#[derive(Drop)]
struct Counted {
    words: WordVec,
    reads: Cell<u64>,
}

impl Words for Counted {
    ghost lists = { λ c. c.words.lists };

    fn len(&self, part: Part) -> u32 {
        self.words.len(part)
    }

    fn word(&self, part: Part, at: u32) -> u64 {
        self.reads.set(self.reads.get().saturating_add(1));
        self.words.word(part, at)
    }
}

/// The first word of a text as a number, 0 where it is none, and what is after it.
fn number_first(text: &str) -> (u64, &str) {
    match text.split_once(" ") {
        Some((number, rest)) => (number.parse::<u64>().unwrap_or(0), rest),
        None => (0, text),
    }
}

/// The answer of a table of reads.
pub fn answer(alloc: Global, out: &mut String, given: &[u8], input: &str) -> Result<(), AllocError>
    requires { length given.now < 2 ^ 30 }
{
    let Ok(doc) = build(alloc, given.to_vec(alloc)?) else {
        return out.push_str("refused");
    };
    let (least, after) = number_first(input);
    let (most, expression) = number_first(after);
    let (bytes, words) = doc.into_parts();
    let reads = Cell::new(0);
    let counted = Counted { words, reads };
    let nav = Nav::of(Table::of(&bytes, &counted));
    write_answer(alloc, out, &nav, &bindings_of(alloc, ""), expression)?;
    let count = counted.reads.get();
    if count < least || most < count {
        write!(out, " after {count} words")?;
    }
    Ok(())
}
