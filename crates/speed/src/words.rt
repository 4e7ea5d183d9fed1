//! Reading words: a scan of the records of a document in memory, beside one of the same words in borrowed bytes.

ghost use Rattle.std.specs.Prelude.{length};

use std::io;
use std::rt::Clock;
use std::time::{Duration, Instant};
use vtd_builder::build;
use vtd_words::{Part, WordView, Words};

/// The sum of the words of the records, without what is above 64 bits.
fn sum_of<W: Words>(words: &W) -> u64 {
    let mut sum = 0u64;
    for at in 0..words.len(Part::Records) {
        sum = sum.wrapping_add(words.word(Part::Records, at));
    }
    sum
}

/// That sum, and how long it took.
fn time_sum<W: Words>(clock: &impl Clock, words: &W) -> io::Result<(u64, Duration)> {
    let start = Instant::now(clock)?;
    let sum = sum_of(words);
    Ok((sum, start.elapsed(clock)?))
}

/// Times the scans of the records of a document of fewer than 2 to the power 30 bytes.
pub fn time<R: Clock + Print + Eprint + AllocGlobal>(rt: &R, bytes: Vec<u8>) -> io::Result<()> {
    if bytes.len() >= 1 << 30 {
        return Ok(());
    }
    let Ok(document) = build(rt.alloc(), bytes) else {
        return Ok(());
    };
    let words = document.words();
    let mut written = Vec::new(rt.alloc());
    for at in 0..words.len(Part::Records) {
        written.extend_from_slice(&words.word(Part::Records, at).to_be_bytes())?;
    }
    let Some(view) = WordView::of(written.as_slice(), &[], &[], &[], &[], &[]) else {
        return Ok(());
    };
    let (sum, held) = time_sum(rt, words)?;
    let (other, lent) = time_sum(rt, &view)?;
    println!(rt; "words {}, same {}", words.len(Part::Records), sum == other)?;
    eprintln!(rt; "in memory {held:?}, in borrowed bytes {lent:?}")
}
