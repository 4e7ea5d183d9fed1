//! Reading items and checking documents: one pass over a document each, beside a plain sum of its bytes, a count of its
//! `<` and a check of UTF-8.

ghost use Rattle.std.specs.Prelude.{◌<◌, ◌^◌, length};
ghost use Rattle.std.specs.Str.{IsUtf8};

use memchr::memchr_iter;
use std::io;
use std::rt::Clock;
use std::time::Instant;
use xml_acceptance::check;
use xml_items::next_item;

/// The number of items from the start to the end, or to the first place where none begins.
fn count_items(bytes: &[u8]) -> u64
    requires utf8 { IsUtf8 bytes.now }
    requires size { length bytes.now < 2 ^ 32 }
{
    let mut count = 0u64;
    let mut at = 0;
    for _ in 0..bytes.len() {
        match next_item(bytes, at) {
            Ok(Some(item)) => {
                count = count.wrapping_add(1);
                at = item.span.end;
            }
            _ => return count,
        }
    }
    count
}

/// The number of records of a document, 0 of bytes that are none.
fn count_records(bytes: &[u8]) -> u32
    requires { length bytes.now < 2 ^ 30 }
{
    match check(bytes) {
        Ok(counts) => counts.records,
        Err(_) => 0,
    }
}

fn sum_of(bytes: &[u8]) -> u64 {
    let mut sum = 0u64;
    for byte in bytes {
        sum = sum.wrapping_add(*byte as u64);
    }
    sum
}

/// Times the passes over a document of fewer than 2 to the power 30 bytes.
pub fn time<R: Clock + Print + Eprint>(rt: &R, bytes: &[u8]) -> io::Result<()> {
    if bytes.len() >= 1 << 30 {
        return Ok(());
    }
    let start = Instant::now(rt)?;
    let sum = sum_of(bytes);
    let summed = start.elapsed(rt)?;
    let start = Instant::now(rt)?;
    let angles = memchr_iter(b'<', bytes).count();
    let counted = start.elapsed(rt)?;
    let start = Instant::now(rt)?;
    let Ok(text) = simdutf8::compat::from_utf8(bytes) else {
        return Ok(());
    };
    let checked = start.elapsed(rt)?;
    let start = Instant::now(rt)?;
    let items = count_items(text.as_bytes());
    let walked = start.elapsed(rt)?;
    let start = Instant::now(rt)?;
    let records = count_records(bytes);
    let accepted = start.elapsed(rt)?;
    println!(rt; "sum {sum}, angles {angles}, items {items}, records {records}")?;
    eprintln!(rt;
        "sum {summed:?}, memchr {counted:?}, utf8 {checked:?}, items {walked:?}, check {accepted:?}"
    )
}
