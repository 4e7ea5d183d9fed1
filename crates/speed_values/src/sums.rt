//! The sum of numbers, beside a loop over the same records that adds their digits.

ghost use Rattle.std.specs.Prelude.{IfOk};
ghost use Rattle.std.specs.List.{AllByRecursion};
ghost use Rattle.vtd_words.specs.Table.{IsNodeOf};

use crate::documents::{numbers, texts_of};
use std::io;
use std::rt::Clock;
use std::time::Instant;
use vtd_builder::build;
use vtd_words::{Part, Table, Words, parts_at};
use xml_model::{Node, TokenKind};
use xpath_values::{Number, ValueFault, number_seen, sum_next, sum_start, sum_value};

/// The sum of the numbers of nodes.
fn sum_of<W: Words>(table: &Table<'_, W>, nodes: &[Node]) -> Result<Number, ValueFault>
    requires { AllByRecursion (λ x. IsNodeOf table.now.bytes (W.lists table.now.words) x) nodes.now }
{
    let mut sum = sum_start();
    let mut left = nodes;
    while let Some((node, rest)) = left.split_first() {
        sum = sum_next(sum, number_seen(table, *node)?);
        left = rest;
    }
    sum_value(sum)
}

/// The number of the ASCII digits of some bytes.
fn digits_of(bytes: &[u8]) -> u64 {
    let mut number = 0u64;
    for byte in bytes {
        number = number
            .wrapping_mul(10)
            .wrapping_add(u64::from(byte.wrapping_sub(b'0')));
    }
    number
}

/// The sum of the digits of the texts among all records.
fn add_digits<W: Words>(bytes: &[u8], words: &W) -> u64 {
    let mut sum = 0u64;
    for at in 0..words.len(Part::Records) {
        let parts = parts_at(words, at);
        if parts.token == TokenKind::Text as u8 {
            let start = parts.offset as usize;
            let end = start + parts.length as usize;
            sum = sum.wrapping_add(digits_of(bytes.get(start..end).unwrap_or(b"")));
        }
    }
    sum
}

/// Times the sum of numbers.
fn time_sum<R: Clock + Print + Eprint, W: Words>(
    rt: &R,
    table: &Table<'_, W>,
    nodes: &[Node],
) -> io::Result<()>
    requires { AllByRecursion (λ x. IsNodeOf table.now.bytes (W.lists table.now.words) x) nodes.now }
{
    let start = Instant::now(rt)?;
    let digits = add_digits(table.bytes(), table.words());
    let looped = start.elapsed(rt)?;
    let start = Instant::now(rt)?;
    let sum = sum_of(table, nodes);
    let taken = start.elapsed(rt)?;
    println!(rt; "sums: {digits} and {sum:?}")?;
    eprintln!(rt; "sums: sum {taken:?}, loop {looped:?}")
}

/// Times the sum of the numbers below another.
pub fn time<R: Clock + Print + Eprint + AllocGlobal>(rt: &R, count: u32) -> io::Result<()> {
    let bytes = numbers(rt.alloc(), count)?.into_bytes();
    if bytes.len() >= 1 << 30 {
        return eprintln!(rt; "too long");
    }
    let Ok(document) = build(rt.alloc(), bytes) else {
        return eprintln!(rt; "refused");
    };
    let nav = document.nav();
    let table = nav.table();
    let records = table.words().len(Part::Records);
    let nodes = texts_of(rt.alloc(), table, 0, records)?;
    time_sum(rt, table, &nodes)
}
