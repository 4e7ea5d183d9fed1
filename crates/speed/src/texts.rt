//! Appending resolved texts: `append_to` of all texts of a document beside a plain copy of as many bytes, first into
//! new memory and then into memory that was written before. And a count of their code points, one by one.

ghost use Rattle.vtd_words.specs.Table.{IsNodeOf};

use std::alloc::{AllocError, Global};
use std::io;
use std::rt::Clock;
use std::time::{Duration, Instant};
use vtd_builder::build;
use vtd_text::{Chars, append_to};
use vtd_words::{Table, Words};
use xml_model::{Node, Text};

/// Appends the texts of a node, and answers how long that took.
fn time_append<W: Words>(
    clock: &impl Clock,
    alloc: Global,
    table: &Table<'_, W>,
    node: Node,
    text: &mut Text,
) -> io::Result<Duration>
    requires { IsNodeOf table.now.bytes (W.lists table.now.words) node }
{
    let start = Instant::now(clock)?;
    if append_to(alloc, Chars::of(table, node), text).is_err() {
        return Err(AllocError.into());
    }
    start.elapsed(clock)
}

/// Appends a text by a plain copy, and answers how long that took.
fn time_copy(clock: &impl Clock, from: &str, into: &mut String) -> io::Result<Duration> {
    let start = Instant::now(clock)?;
    into.push_str(from)?;
    start.elapsed(clock)
}

/// Counts the code points of a node's text, and answers how many there are and how long that took.
fn time_count<W: Words>(
    clock: &impl Clock,
    table: &Table<'_, W>,
    node: Node,
) -> io::Result<(u64, Duration)>
    requires { IsNodeOf table.now.bytes (W.lists table.now.words) node }
{
    let start = Instant::now(clock)?;
    let mut count = 0u64;
    for _c in Chars::of(table, node) {
        count = count.wrapping_add(1);
    }
    Ok((count, start.elapsed(clock)?))
}

/// Times the texts of a document of fewer than 2 to the power 30 bytes.
pub fn time<R: Clock + Print + Eprint + AllocGlobal>(rt: &R, bytes: Vec<u8>) -> io::Result<()> {
    if bytes.len() >= 1 << 30 {
        return Ok(());
    }
    let Ok(document) = build(rt.alloc(), bytes) else {
        return Ok(());
    };
    let nav = document.nav();
    let table = nav.table();
    let Some(root) = table.node_at(0) else {
        return Ok(());
    };
    let mut text = Text {
        held: String::new(rt.alloc()),
    };
    let mut copy = String::new(rt.alloc());
    for memory in ["new", "written"] {
        text.held.clear();
        copy.clear();
        let appended = time_append(rt, rt.alloc(), table, root, &mut text)?;
        let copied = time_copy(rt, text.held.as_str(), &mut copy)?;
        let same = text.held.as_str() == copy.as_str();
        println!(rt; "{memory} memory: bytes {}, same {same}", copy.len())?;
        eprintln!(rt; "{memory} memory: append {appended:?}, copy {copied:?}")?;
    }
    let (count, counted) = time_count(rt, table, root)?;
    println!(rt; "characters {count}")?;
    eprintln!(rt; "counted: {counted:?}")
}
