//! Functions on a text, beside `append_to` of the same text from its document.

ghost use Rattle.vtd_words.specs.Table.{IsNodeOf};

use crate::documents::words;
use std::alloc::{AllocError, Global};
use std::io;
use std::rt::Clock;
use std::time::{Duration, Instant};
use vtd_builder::build;
use vtd_text::{Chars, append_to};
use vtd_words::{Table, Words};
use xml_model::texts::{as_str, make_text};
use xml_model::{NoMemory, Node, Text};
use xpath_values::{normalize_space, substring_before, translate};

/// How often each function is called.
const TIMES: u32 = 20;

/// Says how long so many calls took in all, with the bytes of what the last one answered.
fn say<R: Clock + Print + Eprint>(
    rt: &R,
    what: &str,
    answer: Result<Text, NoMemory>,
    taken: Duration,
) -> io::Result<()> {
    let Ok(text) = answer else {
        return Err(AllocError.into());
    };
    println!(rt; "texts: {what} {}", as_str(&text).len())?;
    eprintln!(rt; "texts: {what} {taken:?}")
}

/// The text of a node, appended to an empty one.
fn appended<W: Words>(alloc: Global, table: &Table<'_, W>, node: Node) -> Result<Text, NoMemory>
    requires { IsNodeOf table.now.bytes (W.lists table.now.words) node }
{
    let mut text = Text {
        held: String::new(alloc),
    };
    append_to(alloc, Chars::of(table, node), &mut text)?;
    Ok(text)
}

/// Times `append_to`.
fn time_append<R: Clock + Print + Eprint + AllocGlobal, W: Words>(
    rt: &R,
    table: &Table<'_, W>,
    node: Node,
) -> io::Result<()>
    requires { IsNodeOf table.now.bytes (W.lists table.now.words) node }
{
    let start = Instant::now(rt)?;
    let mut answer = appended(rt.alloc(), table, node);
    for _ in 1..TIMES {
        answer = appended(rt.alloc(), table, node);
    }
    say(rt, "append_to", answer, start.elapsed(rt)?)
}

/// Times `normalize-space`.
fn time_normalize<R: Clock + Print + Eprint + AllocGlobal>(rt: &R, text: &Text) -> io::Result<()> {
    let start = Instant::now(rt)?;
    let mut answer = normalize_space(rt.alloc(), text);
    for _ in 1..TIMES {
        answer = normalize_space(rt.alloc(), text);
    }
    say(rt, "normalize_space", answer, start.elapsed(rt)?)
}

/// Times `translate` of one character to another one.
fn time_translate<R: Clock + Print + Eprint + AllocGlobal>(rt: &R, text: &Text) -> io::Result<()> {
    let from = make_text(rt.alloc(), "m")?;
    let to = make_text(rt.alloc(), "M")?;
    let start = Instant::now(rt)?;
    let mut answer = translate(rt.alloc(), text, &from, &to);
    for _ in 1..TIMES {
        answer = translate(rt.alloc(), text, &from, &to);
    }
    say(rt, "translate", answer, start.elapsed(rt)?)
}

/// Times `substring-before` of a text that is at the end.
fn time_before<R: Clock + Print + Eprint + AllocGlobal>(rt: &R, text: &Text) -> io::Result<()> {
    let end = make_text(rt.alloc(), "end")?;
    let start = Instant::now(rt)?;
    let mut answer = substring_before(rt.alloc(), text, &end);
    for _ in 1..TIMES {
        answer = substring_before(rt.alloc(), text, &end);
    }
    say(rt, "substring_before", answer, start.elapsed(rt)?)
}

/// Times functions on a text of about so many bytes.
pub fn time<R: Clock + Print + Eprint + AllocGlobal>(rt: &R, bytes: u32) -> io::Result<()> {
    let bytes = words(rt.alloc(), bytes)?.into_bytes();
    if bytes.len() >= 1 << 30 {
        return eprintln!(rt; "too long");
    }
    let Ok(document) = build(rt.alloc(), bytes) else {
        return eprintln!(rt; "refused");
    };
    let nav = document.nav();
    let table = nav.table();
    let Some(root) = table.node_at(0) else {
        return Ok(());
    };
    let Ok(text) = appended(rt.alloc(), table, root) else {
        return Err(AllocError.into());
    };
    time_append(rt, table, root)?;
    time_normalize(rt, &text)?;
    time_translate(rt, &text)?;
    time_before(rt, &text)
}
