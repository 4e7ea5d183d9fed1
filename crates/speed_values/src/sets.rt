//! `=` of two node-sets that have no text in common.

ghost use Rattle.std.specs.List.{AllByRecursion};
ghost use Rattle.vtd_words.specs.Table.{IsNodeOf};
ghost use Rattle.xpath_values.specs.Values.{HasNodesOf};

use crate::documents::{texts_of, two_sets};
use std::io;
use std::rt::Clock;
use std::time::Instant;
use vtd_builder::build;
use vtd_words::{Part, Table, Words};
use xml_model::NodeList;
use xpath_comparisons::compare;
use xpath_tokens::Comparison;
use xpath_values::Value;

/// Compares two values, and says how long that took.
fn time_equal<R: Clock + Print + Eprint + AllocGlobal, W: Words>(
    rt: &R,
    table: &Table<'_, W>,
    left: &Value,
    right: &Value,
) -> io::Result<()>
    requires left { HasNodesOf table.now.bytes (W.lists table.now.words) left.now }
    requires right { HasNodesOf table.now.bytes (W.lists table.now.words) right.now }
{
    let start = Instant::now(rt)?;
    let answer = compare(rt.alloc(), table, Comparison::Equal, left, right);
    let taken = start.elapsed(rt)?;
    println!(rt; "sets: {answer:?}")?;
    eprintln!(rt; "sets: {taken:?}")
}

/// Times two node-sets of so many texts each.
pub fn time<R: Clock + Print + Eprint + AllocGlobal>(rt: &R, count: u32) -> io::Result<()> {
    time_halves(rt, two_sets(rt.alloc(), count)?.into_bytes())
}

/// Times the texts in the first half of a document's records beside those in the other half.
pub fn time_halves<R: Clock + Print + Eprint + AllocGlobal>(
    rt: &R,
    bytes: Vec<u8>,
) -> io::Result<()> {
    if bytes.len() >= 1 << 30 {
        return eprintln!(rt; "too long");
    }
    let Ok(document) = build(rt.alloc(), bytes) else {
        return eprintln!(rt; "refused");
    };
    let nav = document.nav();
    let table = nav.table();
    let records = table.words().len(Part::Records);
    let middle = records / 2 + 1;
    let left = texts_of(rt.alloc(), table, 0, middle)?;
    let right = texts_of(rt.alloc(), table, middle, records)?;
    println!(rt; "sets: {} and {} texts", left.len(), right.len())?;
    time_equal(
        rt,
        table,
        &Value::Nodes(NodeList { held: left }),
        &Value::Nodes(NodeList { held: right }),
    )
}
