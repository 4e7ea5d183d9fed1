//! How many words of records and levels the nodes on an axis of a node cost.
//!
//! A row is `LEAST MOST AT AXIS TEST`: at least and at most how many words are to be read, by the list and by the
//! iterator up to its end, and the rest as in `axes`. The answer has the indexes of the nodes, and the number of words
//! where there are fewer or more.

ghost use Rattle.std.specs.Prelude.{◌<◌, ◌^◌, length};
ghost use Rattle.vtd_words.specs.Table.{IsNodeOf};

use crate::axes::{axis_of, test_of};
use crate::steps::write_nodes;
use std::alloc::{AllocError, Global};
use std::cell::Cell;
use vtd_builder::build;
use vtd_location::Nav;
use vtd_words::{Part, Table, WordVec, Words};
use xml_model::{Axis, Node, NodeList, NodeTest};
use xpath_axes::{axis, axis_iter};

/// The words of a document, with how often one of them was read.
#[derive(Drop)]
struct Counted {
    words: WordVec,
    reads: Cell<u64>,
}

impl Words for Counted {
    ghost lists = { λ c. c.words.lists };

    fn len(&self, part: Part) -> u32 {
        self.words.len(part)
    }

    fn word(&self, part: Part, at: u32) -> u64 {
        self.reads.set(self.reads.get().saturating_add(1));
        self.words.word(part, at)
    }
}

/// What a row asks.
#[derive(Clone, Copy)]
struct Asked<'r> {
    least: u64,
    most: u64,
    at: u32,
    axis: &'r str,
    test: &'r str,
}

/// What a row asks, by its words; a word that is missing is empty, and a number that is none is 0.
fn read_row(input: &str) -> Asked<'_> {
    let mut words = input.split(" ");
    Asked {
        least: words.next().unwrap_or("").parse::<u64>().unwrap_or(0),
        most: words.next().unwrap_or("").parse::<u64>().unwrap_or(0),
        at: words.next().unwrap_or("").parse::<u32>().unwrap_or(0),
        axis: words.next().unwrap_or(""),
        test: words.next().unwrap_or(""),
    }
}

/// Writes how many words were read, where there are fewer or more than a row says.
fn write_reads(out: &mut String, asked: Asked<'_>, reads: u64) -> Result<(), AllocError> {
    if reads < asked.least || asked.most < reads {
        write!(out, " after {reads} words")?;
    }
    Ok(())
}

/// The nodes of the list, and what it reads.
fn list_nodes(
    alloc: Global,
    out: &mut String,
    nav: &Nav<'_, Counted>,
    node: Node,
    asked: Asked<'_>,
    along: Axis,
    test: &NodeTest<'_>,
) -> Result<NodeList, AllocError>
    requires { IsNodeOf nav.now.bytes nav.now.words.words.lists node }
{
    nav.table().words().reads.set(0);
    let Ok(list) = axis(alloc, nav, node, along, test) else {
        return Err(AllocError);
    };
    let reads = nav.table().words().reads.get();
    write_nodes(out, &list.held)?;
    write_reads(out, asked, reads)?;
    Ok(list)
}

/// Whether the iterator gives the nodes of a list, and what it reads up to its end.
fn follow_nodes(
    out: &mut String,
    nav: &Nav<'_, Counted>,
    node: Node,
    asked: Asked<'_>,
    along: Axis,
    test: &NodeTest<'_>,
    list: &[Node],
) -> Result<(), AllocError>
    requires { IsNodeOf nav.now.bytes nav.now.words.words.lists node }
{
    nav.table().words().reads.set(0);
    let mut nodes = axis_iter(nav, node, along, test);
    for wanted in list {
        if nodes.next() != Some(*wanted) {
            return out.push_str(" another list");
        }
    }
    if nodes.next().is_some() {
        return out.push_str(" a longer list");
    }
    write_reads(out, asked, nav.table().words().reads.get())
}

/// The answer of a row.
fn write_answer(
    alloc: Global,
    out: &mut String,
    nav: &Nav<'_, Counted>,
    asked: Asked<'_>,
) -> Result<(), AllocError> {
    let Some(along) = axis_of(asked.axis) else {
        return out.push_str("no such axis");
    };
    let Some(node) = nav.table().node_at(asked.at) else {
        return out.push_str("no node");
    };
    let test = test_of(asked.test);
    let list = list_nodes(alloc, out, nav, node, asked, along, &test)?;
    follow_nodes(out, nav, node, asked, along, &test, &list.held)
}

/// The answer of a table of reads.
pub fn answer(alloc: Global, out: &mut String, given: &[u8], input: &str) -> Result<(), AllocError>
    requires { length given.now < 2 ^ 30 }
{
    let Ok(doc) = build(alloc, given.to_vec(alloc)?) else {
        return out.push_str("refused");
    };
    let (bytes, words) = doc.into_parts();
    let reads = Cell::new(0);
    let counted = Counted { words, reads };
    let nav = Nav::of(Table::of(&bytes, &counted));
    write_answer(alloc, out, &nav, read_row(input))
}
