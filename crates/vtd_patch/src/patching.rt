//! A node of a document that is set to a text.

ghost use Rattle.std.specs.Prelude.{◌≡◌, ◌⊎◌, ◌<◌, ◌≤◌, ◌^◌, ◌++◌, length, IfErr, IfOk, OnErr, OnOk};
ghost use Rattle.vtd_builder.specs.Documents.{IsDoc};
ghost use Rattle.vtd_builder.specs.Exchanges.{with_range};
ghost use Rattle.vtd_words.specs.Table.{ForEachEntry, IsNodeOf};
ghost use Rattle.vtd_patch.specs.Changes.{CanExchange, IsChange, IsIn};
ghost use Rattle.vtd_patch.specs.Patches.{IsRefusedFor, patched};

use crate::change::{Change, are_chars, change_of};
use crate::cutting::text_words;
use std::alloc::Global;
use vtd_builder::{BuildFault, Doc, build};
use xml_model::{DocFault, Kind, NoMemory, Node};

/// The most bytes of a document.
const MOST_BYTES: usize = 1_073_741_823;

/// Why a node was not set to a text.
#[derive(Clone, Copy, Debug, PartialEq, Eq)]
pub enum PatchFault {
    /// The new document would have more than 1,073,741,823 bytes.
    Long,
    /// The new document is refused.
    Doc(DocFault),
    /// Memory was not to be had.
    NoMemory,
}

/// Where the records of a text node end, and how many elements hold it.
#[derive(Clone, Copy)]
struct Run {
    past: u32,
    level: u32,
}

/// The run of a text node.
fn run_of(doc: &Doc, node: Node) -> Run
    requires { IsNodeOf doc.now.bytes doc.now.words node }
    ensures past { ForEachEntry doc.now.bytes doc.now.words node (λ nest e. result.past ≡ e.past) }
    ensures level { ForEachEntry doc.now.bytes doc.now.words node (λ nest e. result.level ≡ length e.holders) }
    ensures small { result.level ≤ 255 }
{
    let nav = doc.nav();
    Run {
        past: nav.table().end_of(node),
        level: nav.table().level_at(node),
    }
}

/// Puts bytes and words in the place of those of a run.
fn put_run(
    doc: &mut Doc,
    start: u32,
    end: u32,
    text: &[u8],
    first: u32,
    past: u32,
    words: &[u64],
) -> Result<(), PatchFault>
    requires { CanExchange doc.old.bytes doc.old.words start end text.now first past words.now }
    ensures bytes { OnOk result (doc.new.bytes ≡ with_range start end text.now doc.old.bytes) }
    ensures memory { IfErr result (λ fault. fault ≡ PatchFault.NoMemory) }
    ensures stays { OnErr result (doc.new ≡ doc.old) }
{
    match doc.exchange(start, end, text, first, past, words) {
        Ok(()) => Ok(()),
        Err(_) => Err(PatchFault::NoMemory),
    }
}

/// Sets a text node: the bytes and records of what is after it are moved, and nothing of the document is read but the
/// node's records.
fn set_text(
    alloc: Global,
    doc: &mut Doc,
    node: Node,
    change: &Change,
    text: &str,
) -> Result<(), PatchFault>
    requires document { IsDoc doc.old.bytes doc.old.words }
    requires node { IsNodeOf doc.old.bytes doc.old.words node }
    requires kind { node.kind ≡ Kind.Text }
    requires change { ForEachEntry doc.old.bytes doc.old.words node (λ nest e.
        IsChange doc.old.bytes text.now e change.now) }
    requires within { IsIn doc.old.bytes change.now }
    requires short { length (with_range change.now.start change.now.end change.now.text doc.old.bytes) < 2 ^ 30 }
    ensures bytes { OnOk result (doc.new.bytes
        ≡ with_range change.now.start change.now.end change.now.text doc.old.bytes) }
    ensures refused { IfErr result (IsRefusedFor
        (with_range change.now.start change.now.end change.now.text doc.old.bytes)) }
    ensures stays { OnErr result (doc.new ≡ doc.old) }
{
    if !are_chars(text) {
        return Err(PatchFault::Doc(DocFault::Syntax { at: change.start }));
    }
    let new = change.text.held.as_slice();
    let run = run_of(doc, node);
    let Ok(words) = text_words(alloc, run.level, change.start, new.len() as u32) else {
        return Err(PatchFault::NoMemory);
    };
    put_run(
        doc,
        change.start,
        change.end,
        new,
        node.at,
        run.past,
        words.as_slice(),
    )
}

/// Appends bytes.
fn append(out: &mut Vec<u8>, bytes: &[u8]) -> Result<(), NoMemory>
    ensures { OnOk result (out.new.items ≡ out.old.items ++ bytes.now) }
{
    out.extend_from_slice(bytes).map_err(|_| NoMemory)
}

/// The bytes with a change made.
fn changed(alloc: Global, bytes: &[u8], change: &Change) -> Result<Vec<u8>, NoMemory>
    requires { IsIn bytes.now change.now }
    ensures { IfOk result (λ out. out.items
        ≡ with_range change.now.start change.now.end change.now.text bytes.now) }
{
    let mut out = Vec::new(alloc);
    append(&mut out, &bytes[..change.start as usize])?;
    append(&mut out, change.text.held.as_slice())?;
    append(&mut out, &bytes[change.end as usize..])?;
    Ok(out)
}

/// Makes a change by building the document anew.
fn rebuild(alloc: Global, doc: &mut Doc, change: &Change) -> Result<(), PatchFault>
    requires within { IsIn doc.old.bytes change.now }
    requires short { length (with_range change.now.start change.now.end change.now.text doc.old.bytes) < 2 ^ 30 }
    ensures bytes { OnOk result (doc.new.bytes
        ≡ with_range change.now.start change.now.end change.now.text doc.old.bytes) }
    ensures refused { IfErr result (IsRefusedFor
        (with_range change.now.start change.now.end change.now.text doc.old.bytes)) }
    ensures stays { OnErr result (doc.new ≡ doc.old) }
{
    let Ok(bytes) = changed(alloc, doc.bytes(), change) else {
        return Err(PatchFault::NoMemory);
    };
    match build(alloc, bytes) {
        Ok(built) => {
            *doc = built;
            Ok(())
        }
        Err((_, BuildFault::Doc(fault))) => Err(PatchFault::Doc(fault)),
        Err((_, BuildFault::NoMemory)) => Err(PatchFault::NoMemory),
    }
}

/// How many bytes there are with a change made.
fn changed_length(bytes: &[u8], change: &Change) -> usize
    requires within { IsIn bytes.now change.now }
    requires short { length bytes.now < 2 ^ 30 }
    ensures { result ≡ length (with_range change.now.start change.now.end change.now.text bytes.now) }
{
    bytes.len() - (change.end - change.start) as usize + change.text.held.len()
}

/// Makes a change of a text node or an attribute.
fn make(
    alloc: Global,
    doc: &mut Doc,
    node: Node,
    change: &Change,
    text: &str,
) -> Result<(), PatchFault>
    requires document { IsDoc doc.old.bytes doc.old.words }
    requires node { IsNodeOf doc.old.bytes doc.old.words node }
    requires change { ForEachEntry doc.old.bytes doc.old.words node (λ nest e.
        IsChange doc.old.bytes text.now e change.now) }
    requires within { IsIn doc.old.bytes change.now }
    requires short { length (with_range change.now.start change.now.end change.now.text doc.old.bytes) < 2 ^ 30 }
    ensures bytes { OnOk result (doc.new.bytes
        ≡ with_range change.now.start change.now.end change.now.text doc.old.bytes) }
    ensures refused { IfErr result (IsRefusedFor
        (with_range change.now.start change.now.end change.now.text doc.old.bytes)) }
    ensures stays { OnErr result (doc.new ≡ doc.old) }
{
    match node.kind {
        Kind::Text => set_text(alloc, doc, node, change, text),
        _ => rebuild(alloc, doc, change),
    }
}

/// Sets a text node or an attribute to a text. It is escaped, and its bytes take the place of the node's text or value:
/// the document is then that of these bytes, with their records and levels. A text node is set for the price of moving
/// what is after it, of which nothing is read; for an attribute the document is built anew.
///
/// # Errors
/// `Long` exactly where the new document would have more than 1,073,741,823 bytes, and then `Doc` exactly where it is
/// refused, with its refusal; `NoMemory` may come in place of any other answer. The document is as before then.
pub fn patch(alloc: Global, doc: &mut Doc, node: Node, text: &str) -> Result<(), PatchFault>
    requires node { IsNodeOf doc.old.bytes doc.old.words node }
    requires kind { (node.kind ≡ Kind.Text) ⊎ (node.kind ≡ Kind.Attribute) }
    ensures patched { OnOk result (ForEachEntry doc.old.bytes doc.old.words node (λ nest e.
        doc.new.bytes ≡ patched doc.old.bytes text.now e)) }
    ensures refused { IfErr result (λ fault. ForEachEntry doc.old.bytes doc.old.words node (λ nest e.
        IsRefusedFor (patched doc.old.bytes text.now e) fault)) }
    ensures stays { OnErr result (doc.new ≡ doc.old) }
{
    let Ok(change) = change_of(alloc, &doc.nav(), node, text) else {
        return Err(PatchFault::NoMemory);
    };
    if changed_length(doc.bytes(), &change) > MOST_BYTES {
        return Err(PatchFault::Long);
    }
    make(alloc, doc, node, &change, text)
}
