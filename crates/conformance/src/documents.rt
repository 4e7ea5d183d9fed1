//! Whole documents: whether they are accepted and with how many records, where they are refused, and their records.

ghost use Rattle.std.specs.Prelude.{◌≡◌, ◌==◌, ◌&&◌, ◌<◌, ◌≤◌, ◌^◌, length, nat_lt, not, take, slice_index, []};

use crate::tags::tag_of;
use std::alloc::{AllocError, Global};
use vtd_builder::{BuildFault, Doc, RecordSink, build, check, emit};
use vtd_words::{Counts, Part, Parts, WordVec, WordView, Words, pack, unpack};
use xml_model::{DocFault, Field};

/// All parts of words.
const PARTS: [Part; 6] = [
    Part::Records,
    Part::Level1,
    Part::Level2,
    Part::Level3,
    Part::Level4,
    Part::Level5,
];

/// The word of a refusal, and its place.
fn fault_parts(fault: DocFault) -> (&'static str, u32) {
    match fault {
        DocFault::Utf8 { at } => ("utf8", at),
        DocFault::Syntax { at } => ("syntax", at),
        DocFault::Entity { at } => ("entity", at),
        DocFault::Encoding { at } => ("encoding", at),
        DocFault::Nesting { at } => ("nesting", at),
        DocFault::Depth { at } => ("depth", at),
        DocFault::Width { field, at } => (width_word(field), at),
        DocFault::Twice { at } => ("twice", at),
        DocFault::Namespace { at } => ("namespace", at),
    }
}

fn width_word(field: Field) -> &'static str {
    match field {
        Field::Token => "width token",
        Field::Name => "width name",
        Field::Prefix => "width prefix",
    }
}

fn write_fault(out: &mut String, fault: DocFault) -> Result<(), AllocError> {
    let (word, at) = fault_parts(fault);
    write!(out, "{word} {at}")
}

/// The number of records, or the refusal.
fn write_check(out: &mut String, bytes: &[u8]) -> Result<(), AllocError>
    requires { length bytes.now < 2 ^ 30 }
{
    match check(bytes) {
        Ok(counts) => write!(out, "{}", counts.records),
        Err(fault) => write_fault(out, fault),
    }
}

/// The lengths of the prefixes that are documents.
fn write_prefixes(out: &mut String, bytes: &[u8]) -> Result<(), AllocError>
    requires { length bytes.now < 2 ^ 30 }
{
    for end in 0..bytes.len() {
        if check(&bytes[..end]).is_ok() {
            write!(out, "{end};")?;
        }
    }
    Ok(())
}

/// The document of the bytes, or why there is none, with the bytes that came back.
pub fn built(alloc: Global, bytes: &[u8]) -> Result<Result<Doc, (Vec<u8>, BuildFault)>, AllocError>
    requires { length bytes.now < 2 ^ 30 }
{
    let bytes = bytes.to_vec(alloc)?;
    Ok(build(alloc, bytes))
}

/// Whether a document is accepted and keeps its bytes, or the refusal, with which the bytes come back.
fn write_build(alloc: Global, out: &mut String, bytes: &[u8]) -> Result<(), AllocError>
    requires { length bytes.now < 2 ^ 30 }
{
    let same = match built(alloc, bytes)? {
        Ok(doc) => {
            out.push_str("accepted")?;
            doc.bytes() == bytes
        }
        Err((back, fault)) => {
            match fault {
                BuildFault::Doc(fault) => write_fault(out, fault)?,
                BuildFault::NoMemory => out.push_str("no memory")?,
            }
            back.as_slice() == bytes
        }
    };
    if same {
        return Ok(());
    }
    out.push_str(" with other bytes")
}

/// The same of the document of one tag that a text asks for.
fn write_build_of_names(alloc: Global, out: &mut String, text: &str) -> Result<(), AllocError> {
    let made = tag_of(alloc, text)?;
    if made.len() >= 1 << 30 {
        return out.push_str("too long");
    }
    write_build(alloc, out, made.as_bytes())
}

/// The words of a part, in hexadecimal digits.
fn write_words<W: Words>(out: &mut String, words: &W, part: Part) -> Result<(), AllocError> {
    for at in 0..words.len(part) {
        let word = words.word(part, at);
        write!(out, "{word:016x};")?;
    }
    Ok(())
}

fn write_records(alloc: Global, out: &mut String, bytes: &[u8]) -> Result<(), AllocError>
    requires { length bytes.now < 2 ^ 30 }
{
    match built(alloc, bytes)? {
        Ok(doc) => write_words(out, doc.words(), Part::Records),
        Err(_) => out.push_str("refused"),
    }
}

/// Compares words with those that are wanted.
#[derive(Drop)]
struct Comparer<'a> {
    wanted: &'a [u64],
    at: usize,
    ghost within: { at ≤ length wanted.now },
}

impl<'a> RecordSink for Comparer<'a> {
    ghost taken = { λ s. take s.at s.wanted.now };

    ghost rest = { λ s. [] };

    ghost refuses = { λ s. λ taken word.
        not (nat_lt (length taken) (length s.wanted.now) && slice_index s.wanted.now (length taken) == word) };

    fn take(&mut self, word: u64) -> bool {
        if self.at < self.wanted.len() && self.wanted[self.at] == word {
            self.at += 1;
            true
        } else {
            false
        }
    }
}

/// The words that are written in hexadecimal digits, each with a semicolon after it.
fn words_in(alloc: Global, input: &str) -> Result<Vec<u64>, AllocError> {
    let mut words = Vec::new(alloc);
    for digits in input.split(";") {
        if let Ok(word) = u64::from_str_radix(digits, 16) {
            words.push(word)?;
        }
    }
    Ok(words)
}

/// What `emit` answers where these words are wanted, and how many of them came.
fn write_emission(out: &mut String, bytes: &[u8], wanted: &[u64]) -> Result<(), AllocError>
    requires { length bytes.now < 2 ^ 30 }
{
    if check(bytes).is_err() {
        return out.push_str("refused");
    }
    let mut sink = Comparer { wanted, at: 0 };
    match emit(bytes, &mut sink) {
        Ok(()) => out.push_str("all")?,
        Err(number) => write!(out, "up to {number}")?,
    }
    write!(out, ", {} taken", sink.at)
}

/// The parts of a record that are written as five numbers.
fn parts_in(input: &str) -> Option<Parts> {
    let mut numbers = input.split(" ");
    let token = numbers.next()?.parse::<u8>().ok()?;
    let depth = numbers.next()?.parse::<u8>().ok()?;
    let prefix = numbers.next()?.parse::<u32>().ok()?;
    let length = numbers.next()?.parse::<u32>().ok()?;
    let offset = numbers.next()?.parse::<u32>().ok()?;
    Some(Parts {
        token,
        depth,
        prefix,
        length,
        offset,
    })
}

/// The word of the parts, which is unpacked to the same parts.
fn write_packed(out: &mut String, input: &str) -> Result<(), AllocError> {
    let Some(parts) = parts_in(input) else {
        return out.push_str("no parts");
    };
    match pack(parts) {
        Some(word) if unpack(word) == parts => write!(out, "{word:016x}"),
        Some(_) => out.push_str("other parts"),
        None => out.push_str("none"),
    }
}

/// The lengths of six slices of zeros, written as numbers.
fn lengths_in(input: &str) -> Option<[usize; 6]> {
    let mut lengths = [0; 6];
    let mut numbers = input.split(" ");
    for length in &mut lengths {
        *length = numbers.next()?.parse::<usize>().ok()?;
    }
    Some(lengths)
}

/// So many bytes, or all of them.
fn first(bytes: &[u8], length: usize) -> &[u8] {
    &bytes[..length.min(bytes.len())]
}

/// Whether six slices of zeros with these lengths, up to 64, are words that can be read, and how many of each.
fn write_view(out: &mut String, input: &str) -> Result<(), AllocError> {
    let zeros = [0; 64];
    let Some(lengths) = lengths_in(input) else {
        return out.push_str("no lengths");
    };
    let Some(view) = WordView::of(
        first(&zeros, lengths[0]),
        first(&zeros, lengths[1]),
        first(&zeros, lengths[2]),
        first(&zeros, lengths[3]),
        first(&zeros, lengths[4]),
        first(&zeros, lengths[5]),
    ) else {
        return out.push_str("none");
    };
    for part in PARTS {
        write!(out, "{};", view.len(part))?;
    }
    Ok(())
}

/// Puts a word into each part, and writes how many each then has.
fn write_word_of_each(alloc: Global, out: &mut String) -> Result<(), AllocError> {
    let mut words = WordVec::new(alloc);
    let counts = Counts {
        records: 1,
        level1: 1,
        level2: 1,
        level3: 1,
        level4: 1,
        level5: 1,
    };
    if words.reserve(counts).is_err() {
        return Err(AllocError);
    }
    words.push(Part::Records, u64::MAX);
    words.push(Part::Level1, 1);
    words.push(Part::Level2, 2);
    words.push(Part::Level3, 3);
    words.push(Part::Level4, 4);
    words.push(Part::Level5, 5);
    for part in PARTS {
        write!(out, "{};", words.len(part))?;
    }
    Ok(())
}

/// The answer of a table of documents.
pub fn answer(
    alloc: Global,
    out: &mut String,
    table: &str,
    given: &[u8],
    input: &[u8],
) -> Result<(), AllocError>
    requires given { length given.now < 2 ^ 30 }
    requires input { length input.now < 2 ^ 30 }
{
    match table {
        "checked" => return write_check(out, input),
        "prefixes" => return write_prefixes(out, input),
        "built" => return write_build(alloc, out, input),
        "records" => return write_records(alloc, out, input),
        _ => (),
    }
    let Ok(text) = str::from_utf8(input) else {
        return out.push_str("no text");
    };
    match table {
        "emission" => {
            let wanted = words_in(alloc, text)?;
            write_emission(out, given, &wanted)
        }
        "of names" => write_build_of_names(alloc, out, text),
        "packed" => write_packed(out, text),
        "parts" => write_word_of_each(alloc, out),
        "view" => write_view(out, text),
        _ => out.push_str("no such table"),
    }
}
