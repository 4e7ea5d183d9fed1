//! Runs over objects in memory, and what they leave.

ghost use Rattle.std.specs.Prelude.{◌≡◌, ◌<◌, None, IfOk};

use memchr::memchr;
use std::alloc::{AllocError, Global};
use vtd_outside::{MemoryFiles, MemorySink, MemorySource};
use vtd_running::{Status, run};
use xml_model::NoMemory;

/// What a run is handed.
#[derive(Clone, Copy, PartialEq)]
pub enum Object {
    /// The script.
    Script,
    /// Standard output.
    Out,
    /// Standard error.
    Err,
    /// The files.
    Files,
}

/// The one call of one object that fails, and the most bytes that one call moves.
#[derive(Clone, Copy)]
pub struct Plan {
    /// The object and the number of its call, if one is to fail.
    pub failing: Option<(Object, u32)>,
    /// The most bytes.
    pub piece: usize,
    ghost some: { 0 < piece },
}

/// What a run left.
#[derive(Drop)]
pub struct Left {
    /// How it ended.
    pub status: Status,
    /// What standard output took.
    pub out: MemorySink,
    /// What standard error took.
    pub err: MemorySink,
    /// The files.
    pub files: MemoryFiles,
}

/// Room for what a run writes.
const ROOM: u64 = 65_536;

/// The bytes of the file `g`.
const OTHER: &[u8] = b"<g><h/></g>";

/// The bytes of the file `bad`, which is no document.
const BAD: &[u8] = b"<g></h>";

/// The numbers of the calls of an object that fail.
fn failing_of(alloc: Global, plan: Plan, object: Object) -> Result<Vec<u32>, AllocError> {
    match plan.failing {
        Some((failing, call)) if failing == object => [call].to_vec(alloc),
        _ => Ok(Vec::new(alloc)),
    }
}

/// Words that are written with single spaces between them; `""` is the empty word.
fn words_in(alloc: Global, words: &str) -> Result<Vec<String>, AllocError> {
    let mut all = Vec::new(alloc);
    if words.is_empty() {
        return Ok(all);
    }
    for word in words.split(" ") {
        let word = if word == "\"\"" { "" } else { word };
        all.push(String::from_str(alloc, word)?)?;
    }
    Ok(all)
}

fn sink_of(alloc: Global, plan: Plan, object: Object) -> Result<MemorySink, AllocError> {
    let mut sink = MemorySink::new(alloc, failing_of(alloc, plan, object)?, plan.piece);
    match sink.reserve(ROOM) {
        Ok(()) => Ok(sink),
        Err(NoMemory) => Err(AllocError),
    }
}

/// The file `doc` with these bytes, the files `g` and `bad`, and room for a file `f`.
fn files_of(alloc: Global, doc: &[u8], plan: Plan) -> Result<MemoryFiles, AllocError>
    ensures not_read { IfOk result (λ files. files.opened ≡ None) }
    ensures not_written { IfOk result (λ files. files.writing ≡ None) }
{
    let failing = failing_of(alloc, plan, Object::Files)?;
    let mut files = MemoryFiles::new(alloc, failing, plan.piece);
    if files.put("doc", doc.to_vec(alloc)?).is_err() {
        return Err(AllocError);
    }
    if files.put("g", OTHER.to_vec(alloc)?).is_err() {
        return Err(AllocError);
    }
    if files.put("bad", BAD.to_vec(alloc)?).is_err() {
        return Err(AllocError);
    }
    match files.prepare("f", ROOM) {
        Ok(()) => Ok(files),
        Err(NoMemory) => Err(AllocError),
    }
}

/// Runs beside these files.
fn run_beside(
    alloc: Global,
    words: &str,
    mut files: MemoryFiles,
    script: Vec<u8>,
    plan: Plan,
) -> Result<Left, AllocError>
    requires { files.writing ≡ None }
{
    let words = words_in(alloc, words)?;
    let failing = failing_of(alloc, plan, Object::Script)?;
    let mut script = MemorySource::new(script, failing, plan.piece);
    let mut out = sink_of(alloc, plan, Object::Out)?;
    let mut err = sink_of(alloc, plan, Object::Err)?;
    let status = run(alloc, &words, &mut files, &mut script, &mut out, &mut err);
    Ok(Left {
        status,
        out,
        err,
        files,
    })
}

/// Runs over the file `doc` with these bytes, beside those of `files_of`.
pub fn run_over(
    alloc: Global,
    words: &str,
    doc: &[u8],
    script: Vec<u8>,
    plan: Plan,
) -> Result<Left, AllocError> {
    let files = files_of(alloc, doc, plan)?;
    run_beside(alloc, words, files, script, plan)
}

/// A plan by which nothing fails.
pub fn plain(piece: usize) -> Plan
    requires { 0 < piece }
{
    Plan {
        failing: None,
        piece,
    }
}

/// The number of the status, what standard output took, and after a mark what standard error did.
fn write_left(out: &mut String, left: &Left) -> Result<(), AllocError> {
    write!(out, "{}", left.status.number())?;
    let printed = left.out.taken();
    if !printed.is_empty() {
        out.push_str(" ")?;
        out.push_str(str::from_utf8(printed).unwrap_or("?"))?;
    }
    let said = left.err.taken();
    if !said.is_empty() {
        out.push_str(" ! ")?;
        out.push_str(str::from_utf8(said).unwrap_or("?"))?;
    }
    Ok(())
}

/// What a script leaves.
pub fn answer(
    alloc: Global,
    out: &mut String,
    words: &str,
    doc: &[u8],
    script: &[u8],
) -> Result<(), AllocError> {
    let left = run_over(alloc, words, doc, script.to_vec(alloc)?, plain(7))?;
    write_left(out, &left)
}

/// The index file of a document, as a run writes it.
fn index_of(alloc: Global, doc: &[u8]) -> Result<Vec<u8>, AllocError> {
    let left = run_over(alloc, "doc", doc, b"index\tf".to_vec(alloc)?, plain(4096))?;
    left.files.bytes_of("f").unwrap_or(b"").to_vec(alloc)
}

/// Turns the lowest bit at a place, where that is there.
fn flip(bytes: &mut Vec<u8>, at: usize) {
    if let Some(slot) = bytes.get_mut(at) {
        *slot = *slot ^ 1;
    }
}

/// Puts a byte in place of the one at a place, where that is there; both are numbers, with a space between them.
fn set(bytes: &mut Vec<u8>, numbers: &str) {
    let (at, byte) = numbers.split_once(" ").unwrap_or((numbers, ""));
    let at = at.parse::<usize>().unwrap_or(usize::MAX);
    if let Some(slot) = bytes.get_mut(at) {
        *slot = byte.parse::<u8>().unwrap_or(*slot);
    }
}

/// A file that is cut off at a length, has another lowest bit or another byte at a place, or has a zero more, as words
/// say; other words leave it as it is.
fn changed_file(alloc: Global, file: &[u8], how: &str) -> Result<Vec<u8>, AllocError> {
    let mut bytes = file.to_vec(alloc)?;
    let (word, number) = how.split_once(" ").unwrap_or((how, ""));
    let at = number.parse::<usize>().unwrap_or(usize::MAX);
    match word {
        "cut" => bytes.truncate(at),
        "flip" => flip(&mut bytes, at),
        "set" => set(&mut bytes, number),
        "add" => bytes.push(0)?,
        _ => {}
    }
    Ok(bytes)
}

/// What a script leaves, where the file `doc` is the index file of the document, changed as the words before `; ` say.
pub fn answer_indexed(
    alloc: Global,
    out: &mut String,
    words: &str,
    doc: &[u8],
    script: &[u8],
) -> Result<(), AllocError> {
    let (how, words) = words.split_once("; ").unwrap_or(("", words));
    let file = changed_file(alloc, &index_of(alloc, doc)?, how)?;
    let left = run_over(alloc, words, &file, script.to_vec(alloc)?, plain(7))?;
    write_left(out, &left)
}

/// What a script leaves, where the file `doc` is the given one, changed as the words before `; ` say.
pub fn answer_filed(
    alloc: Global,
    out: &mut String,
    words: &str,
    file: &[u8],
    script: &[u8],
) -> Result<(), AllocError> {
    let (how, words) = words.split_once("; ").unwrap_or(("", words));
    let file = changed_file(alloc, file, how)?;
    let left = run_over(alloc, words, &file, script.to_vec(alloc)?, plain(7))?;
    write_left(out, &left)
}

/// What a script leaves, where the file `h` is the index file of the document, changed as the words before `; ` say.
pub fn answer_loads(
    alloc: Global,
    out: &mut String,
    words: &str,
    doc: &[u8],
    script: &[u8],
) -> Result<(), AllocError> {
    let (how, words) = words.split_once("; ").unwrap_or(("", words));
    let file = changed_file(alloc, &index_of(alloc, doc)?, how)?;
    let mut files = files_of(alloc, doc, plain(7))?;
    if files.put("h", file).is_err() {
        return Err(AllocError);
    }
    let left = run_beside(alloc, words, files, script.to_vec(alloc)?, plain(7))?;
    write_left(out, &left)
}

/// A file where it is there, after a mark.
fn write_file(out: &mut String, left: &Left, name: &str) -> Result<(), AllocError> {
    if let Some(bytes) = left.files.bytes_of(name) {
        let text = str::from_utf8(bytes).unwrap_or("?");
        write!(out, " | {name} {text}")?;
    }
    Ok(())
}

/// What a script leaves, with the files `doc` and `f`.
pub fn answer_files(
    alloc: Global,
    out: &mut String,
    words: &str,
    doc: &[u8],
    script: &[u8],
) -> Result<(), AllocError> {
    let left = run_over(alloc, words, doc, script.to_vec(alloc)?, plain(7))?;
    write_left(out, &left)?;
    write_file(out, &left, "doc")?;
    write_file(out, &left, "f")
}

/// So many line feeds.
fn feeds(alloc: Global, count: u32) -> Result<Vec<u8>, AllocError> {
    let mut script = Vec::new(alloc);
    for _ in 0..count {
        script.push(b'\n')?;
    }
    Ok(script)
}

/// What a script of so many line feeds leaves.
pub fn answer_feeds(
    alloc: Global,
    out: &mut String,
    words: &str,
    doc: &[u8],
    count: &[u8],
) -> Result<(), AllocError> {
    let count = str::from_utf8(count).unwrap_or("0");
    let script = feeds(alloc, count.parse::<u32>().unwrap_or(0))?;
    let left = run_over(alloc, words, doc, script, plain(65_536))?;
    write_left(out, &left)
}

/// The document with the byte at a place changed, as they are written with a space between them.
fn changed(alloc: Global, doc: &[u8], change: &[u8]) -> Result<Vec<u8>, AllocError> {
    let mut doc = doc.to_vec(alloc)?;
    let Some((place, [byte])) = split_at_space(change) else {
        return Ok(doc);
    };
    let place = str::from_utf8(place).unwrap_or("0");
    if let Some(slot) = doc.get_mut(place.parse::<usize>().unwrap_or(0)) {
        *slot = *byte;
    }
    Ok(doc)
}

/// What stands before the first space, and after it.
fn split_at_space(bytes: &[u8]) -> Option<(&[u8], &[u8])> {
    match memchr(b' ', bytes) {
        Some(at) => Some((&bytes[..at], &bytes[at + 1..])),
        None => None,
    }
}

/// What the line `elements` leaves over a changed document.
pub fn answer_changed(
    alloc: Global,
    out: &mut String,
    words: &str,
    doc: &[u8],
    change: &[u8],
) -> Result<(), AllocError> {
    let doc = changed(alloc, doc, change)?;
    answer(alloc, out, words, &doc, b"elements")
}
