//! Sources, sinks and files in memory, gathered from and sent to.

ghost use Rattle.std.specs.Prelude.{◌≡◌, ◌<◌, ◌≤◌, None, OnOk};

use std::alloc::{AllocError, Global};
use vtd_outside::{
    Failed, Files, GatherFault, MemoryFiles, MemorySink, MemorySource, append_all, gather_file,
    gather_source, send,
};

/// How an object in memory answers: the number of its call that fails, the most bytes of a call, and a cap or a room.
#[derive(Drop)]
struct Plan {
    failing: u32,
    piece: usize,
    cap: u32,
    ghost some: { 0 < piece },
    ghost low: { cap ≤ 1000 },
}

/// The plan that is written as three numbers.
fn plan_in(input: &str) -> Option<(Plan, &str)> {
    let (failing, rest) = input.split_once(" ")?;
    let (piece, rest) = rest.split_once(" ")?;
    let (cap, rest) = rest.split_once(" ")?;
    let failing = failing.parse::<u32>().ok()?;
    let piece = piece.parse::<usize>().ok()?.max(1);
    let cap = cap.parse::<u32>().ok()?.min(1000);
    Some((
        Plan {
            failing,
            piece,
            cap,
        },
        rest,
    ))
}

/// What was gathered, or why not.
fn write_gathered(
    out: &mut String,
    gathered: Result<Vec<u8>, GatherFault>,
) -> Result<(), AllocError> {
    match gathered {
        Ok(bytes) => out.push_str(str::from_utf8(&bytes).unwrap_or("?"))?,
        Err(fault) => write!(out, "{fault}")?,
    }
    out.push_str(";")
}

/// What a source gives to two gatherings in turn.
fn write_source(
    alloc: Global,
    out: &mut String,
    plan: Plan,
    bytes: &str,
) -> Result<(), AllocError> {
    let failing = [plan.failing].to_vec(alloc)?;
    let bytes = bytes.as_bytes().to_vec(alloc)?;
    let mut source = MemorySource::new(bytes, failing, plan.piece);
    write_gathered(out, gather_source(alloc, &mut source, plan.cap))?;
    write_gathered(out, gather_source(alloc, &mut source, plan.cap))
}

/// What a file gives to two gatherings in turn, and then one that is not there.
fn write_file(alloc: Global, out: &mut String, plan: Plan, bytes: &str) -> Result<(), AllocError> {
    let failing = [plan.failing].to_vec(alloc)?;
    let mut files = MemoryFiles::new(alloc, failing, plan.piece);
    if files.put("f", bytes.as_bytes().to_vec(alloc)?).is_err() {
        return Err(AllocError);
    }
    write_gathered(out, gather_file(alloc, &mut files, "f", plan.cap))?;
    write_gathered(out, gather_file(alloc, &mut files, "f", plan.cap))?;
    write_gathered(out, gather_file(alloc, &mut files, "g", plan.cap))
}

/// Puts files, written as `name=bytes`, and writes those that are asked for, as `name?`.
fn write_files(alloc: Global, out: &mut String, words: &str) -> Result<(), AllocError> {
    let mut files = MemoryFiles::new(alloc, Vec::new(alloc), 1);
    for word in words.split_whitespace() {
        if let Some((name, bytes)) = word.split_once("=") {
            if files.put(name, bytes.as_bytes().to_vec(alloc)?).is_err() {
                return Err(AllocError);
            }
        } else if let Some(name) = word.strip_suffix("?") {
            match files.bytes_of(name) {
                Some(bytes) => out.push_str(str::from_utf8(bytes).unwrap_or("?"))?,
                None => out.push_str("none")?,
            }
            out.push_str(";")?;
        }
    }
    Ok(())
}

/// Writes a file: begins it, adds a text and finishes it.
fn save(files: &mut MemoryFiles, name: &str, text: &str) -> Result<(), Failed>
    requires { files.old.writing ≡ None }
    ensures { files.new.writing ≡ None }
{
    if let Err(failed) = files.begin_write(name) {
        return Err(failed);
    }
    if let Err(failed) = append_all(files, text.as_bytes()) {
        return Err(failed);
    }
    files.finish()
}

/// Puts files, written as `name=bytes`, and makes room for others, `name:room`.
fn put_files(alloc: Global, files: &mut MemoryFiles, words: &str) -> Result<(), AllocError>
    requires not_read { files.old.opened ≡ None }
    requires not_written { files.old.writing ≡ None }
    ensures { OnOk result (files.new.writing ≡ None) }
{
    for word in words.split_whitespace() {
        if let Some((name, bytes)) = word.split_once("=") {
            if files.put(name, bytes.as_bytes().to_vec(alloc)?).is_err() {
                return Err(AllocError);
            }
        } else if let Some((name, room)) = word.split_once(":") {
            let room = room.parse::<u64>().unwrap_or(0);
            if files.prepare(name, room).is_err() {
                return Err(AllocError);
            }
        }
    }
    Ok(())
}

/// Puts files and makes room for others, and then writes files, `name>text`: how each of these went, and what the file
/// then holds.
fn write_writings(
    alloc: Global,
    out: &mut String,
    plan: Plan,
    words: &str,
) -> Result<(), AllocError> {
    let failing = [plan.failing].to_vec(alloc)?;
    let mut files = MemoryFiles::new(alloc, failing, plan.piece);
    put_files(alloc, &mut files, words)?;
    for word in words.split_whitespace() {
        if let Some((name, text)) = word.split_once(">") {
            match save(&mut files, name, text) {
                Ok(()) => out.push_str("written")?,
                Err(fault) => write!(out, "{fault}")?,
            }
            out.push_str(", ")?;
            match files.bytes_of(name) {
                Some(bytes) => out.push_str(str::from_utf8(bytes).unwrap_or("?"))?,
                None => out.push_str("none")?,
            }
            out.push_str(";")?;
        }
    }
    Ok(())
}

/// Sends a text, and writes how that went and all that the sink took.
fn write_sent(out: &mut String, sink: &mut MemorySink, text: &str) -> Result<(), AllocError> {
    match send(sink, text.as_bytes()) {
        Ok(()) => out.push_str("sent")?,
        Err(fault) => write!(out, "{fault}")?,
    }
    out.push_str(", ")?;
    out.push_str(str::from_utf8(sink.taken()).unwrap_or("?"))?;
    out.push_str(";")
}

/// Sends words in turn to a sink, and makes room for as many bytes as a number says.
fn write_sink(alloc: Global, out: &mut String, plan: Plan, words: &str) -> Result<(), AllocError> {
    let failing = [plan.failing].to_vec(alloc)?;
    let mut sink = MemorySink::new(alloc, failing, plan.piece);
    if sink.reserve(u64::from(plan.cap)).is_err() {
        return Err(AllocError);
    }
    for word in words.split_whitespace() {
        match word.parse::<u8>() {
            Ok(room) => {
                if sink.reserve(u64::from(room)).is_err() {
                    return Err(AllocError);
                }
            }
            Err(_) => write_sent(out, &mut sink, word)?,
        }
    }
    Ok(())
}

/// The answer of a table of objects.
pub fn answer(alloc: Global, out: &mut String, table: &str, input: &str) -> Result<(), AllocError> {
    if table == "names" {
        return write_files(alloc, out, input);
    }
    let Some((plan, rest)) = plan_in(input) else {
        return out.push_str("no plan");
    };
    match table {
        "sources" => write_source(alloc, out, plan, rest),
        "files" => write_file(alloc, out, plan, rest),
        "sinks" => write_sink(alloc, out, plan, rest),
        "writes" => write_writings(alloc, out, plan, rest),
        _ => out.push_str("no such table"),
    }
}
