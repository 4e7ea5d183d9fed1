//! The edge to the system: what it gives and takes, and that the counts rise exactly where a call fails.

use super::{Input, Output, SystemFiles};
use std::io::{BufWriter, Cursor, PipeReader, pipe};
use std::test::Fail;
use std::{fs, process};
use vtd_outside::{Failed, Files, Sink, Source, append_all};

#[test]
fn input(rt: HostRuntime) -> Result<(), Fail> {
    let mut piece = [0u8; 2];
    let mut input = Input::new(Cursor::new(b"abc".as_slice()));
    assert_eq!(rt; input.read(&mut piece), Ok(2));
    assert_eq!(rt; piece, *b"ab");
    assert_eq!(rt; input.read(&mut piece), Ok(1));
    assert_eq!(rt; input.read(&mut piece), Ok(0));
    assert_eq!(rt; input.faults, 0);
    // A directory can be opened, and not read.
    let mut input = Input::new(fs::File::open(&rt, "/")?);
    assert_eq!(rt; input.read(&mut piece), Err(Failed));
    assert_eq!(rt; input.faults, 1);
    Ok(())
}

#[test]
fn output(rt: HostRuntime) -> Result<(), Fail> {
    let mut room = [0u8; 2];
    let mut output = Output::new(room.as_mut_slice());
    assert_eq!(rt; output.write(b"abc"), Ok(2));
    assert_eq!(rt; output.faults, 0);
    assert_eq!(rt; output.write(b"c"), Err(Failed));
    assert_eq!(rt; output.faults, 1);
    Ok(())
}

#[test]
fn closed_pipes(rt: HostRuntime) -> Result<(), Fail> {
    let (reader, writer) = pipe(&rt)?;
    drop::<PipeReader>(reader);
    let mut output = Output::new(writer);
    assert_eq!(rt; output.write(b"abc"), Err(Failed));
    assert_eq!(rt; output.faults, 1);
    // The buffer takes the bytes, and the pipe refuses them at the flush.
    let (reader, writer) = pipe(&rt)?;
    let mut output = Output::new(BufWriter::new(rt.alloc(), writer)?);
    assert_eq!(rt; output.write(b"abc"), Ok(3));
    assert_eq!(rt; output.faults, 0);
    drop::<PipeReader>(reader);
    assert_eq!(rt; output.write(b"abc"), Err(Failed));
    assert_eq!(rt; output.faults, 1);
    Ok(())
}

#[test]
fn system_files(rt: HostRuntime) -> Result<(), Fail> {
    let name = format!(in rt.alloc(); "/tmp/vtd_adapters_{}", process::id(rt.process()))?;
    fs::write(&rt, name.as_str(), "abc")?;
    let mut files = SystemFiles::new(&rt);
    let mut piece = [0u8; 2];
    files.begin_read(&name)?;
    assert_eq!(rt; files.read(&mut piece)?, 2);
    assert_eq!(rt; piece, *b"ab");
    assert_eq!(rt; files.read(&mut piece)?, 1);
    assert_eq!(rt; files.read(&mut piece)?, 0);
    assert_eq!(rt; files.faults, 0);
    fs::remove_file(&rt, name.as_str())?;
    assert_eq!(rt; files.begin_read(&name), Err(Failed));
    assert_eq!(rt; files.faults, 1);
    // A directory can be opened, and not read.
    files.begin_read("/")?;
    assert_eq!(rt; files.read(&mut piece), Err(Failed));
    assert_eq!(rt; files.faults, 2);
    Ok(())
}

#[test]
fn written_files(rt: HostRuntime) -> Result<(), Fail> {
    let name = format!(in rt.alloc(); "/tmp/vtd_written_{}", process::id(rt.process()))?;
    fs::write(&rt, name.as_str(), "longer than what is written")?;
    let mut files = SystemFiles::new(&rt);
    // The file is empty at once, and holds what was added.
    files.begin_write(&name)?;
    assert_eq!(rt; fs::read_to_string(&rt, name.as_str())?.as_str(), "");
    assert_eq!(rt; append_all(&mut files, b"ab"), Ok(()));
    assert_eq!(rt; append_all(&mut files, b"c"), Ok(()));
    files.finish()?;
    assert_eq!(rt; fs::read_to_string(&rt, name.as_str())?.as_str(), "abc");
    assert_eq!(rt; files.faults, 0);
    fs::remove_file(&rt, name.as_str())?;
    // There is no such folder, a folder is no file, and a full device takes nothing.
    assert_eq!(rt; files.begin_write("/no such folder/f"), Err(Failed));
    assert_eq!(rt; files.begin_write("/"), Err(Failed));
    assert_eq!(rt; files.faults, 2);
    files.begin_write("/dev/full")?;
    assert_eq!(rt; append_all(&mut files, b"abc"), Err(Failed));
    assert_eq!(rt; files.faults, 3);
    // A file that no one may write refuses to be begun, or refuses the bytes.
    if files.begin_write("/proc/version").is_ok() {
        assert_eq!(rt; append_all(&mut files, b"abc"), Err(Failed));
    }
    assert_eq!(rt; files.faults, 4);
    Ok(())
}
