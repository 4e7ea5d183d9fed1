//! The edge: files, standard input, standard output and standard error of the system, each with a count of faults.
//! They say nothing of the bytes.

ghost use Rattle.std.specs.Prelude.{◌≡◌, ℕ, ◌+◌, ◌<◌, ◌≤◌, Bool, true, false, List, Option, None, length, IfOk, OnOk};
ghost use Rattle.std.specs.Prelude.{OnErr, is_none};

use std::fs::File;
use std::io::{Read, Write};
use std::rt::Files as Runtime;
use vtd_outside::{Failed, Files, Sink, Source};

/// The bytes of a reader of the system, standard input in `main`. Each read that fails counts as a fault.
#[derive(Drop)]
pub struct Input<R> {
    inner: R,
    faults: u64,
}

impl<R> Input<R> {
    /// No fault so far.
    pub fn new(inner: R) -> Input<R>
        ensures { result.faults ≡ 0 }
    {
        Input { inner, faults: 0 }
    }
}

impl<R: Read> Source for Input<R> {
    ghost left = { λ _. None };

    ghost faults = { λ s. s.faults };

    fn read(&mut self, into: &mut [u8]) -> Result<usize, Failed> {
        match self.inner.read(into) {
            Ok(count) => Ok(count),
            Err(_) => {
                self.faults = self.faults.saturating_add(1);
                Err(Failed)
            }
        }
    }
}

/// A writer of the system, standard output or standard error in `main`. It flushes after each write; a refused flush
/// counts as a fault, and so does a write that takes nothing of a nonempty piece.
#[derive(Drop)]
pub struct Output<W> {
    inner: W,
    faults: u64,
}

impl<W> Output<W> {
    /// No fault so far.
    pub fn new(inner: W) -> Output<W>
        ensures { result.faults ≡ 0 }
    {
        Output { inner, faults: 0 }
    }
}

impl<W: Write> Sink for Output<W> {
    ghost taken = { λ _. None };

    ghost faults = { λ s. s.faults };

    fn write(&mut self, bytes: &[u8]) -> Result<usize, Failed> {
        if let Ok(count) = self.inner.write(bytes) {
            if (count > 0 || bytes.is_empty()) && self.inner.flush().is_ok() {
                return Ok(count);
            }
        }
        self.faults = self.faults.saturating_add(1);
        Err(Failed)
    }
}

/// The files of the system. One at a time is read or written; each call that fails counts as a fault.
///
/// A file that is begun to be written is emptied at once, so a write that fails leaves a prefix of the new bytes there.
#[derive(Drop)]
pub struct SystemFiles<'r, R: Runtime> {
    rt: &'r R,
    reading: Option<R::File>,
    writing: Option<R::File>,
    faults: u64,
}

impl<'r, R: Runtime> SystemFiles<'r, R> {
    /// No file is being read or written, and there was no fault so far.
    pub fn new(rt: &'r R) -> SystemFiles<'r, R>
        ensures faults { result.faults ≡ 0 }
        ensures not_writing { is_none result.writing ≡ true }
    {
        SystemFiles {
            rt,
            reading: None,
            writing: None,
            faults: 0,
        }
    }
}

impl<'r, R: Runtime> Files for SystemFiles<'r, R> {
    ghost use Rattle.std.specs.Prelude.{is_some, refl};

    ghost seen = { λ s. record {
      contents = None;
      opened = None;
      writing = None;
      is_reading = is_some s.reading;
      is_writing = is_some s.writing;
      missed = 0;
      proper = s.faults;
    } };

    ghost reading_known = { λ s known. absurd Prim.cc };

    ghost writing_known = { λ s known. absurd Prim.cc };

    ghost missed_known = { λ s unknown. refl };

    fn begin_read(&mut self, name: &str) -> Result<(), Failed> {
        self.reading = None;
        match File::open(self.rt, name) {
            Ok(file) => {
                self.reading = Some(file);
                Ok(())
            }
            Err(_) => {
                self.faults = self.faults.saturating_add(1);
                Err(Failed)
            }
        }
    }

    fn read(&mut self, into: &mut [u8]) -> Result<usize, Failed> {
        if let Some(file) = &mut self.reading {
            if let Ok(count) = file.read(into) {
                return Ok(count);
            }
        }
        self.reading = None;
        self.faults = self.faults.saturating_add(1);
        Err(Failed)
    }

    fn begin_write(&mut self, name: &str) -> Result<(), Failed> {
        self.reading = None;
        match File::create(self.rt, name) {
            Ok(file) => {
                self.writing = Some(file);
                Ok(())
            }
            Err(_) => {
                self.faults = self.faults.saturating_add(1);
                Err(Failed)
            }
        }
    }

    fn append(&mut self, bytes: &[u8]) -> Result<usize, Failed> {
        if let Some(file) = &mut self.writing {
            if let Ok(count) = file.write(bytes) {
                if count > 0 || bytes.is_empty() {
                    return Ok(count);
                }
            }
        }
        self.writing = None;
        self.faults = self.faults.saturating_add(1);
        Err(Failed)
    }

    fn finish(&mut self) -> Result<(), Failed> {
        if let Some(file) = &mut self.writing {
            if file.flush().is_ok() {
                self.writing = None;
                return Ok(());
            }
        }
        self.writing = None;
        self.faults = self.faults.saturating_add(1);
        Err(Failed)
    }
}

#[cfg(test)]
mod tests;
