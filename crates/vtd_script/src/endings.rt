//! How a line of a script was carried out, and how a run over many lines ends.

use crate::refusals::Refusal;

/// How a line was carried out.
#[derive(Clone, Copy, Debug, PartialEq, Eq)]
pub enum Ending {
    /// It is empty.
    Skipped,
    /// Its command was carried out.
    Done,
    /// It was refused, and one line said so.
    Refused(Refusal),
}

/// Why a line was not carried out to its end.
#[derive(Clone, Copy, Debug, PartialEq, Eq)]
pub enum StepFault {
    /// A file is not there, or could not be read or written.
    File,
    /// What was to be sent could not be, or only a prefix of it.
    Write,
    /// Memory was not to be had.
    NoMemory,
}

/// How the carrying out of the lines of a script ends.
#[derive(Clone, Copy, Debug, PartialEq, Eq)]
pub enum End {
    /// Every command was carried out.
    Done,
    /// A command was refused. Where refused commands are passed over, the commands after it were carried out.
    Stopped,
    /// What was to be sent could not be, or only a prefix of it.
    WriteFault,
    /// A file is not there, or could not be read or written.
    FileFault,
    /// Memory was not to be had.
    NoMemory,
}
