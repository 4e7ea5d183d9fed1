//! How a run ends.

ghost use Rattle.std.specs.Prelude.{◌≡◌};
ghost use Rattle.vtd_running.specs.Statuses.{status_number, status_of};

use vtd_script::End;

/// How a run ends.
#[derive(Clone, Copy, Debug, PartialEq, Eq)]
pub enum Status {
    /// Every command was carried out.
    Done,
    /// The document, the script or a command was refused, and one line said so; with `-k` one line for each such
    /// command.
    Refused,
    /// The words are not of the form, and the usage line was sent.
    Usage,
    /// The script could not be read to its end.
    ReadFault,
    /// What was to be sent could not be, or only a prefix of it.
    WriteFault,
    /// The document or a file that a command names is not there, or could not be read or written.
    FileFault,
    /// There was no memory.
    NoMemory,
}

impl Status {
    /// The number with which the program ends.
    pub fn number(self) -> u8
        ensures { result ≡ status_number self }
    {
        match self {
            Status::Done => 0,
            Status::Refused => 1,
            Status::Usage => 2,
            Status::ReadFault => 3,
            Status::WriteFault => 4,
            Status::FileFault => 5,
            Status::NoMemory => 6,
        }
    }
}

/// The status with which a run over a script ends.
pub fn status_of(end: End) -> Status
    ensures { result ≡ status_of end }
{
    match end {
        End::Done => Status::Done,
        End::Stopped => Status::Refused,
        End::WriteFault => Status::WriteFault,
        End::FileFault => Status::FileFault,
        End::NoMemory => Status::NoMemory,
    }
}
