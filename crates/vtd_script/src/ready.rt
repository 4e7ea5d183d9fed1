//! What the first part of a command leaves to the second.

use crate::refusals::Refusal;
use vtd_builder::Doc;
use vtd_index::Opened;
use xml_model::{Bytes, Text};

/// A change that is still to be made.
#[derive(Drop)]
pub enum Change {
    /// None: nothing changes, or it is done.
    Nothing,
    /// The file of this name is to take the new bytes of the session.
    File {
        /// The name.
        name: Text,
    },
    /// The file of this name is to take the index file of the document.
    Index {
        /// The name.
        name: Text,
    },
}

/// A command whose first part is over: the change that is left, and the lines to be sent after it.
#[derive(Drop)]
pub struct Ready {
    /// The change.
    pub change: Change,
    /// The lines.
    pub lines: Bytes,
}

/// A document that was built, and the line that says so.
#[derive(Drop)]
pub struct Built {
    /// The document.
    pub document: Doc,
    /// The line.
    pub lines: Bytes,
}

/// A document that was read, and the line that says so.
#[derive(Drop)]
pub struct Made {
    /// The document.
    pub document: Opened,
    /// The line.
    pub lines: Bytes,
}

/// Why a command has no second part.
#[derive(Clone, Copy)]
pub enum Stop {
    /// It is refused.
    Refused(Refusal),
    /// A file is not there, or could not be read.
    File,
    /// Memory was not to be had.
    NoMemory,
}
