//! What lies outside the program: where bytes come from, where they go, and files. Each is a trait with a count of
//! faults, so that a caller can be proved to fail only where something outside really failed. Beside the traits are
//! objects that hold all in memory, for tests and for whoever embeds the program, and the loops that take all bytes
//! of a source or a file, or give all bytes to a sink or a file.
//!
//! What an object holds is known or not, and no call changes which of the two it is. Clauses on bytes hold where it is
//! known: `left`, `taken` and `contents` are then `Some`.
#![tactic(auto)]

mod body;
mod calls;
mod file_list;
mod gather;
mod memory_files;
mod memory_sink;
mod memory_source;
mod sending;
mod writing;

ghost use Rattle.std.specs.Prelude.{◌≡◌, ℕ, ◌<◌, ◌≤◌, true, false, List, Option, None, length, IfOk, OnOk};
ghost use Rattle.std.specs.Prelude.{OnErr, IsSome, is_some};
ghost use Rattle.vtd_outside.specs.Causes.{HasCause, HasFileCause, is_missing};
ghost use Rattle.vtd_outside.specs.Known.{SeenFiles, Reads, Takes, Begins, ReadsFile, BeginsWrite};
ghost use Rattle.vtd_outside.specs.Known.{Appends, count_taken};

pub use gather::{gather_file, gather_source};
pub use memory_files::MemoryFiles;
pub use memory_sink::MemorySink;
pub use memory_source::MemorySource;
pub use sending::send;
use thiserror::Error;
pub use writing::append_all;

/// A call failed, and its object counted that.
#[derive(Clone, Copy, Debug, PartialEq, Eq, Error)]
#[error("the call failed")]
pub struct Failed;

/// Why not all bytes were gathered.
#[derive(Clone, Copy, Debug, PartialEq, Eq, Error)]
pub enum GatherFault {
    /// A call failed; the count of faults rose.
    #[error("a call failed")]
    Failed,
    /// There were more bytes than the cap; one more than it was taken.
    #[error("more bytes than the cap")]
    Long,
    /// Memory was not to be had.
    #[error("no memory")]
    NoMemory,
}

/// Where bytes come from.
///
/// `left` are the bytes that are left, where they are known; `faults` is the count of faults, which never falls.
pub trait Source {
    ghost left: { Self → Option (List ℕ) };

    ghost faults: { Self → ℕ };

    /// Puts the next bytes into the start of `into`, takes them and answers how many; after the prefix `into` stays,
    /// where bytes are known. For a nonempty `into` it answers 0 exactly at the end.
    ///
    /// # Errors
    /// `Failed` only where the count rose in this call. Nothing is taken then; what is in `into` is left open.
    fn read(&mut self, into: &mut [u8]) -> Result<usize, Failed>
        ensures bound { IfOk result (λ n. n ≤ length into.old) }
        ensures bytes { Reads (left self.old) (left self.new) into.old into.new result }
        ensures cause { HasCause (faults self.old) (faults self.new) result };
}

/// Where bytes go.
///
/// `taken` are the bytes that it took, where they are known; `faults` is the count of faults, which never falls.
pub trait Sink {
    ghost taken: { Self → Option (List ℕ) };

    ghost faults: { Self → ℕ };

    /// Takes the first bytes of `bytes` and answers how many, at least 1 for a nonempty piece.
    ///
    /// # Errors
    /// `Failed` only where the count rose in this call. Nothing is taken then.
    fn write(&mut self, bytes: &[u8]) -> Result<usize, Failed>
        ensures bound { IfOk result (λ n. n ≤ length bytes.now) }
        ensures moves { 0 < length bytes.now → IfOk result (λ n. 0 < n) }
        ensures taken { Takes (taken self.old) (taken self.new) bytes.now result }
        ensures cause { HasCause (faults self.old) (faults self.new) result };
}

/// Files by name, one of which may be read or written at a time.
///
/// `seen` is what contracts see of them: `contents` says which names are there and the bytes of each, where that is
/// known; `opened` is then the file being read, and `writing` the name of the file being written. Whether a file is
/// being read or written is known always. The count of faults is the sum of two that never fall: `missed` rises where a
/// name is known not to be there, `proper` at every other fault.
pub trait Files {
    ghost seen: { Self → SeenFiles };

    /// Begins to read the file of that name from its start. The file read before is closed.
    ///
    /// # Errors
    /// `Failed` where the name is not there, and otherwise only where the proper count rose. No file is being read
    /// then.
    fn begin_read(&mut self, name: &str) -> Result<(), Failed>
        requires { (seen self.old).is_writing ≡ false }
        ensures begins { Begins (seen self.old).contents name.now (seen self.new).opened result }
        ensures ok { OnOk result ((seen self.new).is_reading ≡ true) }
        ensures err { OnErr result ((seen self.new).is_reading ≡ false) }
        ensures files_stay { (seen self.new).contents ≡ (seen self.old).contents }
        ensures writing_stays { (seen self.new).is_writing ≡ (seen self.old).is_writing }
        ensures cause { HasFileCause (is_missing (seen self.old).contents name.now) (seen self.old).missed
            (seen self.new).missed (seen self.old).proper (seen self.new).proper result };

    /// Reads on in the file being read, as `Source::read` does. The same file is then still being read.
    ///
    /// # Errors
    /// `Failed` only where the proper count rose in this call. No file is being read then.
    fn read(&mut self, into: &mut [u8]) -> Result<usize, Failed>
        requires { (seen self.old).is_reading ≡ true }
        ensures bound { IfOk result (λ n. n ≤ length into.old) }
        ensures bytes { ReadsFile (seen self.old).opened (seen self.new).opened into.old into.new result }
        ensures ok { OnOk result ((seen self.new).is_reading ≡ true) }
        ensures err { OnErr result ((seen self.new).is_reading ≡ false) }
        ensures files_stay { (seen self.new).contents ≡ (seen self.old).contents }
        ensures writing_stays { (seen self.new).is_writing ≡ (seen self.old).is_writing }
        ensures cause { HasFileCause false (seen self.old).missed (seen self.new).missed (seen self.old).proper
            (seen self.new).proper result };

    /// Begins to write the file of that name, which is then there and empty. The file read before is closed, and every
    /// other file stays.
    ///
    /// # Errors
    /// `Failed` only where the proper count rose in this call. No file is being written then, and all files stay.
    fn begin_write(&mut self, name: &str) -> Result<(), Failed>
        requires { (seen self.old).is_writing ≡ false }
        ensures begins { BeginsWrite (seen self.old).contents (seen self.new).contents name.now
            (seen self.new).writing result }
        ensures ok { OnOk result ((seen self.new).is_writing ≡ true) }
        ensures err { OnErr result ((seen self.new).is_writing ≡ false) }
        ensures closes { OnOk result ((seen self.new).is_reading ≡ false) }
        ensures cause { HasFileCause false (seen self.old).missed (seen self.new).missed (seen self.old).proper
            (seen self.new).proper result };

    /// Adds the first bytes of `bytes` to the file being written and answers how many, at least 1 for a nonempty piece.
    /// The same file is then still being written, and every other file stays.
    ///
    /// # Errors
    /// `Failed` only where the proper count rose in this call. Nothing is added then, and no file is being written.
    fn append(&mut self, bytes: &[u8]) -> Result<usize, Failed>
        requires { (seen self.old).is_writing ≡ true }
        ensures bound { IfOk result (λ n. n ≤ length bytes.now) }
        ensures moves { 0 < length bytes.now → IfOk result (λ n. 0 < n) }
        ensures bytes { Appends (seen self.old) (seen self.new).contents bytes.now (count_taken result) }
        ensures known { is_some (seen self.new).contents ≡ is_some (seen self.old).contents }
        ensures same_file { OnOk result ((seen self.new).writing ≡ (seen self.old).writing) }
        ensures ok { OnOk result ((seen self.new).is_writing ≡ true) }
        ensures err { OnErr result ((seen self.new).is_writing ≡ false) }
        ensures cause { HasFileCause false (seen self.old).missed (seen self.new).missed (seen self.old).proper
            (seen self.new).proper result };

    /// Ends the writing; the file holds what was added, after a failure too.
    ///
    /// # Errors
    /// `Failed` only where the proper count rose in this call.
    fn finish(&mut self) -> Result<(), Failed>
        requires { (seen self.old).is_writing ≡ true }
        ensures writing_ends { (seen self.new).is_writing ≡ false }
        ensures files_stay { (seen self.new).contents ≡ (seen self.old).contents }
        ensures cause { HasFileCause false (seen self.old).missed (seen self.new).missed (seen self.old).proper
            (seen self.new).proper result };

    ghost reading_known: { (s : Self) → IsSome (seen s).contents → is_some (seen s).opened ≡ (seen s).is_reading };

    ghost writing_known: { (s : Self) → IsSome (seen s).contents → is_some (seen s).writing ≡ (seen s).is_writing };

    ghost missed_known: { (s : Self) → (seen s).contents ≡ None → (seen s).missed ≡ 0 };
}
