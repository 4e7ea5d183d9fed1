//! The index file of a run.

ghost use Rattle.std.specs.Prelude.{◌≡◌, Some, Err, IsTrue, false};
ghost use Rattle.vtd_outside.specs.Causes.{is_missing};
ghost use Rattle.vtd_outside.specs.Known.{NameMap};
ghost use Rattle.vtd_running.specs.Parts.{IndexCause, ReadsIndex};

use std::alloc::Global;
use vtd_index::{IndexFault, LoadFault};
use vtd_outside::{Files, GatherFault, gather_file};
use vtd_script::{INDEX_LIMIT, Session};

/// Why there is no document.
#[derive(Clone, Copy)]
pub enum NoIndex {
    /// The file is not there, or could not be read.
    Failed,
    /// It has too many bytes.
    Long,
    /// It is the index file of no document.
    Unfit(IndexFault),
    /// There was no memory.
    NoMemory,
}

/// A session over the document of the index file of a name, which is read to its end.
///
/// # Errors
/// Each variant by its cause; no file changes.
pub fn read_index<F: Files>(alloc: Global, files: &mut F, name: &str) -> Result<Session, NoIndex>
    requires { (F.seen files.old).is_writing ≡ false }
    ensures reads { (map : NameMap) → (F.seen files.old).contents ≡ Some map → ReadsIndex map name.now result }
    ensures cause { IndexCause (is_missing (F.seen files.old).contents name.now) (F.seen files.old).missed
        (F.seen files.new).missed (F.seen files.old).proper (F.seen files.new).proper result }
    ensures missing { IsTrue (is_missing (F.seen files.old).contents name.now) → result ≡ Err NoIndex.Failed }
    ensures files_stay { (F.seen files.new).contents ≡ (F.seen files.old).contents }
    ensures writing_stays { (F.seen files.new).is_writing ≡ false }
{
    let file = match gather_file(alloc, files, name, INDEX_LIMIT) {
        Ok(file) => file,
        Err(GatherFault::Failed) => return Err(NoIndex::Failed),
        Err(GatherFault::Long) => return Err(NoIndex::Long),
        Err(GatherFault::NoMemory) => return Err(NoIndex::NoMemory),
    };
    match Session::start_index(alloc, file) {
        Ok(session) => Ok(session),
        Err(LoadFault::Index(fault)) => Err(NoIndex::Unfit(fault)),
        Err(LoadFault::NoMemory) => Err(NoIndex::NoMemory),
    }
}
