//! The document of a run.

ghost use Rattle.std.specs.Prelude.{◌≡◌, Some, Err, IsTrue, false};
ghost use Rattle.vtd_outside.specs.Causes.{is_missing};
ghost use Rattle.vtd_outside.specs.Known.{NameMap};
ghost use Rattle.vtd_running.specs.Parts.{DocumentCause, ReadsDocument};

use std::alloc::Global;
use vtd_builder::BuildFault;
use vtd_outside::{Files, GatherFault, gather_file};
use vtd_script::{DOCUMENT_LIMIT, Session};
use xml_model::DocFault;

/// Why there is no document.
#[derive(Clone, Copy)]
pub enum NoDocument {
    /// The file is not there, or could not be read.
    Failed,
    /// It has too many bytes.
    Long,
    /// Its bytes are refused.
    Unfit(DocFault),
    /// There was no memory.
    NoMemory,
}

/// A session over the file of a name, which is read to its end.
///
/// # Errors
/// Each variant by its cause; no file changes.
pub fn read_document<F: Files>(
    alloc: Global,
    files: &mut F,
    name: &str,
) -> Result<Session, NoDocument>
    requires { (F.seen files.old).is_writing ≡ false }
    ensures reads { (map : NameMap) → (F.seen files.old).contents ≡ Some map → ReadsDocument map name.now result }
    ensures cause { DocumentCause (is_missing (F.seen files.old).contents name.now) (F.seen files.old).missed
        (F.seen files.new).missed (F.seen files.old).proper (F.seen files.new).proper result }
    ensures missing { IsTrue (is_missing (F.seen files.old).contents name.now) → result ≡ Err NoDocument.Failed }
    ensures files_stay { (F.seen files.new).contents ≡ (F.seen files.old).contents }
    ensures writing_stays { (F.seen files.new).is_writing ≡ false }
{
    let bytes = match gather_file(alloc, files, name, DOCUMENT_LIMIT) {
        Ok(bytes) => bytes,
        Err(GatherFault::Failed) => return Err(NoDocument::Failed),
        Err(GatherFault::Long) => return Err(NoDocument::Long),
        Err(GatherFault::NoMemory) => return Err(NoDocument::NoMemory),
    };
    match Session::start(alloc, bytes) {
        Ok(session) => Ok(session),
        Err((_, BuildFault::Doc(fault))) => Err(NoDocument::Unfit(fault)),
        Err((_, BuildFault::NoMemory)) => Err(NoDocument::NoMemory),
    }
}
