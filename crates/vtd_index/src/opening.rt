//! Index files that are opened: a file of the second version is kept and read where it lies, and of one of the first the
//! document is built.

ghost use Rattle.std.specs.Prelude.{◌≡◌, ◌<◌, ◌^◌, ◌↔◌, length, vec_len, IfErr, IfOk, Some};
ghost use Rattle.xml_model.specs.Accepted.{Accepted};
ghost use Rattle.xml_model.specs.Nest.{Forest};
ghost use Rattle.vtd_index.specs.Index.{IsFault, IsFileBy};
ghost use Rattle.vtd_index.specs.Loading.{held_in, IsLoaded};
ghost use Rattle.vtd_index.specs.Opening.{IsBuilt, IsOpened, opened_version};
ghost use Rattle.vtd_index.specs.declared.faults.IndexFault.{IndexFault};
ghost use Rattle.vtd_index.specs.declared.head.Version.TheVariants.{One, Two};

use crate::checking::{Checked, check_index};
use crate::faults::IndexFault;
use crate::head::{document, read_head, words};
use crate::parts::IndexParts;
use std::alloc::Global;
use std::marker::Model;
use vtd_builder::{BuildFault, Doc, build};
use xml_model::NoMemory;

/// Why no index file was opened.
#[derive(Clone, Copy, Debug, PartialEq, Eq)]
pub enum LoadFault {
    /// The file is the index file of no document.
    Index(IndexFault),
    /// Memory was not to be had.
    NoMemory,
}

/// An index file of the second version, with the document and the words in it.
#[derive(Drop)]
pub struct Loaded {
    file: Vec<u8>,
}

impl Model for Loaded {
    ghost use Rattle.vtd_builder.specs.Documents.{Document};
    ghost use Rattle.vtd_index.specs.Loading.{held_in, IsLoaded};

    ghost Value = { Document };

    ghost view = { λ l. held_in l.file.items };

    ghost invariant = { λ l. IsLoaded l.file.items };
}

impl Loaded {
    /// The document and its words, found again by the head of the file alone: nothing is checked a second time.
    pub fn parts(&self) -> IndexParts<'_>
        ensures { result ≡ self.now }
    {
        let file = self.file.as_slice();
        match read_head(file) {
            Ok(head) => IndexParts::of(document(file, &head), words(file, &head)),
            Err(_) => unreachable!(),
        }
    }
}

/// An index file that is opened.
#[derive(Drop)]
pub enum Opened {
    /// A file of the second version, whose words are read where they lie.
    View(Loaded),
    /// The document of a file of the first version, with words that were built of it.
    Built(Doc),
}

/// A document that no check refuses, built of a copy of its bytes.
fn build_copy(alloc: Global, bytes: &[u8]) -> Result<Doc, NoMemory>
    requires few { length bytes.now < 2 ^ 30 }
    requires accepted { (nest : Forest) × Accepted 8 bytes.now nest }
    ensures { IfOk result (λ doc. doc.bytes ≡ bytes.now) }
{
    let Ok(copy) = bytes.to_vec(alloc) else {
        return Err(NoMemory);
    };
    match build(alloc, copy) {
        Ok(doc) => Ok(doc),
        Err((_, BuildFault::NoMemory)) => Err(NoMemory),
        Err((_, BuildFault::Doc(_))) => unreachable!(),
    }
}

/// The document of a file of the first version, built; or None for a file of the second.
fn build_first(alloc: Global, file: &[u8]) -> Result<Option<Doc>, LoadFault>
    requires { length file.now < 2 ^ 32 }
    ensures { IsBuilt file.now result }
{
    match check_index(file) {
        Ok(Checked::Two(_)) => Ok(None),
        Ok(Checked::One(bytes)) => match build_copy(alloc, bytes) {
            Ok(doc) => Ok(Some(doc)),
            Err(_) => Err(LoadFault::NoMemory),
        },
        Err(fault) => Err(LoadFault::Index(fault)),
    }
}

/// What is in an index file. A file of the second version is kept as it is, and no memory is taken. Of one of the first
/// the document is copied and built.
///
/// # Errors
/// `Index` with the fault of the file, exactly where it is the index file of no document; `NoMemory` only where it is one
/// of the first version. The file comes back with each fault.
pub fn open_index(alloc: Global, file: Vec<u8>) -> Result<Opened, (Vec<u8>, LoadFault)>
    requires { vec_len file < 2 ^ 32 }
    ensures opened { IfOk result (IsOpened file.items) }
    ensures view { (opened_version result ≡ Some Two) ↔ IsFileBy Two file.items }
    ensures given_back { IfErr result (λ e. e.0 ≡ file) }
    ensures fault { IfErr result (λ e. (fault : IndexFault) → (e.1 ≡ LoadFault.Index fault) ↔ IsFault file.items fault) }
    ensures no_memory { IfErr result (λ e. e.1 ≡ LoadFault.NoMemory → IsFileBy One file.items) }
{
    match build_first(alloc, file.as_slice()) {
        Ok(None) => Ok(Opened::View(Loaded { file })),
        Ok(Some(doc)) => Ok(Opened::Built(doc)),
        Err(fault) => Err((file, fault)),
    }
}
