//! A document that was built, with its changes, or that lies in an index file until it is changed.

ghost use Rattle.std.specs.Prelude.{◌≡◌, ◌<◌, ◌≤◌, ◌^◌, ◌++◌, ◌↔◌, [], length, vec_len, true, false, IfErr, IfOk};
ghost use Rattle.std.specs.Prelude.{IsErrOf, OnErr, OnOk};
ghost use Rattle.std.specs.List.{All};
ghost use Rattle.xml_model.specs.declared.DocFault.{DocFault};
ghost use Rattle.xml_model.specs.Nest.{Forest};
ghost use Rattle.xml_model.specs.Accepted.{Accepted, IsRefusal};
ghost use Rattle.vtd_edits.specs.Splices.{AreEdits, IsWithin, Refuses};
ghost use Rattle.vtd_history.specs.Steps.{with_range};
ghost use Rattle.vtd_revisions.specs.Timelines.{changed, opened, UndoneTo, RedoneTo};
ghost use Rattle.vtd_history.specs.Versions.{IsAcceptedDocument};
ghost use Rattle.vtd_held.specs.Holding.{is_built, is_filed, opened_bytes, shown_bytes};
ghost use Rattle.vtd_held.specs.Holding.{timeline_in, IsKept};

use std::alloc::Global;
use std::marker::Model;
use vtd_builder::{BuildFault, Doc};
use vtd_edits::{Edits, Splices, StageFault};
use vtd_history::{RedoFault, Segment, UndoFault};
use vtd_index::{Loaded, Opened};
use vtd_revisions::Revisions;
use xml_model::NoMemory;

/// Where a document is.
#[derive(Drop)]
enum Kept {
    /// It was built, and may have changed.
    Built(Revisions),
    /// It lies in an index file, and nothing is staged for it.
    Filed { loaded: Loaded, edits: Edits },
}

/// A document that is lent, with its words.
#[derive(Clone, Copy)]
pub enum Shown<'a> {
    /// Its words were built.
    Built(&'a Doc),
    /// Its words lie in an index file.
    Filed(&'a Loaded),
}

/// A document with what is staged for it, of which the last 32 changes can be undone. Where it lies in an index file its
/// words stay there, and the first change builds it.
#[derive(Drop)]
pub struct Held {
    alloc: Global,
    kept: Kept,
}

impl Model for Held {
    ghost use Rattle.vtd_revisions.specs.Timelines.{Timeline};
    ghost use Rattle.vtd_held.specs.Holding.{timeline_in, IsKept};

    ghost Value = { Timeline };

    ghost view = { λ h. timeline_in h.kept };

    ghost invariant = { λ h. IsKept h.kept };
}

/// A document that was read, lent.
pub fn show(document: &Opened) -> Shown<'_>
    ensures { shown_bytes result ≡ opened_bytes document.now }
{
    match document {
        Opened::View(loaded) => Shown::Filed(loaded),
        Opened::Built(doc) => Shown::Built(doc),
    }
}

/// A document that lies in an index file, for which nothing is staged.
fn filed(alloc: Global, loaded: Loaded) -> Kept
    ensures timeline { timeline_in result ≡ opened loaded.bytes }
    ensures kept { IsKept result }
{
    let edits = Edits::new(alloc, loaded.parts().bytes().len() as u32);
    Kept::Filed { loaded, edits }
}

/// The document of a copy of its bytes.
fn build_copy(alloc: Global, bytes: &[u8]) -> Result<Revisions, NoMemory>
    requires { IsAcceptedDocument bytes.now }
    ensures { IfOk result (λ revisions. revisions ≡ opened bytes.now) }
{
    let Ok(copy) = bytes.to_vec(alloc) else {
        return Err(NoMemory);
    };
    match Revisions::build(alloc, copy) {
        Ok(revisions) => Ok(revisions),
        Err((_, BuildFault::NoMemory)) => Err(NoMemory),
        Err((_, BuildFault::Doc(_))) => unreachable!(),
    }
}

/// The document of an index file, built.
fn build_filed(alloc: Global, loaded: &Loaded) -> Result<Revisions, NoMemory>
    ensures { IfOk result (λ revisions. revisions ≡ opened loaded.now.bytes) }
{
    let parts = loaded.parts();
    build_copy(alloc, parts.bytes())
}

/// Builds the document, if it lies in an index file.
fn settle(alloc: Global, kept: &mut Kept) -> Result<(), NoMemory>
    requires { IsKept kept.old }
    ensures timeline { timeline_in kept.new ≡ timeline_in kept.old }
    ensures kept { IsKept kept.new }
    ensures built { OnOk result (is_built kept.new ≡ true) }
    ensures stays { OnErr result (kept.new ≡ kept.old) }
{
    let revisions = match kept {
        Kept::Built(_) => return Ok(()),
        Kept::Filed { loaded, .. } => match build_filed(alloc, loaded) {
            Ok(revisions) => revisions,
            Err(_) => return Err(NoMemory),
        },
    };
    *kept = Kept::Built(revisions);
    Ok(())
}

impl Held {
    /// The document of the bytes, with nothing staged and nothing to undo. All memory is taken after `check`, so
    /// `NoMemory` comes only where that refuses nothing.
    ///
    /// # Errors
    /// Those of `Revisions::build`.
    pub fn build(alloc: Global, bytes: Vec<u8>) -> Result<Held, (Vec<u8>, BuildFault)>
        requires { vec_len bytes < 2 ^ 30 }
        ensures built { IfOk result (λ h. h ≡ opened bytes.items) }
        ensures accepted { IfOk result (λ h. (nest : Forest) × Accepted 8 bytes.items nest) }
        ensures given_back { IfErr result (λ e. e.0.items ≡ bytes.items) }
        ensures refused { IfErr result (λ e. (fault : DocFault) → e.1 ≡ BuildFault.Doc fault →
            IsRefusal bytes.items fault) }
        ensures no_memory { IfErr result (λ e. e.1 ≡ BuildFault.NoMemory →
            (nest : Forest) × Accepted 6 bytes.items nest) }
    {
        match Revisions::build(alloc, bytes) {
            Ok(revisions) => Ok(Held {
                alloc,
                kept: Kept::Built(revisions),
            }),
            Err(fault) => Err(fault),
        }
    }

    /// A document in an index file, with nothing staged and nothing to undo. It takes no memory.
    pub fn of_file(alloc: Global, loaded: Loaded) -> Held
        ensures { result ≡ opened loaded.bytes }
    {
        Held {
            alloc,
            kept: filed(alloc, loaded),
        }
    }

    /// A document that was read, with nothing staged and nothing to undo. Where it lies in an index file it takes no
    /// memory.
    ///
    /// # Errors
    /// `NoMemory` only where the document was built.
    pub fn of(alloc: Global, document: Opened) -> Result<Held, NoMemory>
        ensures held { IfOk result (λ h. h ≡ opened (opened_bytes document)) }
        ensures no_memory { OnErr result (is_filed document ≡ false) }
    {
        match document {
            Opened::View(loaded) => Ok(Held::of_file(alloc, loaded)),
            Opened::Built(doc) => {
                let revisions = Revisions::of(alloc, doc)?;
                Ok(Held {
                    alloc,
                    kept: Kept::Built(revisions),
                })
            }
        }
    }

    /// The document, lent.
    pub fn shown(&self) -> Shown<'_>
        ensures { shown_bytes result ≡ self.now.bytes }
    {
        match &self.kept {
            Kept::Built(revisions) => Shown::Built(revisions.document()),
            Kept::Filed { loaded, .. } => Shown::Filed(loaded),
        }
    }

    /// What is staged for it.
    pub fn edits(&self) -> &Edits
        ensures len { result.now.len ≡ length self.now.bytes }
        ensures splices { result.now.splices ≡ self.now.staged }
        ensures edits { AreEdits result.now }
    {
        match &self.kept {
            Kept::Built(revisions) => revisions.edits(),
            Kept::Filed { edits, .. } => {
                let _count = edits.count();
                edits
            }
        }
    }

    /// Stages the splices of a list after those that are staged, all of them or none: one change. Their places are
    /// within the document, and no range ends before it starts.
    ///
    /// # Errors
    /// Those of `Edits::stage`, exactly. The list comes back, and nothing has changed.
    pub fn stage(&mut self, list: Splices) -> Result<(), (Splices, StageFault)>
        requires { All (IsWithin (length self.old.bytes)) list }
        ensures staged { OnOk result (self.new ≡ changed self.old.bytes (self.old.staged ++ list) self.old) }
        ensures refused { IfErr result (λ e. Refuses (self.old.staged ++ list) e.1) }
        ensures given_back { IfErr result (λ e. e.0 ≡ list) }
        ensures unchanged { OnErr result (self.new ≡ self.old) }
    {
        if settle(self.alloc, &mut self.kept).is_err() {
            return Err((list, StageFault::NoMemory));
        }
        match &mut self.kept {
            Kept::Built(revisions) => revisions.stage(list),
            Kept::Filed { .. } => unreachable!(),
        }
    }

    /// Drops all that is staged: one change.
    ///
    /// # Errors
    /// `NoMemory` only where the document lies in an index file. Nothing has changed then.
    pub fn discard(&mut self) -> Result<(), NoMemory>
        ensures discarded { OnOk result (self.new ≡ changed self.old.bytes [] self.old) }
        ensures unchanged { OnErr result (self.new ≡ self.old) }
    {
        settle(self.alloc, &mut self.kept)?;
        match &mut self.kept {
            Kept::Built(revisions) => {
                revisions.discard();
                Ok(())
            }
            Kept::Filed { .. } => unreachable!(),
        }
    }

    /// Makes a document the document in the place of the old one, for which nothing is staged: one change. The old
    /// document is kept whole.
    ///
    /// # Errors
    /// `NoMemory` only where the old document lies in an index file. Nothing has changed then.
    pub fn apply(&mut self, document: Doc) -> Result<(), NoMemory>
        ensures applied { OnOk result (self.new ≡ changed document.bytes [] self.old) }
        ensures unchanged { OnErr result (self.new ≡ self.old) }
    {
        settle(self.alloc, &mut self.kept)?;
        match &mut self.kept {
            Kept::Built(revisions) => {
                revisions.apply(document);
                Ok(())
            }
            Kept::Filed { .. } => unreachable!(),
        }
    }

    /// Makes a document the document, for which nothing is staged, and before which nothing was: no change can be
    /// undone or redone then.
    ///
    /// # Errors
    /// `NoMemory` only where the old document lies in an index file and the new one does not. Nothing has changed then.
    pub fn open(&mut self, document: Opened) -> Result<(), NoMemory>
        ensures opened { OnOk result (self.new ≡ opened (opened_bytes document)) }
        ensures unchanged { OnErr result (self.new ≡ self.old) }
    {
        match document {
            Opened::View(loaded) => {
                self.kept = filed(self.alloc, loaded);
                Ok(())
            }
            Opened::Built(document) => self.open_built(document),
        }
    }

    /// Makes a document that was built the document, before which nothing was.
    fn open_built(&mut self, document: Doc) -> Result<(), NoMemory>
        ensures opened { OnOk result (self.new ≡ opened document.bytes) }
        ensures unchanged { OnErr result (self.new ≡ self.old) }
    {
        if let Kept::Built(revisions) = &mut self.kept {
            revisions.open(document);
            return Ok(());
        }
        let revisions = Revisions::of(self.alloc, document)?;
        self.kept = Kept::Built(revisions);
        Ok(())
    }

    /// Puts the segment's bytes in the place of its range of the document, for which nothing is staged: one change. The
    /// range is within the document. The old bytes of the range are kept.
    ///
    /// # Errors
    /// `Doc` only with the refusal of the new bytes; `NoMemory` may come in place of any other answer. Nothing has
    /// changed then.
    pub fn patch(&mut self, segment: Segment) -> Result<(), BuildFault>
        requires none { self.old.staged ≡ [] }
        requires start { segment.start ≤ segment.end }
        requires end { segment.end ≤ length self.old.bytes }
        requires few { length (with_range segment.start segment.end segment.bytes self.old.bytes) < 2 ^ 30 }
        ensures patched { OnOk result (self.new
            ≡ changed (with_range segment.start segment.end segment.bytes self.old.bytes) [] self.old) }
        ensures refused { IfErr result (λ e. (fault : DocFault) → e ≡ BuildFault.Doc fault → IsRefusal
            (with_range segment.start segment.end segment.bytes self.old.bytes) fault) }
        ensures unchanged { OnErr result (self.new ≡ self.old) }
    {
        if settle(self.alloc, &mut self.kept).is_err() {
            return Err(BuildFault::NoMemory);
        }
        match &mut self.kept {
            Kept::Built(revisions) => revisions.patch(segment),
            Kept::Filed { .. } => unreachable!(),
        }
    }

    /// Makes document and staging what they were before the last change that is kept.
    ///
    /// # Errors
    /// `NoUndo` exactly where no change is kept; `NoMemory` may come in place of success. Nothing has changed then.
    pub fn undo(&mut self) -> Result<(), UndoFault>
        ensures undone { OnOk result (UndoneTo self.old self.new) }
        ensures none { IsErrOf result UndoFault.NoUndo ↔ (self.old.done ≡ []) }
        ensures unchanged { OnErr result (self.new ≡ self.old) }
    {
        match &mut self.kept {
            Kept::Built(revisions) => revisions.undo(),
            Kept::Filed { .. } => Err(UndoFault::NoUndo),
        }
    }

    /// Makes document and staging what they were before the last `undo`.
    ///
    /// # Errors
    /// `NoRedo` exactly where no undone change is kept; `NoMemory` may come in place of success. Nothing has changed
    /// then.
    pub fn redo(&mut self) -> Result<(), RedoFault>
        ensures redone { OnOk result (RedoneTo self.old self.new) }
        ensures none { IsErrOf result RedoFault.NoRedo ↔ (self.old.undone ≡ []) }
        ensures unchanged { OnErr result (self.new ≡ self.old) }
    {
        match &mut self.kept {
            Kept::Built(revisions) => revisions.redo(),
            Kept::Filed { .. } => Err(RedoFault::NoRedo),
        }
    }
}
