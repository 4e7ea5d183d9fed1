//! A document with what is staged for it, and the changes that led to both.

ghost use Rattle.std.specs.Prelude.{◌≡◌, ◌<◌, ◌≤◌, ◌^◌, ◌++◌, ◌↔◌, [], length, vec_len, IfErr, IfOk, OnErr, OnOk};
ghost use Rattle.std.specs.Prelude.{IsErrOf};
ghost use Rattle.std.specs.List.{All};
ghost use Rattle.xml_model.specs.declared.DocFault.{DocFault};
ghost use Rattle.xml_model.specs.Nest.{Forest};
ghost use Rattle.xml_model.specs.Accepted.{Accepted, IsRefusal};
ghost use Rattle.vtd_edits.specs.Splices.{AreEdits, IsWithin, Refuses};
ghost use Rattle.vtd_history.specs.Steps.{with_range};
ghost use Rattle.vtd_revisions.specs.Timelines.{changed, opened, UndoneTo, RedoneTo};

use std::alloc::Global;
use std::marker::Model;
use std::mem::replace;
use vtd_builder::{BuildFault, Doc, build};
use vtd_edits::{Edits, Splices, StageFault};
use vtd_history::{History, RedoFault, Segment, Step, UndoFault, try_exchange};
use xml_model::NoMemory;

/// A document with what is staged for it. Contracts see its bytes, the staged splices, and the revisions of both that
/// `undo` and `redo` give. Each call that changes the document or what is staged is one change, also where it leaves
/// them as they were.
///
/// What is kept of a change is what it replaced, not the whole revision: nothing of `stage`, the edits of `discard`, a
/// document with its edits of `apply`, and the old bytes of `patch`.
#[derive(Drop)]
pub struct Revisions {
    alloc: Global,
    document: Doc,
    edits: Edits,
    history: History,
}

impl Model for Revisions {
    ghost use Rattle.vtd_history.specs.Versions.{version_at};
    ghost use Rattle.vtd_history.specs.Chains.{Fits};
    ghost use Rattle.vtd_revisions.specs.Timelines.{Timeline, timeline_of};

    ghost Value = { Timeline };

    ghost view = { λ r. timeline_of r.history (version_at r.document r.edits) };

    ghost invariant = { λ r. Fits r.history (version_at r.document r.edits) };
}

impl Revisions {
    /// The document of the bytes, with nothing staged and nothing to undo. All memory is taken after `check`, so
    /// `NoMemory` comes only where that refuses nothing.
    ///
    /// # Errors
    /// `Doc` only with the refusal of the bytes; `NoMemory` may come in place of a refusal of names. The bytes come
    /// back with each fault.
    pub fn build(alloc: Global, bytes: Vec<u8>) -> Result<Revisions, (Vec<u8>, BuildFault)>
        requires { vec_len bytes < 2 ^ 30 }
        ensures built { IfOk result (λ r. r ≡ opened bytes.items) }
        ensures accepted { IfOk result (λ r. (nest : Forest) × Accepted 8 bytes.items nest) }
        ensures given_back { IfErr result (λ e. e.0.items ≡ bytes.items) }
        ensures refused { IfErr result (λ e. (fault : DocFault) → e.1 ≡ BuildFault.Doc fault →
            IsRefusal bytes.items fault) }
        ensures no_memory { IfErr result (λ e. e.1 ≡ BuildFault.NoMemory →
            (nest : Forest) × Accepted 6 bytes.items nest) }
    {
        let document = match build(alloc, bytes) {
            Ok(document) => document,
            Err(fault) => return Err(fault),
        };
        let Ok(history) = History::new(alloc) else {
            let (bytes, _) = document.into_parts();
            return Err((bytes, BuildFault::NoMemory));
        };
        let edits = Edits::new(alloc, document.bytes().len() as u32);
        Ok(Revisions {
            alloc,
            document,
            edits,
            history,
        })
    }

    /// A document with nothing staged and nothing to undo.
    ///
    /// # Errors
    /// `NoMemory` where there was none for the history.
    pub fn of(alloc: Global, document: Doc) -> Result<Revisions, NoMemory>
        ensures { IfOk result (λ r. r ≡ opened document.bytes) }
    {
        let Ok(history) = History::new(alloc) else {
            return Err(NoMemory);
        };
        let edits = Edits::new(alloc, document.bytes().len() as u32);
        Ok(Revisions {
            alloc,
            document,
            edits,
            history,
        })
    }

    /// The document.
    pub fn document(&self) -> &Doc
        ensures { result.now.bytes ≡ self.now.bytes }
    {
        &self.document
    }

    /// What is staged for it.
    pub fn edits(&self) -> &Edits
        ensures len { result.now.len ≡ length self.now.bytes }
        ensures splices { result.now.splices ≡ self.now.staged }
        ensures edits { AreEdits result.now }
    {
        let _count = self.edits.count();
        &self.edits
    }

    /// How many changes can be undone.
    pub fn done(&self) -> u32
        ensures { result ≡ length self.now.done }
    {
        self.history.done()
    }

    /// How many changes can be redone.
    pub fn undone(&self) -> u32
        ensures { result ≡ length self.now.undone }
    {
        self.history.undone()
    }

    /// Stages the splices of a list after those that are staged, all of them or none: one change. Their places are
    /// within the document, and no range ends before it starts.
    ///
    /// # Errors
    /// Those of `Edits::stage`, exactly. The list comes back, and nothing has changed.
    pub fn stage(&mut self, list: Splices) -> Result<(), (Splices, StageFault)>
        requires { All (IsWithin (length self.old.bytes)) list }
        ensures staged { OnOk result (self.new ≡ changed self.old.bytes (self.old.staged ++ list) self.old) }
        ensures refused { IfErr result (λ e. Refuses (self.old.staged ++ list) e.1) }
        ensures given_back { IfErr result (λ e. e.0 ≡ list) }
        ensures unchanged { OnErr result (self.new ≡ self.old) }
    {
        let count = list.held.len() as u64;
        if let Err(fault) = self.edits.stage(list) {
            return Err(fault);
        }
        let taken = Splices {
            held: Vec::new(self.alloc),
        };
        self.history
            .keep(Step::Staged { count, taken }, &self.document, &self.edits);
        Ok(())
    }

    /// Drops all that is staged: one change. It takes no memory.
    pub fn discard(&mut self)
        ensures { self.new ≡ changed self.old.bytes [] self.old }
    {
        let none = Edits::new(self.alloc, self.document.bytes().len() as u32);
        let edits = replace(&mut self.edits, none);
        self.history
            .keep(Step::Discarded { edits }, &self.document, &self.edits);
    }

    /// Makes a document the document in the place of the old one, for which nothing is staged: one change. It takes no
    /// memory. The old document is kept whole.
    pub fn apply(&mut self, document: Doc)
        ensures { self.new ≡ changed document.bytes [] self.old }
    {
        let none = Edits::new(self.alloc, document.bytes().len() as u32);
        let edits = replace(&mut self.edits, none);
        let document = replace(&mut self.document, document);
        self.history.keep(
            Step::Applied { document, edits },
            &self.document,
            &self.edits,
        );
    }

    /// Makes a document the document, for which nothing is staged, and before which nothing was: no change can be
    /// undone or redone then. It takes no memory.
    pub fn open(&mut self, document: Doc)
        ensures { self.new ≡ opened document.bytes }
    {
        self.edits = Edits::new(self.alloc, document.bytes().len() as u32);
        self.document = document;
        self.history.clear();
    }

    /// Puts the segment's bytes in the place of its range of the document, for which nothing is staged: one change. The
    /// range is within the document. It takes the time and the memory of one `build`; the old bytes of the range are
    /// kept.
    ///
    /// # Errors
    /// `Doc` only with the refusal of the new bytes; `NoMemory` may come in place of any other answer. Nothing has
    /// changed then.
    pub fn patch(&mut self, segment: Segment) -> Result<(), BuildFault>
        requires none { self.old.staged ≡ [] }
        requires start { segment.start ≤ segment.end }
        requires end { segment.end ≤ length self.old.bytes }
        requires few { length (with_range segment.start segment.end segment.bytes self.old.bytes) < 2 ^ 30 }
        ensures patched { OnOk result (self.new
            ≡ changed (with_range segment.start segment.end segment.bytes self.old.bytes) [] self.old) }
        ensures refused { IfErr result (λ e. (fault : DocFault) → e ≡ BuildFault.Doc fault → IsRefusal
            (with_range segment.start segment.end segment.bytes self.old.bytes) fault) }
        ensures unchanged { OnErr result (self.new ≡ self.old) }
    {
        let mut segment = segment;
        if let Err(fault) = try_exchange(self.alloc, &mut self.document, &mut segment) {
            return Err(fault);
        }
        self.edits = Edits::new(self.alloc, self.document.bytes().len() as u32);
        self.history
            .keep(Step::Patched { segment }, &self.document, &self.edits);
        Ok(())
    }

    /// Makes document and staging what they were before the last change that is kept. It costs what `History::undo`
    /// does.
    ///
    /// # Errors
    /// `NoUndo` exactly where no change is kept; `NoMemory` may come in place of success. Nothing has changed then.
    pub fn undo(&mut self) -> Result<(), UndoFault>
        ensures undone { OnOk result (UndoneTo self.old self.new) }
        ensures none { IsErrOf result UndoFault.NoUndo ↔ (self.old.done ≡ []) }
        ensures unchanged { OnErr result (self.new ≡ self.old) }
    {
        self.history.undo(&mut self.document, &mut self.edits)
    }

    /// Makes document and staging what they were before the last `undo`. It costs what `History::redo` does.
    ///
    /// # Errors
    /// `NoRedo` exactly where no undone change is kept; `NoMemory` may come in place of success. Nothing has changed
    /// then.
    pub fn redo(&mut self) -> Result<(), RedoFault>
        ensures redone { OnOk result (RedoneTo self.old self.new) }
        ensures none { IsErrOf result RedoFault.NoRedo ↔ (self.old.undone ≡ []) }
        ensures unchanged { OnErr result (self.new ≡ self.old) }
    {
        self.history.redo(&mut self.document, &mut self.edits)
    }
}
