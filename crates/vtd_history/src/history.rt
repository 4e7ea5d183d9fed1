//! The last changes of a document and its edits, as the steps that undo and redo them.

ghost use Rattle.std.specs.Prelude.{◌≡◌, ◌++◌, ◌∷◌, [], length, IfOk, OnOk, OnErr, IsErrOf, ◌↔◌};
ghost use Rattle.circular_buffer.specs.Buffer.{keep_last};
ghost use Rattle.vtd_history.specs.Versions.{Version, version_at};
ghost use Rattle.vtd_history.specs.Chains.{steps_of, Fits, Keeps, Undoes, Redoes, done_of, undone_of, BeginsMoved};
ghost use Rattle.vtd_history.specs.Kept.{plain};

use crate::steps::{Step, turn};
use circular_buffer::HeapCircularBuffer;
use std::alloc::Global;
use std::marker::Model;
use vtd_builder::Doc;
use vtd_edits::Edits;
use xml_model::NoMemory;

/// How many changes are kept.
const DEPTH: usize = 32;

/// Why nothing was undone.
#[derive(Clone, Copy, Debug, PartialEq, Eq)]
pub enum UndoFault {
    /// No change is kept.
    NoUndo,
    /// Memory was not to be had.
    NoMemory,
}

/// Why nothing was redone.
#[derive(Clone, Copy, Debug, PartialEq, Eq)]
pub enum RedoFault {
    /// No undone change is kept.
    NoRedo,
    /// Memory was not to be had.
    NoMemory,
}

/// The steps of the last 32 changes, and of those that were undone. Contracts see two lists of steps, the nearest step
/// first; the versions of the document and its edits to which they lead are `done_of` and `undone_of`.
///
/// A step holds what the change replaced: for `Staged` nothing, or the splices that were taken off; for `Discarded` the
/// edits; for `Applied` a whole document with its edits; for `Patched` the bytes of a range.
#[derive(Drop)]
pub struct History {
    alloc: Global,
    /// The nearest step is at the front of each ring.
    done: HeapCircularBuffer<Step>,
    undone: HeapCircularBuffer<Step>,
}

impl Model for History {
    ghost use Rattle.std.specs.Prelude.{map, length, ◌≡◌, ◌+◌, ◌≤◌};
    ghost use Rattle.vtd_history.specs.Chains.{Steps, steps_of};
    ghost use Rattle.vtd_history.specs.Kept.{plain, HasDepth};

    ghost Value = { Steps };

    ghost view = { λ h. steps_of (map plain h.done.items) (map plain h.undone.items) };

    ghost invariant = { λ h. HasDepth h.done h.undone };
}

impl History {
    /// No step. All room for steps is taken here.
    pub fn new(alloc: Global) -> Result<History, NoMemory>
        ensures { IfOk result (λ h. h ≡ steps_of [] []) }
    {
        let Ok(done) = HeapCircularBuffer::with_capacity(alloc, DEPTH) else {
            return Err(NoMemory);
        };
        let Ok(undone) = HeapCircularBuffer::with_capacity(alloc, DEPTH) else {
            return Err(NoMemory);
        };
        Ok(History {
            alloc,
            done,
            undone,
        })
    }

    /// How many changes can be undone.
    pub fn done(&self) -> u32
        ensures { result ≡ length self.now.done }
    {
        self.done.len() as u32
    }

    /// How many changes can be redone.
    pub fn undone(&self) -> u32
        ensures { result ≡ length self.now.undone }
    {
        self.undone.len() as u32
    }

    /// Drops all steps.
    pub fn clear(&mut self)
        ensures { self.new ≡ steps_of [] [] }
    {
        self.done.clear();
        self.undone.clear()
    }

    /// Keeps the step that leads back from the document and the edits to those before a change, which the steps fitted.
    /// What was undone is dropped, and so is the oldest step where there would be more than 32. It takes no memory and
    /// never refuses.
    pub fn keep(&mut self, step: Step, document: &Doc, edits: &Edits)
        requires { (before : Version) × Keeps self.old (plain step) before (version_at document.now edits.now) }
        ensures fits { Fits self.new (version_at document.now edits.now) }
        ensures done { (before : Version) → Keeps self.old (plain step) before (version_at document.now edits.now)
            → done_of self.new (version_at document.now edits.now)
            ≡ keep_last 32 (done_of self.old before ++ before ∷ []) }
        ensures undone { undone_of self.new (version_at document.now edits.now) ≡ [] }
        ensures none { self.new.undone ≡ [] }
    {
        let _bytes = document.bytes();
        let _count = edits.count();
        self.undone.clear();
        self.done.push_front(step);
    }

    /// Makes the document and the edits what they were before the last change that is kept. To undo a patch a document
    /// is built anew; the other steps take the time of what they stage or take off, or none.
    ///
    /// # Errors
    /// `NoUndo` exactly where no change is kept; `NoMemory` only where the step takes memory: splices and patches do,
    /// what was discarded or applied does not. All is as before then.
    pub fn undo(&mut self, document: &mut Doc, edits: &mut Edits) -> Result<(), UndoFault>
        requires { Fits self.old (version_at document.old edits.old) }
        ensures undone { OnOk result
            (Undoes self.old self.new (version_at document.old edits.old) (version_at document.new edits.new)) }
        ensures stays { OnErr result (self.new ≡ self.old) }
        ensures document_stays { OnErr result (document.new ≡ document.old) }
        ensures edits_stay { OnErr result (edits.new ≡ edits.old) }
        ensures no_undo { IsErrOf result UndoFault.NoUndo ↔ (self.old.done ≡ []) }
        ensures moved { BeginsMoved self.old.done → IsErrOf result UndoFault.NoMemory → ⊥ }
    {
        let Some(step) = self.done.pop_front() else {
            return Err(UndoFault::NoUndo);
        };
        match turn(self.alloc, step, document, edits) {
            Ok(inverse) => {
                self.undone.push_front(inverse);
                Ok(())
            }
            Err(step) => {
                self.done.push_front(step);
                Err(UndoFault::NoMemory)
            }
        }
    }

    /// Makes the document and the edits what they were before the last `undo`. It costs what `undo` does.
    ///
    /// # Errors
    /// `NoRedo` exactly where no undone change is kept; `NoMemory` only where the step takes memory, as for `undo`. All
    /// is as before then.
    pub fn redo(&mut self, document: &mut Doc, edits: &mut Edits) -> Result<(), RedoFault>
        requires { Fits self.old (version_at document.old edits.old) }
        ensures redone { OnOk result
            (Redoes self.old self.new (version_at document.old edits.old) (version_at document.new edits.new)) }
        ensures stays { OnErr result (self.new ≡ self.old) }
        ensures document_stays { OnErr result (document.new ≡ document.old) }
        ensures edits_stay { OnErr result (edits.new ≡ edits.old) }
        ensures no_redo { IsErrOf result RedoFault.NoRedo ↔ (self.old.undone ≡ []) }
        ensures moved { BeginsMoved self.old.undone → IsErrOf result RedoFault.NoMemory → ⊥ }
    {
        let Some(step) = self.undone.pop_front() else {
            return Err(RedoFault::NoRedo);
        };
        match turn(self.alloc, step, document, edits) {
            Ok(inverse) => {
                self.done.push_front(inverse);
                Ok(())
            }
            Err(step) => {
                self.undone.push_front(step);
                Err(RedoFault::NoMemory)
            }
        }
    }
}
