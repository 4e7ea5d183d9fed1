//! A step from a document with its edits to what they were before a change, and how it is made.

ghost use Rattle.std.specs.Prelude.{◌≡◌, true, Some, IfOk, IfErr, OnErr, IsErr};
ghost use Rattle.vtd_history.specs.Versions.{version_at};
ghost use Rattle.vtd_history.specs.Steps.{staged, patched, back, turned, is_moved, is_none};
ghost use Rattle.vtd_history.specs.Chains.{CanTurn};
ghost use Rattle.vtd_history.specs.Kept.{plain};

use crate::exchanging::{Segment, exchange};
use std::alloc::Global;
use std::mem::replace;
use vtd_builder::Doc;
use vtd_edits::{Edits, Splices, StageFault};

/// What undoes or redoes a change.
#[derive(Drop)]
pub enum Step {
    /// So many splices were staged. Where `taken` is empty they are taken off again, and else `taken` is staged, which
    /// are `count` splices.
    Staged { count: u64, taken: Splices },
    /// These edits were discarded.
    Discarded { edits: Edits },
    /// The new bytes of this document with these edits were made the document.
    Applied { document: Doc, edits: Edits },
    /// The segment's bytes were at its range, and nothing was staged.
    Patched { segment: Segment },
}

/// Makes a step, and hands out its inverse.
///
/// # Errors
/// Want of memory: the step itself comes back, and nothing has changed.
pub fn turn(alloc: Global, step: Step, document: &mut Doc, edits: &mut Edits) -> Result<Step, Step>
    requires { CanTurn (plain step) (version_at document.old edits.old) }
    ensures turned { IfOk result (λ inverse. back (plain step) (version_at document.old edits.old)
        ≡ Some (turned (version_at document.new edits.new) (plain inverse))) }
    ensures given_back { IfErr result (λ same. same ≡ step) }
    ensures document { OnErr result (document.new ≡ document.old) }
    ensures edits { OnErr result (edits.new ≡ edits.old) }
    ensures moved { is_moved (plain step) ≡ true → IsErr result → ⊥ }
{
    match step {
        Step::Staged { count, taken } => turn_staged(alloc, count, taken, document, edits),
        Step::Discarded { edits: kept } => Ok(Step::Discarded {
            edits: replace(edits, kept),
        }),
        Step::Applied {
            document: old_document,
            edits: old_edits,
        } => Ok(Step::Applied {
            document: replace(document, old_document),
            edits: replace(edits, old_edits),
        }),
        Step::Patched { segment } => turn_patched(alloc, segment, document, edits),
    }
}

/// Whether a list has no splice.
fn is_none(list: &Splices) -> bool
    ensures { result ≡ is_none list.now }
{
    match list.held.as_slice() {
        [] => true,
        _ => false,
    }
}

/// Takes splices off, or stages them again.
fn turn_staged(
    alloc: Global,
    count: u64,
    taken: Splices,
    document: &Doc,
    edits: &mut Edits,
) -> Result<Step, Step>
    requires { CanTurn (staged count taken) (version_at document.now edits.old) }
    ensures turned { IfOk result (λ inverse. back (staged count taken) (version_at document.now edits.old)
        ≡ Some (turned (version_at document.now edits.new) (plain inverse))) }
    ensures given_back { IfErr result (λ same. same ≡ Step.Staged count taken) }
    ensures edits { OnErr result (edits.new ≡ edits.old) }
{
    if is_none(&taken) {
        match edits.cut_off(count) {
            Ok(cut) => Ok(Step::Staged { count, taken: cut }),
            Err(_) => Err(Step::Staged { count, taken }),
        }
    } else {
        match edits.stage(taken) {
            Ok(()) => Ok(Step::Staged {
                count,
                taken: Splices {
                    held: Vec::new(alloc),
                },
            }),
            Err((taken, StageFault::NoMemory)) => Err(Step::Staged { count, taken }),
            Err((_, StageFault::Overlap { .. })) => unreachable!(),
            Err((_, StageFault::TextLong)) => unreachable!(),
        }
    }
}

/// Puts the bytes of a segment back.
fn turn_patched(
    alloc: Global,
    segment: Segment,
    document: &mut Doc,
    edits: &mut Edits,
) -> Result<Step, Step>
    requires { CanTurn (patched segment.start segment.end segment.bytes) (version_at document.old edits.old) }
    ensures turned { IfOk result (λ inverse. back (patched segment.start segment.end segment.bytes)
        (version_at document.old edits.old) ≡ Some (turned (version_at document.new edits.new) (plain inverse))) }
    ensures given_back { IfErr result (λ same. same ≡ Step.Patched segment) }
    ensures document { OnErr result (document.new ≡ document.old) }
    ensures edits { OnErr result (edits.new ≡ edits.old) }
{
    let mut segment = segment;
    match exchange(alloc, document, &mut segment) {
        Ok(()) => {
            *edits = Edits::new(alloc, document.bytes().len() as u32);
            Ok(Step::Patched { segment })
        }
        Err(_) => Err(Step::Patched { segment }),
    }
}
