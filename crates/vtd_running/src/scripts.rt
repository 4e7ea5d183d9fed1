//! The script of a run.

ghost use Rattle.std.specs.Prelude.{◌≡◌, ℕ, List, Some, false};
ghost use Rattle.vtd_outside.specs.Causes.{Rose};
ghost use Rattle.vtd_outside.specs.Known.{NameMap};
ghost use Rattle.vtd_script.specs.States.{state_of};
ghost use Rattle.vtd_running.specs.Meaning.{RunsScript};
ghost use Rattle.vtd_running.specs.Parts.{Left};
ghost use Rattle.vtd_running.specs.Statuses.{ReadCounts, RunFiles, WriteCounts, EndsScript};

use crate::sending::refuse;
use crate::status::{Status, status_of};
use std::alloc::Global;
use vtd_outside::{Files, GatherFault, Sink, Source, gather_source};
use vtd_script::{Session, carry_out};

/// The longest script, in bytes.
const SCRIPT_LIMIT: u32 = 16_777_216;

/// Reads the script to its end, and carries out its lines in turn.
pub fn run_script<F: Files, S: Source, K: Sink>(
    alloc: Global,
    session: Session,
    keep: bool,
    files: &mut F,
    script: &mut S,
    out: &mut K,
) -> Status
    requires { (F.seen files.old).is_writing ≡ false }
    ensures known { (map : NameMap) (left sent : List ℕ) → (F.seen files.old).contents ≡ Some map
        → S.left script.old ≡ Some left → K.taken out.old ≡ Some sent
        → Left (RunsScript (Rose (S.faults script.old) (S.faults script.new))
        (Rose (F.seen files.old).proper (F.seen files.new).proper) (Rose (K.faults out.old) (K.faults out.new)) keep
        (state_of session map) left) (F.seen files.new).contents (S.left script.new) sent (K.taken out.new) result }
    ensures reads { ReadCounts result (S.faults script.old) (S.faults script.new) }
    ensures sends { WriteCounts result (K.faults out.old) (K.faults out.new) }
    ensures counts { RunFiles result
        (F.seen files.old).missed (F.seen files.new).missed (F.seen files.old).proper (F.seen files.new).proper }
    ensures writing_stays { (F.seen files.new).is_writing ≡ false }
    ensures no_usage { EndsScript result }
{
    match gather_source(alloc, script, SCRIPT_LIMIT) {
        Ok(lines) => status_of(carry_out(session, keep, &lines, files, out)),
        Err(GatherFault::Failed) => Status::ReadFault,
        Err(GatherFault::Long) => refuse(out, b"refused script-long\n"),
        Err(GatherFault::NoMemory) => Status::NoMemory,
    }
}
