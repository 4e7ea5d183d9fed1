//! A generated run: its document and its script are made here, and no file is there.

ghost use Rattle.std.specs.Prelude.{◌≡◌, ℕ, ◌≤◌, List, Some};
ghost use Rattle.vtd_outside.specs.Causes.{Rose};
ghost use Rattle.vtd_script.specs.States.{state_of};
ghost use Rattle.vtd_running.specs.Meaning.{no_files};
ghost use Rattle.vtd_running.specs.Parts.{Carries, Generates};
ghost use Rattle.vtd_running.specs.Statuses.{EndsGenerated, WriteCounts};

use crate::sending::refuse;
use crate::status::{Status, status_of};
use std::alloc::Global;
use vtd_builder::BuildFault;
use vtd_generator::{generated_document, generated_script};
use vtd_outside::{MemoryFiles, Sink};
use vtd_script::{Session, carry_out, fault_line};

/// The most bytes that one call moves to or from a file of a generated run, which has none.
const PIECE: usize = 4096;

/// Carries out the lines of the generated script. None of them asks for a file, so `FileFault` does not come.
fn carry_generated<K: Sink>(alloc: Global, session: Session, out: &mut K) -> Status
    ensures known { (sent : List ℕ) → K.taken out.old ≡ Some sent
        → Carries (Rose (K.faults out.old) (K.faults out.new)) (state_of session no_files) sent (K.taken out.new)
        result }
    ensures sends { WriteCounts result (K.faults out.old) (K.faults out.new) }
    ensures ends { EndsGenerated result }
{
    let mut files = MemoryFiles::new(alloc, Vec::new(alloc), PIECE);
    status_of(carry_out(session, false, generated_script(), &mut files, out))
}

/// Makes the document of so many orders, and carries out the lines of the generated script over it. It takes time and
/// memory linear in the number of orders.
pub fn run_generated<K: Sink>(alloc: Global, count: u32, out: &mut K) -> Status
    requires { count ≤ 1000000 }
    ensures known { (sent : List ℕ) → K.taken out.old ≡ Some sent
        → Generates (Rose (K.faults out.old) (K.faults out.new)) count sent (K.taken out.new) result }
    ensures sends { WriteCounts result (K.faults out.old) (K.faults out.new) }
    ensures ends { EndsGenerated result }
{
    let Ok(bytes) = generated_document(alloc, count) else {
        return Status::NoMemory;
    };
    match Session::start(alloc, bytes) {
        Ok(session) => carry_generated(alloc, session, out),
        Err((_, BuildFault::Doc(fault))) => match fault_line(alloc, fault) {
            Ok(line) => refuse(out, &line),
            Err(_) => Status::NoMemory,
        },
        Err((_, BuildFault::NoMemory)) => Status::NoMemory,
    }
}
