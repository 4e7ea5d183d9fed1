//! The one line that ends a run.

ghost use Rattle.std.specs.Prelude.{◌⊎◌, ◌≡◌, ℕ, List, Some};
ghost use Rattle.vtd_outside.specs.Causes.{Rose};
ghost use Rattle.vtd_running.specs.Meaning.{usage_line};
ghost use Rattle.vtd_running.specs.Parts.{LineSent};
ghost use Rattle.vtd_running.specs.Statuses.{WriteCounts};

use crate::status::Status;
use vtd_outside::{Sink, send};

/// Sends the usage line.
pub fn say_usage<E: Sink>(err: &mut E) -> Status
    ensures known { (said : List ℕ) → E.taken err.old ≡ Some said
        → LineSent (Rose (E.faults err.old) (E.faults err.new)) usage_line Status.Usage said (E.taken err.new) result }
    ensures counts { WriteCounts result (E.faults err.old) (E.faults err.new) }
    ensures ends { (result ≡ Status.Usage) ⊎ (result ≡ Status.WriteFault) }
{
    match send(err, b"usage: vtd [-k] [-x] DOC | vtd -g N\n") {
        Ok(()) => Status::Usage,
        Err(_) => Status::WriteFault,
    }
}

/// Sends the line of what is refused.
pub fn refuse<K: Sink>(out: &mut K, line: &[u8]) -> Status
    ensures known { (sent : List ℕ) → K.taken out.old ≡ Some sent
        → LineSent (Rose (K.faults out.old) (K.faults out.new)) line.now Status.Refused sent (K.taken out.new) result }
    ensures counts { WriteCounts result (K.faults out.old) (K.faults out.new) }
    ensures ends { (result ≡ Status.Refused) ⊎ (result ≡ Status.WriteFault) }
{
    match send(out, line) {
        Ok(()) => Status::Refused,
        Err(_) => Status::WriteFault,
    }
}
