//! The lines of a script, carried out in turn.

ghost use Rattle.std.specs.Prelude.{◌≡◌, ℕ, ◌+◌, ◌<◌, ◌≤◌, List, length, Bool, true, false, Some, Err, IfErr};
ghost use Rattle.vtd_outside.specs.Causes.{Rose};
ghost use Rattle.vtd_outside.specs.Known.{NameMap};
ghost use Rattle.vtd_lines.specs.Lines.{lines};
ghost use Rattle.vtd_script.specs.States.{state_of};
ghost use Rattle.vtd_script.specs.Steps.{asks_any_file, asks_file, asks_for};
ghost use Rattle.vtd_script.specs.Runs.{TurnedKnown, EndsKnown};
ghost use Rattle.vtd_script.specs.Changes.{EndFiles, EndSends, TurnFiles, TurnSends};

use crate::endings::{End, Ending, StepFault};
use crate::session::Session;
use vtd_lines::next_line;
use vtd_outside::{Files, Sink};

/// Carries out one line, and answers whether one was refused so far.
fn carry_line<F: Files, K: Sink>(
    session: &mut Session,
    keep: bool,
    line: &[u8],
    files: &mut F,
    out: &mut K,
    refused: bool,
) -> Result<bool, End>
    requires { (F.seen files.old).is_writing ≡ false }
    ensures known { (map : NameMap) (sent : List ℕ) → (F.seen files.old).contents ≡ Some map
        → K.taken out.old ≡ Some sent → TurnedKnown (Rose (F.seen files.old).proper (F.seen files.new).proper)
        (Rose (K.faults out.old) (K.faults out.new)) keep (state_of session.old map) line.now refused result
        session.new (F.seen files.new).contents sent (K.taken out.new) }
    ensures asked { result ≡ Err End.FileFault → asks_file (asks_for line.now) ≡ true }
    ensures writing_stays { (F.seen files.new).is_writing ≡ false }
    ensures counts { TurnFiles result
        (F.seen files.old).missed (F.seen files.new).missed (F.seen files.old).proper (F.seen files.new).proper }
    ensures sends { TurnSends result (K.faults out.old) (K.faults out.new) }
{
    match session.step(line, files, out) {
        Ok(Ending::Skipped) => Ok(refused),
        Ok(Ending::Done) => Ok(refused),
        Ok(Ending::Refused(_)) => {
            if !keep {
                return Err(End::Stopped);
            }
            Ok(true)
        }
        Err(StepFault::File) => Err(End::FileFault),
        Err(StepFault::Write) => Err(End::WriteFault),
        Err(StepFault::NoMemory) => Err(End::NoMemory),
    }
}

/// Carries out the lines of a script in turn. A refused line ends the run, but with `keep` the run goes on. No file may
/// be being written at the call, and none is after it.
///
/// Where files and output say their bytes, for some k the first k lines are carried out, with exactly their output and
/// their files, and the run ends at the next line, or after the last, as `Ends` of `specs/Runs.antt` says. A count of
/// faults rises only at `FileFault` and `WriteFault`, and `FileFault` comes only where some line asks for a file.
/// `NoMemory` may come at any line; that line then has printed
/// nothing and changed nothing.
pub fn carry_out<F: Files, K: Sink>(
    mut session: Session,
    keep: bool,
    script: &[u8],
    files: &mut F,
    out: &mut K,
) -> End
    requires size { length script.now ≤ 16777216 }
    requires writing { (F.seen files.old).is_writing ≡ false }
    ensures known { (map : NameMap) (sent : List ℕ) → (F.seen files.old).contents ≡ Some map
        → K.taken out.old ≡ Some sent → EndsKnown (Rose (F.seen files.old).proper (F.seen files.new).proper)
        (Rose (K.faults out.old) (K.faults out.new)) keep
        (state_of session map) (lines script.now) result (F.seen files.new).contents sent (K.taken out.new) }
    ensures asked { result ≡ End.FileFault → asks_any_file (lines script.now) ≡ true }
    ensures writing_stays { (F.seen files.new).is_writing ≡ false }
    ensures file_fault { EndFiles result
        (F.seen files.old).missed (F.seen files.new).missed (F.seen files.old).proper (F.seen files.new).proper }
    ensures write_fault { EndSends result (K.faults out.old) (K.faults out.new) }
{
    let mut at = 0;
    let mut refused = false;
    while let Some(line) = next_line(script, at) {
        let text = &script[line.start as usize..line.end as usize];
        match carry_line(&mut session, keep, text, files, out, refused) {
            Ok(now) => refused = now,
            Err(end) => return end,
        }
        at = line.next;
    }
    if refused {
        return End::Stopped;
    }
    End::Done
}
