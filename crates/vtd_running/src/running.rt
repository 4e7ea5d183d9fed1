//! The top call.

ghost use Rattle.std.specs.Prelude.{◌⊎◌, ◌≡◌, ℕ, Bool, List, map, false, Some, string_bytes, IsTrue};
ghost use Rattle.vtd_outside.specs.Causes.{Rose, is_missing};
ghost use Rattle.vtd_outside.specs.Known.{NameMap};
ghost use Rattle.vtd_running.specs.Form.{form, document, generation, index_file};
ghost use Rattle.vtd_running.specs.Meaning.{Runs, RunsIndexName, RunsName, Means, Ran};
ghost use Rattle.vtd_running.specs.Parts.{Left};
ghost use Rattle.vtd_running.specs.Statuses.{ReadCounts, RunFiles, SendCounts, WriteCounts, FitsForm};
ghost use Rattle.vtd_running.specs.Statuses.{EndsMissing, EndsScript};

use crate::generating::run_generated;
use crate::indexes::{NoIndex, read_index};
use crate::reading::{NoDocument, read_document};
use crate::scripts::run_script;
use crate::sending::{refuse, say_usage};
use crate::status::Status;
use crate::words::{Words, read_words};
use std::alloc::Global;
use vtd_outside::{Files, Sink, Source};
use vtd_script::{fault_line, index_fault_line};

/// Reads the document of a name, and then the script, and carries out the lines.
fn run_document<F: Files, S: Source, K: Sink>(
    alloc: Global,
    name: &str,
    keep: bool,
    files: &mut F,
    script: &mut S,
    out: &mut K,
) -> Status
    requires { (F.seen files.old).is_writing ≡ false }
    ensures known { (map : NameMap) (left sent : List ℕ) → (F.seen files.old).contents ≡ Some map
        → S.left script.old ≡ Some left → K.taken out.old ≡ Some sent
        → Left (RunsName (Rose (S.faults script.old) (S.faults script.new))
        (Rose (F.seen files.old).proper (F.seen files.new).proper) (Rose (K.faults out.old) (K.faults out.new)) keep
        map name.now left) (F.seen files.new).contents (S.left script.new) sent (K.taken out.new) result }
    ensures reads { ReadCounts result (S.faults script.old) (S.faults script.new) }
    ensures sends { WriteCounts result (K.faults out.old) (K.faults out.new) }
    ensures counts { RunFiles result
        (F.seen files.old).missed (F.seen files.new).missed (F.seen files.old).proper (F.seen files.new).proper }
    ensures missing { IsTrue (is_missing (F.seen files.old).contents name.now) → EndsMissing result }
    ensures writing_stays { (F.seen files.new).is_writing ≡ false }
    ensures no_usage { EndsScript result }
{
    match read_document(alloc, files, name) {
        Ok(session) => run_script(alloc, session, keep, files, script, out),
        Err(NoDocument::Failed) => Status::FileFault,
        Err(NoDocument::NoMemory) => Status::NoMemory,
        Err(NoDocument::Long) => refuse(out, b"refused file-long\n"),
        Err(NoDocument::Unfit(fault)) => match fault_line(alloc, fault) {
            Ok(line) => refuse(out, &line),
            Err(_) => Status::NoMemory,
        },
    }
}

/// Reads the index file of a name, and then the script, and carries out the lines.
fn run_index<F: Files, S: Source, K: Sink>(
    alloc: Global,
    name: &str,
    keep: bool,
    files: &mut F,
    script: &mut S,
    out: &mut K,
) -> Status
    requires { (F.seen files.old).is_writing ≡ false }
    ensures known { (map : NameMap) (left sent : List ℕ) → (F.seen files.old).contents ≡ Some map
        → S.left script.old ≡ Some left → K.taken out.old ≡ Some sent
        → Left (RunsIndexName (Rose (S.faults script.old) (S.faults script.new))
        (Rose (F.seen files.old).proper (F.seen files.new).proper) (Rose (K.faults out.old) (K.faults out.new)) keep
        map name.now left) (F.seen files.new).contents (S.left script.new) sent (K.taken out.new) result }
    ensures reads { ReadCounts result (S.faults script.old) (S.faults script.new) }
    ensures sends { WriteCounts result (K.faults out.old) (K.faults out.new) }
    ensures counts { RunFiles result
        (F.seen files.old).missed (F.seen files.new).missed (F.seen files.old).proper (F.seen files.new).proper }
    ensures missing { IsTrue (is_missing (F.seen files.old).contents name.now) → EndsMissing result }
    ensures writing_stays { (F.seen files.new).is_writing ≡ false }
    ensures no_usage { EndsScript result }
{
    match read_index(alloc, files, name) {
        Ok(session) => run_script(alloc, session, keep, files, script, out),
        Err(NoIndex::Failed) => Status::FileFault,
        Err(NoIndex::NoMemory) => Status::NoMemory,
        Err(NoIndex::Long) => refuse(out, b"refused file-long\n"),
        Err(NoIndex::Unfit(fault)) => match index_fault_line(alloc, fault) {
            Ok(line) => refuse(out, &line),
            Err(_) => Status::NoMemory,
        },
    }
}

/// Runs the program: reads the document that the words name, then the script, and carries out its lines in turn.
///
/// `words` are those after the program's name, read by `clap`: one name, with `-k`, `-x`, both or neither; or `-g` and
/// one to seven digits whose number is 1 to 1,000,000. With `-x` the file of the name is read as an index file, whose
/// document is the first. Where they are not of this form, `err` takes the usage line, and it takes
/// nothing else. With `-g` the document of so many orders and its own script are made, the lines are carried out beside
/// no files, and neither `files` nor `script` is touched. A document, a script or a command that is refused prints one
/// line on `out`. A refused document ends the run, and so does a script of more than 16,777,216 bytes, of which no line
/// is carried out. A refused command ends it too, but with `-k` the run goes on and ends as refused. No file may be
/// being written at the call, and none is after it.
///
/// How a run may end, `Runs` of `specs/Meaning.antt` says, and what is meant, `Means`. Where the objects say their
/// bytes, `Done`, `Refused` and `Usage` come only with exactly what is meant. At every other status one k tells the
/// output and the files: those of the first k lines of the script, and what the table of endings adds for the next one.
/// But where the usage line, or the line of a refused document or script, is cut off, a prefix of it alone was sent,
/// and the files are those at the call.
///
/// # Errors
/// `ReadFault` only where the count of faults of `script` rose in this call: nothing was printed, and no file changed.
/// `WriteFault` only where that of `out` did, or that of `err` where the words are not of the form: a prefix of the
/// next lines was sent, and the files are those after their command. `FileFault` only where a name is known not to be
/// there, or the proper count of `files` rose. `NoMemory` may come at any time, between two lines or before the first.
pub fn run<F: Files, S: Source, K: Sink, E: Sink>(
    alloc: Global,
    words: &[String],
    files: &mut F,
    script: &mut S,
    out: &mut K,
    err: &mut E,
) -> Status
    requires { (F.seen files.old).is_writing ≡ false }
    // Where the bytes of all objects are known, the run ended as the table of endings says.
    ensures ends { (contents : NameMap) (left taken known : List ℕ) → (F.seen files.old).contents ≡ Some contents
        → S.left script.old ≡ Some left → K.taken out.old ≡ Some taken → E.taken err.old ≡ Some known
        → Ran (Runs (Rose (S.faults script.old) (S.faults script.new))
        (Rose (F.seen files.old).proper (F.seen files.new).proper)
        (Rose (K.faults out.old) (K.faults out.new)) (Rose (E.faults err.old) (E.faults err.new))
        (form (map string_bytes words.now)) contents left) (F.seen files.new).contents (S.left script.new)
        taken (K.taken out.new) known (E.taken err.new) result }
    // It left exactly what is meant, or there was no memory, where no count rose but for a name that is not there.
    ensures exact { (contents : NameMap) (left taken known : List ℕ) → (F.seen files.old).contents ≡ Some contents
        → S.left script.old ≡ Some left → K.taken out.old ≡ Some taken → E.taken err.old ≡ Some known
        → ¬ Rose (S.faults script.old) (S.faults script.new)
        → ¬ Rose (F.seen files.old).proper (F.seen files.new).proper
        → ¬ Rose (K.faults out.old) (K.faults out.new) → ¬ Rose (E.faults err.old) (E.faults err.new)
        → (result ≡ Status.NoMemory) ⊎ Ran (Means (form (map string_bytes words.now)) contents left)
        (F.seen files.new).contents (S.left script.new) taken (K.taken out.new) known (E.taken err.new) result }
    // Whether the bytes are known or not: a fault comes only by its cause, and the words tell of the status.
    ensures read_fault { ReadCounts result (S.faults script.old) (S.faults script.new) }
    ensures write_fault { SendCounts (form (map string_bytes words.now)) result
        (K.faults out.old) (K.faults out.new) (E.faults err.old) (E.faults err.new) }
    ensures file_fault { RunFiles result
        (F.seen files.old).missed (F.seen files.new).missed (F.seen files.old).proper (F.seen files.new).proper }
    ensures usage { FitsForm (form (map string_bytes words.now)) result }
    ensures missing { (name : List ℕ) (keep : Bool) → form (map string_bytes words.now) ≡ document name keep
        → IsTrue (is_missing (F.seen files.old).contents name) → EndsMissing result }
    ensures missing_index { (name : List ℕ) (keep : Bool) → form (map string_bytes words.now) ≡ index_file name keep
        → IsTrue (is_missing (F.seen files.old).contents name) → EndsMissing result }
    // A generated run touches neither the files nor the script.
    ensures untouched { (count : ℕ) → form (map string_bytes words.now) ≡ generation count
        → (files.new ≡ files.old) × (script.new ≡ script.old) }
    ensures writing_stays { (F.seen files.new).is_writing ≡ false }
{
    match read_words(alloc, words) {
        Ok(Words::Document(name, keep)) => run_document(alloc, name, keep, files, script, out),
        Ok(Words::IndexFile(name, keep)) => run_index(alloc, name, keep, files, script, out),
        Ok(Words::Generation(count)) => run_generated(alloc, count, out),
        Ok(Words::NoForm) => say_usage(err),
        Err(_) => Status::NoMemory,
    }
}
