//! A file that takes the new bytes.

ghost use Rattle.std.specs.Prelude.{◌≡◌, length, true, false};
ghost use Rattle.vtd_outside.specs.Causes.{HasFileCause};
ghost use Rattle.vtd_outside.specs.Written.{Adds, Writes};
ghost use Rattle.vtd_edits.specs.Splices.{spliced};

use crate::joining::{Joined, flush, join, join_turn};
use vtd_edits::{Edits, rest_of, turn_of};
use vtd_outside::{Failed, Files};

/// Adds the new bytes to the file being written.
fn append_new<F: Files>(bytes: &[u8], edits: &Edits, files: &mut F) -> Result<(), Failed>
    requires length { length bytes.now ≡ edits.now.len }
    requires writing { (F.seen files.old).is_writing ≡ true }
    ensures { Adds (F.seen files.old) (F.seen files.new) (spliced bytes.now edits.now.splices) result }
{
    let mut joined = Joined::new();
    let mut done = 0;
    for i in 0..edits.turns() {
        let turn = turn_of(edits.splice(i), bytes, done);
        if let Err(failed) = join_turn(&mut joined, &turn, files) {
            return Err(failed);
        }
        done = turn.end;
    }
    if let Err(failed) = join(&mut joined, rest_of(bytes, done), files) {
        return Err(failed);
    }
    flush(&mut joined, files)
}

/// Writes the new bytes of a document of the length that the edits are for to the file of that name, in place of what
/// it held. The bytes are those that `spliced` gives. It takes no memory: slices of the old bytes and staged texts are
/// added one after the other, short ones joined in a buffer of 65,536 bytes. No file may be being written at the call,
/// and none is after it.
///
/// # Errors
/// `Failed` only where the proper count of `files` rose. All files are then as before, or the file of that name holds a
/// prefix of the new bytes.
pub fn write<F: Files>(name: &str, bytes: &[u8], edits: &Edits, files: &mut F) -> Result<(), Failed>
    requires length { length bytes.now ≡ edits.now.len }
    requires writing { (F.seen files.old).is_writing ≡ false }
    ensures writes { Writes (F.seen files.old).contents (F.seen files.new).contents name.now
        (spliced bytes.now edits.now.splices) result }
    ensures writing_ends { (F.seen files.new).is_writing ≡ false }
    ensures cause { HasFileCause false (F.seen files.old).missed (F.seen files.new).missed (F.seen files.old).proper
        (F.seen files.new).proper result }
{
    if let Err(failed) = files.begin_write(name) {
        return Err(failed);
    }
    if let Err(failed) = append_new(bytes, edits, files) {
        return Err(failed);
    }
    files.finish()
}
