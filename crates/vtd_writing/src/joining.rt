//! Short slices are joined before they are added to a file.

ghost use Rattle.std.specs.Prelude.{◌≡◌, ◌++◌, [], true, OnOk};
ghost use Rattle.vtd_outside.specs.Written.{Adds};
ghost use Rattle.vtd_writing.specs.Joins.{Joins};

use arrayvec::ArrayVec;
use vtd_edits::Turn;
use vtd_outside::{Failed, Files, append_all};

/// How many bytes are joined at most.
const ROOM: usize = 65536;

/// Bytes that are to be added to the file being written.
pub type Joined = ArrayVec<u8, ROOM>;

/// Adds what is joined to the file being written.
pub fn flush<F: Files>(joined: &mut Joined, files: &mut F) -> Result<(), Failed>
    requires { (F.seen files.old).is_writing ≡ true }
    ensures adds { Adds (F.seen files.old) (F.seen files.new) joined.old.items result }
    ensures empty { OnOk result (joined.new.items ≡ []) }
{
    if let Err(failed) = append_all(files, joined.as_slice()) {
        return Err(failed);
    }
    joined.clear();
    Ok(())
}

/// Joins bytes to those that are to be added. Where there is no room, those are added to the file first; bytes for
/// which there is no room at all are added to it at once.
pub fn join<F: Files>(joined: &mut Joined, bytes: &[u8], files: &mut F) -> Result<(), Failed>
    requires { (F.seen files.old).is_writing ≡ true }
    ensures { Joins (F.seen files.old) (F.seen files.new) joined.old.items joined.new.items bytes.now result }
{
    if joined.try_extend_from_slice(bytes).is_ok() {
        return Ok(());
    }
    if let Err(failed) = flush(joined, files) {
        return Err(failed);
    }
    if joined.try_extend_from_slice(bytes).is_ok() {
        return Ok(());
    }
    append_all(files, bytes)
}

/// Joins what one splice gives the new bytes.
pub fn join_turn<F: Files>(
    joined: &mut Joined,
    turn: &Turn<'_>,
    files: &mut F,
) -> Result<(), Failed>
    requires { (F.seen files.old).is_writing ≡ true }
    ensures { Joins (F.seen files.old) (F.seen files.new) joined.old.items joined.new.items
        (turn.now.kept.now ++ turn.now.text.now) result }
{
    if let Err(failed) = join(joined, turn.kept, files) {
        return Err(failed);
    }
    join(joined, turn.text, files)
}
