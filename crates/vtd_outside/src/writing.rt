//! All bytes of a slice to a file.

ghost use Rattle.std.specs.Prelude.{◌≡◌, ◌+◌, ◌-◌, ◌<◌, ◌≤◌, length, true};
ghost use Rattle.vtd_outside.specs.Written.{Adds};

use crate::{Failed, Files};

/// Adds all of `bytes` to the file being written, in order. It takes no memory. The file is then still being written.
///
/// # Errors
/// `Failed` only where the proper count of `files` rose. A prefix of the bytes was then added, and no file is being
/// written.
pub fn append_all<F: Files>(files: &mut F, bytes: &[u8]) -> Result<(), Failed>
    requires { (F.seen files.old).is_writing ≡ true }
    ensures { Adds (F.seen files.old) (F.seen files.new) bytes.now result }
{
    let mut sent = 0;
    while sent < bytes.len() {
        sent += files.append(&bytes[sent..])?;
    }
    Ok(())
}
