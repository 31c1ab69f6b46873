//! Replacing a package's file whole: the new bytes are written beside it and synced, and then take its name, so that an
//! interrupt or a full disk leaves the old file.

use crate::claim::Claim;
use crate::making::{open_beside, settle, write_synced};
use msipkg_format::{Failure, System, SystemFile};

/// Replaces the bytes of a package's file. The new file has the owner, the group and the permissions of the old one, as
/// far as the user may set them. Where its path is a symbolic link, the file that it leads to is replaced, and the link
/// stays.
///
/// # Errors
/// Fails if the file isn't as it was when it was claimed, and as the calls of the system do. Then the old file is as it
/// was, and no other is left beside it.
pub fn replace_file(rt: &System, claim: &Claim, bytes: &[u8]) -> Result<(), Failure> {
    let (made, mut file) = open_beside(rt, claim.target())?;
    let written = fill(rt, claim, &mut file, bytes);
    settle(rt, written, made.as_str(), claim.target(), true)
}

/// Writes a file's owner, permissions and bytes. Fails if the one that it is to replace was changed.
fn fill(rt: &System, claim: &Claim, file: &mut SystemFile, bytes: &[u8]) -> Result<(), Failure> {
    claim.give_owner(file)?;
    write_synced(file, bytes)?;
    claim.check_unchanged(rt)
}
