//! A package's file while a command changes it: locked, so that of two commands one waits for the other.

use crate::kinds::check_kind;
use crate::making::remove_leftovers;
use msipkg_format::{Failure, Identity, Output, Shown, System, SystemFile};
use std::fs::{self, Metadata};
use std::os::unix::fs::MetadataExt;

/// How often a lock is tried.
const TRIES: u32 = 500;

/// How many milliseconds are waited between two tries.
const PAUSE: u64 = 20;

/// The refusal of a file that stays locked.
const LOCKED: &str = "another program is changing this package; nothing was changed";

/// The refusal of a file that isn't as it was read.
const CHANGED: &str = "the file was changed meanwhile by another program; nothing was changed";

/// The refusal of standard input.
const INPUT: &str = "standard input can't be changed: give the path of a file";

/// A package's file that is being changed. It is locked as long as this is held, and known as it was before it was
/// read.
pub struct Claim {
    /// The path of the file itself, where the one that was given is a link.
    target: String,
    file: SystemFile,
    metadata: Metadata,
}

/// Written out, so that a function that owns one calls one drop, and its proof doesn't go through those of the parts.
impl Drop for Claim {
    fn drop(self) {
        let Claim {
            target: _,
            file: _,
            metadata: _,
        } = self;
    }
}

impl Claim {
    /// Locks the file of a package that is to be changed, before it is read. Waits while another program has it locked,
    /// for some ten seconds. What a change left beside it that was killed is removed.
    ///
    /// # Errors
    /// Fails if it is no regular file, if it stays locked, and as the calls of the system do.
    pub fn take(rt: &System, path: &str) -> Result<Claim, Failure> {
        if path == "-" {
            return Err(Failure::rule(INPUT));
        }
        check_kind(rt, path)?;
        let target = fs::canonicalize(&rt.rt, path)?.into_string();
        let file = locked(rt, target.as_str())?;
        remove_leftovers(rt, target.as_str())?;
        let metadata = file.metadata()?;
        Ok(Claim {
            target,
            file,
            metadata,
        })
    }

    pub(crate) fn target(&self) -> &str {
        self.target.as_str()
    }

    /// Sets the owner, the group and the permissions of a file to those of this one, as far as the user may.
    pub(crate) fn give_owner(&self, file: &SystemFile) -> Result<(), Failure> {
        Ok(file.take_after(&self.metadata)?)
    }

    /// Fails if the path leads to another file than it did, or if the file was written since.
    pub(crate) fn check_unchanged(&self, rt: &System) -> Result<(), Failure> {
        let now = rt.identity(self.target.as_str())?;
        if now.is_unchanged(&Identity::of(&self.metadata)) {
            Ok(())
        } else {
            Err(Failure::rule(CHANGED))
        }
    }

    /// Writes a line if the file has other names, which lead to the old bytes once it is replaced.
    pub fn note_names(&self, path: &str, notes: &mut Output) {
        let others = self.metadata.nlink().saturating_sub(1);
        if others == 0 {
            return;
        }
        let path = Shown::escaped(path);
        let names = if others == 1 { "name" } else { "names" };
        writeln!(
            notes,
            "msipkg: {path}: it has {others} other {names} (hard links), which keep the old package"
        );
    }
}

/// Opens a file and locks it, once no other program has it locked. On a file system without locks it is opened alone.
fn locked(rt: &System, target: &str) -> Result<SystemFile, Failure> {
    for _ in 0..TRIES {
        let file = rt.open(target)?;
        if file.lock().unwrap_or(true) && is_at(rt, &file, target)? {
            return Ok(file);
        }
        rt.wait(PAUSE);
    }
    Err(Failure::rule(LOCKED))
}

/// Returns whether a path leads to an open file. It doesn't where another program has replaced the file.
pub(crate) fn is_at(rt: &System, file: &SystemFile, path: &str) -> Result<bool, Failure> {
    let opened = Identity::of(&file.metadata()?);
    Ok(rt.identity(path)?.is_file(&opened))
}
