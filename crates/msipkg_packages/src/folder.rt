//! Folders that files are written to.

use crate::kinds::check_way;
use crate::making::write_new;
use msipkg_format::{Failure, System, at_file, path_in};
use msipkg_safe_names::SafeName;
use std::alloc::{AllocError, Global};

/// Where files go.
#[derive(Clone, Copy, Debug)]
pub struct Folder<'a> {
    /// The path of the folder.
    pub path: &'a str,
    /// Whether files that are there already are replaced.
    pub is_forced: bool,
}

impl Folder<'_> {
    /// Returns whether it is standard output that is meant.
    pub fn is_output(&self) -> bool {
        self.path == "-"
    }

    /// Returns the path of a file of this name, which lies in the folder itself.
    ///
    /// # Errors
    /// Fails if memory is refused.
    pub fn path_of(&self, alloc: Global, name: &SafeName) -> Result<String, AllocError> {
        path_in(alloc, self.path, name.as_str())
    }

    /// Fails if a file of this name can't be written, since something is in its way.
    ///
    /// # Errors
    /// Fails as `check_way` does, at the file's path.
    pub fn check(&self, rt: &System, name: &SafeName) -> Result<(), Failure> {
        let path = self.path_of(rt.alloc(), name)?;
        let checked = check_way(rt, path.as_str(), self.is_forced);
        at_file(rt.alloc(), path.as_str(), checked)
    }

    /// Writes a file of this name.
    ///
    /// # Errors
    /// Fails as `write_new` does, at the file's path.
    pub fn write(&self, rt: &System, name: &SafeName, bytes: &[u8]) -> Result<(), Failure> {
        let path = self.path_of(rt.alloc(), name)?;
        let written = write_new(rt, path.as_str(), self.is_forced, bytes);
        at_file(rt.alloc(), path.as_str(), written)
    }
}
