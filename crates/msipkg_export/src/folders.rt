//! The folders that an export makes.

use msipkg_packages::output::{Failure, System};
use std::fs;
use std::io::ErrorKind;

/// The refusal of a file, or a link, in the place of a folder.
const NO_FOLDER: &str = "it is no folder, but a file or a link";

/// Makes a folder, and those above it, where they don't exist.
pub(crate) fn make_folder(rt: &System, path: &str) -> Result<(), Failure> {
    match fs::create_dir_all(&rt.rt, path) {
        Ok(()) => Ok(()),
        Err(error) => Err(Failure::from(error).at(rt.alloc(), "folder", path)),
    }
}

/// Makes a folder in a folder, where it doesn't exist. A link in its place isn't followed, since files would be written
/// outside the outer folder then. Fails if something else is in its place.
pub(crate) fn make_inner_folder(rt: &System, path: &str) -> Result<(), Failure> {
    match make_or_check(rt, path) {
        Ok(()) => Ok(()),
        Err(failure) => Err(failure.at(rt.alloc(), "folder", path)),
    }
}

fn make_or_check(rt: &System, path: &str) -> Result<(), Failure> {
    match fs::create_dir(&rt.rt, path) {
        Ok(()) => Ok(()),
        Err(error) if error.kind() == ErrorKind::AlreadyExists => check_folder(rt, path),
        Err(error) => Err(Failure::from(error)),
    }
}

/// Refuses what isn't itself a folder.
fn check_folder(rt: &System, path: &str) -> Result<(), Failure> {
    if fs::symlink_metadata(&rt.rt, path)?.is_dir() {
        Ok(())
    } else {
        Err(Failure::rule(NO_FOLDER))
    }
}
