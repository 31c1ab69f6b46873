//! Making a file whole: its bytes are written beside the path that it is to have, and it gets that once the disk has
//! them, so that an interrupt or a full disk leaves no part of it there.

use crate::claim::is_at;
use crate::kinds::{check_way, is_written_to};
use msipkg_format::{Failure, System, SystemFile};
use std::alloc::{AllocError, Global};
use std::fs;
use std::io::{ErrorKind, Write};

/// How many names beside a file are tried for its new bytes.
const TRIES: u32 = 100;

/// A file that is being made, and doesn't have its path yet.
pub struct NewFile {
    /// The path that it has until it is whole, or none if it is a device or a pipe, which is written to as it is.
    made: Option<String>,
    /// The path that it is to have.
    path: String,
    /// Whether a file that has its path is replaced.
    is_forced: bool,
}

/// Written out, so that a function that owns one calls one drop, and its proof doesn't go through those of the parts.
impl Drop for NewFile {
    fn drop(self) {
        let NewFile {
            made: _,
            path: _,
            is_forced: _,
        } = self;
    }
}

impl NewFile {
    /// Gives the file its path, or removes it where it wasn't written. It is to be open still.
    ///
    /// # Errors
    /// Fails as writing it did, if a file is there meanwhile that isn't to be replaced, and as the calls of the system
    /// do. Then an old file of the path is as it was, and the new one isn't left.
    pub fn settle(&self, rt: &System, written: Result<(), Failure>) -> Result<(), Failure> {
        match &self.made {
            None => written,
            Some(made) => {
                let path = self.path.as_str();
                settle(rt, written, made.as_str(), path, self.is_forced)
            }
        }
    }
}

/// Makes a file of these bytes, with a path that the user gave. A regular file that is there already is replaced where
/// `is_forced` says so, and where the path is a symbolic link, the one that it leads to.
///
/// # Errors
/// Fails if something is there that isn't to be replaced, and as the calls of the system do. Then an old file is as it
/// was, and no other is left.
pub fn write_file(rt: &System, path: &str, is_forced: bool, bytes: &[u8]) -> Result<(), Failure> {
    let (new, mut file) = open_given(rt, path, is_forced)?;
    let written = write_synced(&mut file, bytes);
    new.settle(rt, written)
}

/// Makes a file of these bytes. An existing regular file is replaced only where `is_forced`. A symbolic link to one is
/// replaced itself: it isn't followed.
pub(crate) fn write_new(
    rt: &System,
    path: &str,
    is_forced: bool,
    bytes: &[u8],
) -> Result<(), Failure> {
    let (new, mut file) = open_new(rt, path, is_forced)?;
    let written = write_synced(&mut file, bytes);
    new.settle(rt, written)
}

/// Opens a file that is to have a path once it is whole. A symbolic link that is there isn't followed. Whoever has
/// written the file ends by `NewFile::settle`.
///
/// # Errors
/// Fails if something is there that isn't to be replaced, and as the calls of the system do. Then no new file is left.
pub fn open_new(
    rt: &System,
    path: &str,
    is_forced: bool,
) -> Result<(NewFile, SystemFile), Failure> {
    check_way(rt, path, is_forced)?;
    open_for(rt, String::from_str(rt.alloc(), path)?, is_forced)
}

/// Opens a file for a path that the user gave. If that leads to a device or a pipe, this is written to. Whoever has
/// written it ends by `NewFile::settle`.
///
/// # Errors
/// Fails if something is there that isn't to be replaced, and as the calls of the system do. Then no new file is left.
pub fn open_output(
    rt: &System,
    path: &str,
    is_forced: bool,
) -> Result<(NewFile, SystemFile), Failure> {
    if !is_written_to(rt, path) {
        return open_given(rt, path, is_forced);
    }
    let new = NewFile {
        made: None,
        path: String::from_str(rt.alloc(), path)?,
        is_forced,
    };
    Ok((new, rt.open_to_write(path)?))
}

fn open_given(rt: &System, path: &str, is_forced: bool) -> Result<(NewFile, SystemFile), Failure> {
    check_way(rt, path, is_forced)?;
    open_for(rt, followed(rt, path)?, is_forced)
}

fn open_for(rt: &System, path: String, is_forced: bool) -> Result<(NewFile, SystemFile), Failure> {
    let (made, file) = open_beside(rt, path.as_str())?;
    let new = NewFile {
        made: Some(made),
        path,
        is_forced,
    };
    Ok((new, file))
}

/// Returns the path of a file itself, where the given one is a link to it, so that no link of the system is replaced,
/// such as `/dev/stdout`.
fn followed(rt: &System, path: &str) -> Result<String, Failure> {
    match fs::symlink_metadata(&rt.rt, path) {
        Ok(metadata) if metadata.is_symlink() => Ok(fs::canonicalize(&rt.rt, path)?.into_string()),
        Ok(_) | Err(_) => Ok(String::from_str(rt.alloc(), path)?),
    }
}

pub(crate) fn write_synced(file: &mut SystemFile, bytes: &[u8]) -> Result<(), Failure> {
    file.write_all(bytes)?;
    Ok(file.sync_all()?)
}

/// Moves the file at `made` to `path`, or removes it where it wasn't written. On failure an old file of the path is as
/// it was, and the new one isn't left.
pub(crate) fn settle(
    rt: &System,
    written: Result<(), Failure>,
    made: &str,
    path: &str,
    is_forced: bool,
) -> Result<(), Failure> {
    let settled = match written {
        Ok(()) => give_path(rt, made, path, is_forced),
        Err(failure) => Err(failure),
    };
    if settled.is_err() {
        let _ = fs::remove_file(&rt.rt, made);
    }
    settled
}

fn give_path(rt: &System, made: &str, path: &str, is_forced: bool) -> Result<(), Failure> {
    if is_forced {
        return Ok(fs::rename(&rt.rt, made, path)?);
    }
    match fs::hard_link(&rt.rt, made, path) {
        Ok(()) => {
            let _ = fs::remove_file(&rt.rt, made);
            Ok(())
        }
        Err(_) => rename_unforced(rt, made, path),
    }
}

/// Renames a file on a file system that has no hard links, or fails if something exists at the new path.
fn rename_unforced(rt: &System, made: &str, path: &str) -> Result<(), Failure> {
    check_way(rt, path, false)?;
    Ok(fs::rename(&rt.rt, made, path)?)
}

/// Opens a new file beside another, and returns its path too. It is locked, so that no other program takes it for one
/// that was left. Fails if all names for it are taken.
pub(crate) fn open_beside(rt: &System, target: &str) -> Result<(String, SystemFile), Failure> {
    for number in 0..TRIES {
        let path = beside_path(rt.alloc(), target, number)?;
        remove_leftover(rt, path.as_str());
        if let Some(file) = create_locked(rt, path.as_str())? {
            return Ok((path, file));
        }
    }
    Err(Failure::rule("each name beside it that was tried is taken"))
}

/// Makes a file and locks it, if its file system has locks. Returns nothing if something has its path, or another
/// program takes it away.
fn create_locked(rt: &System, path: &str) -> Result<Option<SystemFile>, Failure> {
    match rt.create_new(path) {
        Ok(file) if file.lock().unwrap_or(true) && has_path(rt, &file, path) => Ok(Some(file)),
        Ok(_) => Ok(None),
        Err(error) if error.kind() == ErrorKind::AlreadyExists => Ok(None),
        Err(error) => Err(Failure::from(error)),
    }
}

fn has_path(rt: &System, file: &SystemFile, path: &str) -> bool {
    is_at(rt, file, path).unwrap_or(false)
}

pub(crate) fn remove_leftovers(rt: &System, target: &str) -> Result<(), AllocError> {
    for number in 0..TRIES {
        remove_leftover(rt, beside_path(rt.alloc(), target, number)?.as_str());
    }
    Ok(())
}

fn remove_leftover(rt: &System, path: &str) {
    match fs::symlink_metadata(&rt.rt, path) {
        Ok(metadata) if metadata.is_file() => remove_unlocked(rt, path),
        _ => {}
    }
}

/// Removes a file that no program has locked. On a file system without locks it stays.
fn remove_unlocked(rt: &System, path: &str) {
    if let Ok(file) = rt.open(path)
        && file.lock().unwrap_or(false)
        && has_path(rt, &file, path)
    {
        let _ = fs::remove_file(&rt.rt, path);
    }
}

fn beside_path(alloc: Global, target: &str, number: u32) -> Result<String, AllocError> {
    format!(in alloc; "{target}.msipkg-{number}")
}
