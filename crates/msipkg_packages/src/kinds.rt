//! What paths lead to: what no package can be, and what isn't replaced.

use msipkg_format::{Failure, System};
use std::fs::{self, FileType};
use std::io::ErrorKind;
use std::os::unix::fs::FileTypeExt;

/// The refusal of a folder.
const FOLDER: &str = "it is a folder, and not a file";

/// The refusal of a pipe as a package.
const PIPE: &str = "it is a named pipe; give - and the pipe as standard input";

/// The refusal of a device or a socket.
const NO_FILE: &str = "it is no regular file";

/// The refusal of a file without bytes as a package.
const EMPTY: &str = "it is empty: it has no bytes";

/// The refusal of a file that is there already.
const THERE: &str = "it exists already; --force replaces it";

/// The refusal of a link that leads nowhere.
const DANGLING: &str = "it is a link to what isn't there";

/// Fails if a path leads to what no package can be: it isn't opened then.
///
/// # Errors
/// Fails if it is no regular file, if it is empty, and as the call of the system does.
pub fn check_kind(rt: &System, path: &str) -> Result<(), Failure> {
    if let Some(bytes) = rt.input_at(path) {
        return check_length(bytes.is_empty());
    }
    let metadata = fs::metadata(&rt.rt, path)?;
    if metadata.file_type().is_fifo() {
        return Err(Failure::rule(PIPE));
    }
    check_regular(metadata.file_type())?;
    check_length(metadata.len() == 0)
}

fn check_length(is_empty: bool) -> Result<(), Failure> {
    if is_empty {
        Err(Failure::rule(EMPTY))
    } else {
        Ok(())
    }
}

/// Fails if a file can't be made at a path, since something is there: a file where none is to be replaced, or what is
/// no regular file. A link is looked at as what it leads to.
///
/// # Errors
/// Fails as the calls of the system do, too.
pub fn check_way(rt: &System, path: &str, is_forced: bool) -> Result<(), Failure> {
    let Some(kind) = kind_at(rt, path)? else {
        return Ok(());
    };
    check_regular(kind)?;
    if is_forced {
        Ok(())
    } else {
        Err(Failure::rule(THERE))
    }
}

/// Returns whether a path leads to what is written to as it is: a device or a pipe.
pub(crate) fn is_written_to(rt: &System, path: &str) -> bool {
    match fs::metadata(&rt.rt, path) {
        Ok(metadata) => is_device(metadata.file_type()),
        Err(_) => false,
    }
}

fn is_device(kind: FileType) -> bool {
    kind.is_fifo() || kind.is_char_device() || kind.is_block_device()
}

fn check_regular(kind: FileType) -> Result<(), Failure> {
    if kind.is_dir() {
        Err(Failure::rule(FOLDER))
    } else if kind.is_file() {
        Ok(())
    } else {
        Err(Failure::rule(NO_FILE))
    }
}

fn kind_at(rt: &System, path: &str) -> Result<Option<FileType>, Failure> {
    match fs::symlink_metadata(&rt.rt, path) {
        Ok(metadata) if metadata.is_symlink() => Ok(Some(kind_behind(rt, path)?)),
        Ok(metadata) => Ok(Some(metadata.file_type())),
        Err(error) if error.kind() == ErrorKind::NotFound => Ok(None),
        Err(error) => Err(Failure::from(error)),
    }
}

fn kind_behind(rt: &System, path: &str) -> Result<FileType, Failure> {
    match fs::metadata(&rt.rt, path) {
        Ok(metadata) => Ok(metadata.file_type()),
        Err(error) if error.kind() == ErrorKind::NotFound => Err(Failure::rule(DANGLING)),
        Err(error) => Err(Failure::from(error)),
    }
}
