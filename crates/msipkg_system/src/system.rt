//! The system's files, with a line on standard error that says how far reading or writing one is.

use crate::identity::Identity;
use crate::meter::Meter;
use std::alloc::{AllocError, Global};
use std::fs::{self, File, Metadata, OpenFile, OpenOptions, Permissions, TryLockError};
use std::io::{self, Cursor, ErrorKind, Read, Seek, SeekFrom, Write};
use std::os::unix::fs::{MetadataExt, PermissionsExt, fchown};
use std::thread;
use std::time::Duration;

/// How many bytes are read or written between two looks at the clock.
const PIECE: usize = 1024 * 1024;

/// The bit of permissions with which a file runs as its owner.
const SET_USER: u32 = 0o4000;

/// The bit of permissions with which a file runs as its group.
const SET_GROUP: u32 = 0o2000;

/// The system, whose files are watched where `is_shown` says so.
#[derive(Clone, Copy)]
pub struct System {
    pub rt: HostRuntime,
    pub is_shown: bool,
    /// The bytes of standard input, which have the path `-` once they are read.
    pub input: Option<&'static [u8]>,
}

impl System {
    /// Returns the allocator.
    pub fn alloc(&self) -> Global {
        self.rt.alloc()
    }

    /// Returns the system in which the path `-` leads to the bytes of standard input. They are read here, whole.
    ///
    /// # Errors
    /// Fails as the calls of the system do, and if memory is refused.
    pub fn with_input(&self) -> io::Result<System> {
        let mut bytes = Vec::new(self.alloc());
        self.rt.stdin().read_to_end(&mut bytes)?;
        Ok(System {
            rt: self.rt,
            is_shown: self.is_shown,
            input: Some(bytes.leak()),
        })
    }

    /// Returns the bytes of standard input, if that is what a path leads to.
    pub fn input_at(&self, path: &str) -> Option<&'static [u8]> {
        if path == "-" { self.input } else { None }
    }

    /// Opens a file to read it.
    ///
    /// # Errors
    /// Fails as the call of the system does.
    pub fn open(&self, path: &str) -> io::Result<SystemFile> {
        if let Some(bytes) = self.input_at(path) {
            return self.opened_input(bytes);
        }
        let file = fs::open(&self.rt, path)?;
        Ok(self.watched(file))
    }

    /// Returns the bytes of standard input as a file. It has a copy, since a type with a borrow of them can't be
    /// written to by `write!` in a proved function.
    fn opened_input(&self, bytes: &[u8]) -> io::Result<SystemFile> {
        let mut copy = Vec::new(self.alloc());
        copy.extend_from_slice(bytes)?;
        Ok(SystemFile::of_bytes(copy))
    }

    /// Returns the bytes of a file.
    ///
    /// # Errors
    /// Fails as the calls of the system do, and if memory is refused.
    pub fn read(&self, path: &str) -> io::Result<Vec<u8>> {
        let mut file = self.open(path)?;
        let mut bytes = Vec::new(self.alloc());
        file.read_to_end(&mut bytes)?;
        Ok(bytes)
    }

    /// Opens a new file to write it.
    ///
    /// # Errors
    /// Fails as the call of the system does, which it also does if something has the path already.
    pub fn create_new(&self, path: &str) -> io::Result<SystemFile> {
        let mut options = OpenOptions::new();
        let file = options.write(true).create_new(true).open(&self.rt, path)?;
        Ok(self.watched(file))
    }

    /// Opens what is there to write to it as it is: a device or a pipe.
    ///
    /// # Errors
    /// Fails as the call of the system does.
    pub fn open_to_write(&self, path: &str) -> io::Result<SystemFile> {
        let file = OpenOptions::new().write(true).open(&self.rt, path)?;
        Ok(self.watched(file))
    }

    /// Returns which file a path leads to.
    ///
    /// # Errors
    /// Fails as the call of the system does.
    pub fn identity(&self, path: &str) -> io::Result<Identity> {
        Ok(Identity::of(&fs::metadata(&self.rt, path)?))
    }

    /// Waits for so many milliseconds.
    pub fn wait(&self, milliseconds: u64) {
        thread::sleep(&self.rt, Duration::from_millis(milliseconds));
    }

    /// Returns a file that was opened just now, watched where that is asked for and the system reports the time.
    fn watched(&self, file: File) -> SystemFile {
        let meter = if self.is_shown {
            Meter::of(self.rt, &file).ok()
        } else {
            None
        };
        SystemFile {
            source: Source::File(file),
            meter,
        }
    }
}

/// Returns the path of a name in a folder.
///
/// # Errors
/// Fails if memory is refused.
pub fn path_in(alloc: Global, folder: &str, name: &str) -> Result<String, AllocError> {
    let folder = folder.strip_suffix('/').unwrap_or(folder);
    format!(in alloc; "{folder}/{name}")
}

/// Sets the owner and the group of a file to those of another one, or the group alone, where the user may.
fn take_owner(file: &File, other: &Metadata) -> io::Result<()> {
    let own = file.metadata()?;
    if own.uid() == other.uid() && own.gid() == other.gid() {
        return Ok(());
    }
    if fchown(file, Some(other.uid()), Some(other.gid())).is_err() {
        let _ = fchown(file, None, Some(other.gid()));
    }
    Ok(())
}

fn kept_bits(own: &Metadata, other: &Metadata) -> u32 {
    let mut bits = 0o7777;
    if own.uid() != other.uid() {
        bits &= !SET_USER;
    }
    if own.gid() != other.gid() {
        bits &= !SET_GROUP;
    }
    bits
}

/// What a file's bytes are.
#[derive(Drop)]
enum Source {
    /// Those of a file.
    File(File),
    /// Those of standard input, which were read, or of a package that was recoded.
    Input(Cursor<Vec<u8>>),
}

/// A file of the system, which is watched or not.
pub struct SystemFile {
    source: Source,
    meter: Option<Meter>,
}

/// Clears the line, too.
impl Drop for SystemFile {
    fn drop(self) {
        let SystemFile { source: _, meter } = self;
        if let Some(mut meter) = meter {
            meter.end();
        }
    }
}

impl SystemFile {
    /// Returns a file that has these bytes and no path: it is only read.
    pub fn of_bytes(bytes: Vec<u8>) -> SystemFile {
        SystemFile {
            source: Source::Input(Cursor::new(bytes)),
            meter: None,
        }
    }

    fn count(&mut self, bytes: usize, word: &'static str) {
        if let Some(meter) = &mut self.meter {
            meter.count(bytes, word);
        }
    }

    fn file(&self) -> io::Result<&File> {
        match &self.source {
            Source::File(file) => Ok(file),
            Source::Input(_) => Err(io::Error::from(ErrorKind::Unsupported)),
        }
    }

    fn file_mut(&mut self) -> io::Result<&mut File> {
        match &mut self.source {
            Source::File(file) => Ok(file),
            Source::Input(_) => Err(io::Error::from(ErrorKind::Unsupported)),
        }
    }

    /// Returns what the system says of the file.
    ///
    /// # Errors
    /// Fails as the call of the system does.
    pub fn metadata(&self) -> io::Result<Metadata> {
        self.file()?.metadata()
    }

    /// Locks the file until it is closed, and returns whether that is done: not where another program has it locked.
    ///
    /// # Errors
    /// Fails as the call of the system does, as on a file system that has no locks.
    pub fn lock(&self) -> io::Result<bool> {
        match self.file()?.try_lock() {
            Ok(()) => Ok(true),
            Err(TryLockError::WouldBlock) => Ok(false),
            Err(TryLockError::Error(error)) => Err(error),
        }
    }

    /// Gives the file the owner, the group and the permissions of another one, as far as the user may. Where the owner
    /// or the group can't be kept, nor is the bit with which it runs as that.
    ///
    /// # Errors
    /// Fails as the calls of the system do.
    pub fn take_after(&self, other: &Metadata) -> io::Result<()> {
        let file = self.file()?;
        take_owner(file, other)?;
        let mode = other.permissions().mode() & kept_bits(&file.metadata()?, other);
        file.set_permissions(Permissions::from_mode(mode))
    }

    /// Waits until the disk has what was written. What isn't on a disk, as a pipe, isn't waited for.
    ///
    /// # Errors
    /// Fails as the call of the system does.
    pub fn sync_all(&self) -> io::Result<()> {
        match self.file()?.sync_all() {
            Err(error) if error.kind() == ErrorKind::InvalidInput => Ok(()),
            synced => synced,
        }
    }
}

impl Read for SystemFile {
    fn read(&mut self, buf: &mut [u8]) -> io::Result<usize> {
        let length = buf.len().min(PIECE);
        let read = match &mut self.source {
            Source::File(file) => file.read(&mut buf[..length])?,
            Source::Input(bytes) => bytes.read(buf)?,
        };
        self.count(read, "read");
        Ok(read)
    }
}

impl Seek for SystemFile {
    fn seek(&mut self, to: SeekFrom) -> io::Result<u64> {
        match &mut self.source {
            Source::File(file) => file.seek(to),
            Source::Input(bytes) => bytes.seek(to),
        }
    }
}

impl Write for SystemFile {
    fn write(&mut self, buf: &[u8]) -> io::Result<usize> {
        let written = self.file_mut()?.write(buf)?;
        self.count(written, "written");
        Ok(written)
    }

    fn flush(&mut self) -> io::Result<()> {
        self.file_mut()?.flush()
    }

    fn write_all(&mut self, buf: &[u8]) -> io::Result<()> {
        if let Some(meter) = &mut self.meter {
            meter.expect(buf.len());
        }
        for piece in buf.chunks(PIECE) {
            self.file_mut()?.write_all(piece)?;
            self.count(piece.len(), "written");
        }
        Ok(())
    }
}
