//! Which file a path leads to, and whether it is as it was.

use std::fs::Metadata;
use std::os::unix::fs::MetadataExt;

/// Which file it is, and how it was left by who wrote it last.
#[derive(Clone, Copy)]
pub struct Identity {
    device: u64,
    number: u64,
    length: u64,
    seconds: i64,
    nanoseconds: i64,
}

impl Identity {
    /// Returns that of a file of which the system says this.
    pub fn of(metadata: &Metadata) -> Identity {
        Identity {
            device: metadata.dev(),
            number: metadata.ino(),
            length: metadata.len(),
            seconds: metadata.mtime(),
            nanoseconds: metadata.mtime_nsec(),
        }
    }

    /// Returns whether it is the same file, changed or not.
    pub fn is_file(&self, other: &Identity) -> bool {
        self.device == other.device && self.number == other.number
    }

    /// Returns whether it is the same file, and was not written since.
    pub fn is_unchanged(&self, other: &Identity) -> bool {
        self.is_file(other)
            && self.length == other.length
            && self.seconds == other.seconds
            && self.nanoseconds == other.nanoseconds
    }
}
