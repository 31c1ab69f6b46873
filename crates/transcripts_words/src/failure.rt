//! Why a call gives no answer of its own.

use msi_base::{Error, ErrorKind};
use std::alloc::{AllocError, AllocFailed};
use std::{fmt, io};

/// Why a call gives no answer.
#[derive(Clone, Copy, Debug)]
pub enum Failure {
    /// The library refuses the call with an error of this kind.
    Refused(ErrorKind),
    /// The line is no call that can be made, for this reason.
    Unreadable(&'static str),
}

impl Failure {
    /// The failure of a call that was refused memory and left the package other than it was.
    pub const CHANGED: Failure = Failure::Unreadable("a refused call left a change");

    /// The failure of a call that was refused memory.
    pub const MEMORY: Failure = Failure::Refused(ErrorKind::OutOfMemory);

    /// Returns whether memory was refused.
    pub fn is_memory(self) -> bool {
        matches!(self, Failure::Refused(ErrorKind::OutOfMemory))
    }
}

/// Writes what stands as the answer of the call.
impl fmt::Display for Failure {
    fn fmt<W: fmt::Write>(&self, f: &mut fmt::Formatter<W>) -> fmt::Result {
        match self {
            Failure::Refused(kind) => write!(f, "{kind}"),
            Failure::Unreadable(reason) => write!(f, "unreadable: {reason}"),
        }
    }
}

impl From<Error> for Failure {
    fn from(error: Error) -> Failure {
        Failure::Refused(error.kind())
    }
}

impl From<AllocError> for Failure {
    fn from(_error: AllocError) -> Failure {
        Failure::MEMORY
    }
}

impl<T: Drop> From<AllocFailed<T>> for Failure {
    fn from(_error: AllocFailed<T>) -> Failure {
        Failure::MEMORY
    }
}

impl From<io::Error> for Failure {
    fn from(error: io::Error) -> Failure {
        Failure::Refused(match error.kind() {
            io::ErrorKind::OutOfMemory => ErrorKind::OutOfMemory,
            io::ErrorKind::InvalidInput => ErrorKind::InvalidInput,
            _ => ErrorKind::Io,
        })
    }
}
