//! Errors: their kind, and the rule that was broken.

ghost use Rattle.std.specs.Prelude.{◌≡◌, Some};
ghost use Rattle.msi_base.specs.Errors.{kind_name};
ghost use Rattle.std.specs.IoError.{error_kind};
ghost use Rattle.msi_base.specs.Faults.{kind_of_fault};
ghost use Rattle.msi_base.specs.declared.errors.ErrorKind.TheVariants.{OutOfMemory};

use crate::reasons;
use std::alloc::{AllocError, AllocFailed};
use std::marker::Model;
use std::{fmt, io};
use thiserror::Error;

/// The six kinds of errors, which callers can distinguish.
#[derive(Clone, Copy, Debug, PartialEq, Eq, Hash)]
pub enum ErrorKind {
    /// A table or key is there already.
    AlreadyExists,
    /// Bytes or stored data break a rule of their format.
    InvalidData,
    /// An argument is refused.
    InvalidInput,
    /// A table or stream is not there.
    NotFound,
    /// A device, reader or writer failed.
    Io,
    /// A growth was refused.
    OutOfMemory,
}

/// Writes the kind's name.
impl fmt::Display for ErrorKind {
    ghost output = { λ kind. Some (kind_name kind) };

    fn fmt<W: fmt::Write>(&self, f: &mut fmt::Formatter<W>) -> fmt::Result {
        f.write_str(match self {
            ErrorKind::AlreadyExists => "AlreadyExists",
            ErrorKind::InvalidData => "InvalidData",
            ErrorKind::InvalidInput => "InvalidInput",
            ErrorKind::NotFound => "NotFound",
            ErrorKind::Io => "Io",
            ErrorKind::OutOfMemory => "OutOfMemory",
        })
    }
}

/// Which rule was broken, for people to read: a sentence, without its full stop. Each crate has its own in its module
/// `reasons`, so a new rule changes no crate below.
#[derive(Clone, Copy, Debug, PartialEq, Eq, Hash)]
pub struct Reason(pub &'static str);

/// Writes the sentence.
impl fmt::Display for Reason {
    fn fmt<W: fmt::Write>(&self, f: &mut fmt::Formatter<W>) -> fmt::Result {
        f.write_str(self.0)
    }
}

/// An error: its kind, and for people the rule that was broken. It takes no memory; contracts see the kind alone.
#[derive(Debug, Drop, Error)]
#[error("{kind}: {reason}")]
pub struct Error {
    kind: ErrorKind,
    reason: Reason,
}

impl Model for Error {
    ghost use Rattle.msi_base.specs.declared.errors.ErrorKind.{ErrorKind};

    ghost Value = { ErrorKind };

    ghost view = { λ e. e.kind };
}

impl Error {
    /// Returns an error of this kind, for this reason.
    pub fn new(kind: ErrorKind, reason: Reason) -> Error
        ensures { result ≡ kind }
    {
        Error { kind, reason }
    }

    fn out_of_memory() -> Error
        ensures { result ≡ OutOfMemory }
    {
        Error::new(ErrorKind::OutOfMemory, reasons::MEMORY)
    }

    /// Returns the kind of the error.
    pub fn kind(&self) -> ErrorKind
        ensures { result ≡ self.now }
    {
        self.kind
    }

    /// Returns the rule that was broken, for people to read. Contracts see the kind alone.
    pub fn reason(&self) -> Reason {
        self.reason
    }
}

impl From<AllocError> for Error {
    ghost from_gives = { λ _ e. e ≡ OutOfMemory };

    fn from(_error: AllocError) -> Error {
        Error::out_of_memory()
    }
}

impl<T: Drop> From<AllocFailed<T>> for Error {
    ghost from_gives = { λ _ e. e ≡ OutOfMemory };

    fn from(_error: AllocFailed<T>) -> Error {
        Error::out_of_memory()
    }
}

/// A failure of a reader, a writer or a file: `OutOfMemory` where memory was refused, and else `Io`.
impl From<io::Error> for Error {
    ghost from_gives = { λ fault e. e ≡ kind_of_fault (error_kind fault) };

    fn from(fault: io::Error) -> Error {
        match fault.kind() {
            io::ErrorKind::OutOfMemory => Error::out_of_memory(),
            _ => Error::new(ErrorKind::Io, reasons::DEVICE),
        }
    }
}
