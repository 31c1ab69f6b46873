//! Errors of readers and writers as one of the six kinds.

ghost use Rattle.std.specs.Prelude.{◌≡◌};
ghost use Rattle.std.specs.IoError.{error_kind};
ghost use Rattle.msi_streams.specs.Refusals.{kind_named};

use msi_base::errors::ErrorKind;
use std::io;

/// Returns the kind that has the name of an error's kind, and `Io` where none has. It takes no memory.
pub fn kind_of(error: &io::Error) -> ErrorKind
    ensures { result ≡ kind_named (error_kind error.now) }
{
    match error.kind() {
        io::ErrorKind::AlreadyExists => ErrorKind::AlreadyExists,
        io::ErrorKind::InvalidData => ErrorKind::InvalidData,
        io::ErrorKind::InvalidInput => ErrorKind::InvalidInput,
        io::ErrorKind::NotFound => ErrorKind::NotFound,
        io::ErrorKind::OutOfMemory => ErrorKind::OutOfMemory,
        _ => ErrorKind::Io,
    }
}
