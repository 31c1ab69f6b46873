//! Errors with the place of a text at which they are.

ghost use Rattle.std.specs.Prelude.{◌≡◌, ◌≢◌, Some};
ghost use Rattle.msi_exchange.specs.Places.{GetsPlace, Placed, no_memory, uneven as uneven_at, unless};
ghost use Rattle.msi_exchange.specs.Writing.{Checks};

use msi_base::errors::{Error, ErrorKind, Reason};
use std::alloc::{AllocError, AllocFailed};
use std::fmt;
use std::marker::Model;

/// A place in a text archive.
#[derive(Clone, Copy, Debug, PartialEq, Eq)]
pub struct Place {
    /// The line, counted from 1.
    pub line: usize,
    /// The field in the line, counted from 1.
    pub field: usize,
}

/// Why a text isn't read, or an archive not written: the place in the text, and the rule that is broken there, for
/// people. Contracts see the kind and the place.
#[derive(Debug, Drop)]
pub struct ArchiveError {
    place: Option<Place>,
    error: Error,
}

impl Model for ArchiveError {
    ghost use Rattle.msi_exchange.specs.Places.{Fault};

    ghost Value = { Fault };

    ghost view = { λ e. record { kind = e.error; place = e.place } };
}

impl ArchiveError {
    pub(crate) fn new(place: Place, kind: ErrorKind, reason: Reason) -> ArchiveError
        ensures { result ≡ record { kind = kind; place = Some place } }
    {
        ArchiveError {
            place: Some(place),
            error: Error::new(kind, reason),
        }
    }

    /// Returns the place in the text that was read or that would be written, or `None` where memory was refused.
    pub fn place(&self) -> Option<Place>
        ensures { result ≡ self.now.place }
    {
        self.place
    }

    /// Returns the kind of the error: `OutOfMemory`, or `InvalidData` of a text and `InvalidInput` of an archive.
    pub fn kind(&self) -> ErrorKind
        ensures { result ≡ self.now.kind }
    {
        self.error.kind()
    }

    /// Returns the rule that is broken, for people to read.
    pub fn reason(&self) -> Reason {
        self.error.reason()
    }
}

/// Writes the place, the kind and the rule, as `line 4, field 2: InvalidData: a number of 32 bits was expected`.
impl fmt::Display for ArchiveError {
    fn fmt<W: fmt::Write>(&self, f: &mut fmt::Formatter<W>) -> fmt::Result {
        if let Some(place) = self.place {
            write!(f, "line {}, field {}: ", place.line, place.field)?;
        }
        write!(f, "{}", self.error)
    }
}

impl std::error::Error for ArchiveError {}

impl From<AllocError> for ArchiveError {
    ghost from_gives = { λ _ e. e ≡ no_memory };

    fn from(refused: AllocError) -> ArchiveError {
        ArchiveError {
            place: None,
            error: Error::from(refused),
        }
    }
}

impl<T: Drop> From<AllocFailed<T>> for ArchiveError {
    ghost from_gives = { λ _ e. e ≡ no_memory };

    fn from(refused: AllocFailed<T>) -> ArchiveError {
        ArchiveError {
            place: None,
            error: Error::from(refused),
        }
    }
}

/// Adds the place of a field to an error, except where memory is refused, which has no place.
pub(crate) fn at<T>(place: Place, read: Result<T, Error>) -> Result<T, ArchiveError>
    ensures { GetsPlace place read result }
{
    match read {
        Ok(value) => Ok(value),
        Err(error) => match error.kind() {
            ErrorKind::OutOfMemory => Err(ArchiveError { place: None, error }),
            _ => Err(ArchiveError {
                place: Some(place),
                error,
            }),
        },
    }
}

pub(crate) fn check(holds: bool, place: Place, reason: Reason) -> Result<(), ArchiveError>
    ensures kind { Checks result holds }
    ensures place { Placed result (unless holds place) }
{
    if holds {
        Ok(())
    } else {
        Err(ArchiveError::new(place, ErrorKind::InvalidInput, reason))
    }
}

/// Returns the place in a line of another number of fields than there are columns: the first that is missing or too
/// many.
#[tactic(auto, using(crate::proofs::PlaceLemmas::uneven_is))]
pub(crate) fn uneven(line: usize, columns: usize, fields: usize) -> Place
    requires { columns ≢ fields }
    ensures { uneven_at line columns fields ≡ Some result }
{
    Place {
        line,
        field: columns.min(fields) + 1,
    }
}
