//! Why a package isn't recoded.

ghost use Rattle.std.specs.Prelude.{◌≡◌};
ghost use Rattle.msi_base.specs.declared.errors.ErrorKind.TheVariants.{OutOfMemory};
ghost use Rattle.msi_recode.specs.declared.errors.RecodeError.TheVariants.{Package};
ghost use Rattle.msi_recode.specs.Errors.{kind_of, of_place, of_property};

use msi_base::{Error, ErrorKind};
use std::alloc::AllocError;

/// Why a package isn't recoded.
#[derive(Debug, Drop)]
pub enum RecodeError {
    /// It is about no single text, as a refusal of memory is.
    Package(Error),
    /// It is about the text of a place of the pool. Places are counted from 0 on here.
    Place(usize, Error),
    /// It is about the value of the summary's property with this id.
    Property(u32, Error),
}

impl RecodeError {
    /// Returns the error of a place's text.
    pub(crate) fn of_place(number: usize, error: Error) -> RecodeError
        ensures { result ≡ of_place number error }
    {
        match error.kind() {
            ErrorKind::OutOfMemory => RecodeError::Package(error),
            _ => RecodeError::Place(number, error),
        }
    }

    /// Returns the error of a property's value.
    pub(crate) fn of_property(id: u32, error: Error) -> RecodeError
        ensures { result ≡ of_property id error }
    {
        match error.kind() {
            ErrorKind::OutOfMemory => RecodeError::Package(error),
            _ => RecodeError::Property(id, error),
        }
    }

    /// Returns the kind of the error.
    pub fn kind(&self) -> ErrorKind
        ensures { result ≡ kind_of self.now }
    {
        match self {
            RecodeError::Package(error) => error.kind(),
            RecodeError::Place(_, error) => error.kind(),
            RecodeError::Property(_, error) => error.kind(),
        }
    }
}

impl From<Error> for RecodeError {
    ghost from_gives = { λ error recode_error. recode_error ≡ Package error };

    fn from(error: Error) -> RecodeError {
        RecodeError::Package(error)
    }
}

impl From<AllocError> for RecodeError {
    ghost from_gives = { λ _ recode_error. recode_error ≡ Package OutOfMemory };

    fn from(error: AllocError) -> RecodeError {
        RecodeError::Package(Error::from(error))
    }
}
