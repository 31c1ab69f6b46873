//! Why a transform is refused, and at which of its records.

ghost use Rattle.std.specs.Prelude.{◌≡◌, None, Some};
ghost use Rattle.msi_transform_rows.specs.RecordRefusals.{Refusal as RefusalOf};

use msi_base::errors::Error;
use std::marker::Model;

/// A record of a transform, by the place of its table among those of the transform in the order of names, and by its
/// own among the table's. Both count from 0.
#[derive(Clone, Copy, PartialEq, Eq, Debug, Drop)]
pub struct RecordPlace {
    /// The place of the table.
    pub table: usize,
    /// The place of the record.
    pub record_number: usize,
}

/// Why a transform is refused, and the record that is at fault, if one is. Contracts see the kind of the error.
#[derive(Debug, Drop)]
pub struct Refusal {
    error: Error,
    place: Option<RecordPlace>,
}

impl Model for Refusal {
    ghost use Rattle.msi_transform_rows.specs.RecordRefusals.{Refusal as RefusalOf};

    ghost Value = { RefusalOf };

    ghost view = { λ r. record { kind = r.error; place = r.place } };
}

impl Refusal {
    /// Returns a refusal for which no record is at fault.
    pub fn nowhere(error: Error) -> Refusal
        ensures { result ≡ record { kind = error; place = None } }
    {
        Refusal { error, place: None }
    }

    /// Returns a refusal for which this record is at fault.
    pub fn at(error: Error, place: RecordPlace) -> Refusal
        ensures { result ≡ record { kind = error; place = Some place } }
    {
        Refusal {
            error,
            place: Some(place),
        }
    }

    /// Returns the error.
    pub fn error(&self) -> &Error
        ensures { result.now ≡ self.now.kind }
    {
        &self.error
    }

    /// Returns the error, moved out.
    pub fn into_error(self) -> Error
        ensures { result ≡ self.kind }
    {
        let Refusal { error, place: _ } = self;
        error
    }

    /// Returns the record that is at fault, if one is.
    pub fn place(&self) -> Option<RecordPlace>
        ensures { result ≡ self.now.place }
    {
        self.place
    }
}

/// A refusal for which no record is at fault.
impl From<Error> for Refusal {
    ghost from_gives = { λ error refusal. refusal ≡ record { kind = error; place = None } };

    fn from(error: Error) -> Refusal {
        Refusal::nowhere(error)
    }
}
