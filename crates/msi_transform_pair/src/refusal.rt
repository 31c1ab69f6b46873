//! Why no transform is made, and the table that is at fault.

ghost use Rattle.std.specs.Prelude.{◌≡◌, None, Some};
ghost use Rattle.msi_transform_pair.specs.MakingRefusals.{MakingRefusal as RefusalOf};

use msi_base::errors::Error;
use std::marker::Model;

/// Why no transform is made, and the table that is at fault, if one is: its place among the tables of the new database
/// but for `_Tables` and `_Columns`, counted from 0. Contracts see the kind of the error.
#[derive(Debug, Drop)]
pub struct MakingRefusal {
    error: Error,
    table: Option<usize>,
}

impl Model for MakingRefusal {
    ghost use Rattle.msi_transform_pair.specs.MakingRefusals.{MakingRefusal as RefusalOf};

    ghost Value = { RefusalOf };

    ghost view = { λ r. record { kind = r.error; table = r.table } };
}

impl MakingRefusal {
    /// Returns a refusal for which no table is at fault.
    pub fn nowhere(error: Error) -> MakingRefusal
        ensures { result ≡ record { kind = error; table = None } }
    {
        MakingRefusal { error, table: None }
    }

    /// Returns a refusal for which the table of this place is at fault.
    pub fn at(error: Error, table: usize) -> MakingRefusal
        ensures { result ≡ record { kind = error; table = Some table } }
    {
        MakingRefusal {
            error,
            table: Some(table),
        }
    }

    /// Returns the error.
    pub fn error(&self) -> &Error
        ensures { result.now ≡ self.now.kind }
    {
        &self.error
    }

    /// Returns the error, moved out.
    pub fn into_error(self) -> Error
        ensures { result ≡ self.kind }
    {
        let MakingRefusal { error, table: _ } = self;
        error
    }

    /// Returns the place of the table that is at fault, if one is.
    pub fn table(&self) -> Option<usize>
        ensures { result ≡ self.now.table }
    {
        self.table
    }
}

/// A refusal for which no table is at fault.
impl From<Error> for MakingRefusal {
    ghost from_gives = { λ error refusal. refusal ≡ record { kind = error; table = None } };

    fn from(error: Error) -> MakingRefusal {
        MakingRefusal::nowhere(error)
    }
}
