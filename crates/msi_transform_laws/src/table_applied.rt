//! The records of a table, applied to the rows that the old package has of it.

ghost use Rattle.msi_transform_laws.specs.TableApplied.{MadeRecordsGiveNewRows};

use msi_pool::laws::{given_back_takes_one, taken_places_hold_their_text};

/// Applying the records that a transform that is made has of a table to the old package's rows leaves the rows of the
/// new package.
pub fn made_records_give_new_rows()
    ensures { MadeRecordsGiveNewRows }
{
    taken_places_hold_their_text();
    given_back_takes_one();
}
