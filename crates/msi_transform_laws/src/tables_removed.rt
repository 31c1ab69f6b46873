//! Records of `_Tables` that remove tables, applied.

ghost use Rattle.msi_transform_laws.specs.TablesRemoved.{RemovingRecordsAreApplied};

use msi_pool::laws::{given_back_takes_one, taken_places_hold_their_text};

/// Applying records of `_Tables` that remove tables gives back the texts of their rows, and of the rows that list and
/// describe them; the texts of other cells stay.
pub fn removing_records_are_applied()
    ensures { RemovingRecordsAreApplied }
{
    taken_places_hold_their_text();
    given_back_takes_one();
}
