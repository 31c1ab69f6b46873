//! Records applied to the rows of a table.

ghost use Rattle.msi_transform_laws.specs.RowsApplied.{RecordsAreApplied};

use msi_pool::laws::{given_back_takes_one, taken_places_hold_their_text};

/// Applying records to the rows of a table leaves rows with the values that carrying the records out gives, exact
/// counts stay exact, and no other cell's text changes.
pub fn records_are_applied()
    ensures { RecordsAreApplied }
{
    taken_places_hold_their_text();
    given_back_takes_one();
}
