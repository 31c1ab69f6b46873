//! A table of the old package, changed by a transform that is made.

ghost use Rattle.msi_transform_laws.specs.TableChanged.{MadeTablesAreChanged};

use msi_pool::laws::{given_back_takes_one, taken_places_hold_their_text};

/// Applying the records of one table, the checks before them included, stores the table anew with the new package's
/// rows.
pub fn made_tables_are_changed()
    ensures { MadeTablesAreChanged }
{
    taken_places_hold_their_text();
    given_back_takes_one();
}
