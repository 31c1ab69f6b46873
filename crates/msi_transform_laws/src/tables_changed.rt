//! The tables of the old package, changed in turn by a transform that is made.

ghost use Rattle.msi_transform_laws.specs.TablesChanged.{MadeTablesAreChangedInTurn};

use msi_pool::laws::{given_back_takes_one, taken_places_hold_their_text};

/// Applying the records of all tables in turn stores each of them anew with the new package's rows; exact counts stay
/// exact, and the texts of other cells stay as they were.
pub fn made_tables_are_changed_in_turn()
    ensures { MadeTablesAreChangedInTurn }
{
    taken_places_hold_their_text();
    given_back_takes_one();
}
