//! A transform that is made, applied to the old package.

ghost use Rattle.msi_transform_laws.specs.NewTables.{MadeTransformsGiveNewTables};

use msi_pool::laws::{given_back_takes_one, taken_places_hold_their_text};

/// A transform that is made is applied to the old package, and the tables that are stored anew have the new package's
/// columns and rows.
pub fn made_transforms_give_new_tables()
    ensures { MadeTransformsGiveNewTables }
{
    taken_places_hold_their_text();
    given_back_takes_one();
}
