//! Packages whose tables have the same columns.

ghost use Rattle.msi_transform_laws.specs.SameColumns.{SameColumnsGiveNewTables};

use msi_pool::laws::{given_back_takes_one, taken_places_hold_their_text};

/// A transform that is made of packages whose tables have the same columns is applied to the old package, and changes
/// its tables into those of the new one.
pub fn same_columns_give_new_tables()
    ensures { SameColumnsGiveNewTables }
{
    taken_places_hold_their_text();
    given_back_takes_one();
}
