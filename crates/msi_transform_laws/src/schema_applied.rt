//! Records of `_Tables` and of `_Columns`, applied.

ghost use Rattle.msi_transform_laws.specs.SchemaApplied.{ColumnRecordsAreApplied, ListingRecordsAreApplied};

use msi_pool::laws::{given_back_takes_one, taken_places_hold_their_text};

/// Applying records of `_Tables` adds the tables that they list, where the package has none of them.
pub fn listing_records_are_applied()
    ensures { ListingRecordsAreApplied }
{
    taken_places_hold_their_text();
    given_back_takes_one();
}

/// Applying records of `_Columns` adds the columns that they describe behind those that their tables have.
pub fn column_records_are_applied()
    ensures { ColumnRecordsAreApplied }
{
    taken_places_hold_their_text();
    given_back_takes_one();
}
