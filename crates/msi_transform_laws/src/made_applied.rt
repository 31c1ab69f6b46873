//! What is left once a transform that is made is applied.

ghost use Rattle.msi_transform_laws.specs.MadeApplied.{MadeTransformsAreApplied, TablesWithoutStreamsAreStored};

use msi_pool::laws::{given_back_takes_one, taken_places_hold_their_text};

/// Tables without streams can be stored, where texts are written in UTF-8.
pub fn tables_without_streams_are_stored()
    ensures { TablesWithoutStreamsAreStored }
{}

/// A transform that is made can be applied to the old package, where no table has streams and texts are written in
/// UTF-8: what is left stores the new package's columns and rows.
pub fn made_transforms_are_applied()
    ensures { MadeTransformsAreApplied }
{
    taken_places_hold_their_text();
    given_back_takes_one();
}
