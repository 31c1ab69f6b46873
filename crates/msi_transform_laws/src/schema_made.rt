//! The records of `_Tables` and `_Columns` of a transform that is made.

ghost use Rattle.msi_transform_laws.specs.SchemaMade.{MadeSchemaIsNew};

use msi_pool::laws::{given_back_takes_one, taken_places_hold_their_text};

/// Applying the records of `_Tables` and `_Columns` gives each table the new package's columns.
pub fn made_schema_is_new()
    ensures { MadeSchemaIsNew }
{
    taken_places_hold_their_text();
    given_back_takes_one();
}
