//! Records that are read again.

ghost use Rattle.msi_transform_laws.specs.RecordsRead.{MadeRecordsAreRead, StoredRecordsAreRead};

/// Reading the records that were stored in a transform gives each its action and its values back.
pub fn stored_records_are_read()
    ensures { StoredRecordsAreRead }
{}

/// Reading the records of a transform that is made gives the records that it was made of.
pub fn made_records_are_read()
    ensures { MadeRecordsAreRead }
{}
