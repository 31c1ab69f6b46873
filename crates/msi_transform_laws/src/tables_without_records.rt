//! Tables of which a transform that is made has no records.

ghost use Rattle.msi_transform_laws.specs.TablesWithoutRecords.{TablesWithoutRecordsStay};

/// A table of the new package of which the transform has no records has the old package's rows; one that comes or gets
/// columns has none.
pub fn tables_without_records_stay()
    ensures { TablesWithoutRecordsStay }
{}
