//! Packages whose `_Columns` describes the columns of their tables.

ghost use Rattle.msi_transform_laws.specs.DescribedPackages.{DescribedTablesCanHaveRecords};

/// Where a transform is made of two well-formed packages whose `_Columns` describes their columns, each table of the
/// new one can have records in it.
pub fn described_tables_can_have_records()
    ensures { DescribedTablesCanHaveRecords }
{}
