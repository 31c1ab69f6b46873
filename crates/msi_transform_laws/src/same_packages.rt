//! A package beside itself.

ghost use Rattle.msi_transform_laws.specs.SamePackages.{SamePackagesHaveNoRecords};

/// The transform of a package and itself has no records and no streams.
pub fn same_packages_have_no_records()
    ensures { SamePackagesHaveNoRecords }
{}
