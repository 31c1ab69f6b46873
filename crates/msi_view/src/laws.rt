//! What looking at a package has to do with opening it: each law is the contract of a function without a body.

ghost use Rattle.msi_view.specs.Laws.{LooksShowPackages, OneCatalog, PartsRefuseAsOpening};

/// Where a package opens, each part that is looked at is the package's: its type, whether it has storages, its streams,
/// its summary, its code page, its tables, and the rows of each query.
pub fn looks_show_packages()
    ensures { LooksShowPackages }
{}

/// Opening fails as the first part does that can't be looked at, in the order of the type, the summary and the tables.
pub fn parts_refuse_as_opening()
    ensures { PartsRefuseAsOpening }
{}

/// A package has at most one pool and one list of tables.
pub fn one_catalog()
    ensures { OneCatalog }
{}
