//! Tables whose rows a file has, although `_Tables` doesn't list them.

use crate::report::{Place, Report};
use msipkg_looking::PackageView;
use msipkg_packages::TableNames;
use msipkg_packages::output::Failure;
use std::alloc::Global;

/// Finds the first of the tables that are stored and that the package doesn't list.
pub(crate) fn check_unlisted(
    alloc: Global,
    package: &PackageView,
    report: &mut Report<'_>,
) -> Result<(), Failure> {
    let stored = package.stored_tables()?;
    let listed = TableNames::listed(alloc, package)?;
    if let Some(table) = stored.first_beside(&listed) {
        report.warn(
            Place::Table(table),
            &"_Tables doesn't list it, so no query reads its rows",
        );
    }
    Ok(())
}
