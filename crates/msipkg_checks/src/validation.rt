//! Rows of `_Validation` for columns that aren't there.

use crate::reading::pass_over;
use crate::report::{Place, Report};
use msipkg_looking::PackageView;
use msipkg_packages::PackageTables;
use msipkg_packages::msi::{Row, Rows, Select, Value};
use msipkg_packages::output::Failure;
use std::alloc::Global;

/// Finds the rows of `_Validation` for columns that aren't in their tables. Those for missing tables are no errors:
/// many tools put in the rows of all standard tables.
pub(crate) fn check_validation(
    alloc: Global,
    package: &PackageView,
    report: &mut Report<'_>,
) -> Result<(), Failure> {
    let query = Select::table(alloc, "_Validation")?.columns(&["Table", "Column"])?;
    match package.select_rows(query) {
        Ok(rows) => check_rows(package, rows, report),
        Err(error) => pass_over(error),
    }
}

fn check_rows(
    package: &PackageView,
    rows: Rows<'_>,
    report: &mut Report<'_>,
) -> Result<(), Failure> {
    for row in rows {
        check_row(package, &row?, report);
    }
    Ok(())
}

fn check_row(package: &PackageView, row: &Row, report: &mut Report<'_>) {
    if row.len() < 2 {
        return;
    }
    let (Value::Str(table), Value::Str(column)) = (&row[0], &row[1]) else {
        return;
    };
    if let Some(found) = package.get_table(table.as_str())
        && !found.has_column(column.as_str())
    {
        let place = Place::Column {
            table: table.as_str(),
            column: column.as_str(),
        };
        report.add(
            place,
            &"_Validation describes it, and the table hasn't got it",
        );
    }
}
