//! Values that their columns don't take, empty texts that are stored, and tables that can't be read.

use crate::reasons::Refusal;
use crate::report::{Place, Report};
use crate::shown::{Cut, row_name};
use msipkg_looking::PackageView;
use msipkg_packages::PackageTables;
use msipkg_packages::msi::{Column, ColumnType, Error, ErrorKind, Rows, Select, Table, ValueView};
use msipkg_packages::output::Failure;
use std::alloc::Global;
use std::fmt::{self, Display};

/// Finds the tables that can't be read, and in the others the values that their columns don't take, and empty texts.
pub(crate) fn check_values(
    alloc: Global,
    package: &PackageView,
    report: &mut Report<'_>,
) -> Result<(), Failure> {
    for table in package.tables() {
        check_table(alloc, package, table, report)?;
    }
    Ok(())
}

fn check_table(
    alloc: Global,
    package: &PackageView,
    table: &Table,
    report: &mut Report<'_>,
) -> Result<(), Failure> {
    match package.select_rows(Select::table(alloc, table.name())?) {
        Ok(rows) => check_rows(alloc, table.name(), rows, report),
        Err(error) if error.kind() == ErrorKind::OutOfMemory => Err(Failure::from(error)),
        Err(error) => {
            report.add(Place::Table(table.name()), &error);
            Ok(())
        }
    }
}

fn check_rows(
    alloc: Global,
    table: &str,
    mut rows: Rows<'_>,
    report: &mut Report<'_>,
) -> Result<(), Failure> {
    for number in 0..rows.len() {
        check_row(alloc, table, number.saturating_add(1), &rows, report)?;
        rows.advance();
    }
    Ok(())
}

fn check_row(
    alloc: Global,
    table: &str,
    number: usize,
    rows: &Rows<'_>,
    report: &mut Report<'_>,
) -> Result<(), Error> {
    for (place, column) in rows.columns().iter().enumerate() {
        let Some(value) = rows.get(place) else {
            continue;
        };
        let is_taken = is_taken(alloc, column, value)?;
        if !is_taken || is_empty_text(value) {
            let row = row_name(alloc, rows, number)?;
            let cell = Place::Cell {
                table,
                row: row.as_str(),
                column: column.name(),
            };
            add_findings(cell, is_taken, Refusal { column, value }, report);
        }
    }
    Ok(())
}

/// Returns whether a column takes a value. A text is only copied where that doesn't show at once.
fn is_taken(alloc: Global, column: &Column, value: ValueView<'_>) -> Result<bool, Error> {
    if let ValueView::Str(text) = value
        && let ColumnType::Str(most) = column.coltype()
    {
        if most != 0 && text.len() > most.saturating_mul(4) {
            return Ok(false);
        }
        if most == 0 && column.category().is_none() && column.enum_values().is_none() {
            return Ok(true);
        }
    }
    Ok(column.is_valid_value(&value.into_value(alloc)?))
}

fn is_empty_text(value: ValueView<'_>) -> bool {
    match value {
        ValueView::Str(text) => text.is_empty(),
        ValueView::Null | ValueView::Int(_) | ValueView::Binary => false,
    }
}

fn add_findings(cell: Place<'_>, is_taken: bool, refusal: Refusal<'_>, report: &mut Report<'_>) {
    if !is_taken {
        report.add(cell, &refusal);
    }
    if is_empty_text(refusal.value) {
        let empty = EmptyText {
            file: report.file(),
            is_mended: refusal.column.is_nullable(),
        };
        report.warn(cell, &empty);
    }
}

/// An empty text that is stored. Windows Installer, Wine and libmsi have none: an empty text is null there.
#[derive(Clone, Copy)]
struct EmptyText<'a> {
    file: Cut<'a>,
    /// Whether `--fix` makes it null.
    is_mended: bool,
}

impl Display for EmptyText<'_> {
    fn fmt<W: fmt::Write>(&self, f: &mut fmt::Formatter<W>) -> fmt::Result {
        f.write_str("an empty text is stored, in whose place other programs may put another one")?;
        if self.is_mended {
            write!(f, "; msipkg check {} --fix makes it null", self.file)?;
        }
        Ok(())
    }
}
