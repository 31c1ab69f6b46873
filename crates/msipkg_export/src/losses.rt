//! What an export loses of a package, each with a line that says so.

use crate::exporting::FileFormat;
use msipkg_format::Shown;
use msipkg_looking::PackageView;
use msipkg_packages::msi::{Column, ColumnType, Table};
use msipkg_packages::output::{Failure, Output};
use msipkg_packages::{TableNames, chosen_tables};
use std::alloc::Global;

/// Writes a line for each column of the exported tables of which a text archive doesn't say that it is localizable.
/// Returns whether there is such a line.
pub(crate) fn note_losses(
    alloc: Global,
    file: &str,
    package: &PackageView,
    names: &[&str],
    format: FileFormat,
    notes: &mut Output,
) -> Result<bool, Failure> {
    match format {
        FileFormat::Idt => note_tables(alloc, file, package, names, notes),
        FileFormat::Json | FileFormat::Csv => Ok(false),
    }
}

fn note_tables(
    alloc: Global,
    file: &str,
    package: &PackageView,
    names: &[&str],
    notes: &mut Output,
) -> Result<bool, Failure> {
    let mut is_lost = false;
    for table in chosen_tables(alloc, package, names, false)? {
        is_lost |= note_columns(file, table, notes);
    }
    Ok(is_lost)
}

fn note_columns(file: &str, table: &Table, notes: &mut Output) -> bool {
    let mut is_lost = false;
    for column in table.columns() {
        if column.is_localizable() && !has_localizable_type(column) {
            note_column(file, table.name(), column.name(), notes);
            is_lost = true;
        }
    }
    is_lost
}

fn note_column(file: &str, table: &str, column: &str, notes: &mut Output) {
    let file = Shown::escaped(file);
    let (table, column) = (Shown::escaped(table), Shown::escaped(column));
    writeln!(
        notes,
        "msipkg: {file}: table {table}: column {column}: localizable is lost"
    );
}

/// Returns whether a text archive can say of a column that it is localizable, which it can of texts.
pub(crate) fn has_localizable_type(column: &Column) -> bool {
    matches!(column.coltype(), ColumnType::Str(_))
}

/// Writes a line for the first of the tables that are stored and that the package doesn't list. Returns whether there
/// is one.
pub(crate) fn note_unlisted(
    alloc: Global,
    file: &str,
    package: &PackageView,
    notes: &mut Output,
) -> Result<bool, Failure> {
    let stored = package.stored_tables()?;
    let listed = TableNames::listed(alloc, package)?;
    let Some(table) = stored.first_beside(&listed) else {
        return Ok(false);
    };
    let (file, table) = (Shown::escaped(file), Shown::escaped(table));
    writeln!(
        notes,
        "msipkg: {file}: table {table}: it isn't exported, since _Tables doesn't list it"
    );
    Ok(true)
}
