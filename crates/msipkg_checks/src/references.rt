//! Foreign keys that no row has.

use crate::keys::{KeyColumns, key_text};
use crate::reading::pass_over;
use crate::report::{Place, Report};
use crate::shown::{Cut, ShownValue, row_name};
use msipkg_looking::PackageView;
use msipkg_packages::PackageTables;
use msipkg_packages::msi::{Rows, Select, Table, ValueView};
use msipkg_packages::output::Failure;
use std::alloc::{AllocError, Global};
use std::collections::BTreeSet;
use std::fmt::{self, Display};

/// A column with a foreign key, and the numbers of the columns to which it refers.
struct Reference {
    /// The column's place in its table, from 0.
    place: usize,
    targets: BTreeSet<usize>,
}

/// Written out, so that a function that owns one calls one drop, and its proof doesn't go through those of the parts.
impl Drop for Reference {
    fn drop(self) {
        let Reference {
            place: _,
            targets: _,
        } = self;
    }
}

/// Finds the values of columns with a foreign key that no row of the tables to which it refers has. Tables that can't
/// be read are passed over.
pub(crate) fn check_references(
    alloc: Global,
    package: &PackageView,
    report: &mut Report<'_>,
) -> Result<(), Failure> {
    let mut keys = KeyColumns::new(alloc);
    check_tables(alloc, package, &mut keys, report)
}

fn check_tables(
    alloc: Global,
    package: &PackageView,
    keys: &mut KeyColumns,
    report: &mut Report<'_>,
) -> Result<(), Failure> {
    for table in package.tables() {
        check_table(alloc, package, table, keys, report)?;
    }
    Ok(())
}

fn check_table(
    alloc: Global,
    package: &PackageView,
    table: &Table,
    keys: &mut KeyColumns,
    report: &mut Report<'_>,
) -> Result<(), Failure> {
    let mut references = Vec::new(alloc);
    add_references(alloc, package, table, keys, &mut references)?;
    check_columns(alloc, package, table, references.as_slice(), keys, report)
}

fn check_columns(
    alloc: Global,
    package: &PackageView,
    table: &Table,
    references: &[Reference],
    keys: &KeyColumns,
    report: &mut Report<'_>,
) -> Result<(), Failure> {
    if references.is_empty() {
        return Ok(());
    }
    match package.select_rows(Select::table(alloc, table.name())?) {
        Ok(rows) => check_rows(alloc, table, rows, references, keys, report),
        Err(error) => pass_over(error),
    }
}

fn add_references(
    alloc: Global,
    package: &PackageView,
    table: &Table,
    keys: &mut KeyColumns,
    references: &mut Vec<Reference>,
) -> Result<(), Failure> {
    for (place, column) in table.columns().iter().enumerate() {
        if let Some((tables, number)) = column.foreign_key() {
            let targets = targets_of(alloc, package, tables, number, keys)?;
            references.push(Reference { place, targets })?;
        }
    }
    Ok(())
}

/// Returns the columns to which a foreign key refers: those at a place, counted from 1, of tables whose names are
/// separated by semicolons.
fn targets_of(
    alloc: Global,
    package: &PackageView,
    tables: &str,
    place: i32,
    keys: &mut KeyColumns,
) -> Result<BTreeSet<usize>, Failure> {
    let mut targets = BTreeSet::new(alloc);
    for table in tables.split(';') {
        if package.get_table(table).is_some() {
            targets.insert(keys.column(package, table, place)?)?;
        }
    }
    Ok(targets)
}

fn check_rows(
    alloc: Global,
    table: &Table,
    mut rows: Rows<'_>,
    references: &[Reference],
    keys: &KeyColumns,
    report: &mut Report<'_>,
) -> Result<(), Failure> {
    for number in 0..rows.len() {
        let number = number.saturating_add(1);
        check_row(alloc, table, number, &rows, references, keys, report)?;
        rows.advance();
    }
    Ok(())
}

fn check_row(
    alloc: Global,
    table: &Table,
    number: usize,
    rows: &Rows<'_>,
    references: &[Reference],
    keys: &KeyColumns,
    report: &mut Report<'_>,
) -> Result<(), AllocError> {
    for reference in references {
        let value = rows.get(reference.place).unwrap_or(ValueView::Null);
        if !is_met(alloc, value, reference, keys)? {
            let row = row_name(alloc, rows, number)?;
            add_missing(table, row.as_str(), reference.place, value, report);
        }
    }
    Ok(())
}

/// Returns whether a row has the key to which a value refers, which is so for null.
fn is_met(
    alloc: Global,
    value: ValueView<'_>,
    reference: &Reference,
    keys: &KeyColumns,
) -> Result<bool, AllocError> {
    match key_text(alloc, value)? {
        Some(text) => Ok(keys.have_text(&reference.targets, text.as_str())),
        None => Ok(true),
    }
}

fn add_missing(
    table: &Table,
    row: &str,
    place: usize,
    value: ValueView<'_>,
    report: &mut Report<'_>,
) {
    if let Some(column) = table.columns().get(place)
        && let Some((tables, _)) = column.foreign_key()
    {
        let cell = Place::Cell {
            table: table.name(),
            row,
            column: column.name(),
        };
        report.add(cell, &MissingKey { tables, value });
    }
}

/// A key that no row has of the tables whose names stand between semicolons.
#[derive(Clone, Copy)]
struct MissingKey<'a> {
    tables: &'a str,
    value: ValueView<'a>,
}

impl Display for MissingKey<'_> {
    fn fmt<W: fmt::Write>(&self, f: &mut fmt::Formatter<W>) -> fmt::Result {
        let (tables, value) = (Cut(self.tables), ShownValue(self.value));
        write!(f, "no row of {tables} has {value}")
    }
}
