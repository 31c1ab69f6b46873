//! What differs between the tables of two packages.

use crate::columns::compare_columns;
use crate::diff::Compared;
use crate::difference::{Change, Content, Difference, Member};
use crate::report::Report;
use crate::rows::{add_added, add_removed, compare_rows};
use msipkg_packages::msi::{Column, Table};
use msipkg_packages::output::Failure;
use msipkg_packages::{PackageTables, is_list};
use std::alloc::{AllocError, Global};

/// Compares all tables: their columns and, where these have the same names in the same order and the same keys, their
/// rows.
pub(crate) fn compare_tables(
    old: &Compared<'_>,
    new: &Compared<'_>,
    report: &mut Report<'_>,
) -> Result<(), Failure> {
    for table in old.package.tables() {
        if !is_list(table) {
            compare_table(old, new, table, report)?;
        }
    }
    add_new_tables(old, new, report)
}

fn add_new_tables(
    old: &Compared<'_>,
    new: &Compared<'_>,
    report: &mut Report<'_>,
) -> Result<(), Failure> {
    for table in new.package.tables() {
        if old.package.get_table(table.name()).is_none() {
            note_table(Change::Added, table, report);
            add_added(new, table, report)?;
        }
    }
    Ok(())
}

fn note_table(change: Change, table: &Table, report: &mut Report<'_>) {
    report.add(&Difference {
        change,
        kind: "table",
        table: "",
        name: table.name(),
        old: &[],
        new: &[],
    });
}

fn compare_table(
    old: &Compared<'_>,
    new: &Compared<'_>,
    table: &Table,
    report: &mut Report<'_>,
) -> Result<(), Failure> {
    let Some(other) = new.package.get_table(table.name()) else {
        note_table(Change::Removed, table, report);
        return add_removed(old, table, report);
    };
    let have_names = have_same_names(table.columns(), other.columns());
    compare_columns(table, other, have_names, report);
    if !have_names {
        let made = compare_orders(table, other, report);
        report.keep(made);
        return Ok(());
    }
    if !have_same_keys(table.columns(), other.columns()) {
        return Ok(());
    }
    compare_rows(old, new, table, other, report)
}

fn have_same_names(columns: &[Column], others: &[Column]) -> bool {
    columns.len() == others.len()
        && columns
            .iter()
            .zip(others.iter())
            .all(|(column, other)| column.name() == other.name())
}

/// Returns whether, of columns with the same names, the same ones are keys.
fn have_same_keys(columns: &[Column], others: &[Column]) -> bool {
    columns.iter().zip(others.iter()).all(|(column, other)| column.is_primary_key()
        == other.is_primary_key())
}

/// Adds the orders of the columns of two tables, which differ.
fn compare_orders(old: &Table, new: &Table, report: &mut Report<'_>) -> Result<(), AllocError> {
    let old_names = names_of(report.alloc, old.columns())?;
    let new_names = names_of(report.alloc, new.columns())?;
    report.add(&Difference {
        change: Change::Changed,
        kind: "table",
        table: "",
        name: old.name(),
        old: &[names_member(old_names.as_str())],
        new: &[names_member(new_names.as_str())],
    });
    Ok(())
}

fn names_member(names: &str) -> Member<'_> {
    Member {
        name: "columns",
        content: Content::Text(names),
    }
}

fn names_of(alloc: Global, columns: &[Column]) -> Result<String, AllocError> {
    let mut names = String::new(alloc);
    let mut before = "";
    for column in columns {
        names.push_str(before)?;
        names.push_str(column.name())?;
        before = ", ";
    }
    Ok(names)
}
