//! Giving a package tables.

use crate::columns::built_columns;
use crate::descriptions::describe;
use crate::importing::Merging;
use crate::merger::merged_rows;
use crate::rows::{check_rows, columns_of, package_rows};
use crate::rules::rules_of;
use crate::validation::{VALIDATION, add_validation, copied_rows};
use msipkg_import_files::GivenTable;
use msipkg_packages::check_reserved;
use msipkg_packages::msi::{Delete, Error, Insert, Package, Value};
use msipkg_packages::output::{Failure, Opened};
use std::alloc::Global;

/// Adds tables with their rows. Rows of `_Validation` say more of columns, and aren't stored themselves. All tables are
/// created and described before rows are inserted, since each such change copies the texts that the package has by
/// then.
pub(crate) fn apply_tables(
    alloc: Global,
    package: &mut Package<Opened>,
    tables: &[GivenTable],
    merging: Merging,
) -> Result<(), Failure> {
    prepare(alloc, package, tables)?;
    let rules = rules_of(alloc, columns_of(package, VALIDATION), tables)?;
    create_tables(alloc, package, rules.as_slice(), tables)?;
    insert_all(alloc, package, tables, merging)
}

/// Adds `_Validation` to a package if it lacks one of the tables.
fn prepare(
    alloc: Global,
    package: &mut Package<Opened>,
    tables: &[GivenTable],
) -> Result<(), Failure> {
    for table in tables {
        if package.has_table(table.name.as_str()) {
            continue;
        }
        if let Err(failure) = add_validation(alloc, package) {
            return Err(table.at_table(alloc, failure));
        }
    }
    Ok(())
}

fn create_tables(
    alloc: Global,
    package: &mut Package<Opened>,
    rules: &[Vec<Value>],
    tables: &[GivenTable],
) -> Result<(), Failure> {
    for table in tables {
        if package.has_table(table.name.as_str()) {
            continue;
        }
        if let Err(failure) = create_table(alloc, package, rules, table) {
            return Err(table.at_table(alloc, failure));
        }
    }
    describe(alloc, package, rules)
}

fn create_table(
    alloc: Global,
    package: &mut Package<Opened>,
    rules: &[Vec<Value>],
    table: &GivenTable,
) -> Result<(), Failure> {
    check_reserved(table.name.as_str())?;
    let columns = built_columns(alloc, rules, table)?;
    Ok(package.create_table(table.name.as_str(), columns)?)
}

fn insert_all(
    alloc: Global,
    package: &mut Package<Opened>,
    tables: &[GivenTable],
    merging: Merging,
) -> Result<(), Failure> {
    for table in tables {
        if table.name.as_str() == VALIDATION {
            continue;
        }
        if let Err(failure) = put_rows(alloc, package, table, merging) {
            return Err(table.at_table(alloc, failure));
        }
    }
    Ok(())
}

fn put_rows(
    alloc: Global,
    package: &mut Package<Opened>,
    table: &GivenTable,
    merging: Merging,
) -> Result<(), Failure> {
    match merging {
        Merging::Refuse => insert_rows(alloc, package, table),
        Merging::Replace | Merging::Update => merge_rows(alloc, package, table, merging),
    }
}

fn insert_rows(
    alloc: Global,
    package: &mut Package<Opened>,
    table: &GivenTable,
) -> Result<(), Failure> {
    let columns = columns_of(package, table.name.as_str());
    let rows = package_rows(alloc, columns, table)?;
    check_rows(alloc, columns, table, rows.as_slice())?;
    Ok(package.insert_rows(insert(alloc, table, rows)?)?)
}

fn merge_rows(
    alloc: Global,
    package: &mut Package<Opened>,
    table: &GivenTable,
    merging: Merging,
) -> Result<(), Failure> {
    let columns = columns_of(package, table.name.as_str());
    let given = package_rows(alloc, columns, table)?;
    let rows = copied_rows(alloc, package, table.name.as_str())?;
    let rows = merged_rows(alloc, columns, table, merging, rows, given)?;
    package.delete_rows(Delete::from(alloc, table.name.as_str())?)?;
    Ok(package.insert_rows(insert(alloc, table, rows)?)?)
}

fn insert(alloc: Global, table: &GivenTable, rows: Vec<Vec<Value>>) -> Result<Insert, Error> {
    Insert::into(alloc, table.name.as_str())?.rows(rows)
}
