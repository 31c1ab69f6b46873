//! The tables that a command is about.

use crate::output::{Failure, Opened, push_key};
use msi::{Error, Package, Rows, Select, Table, ValueView};
use std::alloc::{AllocError, Global};

/// The tables of a package, and whether it has a stream of a name: of one that is opened whole, or is looked at.
pub trait PackageTables {
    /// Returns the tables, by name in the order of their bytes.
    fn tables(&self) -> &[Table];

    /// Returns the table of this name, if there is one.
    fn get_table(&self, name: &str) -> Option<&Table>;

    /// Returns the rows that a query selects.
    ///
    /// # Errors
    /// Fails as `Package::select_rows` does.
    fn select_rows(&self, query: Select) -> Result<Rows<'_>, Error>;

    /// Returns whether a stream is found under this name.
    fn has_stream(&self, name: &str) -> bool;
}

impl PackageTables for Package<Opened> {
    fn tables(&self) -> &[Table] {
        Package::tables(self).as_slice()
    }

    fn get_table(&self, name: &str) -> Option<&Table> {
        Package::get_table(self, name)
    }

    fn select_rows(&self, query: Select) -> Result<Rows<'_>, Error> {
        Package::select_rows(self, query)
    }

    fn has_stream(&self, name: &str) -> bool {
        Package::has_stream(self, name)
    }
}

/// Returns whether a table only lists what the others are.
pub fn is_list(table: &Table) -> bool {
    matches!(table.name(), "_Columns" | "_Tables")
}

/// Returns the table of a name.
///
/// # Errors
/// Fails if it isn't there, at its name.
pub fn table_named<'a, P: PackageTables>(
    alloc: Global,
    package: &'a P,
    name: &str,
) -> Result<&'a Table, Failure> {
    match package.get_table(name) {
        Some(table) => Ok(table),
        None => Err(Failure::rule("there is no table of this name").at(alloc, "table", name)),
    }
}

/// Returns the tables of these names, or all tables where there is none. Those that only list what the others are
/// aren't among all, unless `has_lists` says so.
///
/// # Errors
/// Fails if a table isn't there, at its name, and if memory is refused.
pub fn chosen_tables<'a, P: PackageTables>(
    alloc: Global,
    package: &'a P,
    names: &[&str],
    has_lists: bool,
) -> Result<Vec<&'a Table>, Failure> {
    let mut tables = Vec::new(alloc);
    for name in names {
        tables.push(table_named(alloc, package, name)?)?;
    }
    if names.is_empty() {
        add_tables(package, has_lists, &mut tables)?;
    }
    Ok(tables)
}

/// Adds all tables. With `has_lists`, these include those that only list what the others are.
fn add_tables<'a, P: PackageTables>(
    package: &'a P,
    has_lists: bool,
    tables: &mut Vec<&'a Table>,
) -> Result<(), AllocError> {
    for table in package.tables() {
        if has_lists || !is_list(table) {
            tables.push(table)?;
        }
    }
    Ok(())
}

/// Returns all rows of a table.
///
/// # Errors
/// Fails if the table isn't there or can't be read, and with `OutOfMemory`; at the table's name.
pub fn rows_of<'a, P: PackageTables>(
    alloc: Global,
    package: &'a P,
    table: &str,
) -> Result<Rows<'a>, Failure> {
    match selected(alloc, package, table) {
        Ok(rows) => Ok(rows),
        Err(error) => Err(Failure::from(error).at(alloc, "table", table)),
    }
}

fn selected<'a, P: PackageTables>(
    alloc: Global,
    package: &'a P,
    table: &str,
) -> Result<Rows<'a>, Error> {
    package.select_rows(Select::table(alloc, table)?)
}

/// Returns the place of a cell for people: the name of a table, the key of its next row with its values separated by
/// slashes, and the name of a column.
///
/// # Errors
/// Fails if memory is refused.
pub fn cell_text(
    alloc: Global,
    table: &str,
    rows: &Rows<'_>,
    place: usize,
) -> Result<String, AllocError> {
    let mut text = format!(in alloc; "{table}, row ")?;
    let mut is_first = true;
    for (place, column) in rows.columns().iter().enumerate() {
        if column.is_primary_key() {
            if !is_first {
                text.push('/')?;
            }
            is_first = false;
            push_key(rows.get(place).unwrap_or(ValueView::Null), &mut text)?;
        }
    }
    text.push_str(", column ")?;
    if let Some(column) = rows.columns().get(place) {
        text.push_str(column.name())?;
    }
    Ok(text)
}

/// Fails if the installer uses the name of a table itself: it lists streams and storages as tables of these names.
pub fn check_reserved(table: &str) -> Result<(), Failure> {
    match table {
        "_Streams" | "_Storages" => {
            Err(Failure::rule("_Streams and _Storages are reserved for the installer"))
        }
        _ => Ok(()),
    }
}
