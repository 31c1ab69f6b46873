//! `find FILE TEXT`: the values of a package that have a text.

use crate::cells::{Cell, CellList, CellSubject, Found, note_unread, row_key};
use crate::matching::{Finder, Wanted};
use msipkg_looking::{PackageView, open_to_look};
use msipkg_packages::msi::{Rows, Table, ValueView};
use msipkg_packages::output::{Failure, Output, Style, System};
use msipkg_packages::{PackageFile, PackageTables, is_list, rows_of};
use std::alloc::{AllocError, Global};

/// What is searched for, and where.
#[derive(Clone, Copy)]
pub struct Search<'a> {
    pub wanted: Wanted<'a>,
    /// Whether the tables that describe tables are searched, too.
    pub has_all: bool,
    pub is_json: bool,
}

/// What is printed of values.
static VALUES: CellSubject = CellSubject {
    heads: &["Table", "Key", "Column", "Value"],
    list: "values",
};

/// Prints the values that are found in the package of a file, with their tables, keys and columns: in the order of the
/// tables' names and of the rows, and then the names of streams. A table that can't be read has a line in `notes`.
///
/// # Errors
/// Fails if a text that is to be a regular expression is none, and as `open_to_look` does.
pub fn find_values(
    rt: &System,
    style: Style,
    file: &PackageFile<'_>,
    search: Search<'_>,
    output: &mut Output,
    notes: &mut Output,
) -> Result<Found, Failure> {
    let alloc = rt.alloc();
    let regex = search.wanted.regex(alloc)?;
    let mut finder = search.wanted.finder(alloc, &regex)?;
    let package = open_to_look(rt, file, notes)?;
    let mut cells = CellList::new(alloc, style, file.path, search.is_json, &VALUES);
    let is_read = search_package(
        alloc,
        file.path,
        &package,
        search.has_all,
        &mut finder,
        &mut cells,
        notes,
    )?;
    Ok(cells.print(is_read, output))
}

/// Returns whether all tables can be read.
fn search_package(
    alloc: Global,
    file: &str,
    package: &PackageView,
    has_all: bool,
    finder: &mut Finder<'_>,
    cells: &mut CellList,
    notes: &mut Output,
) -> Result<bool, Failure> {
    let mut is_read = true;
    for table in package.tables() {
        if has_all || !describes_tables(table) {
            is_read &= search_or_note(alloc, file, package, table, finder, cells, notes)?;
        }
    }
    search_streams(alloc, package, finder, cells)?;
    Ok(is_read)
}

fn describes_tables(table: &Table) -> bool {
    is_list(table) || table.name() == "_Validation"
}

/// Returns whether a table can be read.
fn search_or_note(
    alloc: Global,
    file: &str,
    package: &PackageView,
    table: &Table,
    finder: &mut Finder<'_>,
    cells: &mut CellList,
    notes: &mut Output,
) -> Result<bool, Failure> {
    match rows_of(alloc, package, table.name()) {
        Ok(rows) => {
            search_rows(alloc, table.name(), rows, finder, cells)?;
            Ok(true)
        }
        Err(failure) => {
            note_unread(file, &failure, notes);
            Ok(false)
        }
    }
}

fn search_rows(
    alloc: Global,
    table: &str,
    mut rows: Rows<'_>,
    finder: &mut Finder<'_>,
    cells: &mut CellList,
) -> Result<(), AllocError> {
    for _ in 0..rows.len() {
        search_row(alloc, table, &rows, finder, cells)?;
        rows.advance();
    }
    Ok(())
}

fn search_row(
    alloc: Global,
    table: &str,
    rows: &Rows<'_>,
    finder: &mut Finder<'_>,
    cells: &mut CellList,
) -> Result<(), AllocError> {
    for (place, column) in rows.columns().iter().enumerate() {
        let value = rows.get(place).unwrap_or(ValueView::Null);
        if finder.finds(alloc, value)? {
            let key = row_key(alloc, rows)?;
            cells.put(Cell {
                table,
                key: key.as_str(),
                column: column.name(),
                value: Some(value),
            });
        }
    }
    Ok(())
}

/// Searches the names of streams, which are the keys of the installer's table `_Streams`.
fn search_streams(
    alloc: Global,
    package: &PackageView,
    finder: &mut Finder<'_>,
    cells: &mut CellList,
) -> Result<(), Failure> {
    for name in &package.stream_names()? {
        let value = ValueView::Str(name.as_str());
        if finder.finds(alloc, value)? {
            cells.put(Cell {
                table: "_Streams",
                key: name.as_str(),
                column: "Name",
                value: Some(value),
            });
        }
    }
    Ok(())
}
