//! `refs FILE TABLE KEY`: the rows that refer to a row.

use crate::cells::{Cell, CellList, CellSubject, Found, note_unread, row_key};
use crate::known_keys::known_key;
use crate::target::Target;
use msipkg_looking::{PackageView, open_to_look};
use msipkg_packages::msi::{Column, Rows, Table, ValueView};
use msipkg_packages::output::{Failure, Output, Shown, Style, System};
use msipkg_packages::{PackageFile, PackageTables, rows_of};
use std::alloc::{AllocError, Global};

/// Which row is asked for.
#[derive(Clone, Copy)]
pub struct Referred<'a> {
    pub table: &'a str,
    /// Its key, the values separated by slashes, or the first of them.
    pub key: &'a str,
    pub is_json: bool,
}

/// What is printed of the cells that refer to a row.
static REFERENCES: CellSubject = CellSubject {
    heads: &["Table", "Key", "Column"],
    list: "references",
};

/// A column that refers to a table.
#[derive(Clone, Copy)]
struct Reference {
    place: usize,
    /// The place of the column in that table.
    target: usize,
    /// If that column is behind the first one of its key: the place of the column with the first one's values.
    first: Option<usize>,
}

/// Prints the cells of the package of a file that refer to a row, in the order of the tables' names and of the rows. If
/// none does, `notes` has a line that says so, and one for each table that can't be read.
///
/// # Errors
/// Fails as `open_to_look` does, and if the row isn't there or can't be read.
pub fn find_references(
    rt: &System,
    style: Style,
    file: &PackageFile<'_>,
    referred: Referred<'_>,
    output: &mut Output,
    notes: &mut Output,
) -> Result<Found, Failure> {
    let alloc = rt.alloc();
    let package = open_to_look(rt, file, notes)?;
    let target = Target::of(alloc, &package, referred.table, referred.key)?;
    let mut cells = CellList::new(alloc, style, file.path, referred.is_json, &REFERENCES);
    let is_read = add_tables(alloc, file.path, &package, &target, &mut cells, notes)?;
    let found = cells.print(is_read, output);
    if matches!(found, Found::Nothing) {
        note_nothing(file.path, referred, notes);
    }
    Ok(found)
}

fn note_nothing(file: &str, referred: Referred<'_>, notes: &mut Output) {
    let (file, table) = (Shown::escaped(file), Shown::escaped(referred.table));
    let key = Shown::escaped(referred.key);
    writeln!(
        notes,
        "msipkg: {file}: table {table}: nothing refers to {key}"
    );
}

/// Returns whether all tables with references can be read.
fn add_tables(
    alloc: Global,
    file: &str,
    package: &PackageView,
    target: &Target<'_>,
    cells: &mut CellList,
    notes: &mut Output,
) -> Result<bool, Failure> {
    let mut is_read = true;
    for table in package.tables() {
        let references = references_in(alloc, table, target.table)?;
        if references.is_empty() {
            continue;
        }
        match rows_of(alloc, package, table.name()) {
            Ok(rows) => add_rows(alloc, table, rows, references.as_slice(), target, cells)?,
            Err(failure) => {
                note_unread(file, &failure, notes);
                is_read = false;
            }
        }
    }
    Ok(is_read)
}

fn references_in(
    alloc: Global,
    table: &Table,
    target: &Table,
) -> Result<Vec<Reference>, AllocError> {
    let mut references = Vec::new(alloc);
    for (place, column) in table.columns().iter().enumerate() {
        if let Some(target_place) = place_referred_to(table, column, target) {
            references.push(Reference {
                place,
                target: target_place,
                first: first_place(table, target, target_place),
            })?;
        }
    }
    Ok(references)
}

/// Returns the place of the column of a table that another column refers to, as `_Validation` has it, or else the
/// installer's documentation.
fn place_referred_to(table: &Table, column: &Column, target: &Table) -> Option<usize> {
    let key = column.foreign_key();
    let (tables, number) = key.or(known_key(table.name(), column.name()))?;
    if tables.split(';').any(|name| name == target.name()) {
        usize::try_from(number).ok()?.checked_sub(1)
    } else {
        None
    }
}

/// A control is known by its dialog and its name, and columns refer to its name alone. So where a column behind the
/// first one of a table is referred to, the first one's values are in a column of the same name, except for an
/// underscore at its end.
fn first_place(table: &Table, target: &Table, target_place: usize) -> Option<usize> {
    if target_place == 0 {
        return None;
    }
    let first = bare_name(target.columns().first()?);
    table
        .columns()
        .iter()
        .position(|column| bare_name(column) == first)
}

fn bare_name(column: &Column) -> &str {
    let name = column.name();
    name.strip_suffix('_').unwrap_or(name)
}

fn add_rows(
    alloc: Global,
    table: &Table,
    mut rows: Rows<'_>,
    references: &[Reference],
    target: &Target<'_>,
    cells: &mut CellList,
) -> Result<(), AllocError> {
    for _ in 0..rows.len() {
        add_row(alloc, table, &rows, references, target, cells)?;
        rows.advance();
    }
    Ok(())
}

fn add_row(
    alloc: Global,
    table: &Table,
    rows: &Rows<'_>,
    references: &[Reference],
    target: &Target<'_>,
    cells: &mut CellList,
) -> Result<(), AllocError> {
    for reference in references {
        if refers(alloc, rows, *reference, target)? {
            let key = row_key(alloc, rows)?;
            put_cell(table, key.as_str(), reference.place, cells);
        }
    }
    Ok(())
}

fn put_cell<'a>(table: &'a Table, key: &'a str, place: usize, cells: &mut CellList) {
    if let Some(column) = table.columns().get(place) {
        cells.put(Cell {
            table: table.name(),
            key,
            column: column.name(),
            value: None,
        });
    }
}

fn refers(
    alloc: Global,
    rows: &Rows<'_>,
    reference: Reference,
    target: &Target<'_>,
) -> Result<bool, AllocError> {
    let value = rows.get(reference.place).unwrap_or(ValueView::Null);
    if !target.has(alloc, reference.target, value)? {
        return Ok(false);
    }
    match reference.first {
        Some(place) => target.has(alloc, 0, rows.get(place).unwrap_or(ValueView::Null)),
        None => Ok(true),
    }
}
