//! What files say of columns in `_Validation`, and a package doesn't hold.

use crate::rows::{columns_of, package_rows};
use crate::rules::has_category;
use crate::validation::VALIDATION;
use msipkg_format::Shown;
use msipkg_import_files::GivenTable;
use msipkg_packages::msi::{Category, Column, Package, Row, Value};
use msipkg_packages::output::{Failure, Opened, Output};
use msipkg_packages::rows_of;
use std::alloc::{AllocError, Global};
use std::collections::BTreeMap;

/// Refuses an import that loses something.
const LOSSY: &str =
    "_Validation can't hold all that the files say of columns; --lossy imports the rest";

/// The rows of a package's `_Validation`, by their tables and columns.
pub struct Descriptions {
    alloc: Global,
    rows: BTreeMap<String, Row>,
}

/// Written out, so that a function that owns one calls one drop, and its proof doesn't go through those of the parts.
impl Drop for Descriptions {
    fn drop(self) {
        let Descriptions { alloc: _, rows: _ } = self;
    }
}

impl Descriptions {
    /// Reads the rows.
    ///
    /// # Errors
    /// Fails if a row can't be read, and if memory is refused.
    pub fn of(alloc: Global, package: &Package<Opened>) -> Result<Descriptions, Failure> {
        let mut rows = BTreeMap::new(alloc);
        for row in rows_of(alloc, package, VALIDATION)? {
            add_row(alloc, row?, &mut rows)?;
        }
        Ok(Descriptions { alloc, rows })
    }

    /// Returns the row about a column, if there is one.
    ///
    /// # Errors
    /// Fails if memory is refused.
    pub fn about(&self, table: &str, column: &str) -> Result<Option<&Row>, AllocError> {
        let key = key_of(self.alloc, table, column)?;
        Ok(self.rows.get(key.as_str()))
    }
}

fn add_row(alloc: Global, row: Row, rows: &mut BTreeMap<String, Row>) -> Result<(), AllocError> {
    if row.len() < 2 {
        return Ok(());
    }
    let key = match (&row[0], &row[1]) {
        (Value::Str(table), Value::Str(column)) => key_of(alloc, table.as_str(), column.as_str())?,
        _ => return Ok(()),
    };
    rows.insert(key, row)?;
    Ok(())
}

/// Returns the key of a row, in which the length of the table's name shows where the column's begins.
fn key_of(alloc: Global, table: &str, column: &str) -> Result<String, AllocError> {
    format!(in alloc; "{} {table}{column}", table.len())
}

/// Notes what a package doesn't hold of rows of `_Validation` among tables: each cell and each row has a line.
pub fn note_losses(
    alloc: Global,
    package: &Package<Opened>,
    tables: &[GivenTable],
    losses: &mut Losses<'_>,
) -> Result<(), Failure> {
    for table in tables {
        if table.name.as_str() == VALIDATION {
            note_table(alloc, package, table, losses)?;
        }
    }
    Ok(())
}

/// Where lines are written on what a package's file loses, and how many there are.
#[derive(Drop)]
pub struct Losses<'a> {
    file: &'a str,
    lines: &'a mut Output,
    count: usize,
}

impl<'a> Losses<'a> {
    pub fn new(file: &'a str, lines: &'a mut Output) -> Losses<'a> {
        Losses {
            file,
            lines,
            count: 0,
        }
    }

    pub fn permit(&self, is_lossy: bool) -> Result<(), Failure> {
        if self.count > 0 && !is_lossy {
            return Err(Failure::rule(LOSSY));
        }
        Ok(())
    }

    fn add_row(&mut self, table: &str, column: &str) {
        self.count = self.count.saturating_add(1);
        let (file, table, column) = shown(self.file, table, column);
        writeln!(
            self.lines,
            "msipkg: {file}: table _Validation: row {table}/{column}: it isn't stored"
        );
    }

    fn add_cell(&mut self, table: &str, column: &str, cell: &str) {
        self.count = self.count.saturating_add(1);
        let (file, table, column) = shown(self.file, table, column);
        writeln!(
            self.lines,
            "msipkg: {file}: table _Validation: row {table}/{column}, column {cell}: its value isn't stored"
        );
    }

    /// Notes that rows aren't stored because the package lacks their tables.
    fn add_others(&mut self, many: usize) {
        if many > 0 {
            self.count = self.count.saturating_add(many);
            let file = Shown::escaped(self.file);
            writeln!(
                self.lines,
                "msipkg: {file}: table _Validation: rows not stored, since their tables aren't there: {many}"
            );
        }
    }
}

fn shown<'a>(file: &'a str, table: &'a str, column: &'a str) -> (Shown<'a>, Shown<'a>, Shown<'a>) {
    (
        Shown::escaped(file),
        Shown::escaped(table),
        Shown::escaped(column),
    )
}

fn note_table(
    alloc: Global,
    package: &Package<Opened>,
    table: &GivenTable,
    losses: &mut Losses<'_>,
) -> Result<(), Failure> {
    let held = Descriptions::of(alloc, package)?;
    let columns = columns_of(package, VALIDATION);
    let rows = package_rows(alloc, columns, table)?;
    note_rows(package, columns, table, &held, rows.as_slice(), losses)
}

fn note_rows(
    package: &Package<Opened>,
    columns: &[Column],
    table: &GivenTable,
    held: &Descriptions,
    rows: &[Vec<Value>],
    losses: &mut Losses<'_>,
) -> Result<(), Failure> {
    let mut others = 0usize;
    for row in rows {
        let [Value::Str(of), Value::Str(name), ..] = row.as_slice() else {
            others = others.saturating_add(1);
            continue;
        };
        if !package.has_table(of.as_str()) {
            others = others.saturating_add(1);
            continue;
        }
        match held.about(of.as_str(), name.as_str())? {
            Some(stored) => note_cells(columns, table, row.as_slice(), stored, losses),
            None => losses.add_row(of.as_str(), name.as_str()),
        }
    }
    losses.add_others(others);
    Ok(())
}

fn note_cells(
    columns: &[Column],
    table: &GivenTable,
    row: &[Value],
    stored: &Row,
    losses: &mut Losses<'_>,
) {
    let [Value::Str(of), Value::Str(name), ..] = row else {
        return;
    };
    for i in 0..row.len().min(stored.len()).min(columns.len()) {
        let cell = columns[i].name();
        if table.place_of(cell).is_some() && !is_held(cell, &row[i], &stored[i]) {
            losses.add_cell(of.as_str(), name.as_str(), cell);
        }
    }
}

/// Returns whether a value is stored, or says the same as the stored one: a category may be spelled in two ways.
pub fn is_held(cell: &str, value: &Value, stored: &Value) -> bool {
    value == stored || (has_category(cell, value) && category_of(value) == category_of(stored))
}

fn category_of(value: &Value) -> Option<Category> {
    value.as_str()?.parse::<Category>().ok()
}
