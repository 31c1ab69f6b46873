//! The row that `refs` asks for.

use crate::cells::row_key;
use msipkg_looking::PackageView;
use msipkg_packages::msi::{Rows, Table, ValueView};
use msipkg_packages::output::{Failure, Shown, near_text, push_key, said};
use msipkg_packages::{PackageTables, rows_of};
use std::alloc::{AllocError, Global};
use std::collections::BTreeSet;

/// The rows of a table that a key names: one, unless the key is only the first value of theirs.
pub(crate) struct Target<'a> {
    pub(crate) table: &'a Table,
    /// The texts that they have in each column.
    columns: Vec<BTreeSet<String>>,
}

/// Written out, so that a function that owns one calls one drop, and its proof doesn't go through those of the parts.
impl Drop for Target<'_> {
    fn drop(self) {
        let Target {
            table: _,
            columns: _,
        } = self;
    }
}

impl<'a> Target<'a> {
    /// Returns the rows of a table whose key, or its first value, is a text.
    ///
    /// # Errors
    /// Fails if there is no such table or row, with the name that is near, if the table can't be read, and with
    /// `OutOfMemory`.
    pub(crate) fn of(
        alloc: Global,
        package: &'a PackageView,
        table: &str,
        key: &str,
    ) -> Result<Target<'a>, Failure> {
        let table = table_or_near(alloc, package, table)?;
        let mut rows = rows_of(alloc, package, table.name())?;
        let mut target = Target {
            table,
            columns: Vec::new(alloc),
        };
        if target.add_rows(alloc, key, &mut rows)? {
            return Ok(target);
        }
        rows.rewind();
        let near = near_key(alloc, key, rows)?;
        let key = Shown::escaped(key);
        let text = format!(in alloc; "no row has the key {key}{near}");
        Err(said(text).at(alloc, "table", table.name()))
    }

    /// Adds the texts of the rows that a key names, and returns whether there is one.
    fn add_rows(
        &mut self,
        alloc: Global,
        key: &str,
        rows: &mut Rows<'_>,
    ) -> Result<bool, AllocError> {
        let mut is_found = false;
        for _ in 0..rows.len() {
            if is_named(alloc, rows, key)? {
                self.add_row(alloc, rows)?;
                is_found = true;
            }
            rows.advance();
        }
        Ok(is_found)
    }

    fn add_row(&mut self, alloc: Global, rows: &Rows<'_>) -> Result<(), AllocError> {
        for place in 0..rows.columns().len() {
            if place >= self.columns.len() {
                self.columns.push(BTreeSet::new(alloc))?;
            }
            if let Some(texts) = self.columns.get_mut(place)
                && let Some(text) = text_of(alloc, rows.get(place).unwrap_or(ValueView::Null))?
            {
                texts.insert(text)?;
            }
        }
        Ok(())
    }

    /// Returns whether one of the rows has a value in a column. None has null or a stream.
    ///
    /// # Errors
    /// Fails if memory is refused.
    pub(crate) fn has(
        &self,
        alloc: Global,
        place: usize,
        value: ValueView<'_>,
    ) -> Result<bool, AllocError> {
        let Some(texts) = self.columns.get(place) else {
            return Ok(false);
        };
        match value {
            ValueView::Int(number) => Ok(texts.contains(number.to_string(alloc)?.as_str())),
            ValueView::Str(text) => Ok(texts.contains(text)),
            ValueView::Null | ValueView::Binary => Ok(false),
        }
    }
}

fn table_or_near<'a>(
    alloc: Global,
    package: &'a PackageView,
    name: &str,
) -> Result<&'a Table, Failure> {
    if let Some(table) = package.get_table(name) {
        return Ok(table);
    }
    let mut names = Vec::new(alloc);
    for table in package.tables() {
        names.push(table.name())?;
    }
    let near = near_text(alloc, name, names.as_slice())?;
    let name = Shown::escaped(name);
    Err(said(format!(in alloc; "table {name} isn't there{near}")))
}

/// Returns whether a text is the key of the next row, or the first value of it.
fn is_named(alloc: Global, rows: &Rows<'_>, key: &str) -> Result<bool, AllocError> {
    let mut first = String::new(alloc);
    if let Some(place) = rows
        .columns()
        .iter()
        .position(|column| column.is_primary_key())
    {
        push_key(rows.get(place).unwrap_or(ValueView::Null), &mut first)?;
    }
    Ok(first.as_str() == key || row_key(alloc, rows)?.as_str() == key)
}

fn near_key(alloc: Global, key: &str, rows: Rows<'_>) -> Result<String, AllocError> {
    let keys = row_keys(alloc, rows)?;
    let mut names = Vec::new(alloc);
    for key in &keys {
        names.push(key.as_str())?;
    }
    near_text(alloc, key, names.as_slice())
}

fn row_keys(alloc: Global, mut rows: Rows<'_>) -> Result<Vec<String>, AllocError> {
    let mut keys = Vec::new(alloc);
    for _ in 0..rows.len() {
        keys.push(row_key(alloc, &rows)?)?;
        rows.advance();
    }
    Ok(keys)
}

/// Returns a value as a text: a number in decimal, and nothing for null and streams.
fn text_of(alloc: Global, value: ValueView<'_>) -> Result<Option<String>, AllocError> {
    match value {
        ValueView::Int(number) => Ok(Some(number.to_string(alloc)?)),
        ValueView::Str(text) => Ok(Some(String::from_str(alloc, text)?)),
        ValueView::Null | ValueView::Binary => Ok(None),
    }
}
