//! The columns to which foreign keys refer, and values as texts.

use crate::reading::pass_over;
use msipkg_looking::PackageView;
use msipkg_packages::PackageTables;
use msipkg_packages::msi::{Rows, Select, ValueView};
use msipkg_packages::output::Failure;
use std::alloc::{AllocError, Global};
use std::collections::{BTreeMap, BTreeSet};

/// Returns a value's text: a number in decimal, and nothing for null and streams.
pub(crate) fn key_text(alloc: Global, value: ValueView<'_>) -> Result<Option<String>, AllocError> {
    match value {
        ValueView::Int(number) => Ok(Some(number.to_string(alloc)?)),
        ValueView::Str(text) => Ok(Some(String::from_str(alloc, text)?)),
        ValueView::Null | ValueView::Binary => Ok(None),
    }
}

/// Columns with the texts of their values. A column is read once, however many foreign keys refer to it, and a text is
/// held once, however many columns have it.
pub(crate) struct KeyColumns {
    alloc: Global,
    /// The number of each text.
    texts: BTreeMap<String, usize>,
    /// The number of each column, by its place in its table and the table's name.
    columns: BTreeMap<String, usize>,
    /// Which column has which text, each by its number.
    keys: BTreeSet<(usize, usize)>,
}

/// Written out, so that a function that owns one calls one drop, and its proof doesn't go through those of the parts.
impl Drop for KeyColumns {
    fn drop(self) {
        let KeyColumns {
            alloc: _,
            texts: _,
            columns: _,
            keys: _,
        } = self;
    }
}

impl KeyColumns {
    pub(crate) fn new(alloc: Global) -> KeyColumns {
        KeyColumns {
            alloc,
            texts: BTreeMap::new(alloc),
            columns: BTreeMap::new(alloc),
            keys: BTreeSet::new(alloc),
        }
    }

    /// Returns the number of a table's column, whose place is counted from 1. It has no texts if there is no such table
    /// or column, or if the table can't be read.
    pub(crate) fn column(
        &mut self,
        package: &PackageView,
        table: &str,
        place: i32,
    ) -> Result<usize, Failure> {
        let name = format!(in self.alloc; "{place} {table}")?;
        if let Some(column) = self.columns.get(name.as_str()) {
            return Ok(*column);
        }
        let column = self.columns.len();
        self.columns.insert(name, column)?;
        self.add_column(package, table, place, column)?;
        Ok(column)
    }

    fn add_column(
        &mut self,
        package: &PackageView,
        table: &str,
        place: i32,
        column: usize,
    ) -> Result<(), Failure> {
        match package.select_rows(Select::table(self.alloc, table)?) {
            Ok(rows) => self.add_rows(column, usize::try_from(place).unwrap_or(0), rows),
            Err(error) => pass_over(error),
        }
    }

    /// Adds the texts of rows in the column at a place, counted from 1.
    fn add_rows(&mut self, column: usize, place: usize, mut rows: Rows<'_>) -> Result<(), Failure> {
        let Some(place) = place.checked_sub(1) else {
            return Ok(());
        };
        for _ in 0..rows.len() {
            self.add_value(column, rows.get(place).unwrap_or(ValueView::Null))?;
            rows.advance();
        }
        Ok(())
    }

    fn add_value(&mut self, column: usize, value: ValueView<'_>) -> Result<(), AllocError> {
        if let Some(text) = key_text(self.alloc, value)? {
            let text = self.text_number(text)?;
            self.keys.insert((column, text))?;
        }
        Ok(())
    }

    /// Returns the number of a text, which is a new one if there was none.
    fn text_number(&mut self, text: String) -> Result<usize, AllocError> {
        if let Some(number) = self.texts.get(text.as_str()) {
            return Ok(*number);
        }
        let number = self.texts.len();
        self.texts.insert(text, number)?;
        Ok(number)
    }

    pub(crate) fn have_text(&self, columns: &BTreeSet<usize>, text: &str) -> bool {
        let Some(text) = self.texts.get(text) else {
            return false;
        };
        for column in columns {
            if self.keys.contains(&(*column, *text)) {
                return true;
            }
        }
        false
    }
}
