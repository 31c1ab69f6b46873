//! The rows of a package's table by their keys.

use msipkg_format::{Failure, NullCells, Opened};
use msipkg_packages::msi::{Column, Package, Row, Table, ValueView};
use msipkg_packages::{null_cells_of, rows_of};
use std::alloc::{AllocError, Global};
use std::collections::BTreeMap;

/// A row, and its number in its table.
struct NumberedRow {
    number: usize,
    row: Row,
}

/// Written out, so that a function that owns one calls one drop, and its proof doesn't go through those of the parts.
impl Drop for NumberedRow {
    fn drop(self) {
        let NumberedRow { number: _, row: _ } = self;
    }
}

/// The rows of a table by their keys, and which of its cells of streams are null.
pub(crate) struct BaseRows {
    rows: BTreeMap<String, NumberedRow>,
    nulls: NullCells,
}

/// Written out, so that a function that owns one calls one drop, and its proof doesn't go through those of the parts.
impl Drop for BaseRows {
    fn drop(self) {
        let BaseRows { rows: _, nulls: _ } = self;
    }
}

/// A row of the package, whose values are borrowed.
#[derive(Clone, Copy)]
pub(crate) struct BaseRow<'a> {
    held: &'a NumberedRow,
    nulls: &'a NullCells,
}

impl<'a> BaseRow<'a> {
    /// Returns the value of a column, which is null where the row has none.
    pub(crate) fn value(&self, place: usize) -> ValueView<'a> {
        if self.nulls.has(self.held.number, place) || place >= self.held.row.len() {
            return ValueView::Null;
        }
        ValueView::of(&self.held.row[place])
    }
}

impl BaseRows {
    /// Returns the rows of a table.
    ///
    /// # Errors
    /// Fails if the table can't be read, and if memory is refused; at its name.
    pub(crate) fn of(
        alloc: Global,
        package: &Package<Opened>,
        table: &Table,
    ) -> Result<BaseRows, Failure> {
        let mut rows = BTreeMap::new(alloc);
        let mut number = 0usize;
        for row in rows_of(alloc, package, table.name())? {
            let row = row?;
            let key = key_of(alloc, table.columns(), &row)?;
            rows.insert(key, NumberedRow { number, row })?;
            number = number.saturating_add(1);
        }
        let nulls = null_cells_of(alloc, package, table)?;
        Ok(BaseRows { rows, nulls })
    }

    /// Returns the row of a key, if there is one.
    ///
    /// # Errors
    /// Fails if memory is refused.
    pub(crate) fn get(
        &self,
        alloc: Global,
        key: &[ValueView<'_>],
    ) -> Result<Option<BaseRow<'_>>, AllocError> {
        let mut text = String::new(alloc);
        for value in key {
            push_exactly(*value, &mut text)?;
        }
        match self.rows.get(text.as_str()) {
            Some(held) => Ok(Some(BaseRow {
                held,
                nulls: &self.nulls,
            })),
            None => Ok(None),
        }
    }
}

fn key_of(alloc: Global, columns: &[Column], row: &Row) -> Result<String, AllocError> {
    let mut text = String::new(alloc);
    for place in 0..columns.len().min(row.len()) {
        if columns[place].is_primary_key() {
            push_exactly(ValueView::of(&row[place]), &mut text)?;
        }
    }
    Ok(text)
}

/// Puts a value behind others, so that no two lists of values give one text.
fn push_exactly(value: ValueView<'_>, text: &mut String) -> Result<(), AllocError> {
    match value {
        ValueView::Null => text.push('n'),
        ValueView::Binary => text.push('b'),
        ValueView::Int(number) => {
            text.write(number)?;
            text.push(';')
        }
        ValueView::Str(value) => {
            text.push('"')?;
            text.write(value.len())?;
            text.push(':')?;
            text.push_str(value)
        }
    }
}
