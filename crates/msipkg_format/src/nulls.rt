//! Cells that are shown in the place of those that rows have: null in columns of streams, since rows know no package,
//! and literals that a query selects.

use msi_table::{Column, Rows, Value, ValueView};
use std::alloc::{AllocError, Global};
use std::collections::BTreeSet;

/// The null cells of a column.
struct NullColumn {
    /// The place of the column, counted from 0.
    place: usize,
    /// The numbers of their rows, counted from 0.
    rows: BTreeSet<usize>,
}

/// Written out, so that a function that owns one calls one drop, and its proof doesn't go through those of the parts.
impl Drop for NullColumn {
    fn drop(self) {
        let NullColumn { place: _, rows: _ } = self;
    }
}

/// A column that has the same value in all rows, whatever the rows have there.
struct LiteralColumn {
    place: usize,
    name: String,
    value: Value,
}

/// Written out, so that a function that owns one calls one drop, and its proof doesn't go through those of the parts.
impl Drop for LiteralColumn {
    fn drop(self) {
        let LiteralColumn {
            place: _,
            name: _,
            value: _,
        } = self;
    }
}

/// The cells of rows that are null although the rows have a stream there, and the columns that are literals.
pub struct NullCells {
    alloc: Global,
    columns: Vec<NullColumn>,
    literals: Vec<LiteralColumn>,
}

/// Written out, so that a function that owns one calls one drop, and its proof doesn't go through those of the parts.
impl Drop for NullCells {
    fn drop(self) {
        let NullCells {
            alloc: _,
            columns: _,
            literals: _,
        } = self;
    }
}

impl NullCells {
    /// Returns no cells.
    pub fn new(alloc: Global) -> NullCells {
        NullCells {
            alloc,
            columns: Vec::new(alloc),
            literals: Vec::new(alloc),
        }
    }

    /// Shows the column at a place as a literal with this name.
    ///
    /// # Errors
    /// Fails if memory is refused.
    pub fn add_literal(
        &mut self,
        place: usize,
        name: String,
        value: Value,
    ) -> Result<(), AllocError> {
        self.literals.push(LiteralColumn { place, name, value })?;
        Ok(())
    }

    fn literal_at(&self, place: usize) -> Option<&LiteralColumn> {
        self.literals.iter().find(|literal| literal.place == place)
    }

    /// Returns the value that the column at a place has in all rows, if it is a literal.
    pub fn literal(&self, place: usize) -> Option<&Value> {
        match self.literal_at(place) {
            Some(literal) => Some(&literal.value),
            None => None,
        }
    }

    /// Returns the name of the column at a place.
    pub fn name_of<'a>(&'a self, columns: &'a [Column], place: usize) -> &'a str {
        if let Some(literal) = self.literal_at(place) {
            return literal.name.as_str();
        }
        match columns.get(place) {
            Some(column) => column.name(),
            None => "",
        }
    }

    /// Adds the cell of a row in a column, both counted from 0.
    ///
    /// # Errors
    /// Fails if memory is refused.
    pub fn add(&mut self, row: usize, place: usize) -> Result<(), AllocError> {
        let at = self.column_at(place)?;
        if let Some(column) = self.columns.get_mut(at) {
            column.rows.insert(row)?;
        }
        Ok(())
    }

    /// Returns where the cells of a column stand, which is added if it isn't there.
    fn column_at(&mut self, place: usize) -> Result<usize, AllocError> {
        let end = self.columns.len();
        let found = self.columns.iter().position(|column| column.place == place);
        if found.is_none() {
            let rows = BTreeSet::new(self.alloc);
            self.columns.push(NullColumn { place, rows })?;
        }
        Ok(found.unwrap_or(end))
    }

    /// Returns whether there are no cells.
    pub fn is_empty(&self) -> bool {
        self.columns.is_empty() && self.literals.is_empty()
    }

    /// Returns whether the cell of a row in a column is among them, both counted from 0.
    pub fn has(&self, row: usize, place: usize) -> bool {
        self.columns.iter().any(|column| column.place == place && column.rows.contains(&row))
    }

    /// Returns the value of the next of some rows in a column: null where the cell is among these. The number of the
    /// row is counted from 0.
    pub fn value_in<'a>(&self, rows: &'a Rows<'_>, row: usize, place: usize) -> ValueView<'a> {
        if self.has(row, place) {
            return ValueView::Null;
        }
        rows.get(place).unwrap_or(ValueView::Null)
    }

    /// Returns what is shown of the next of some rows in a column: a literal, or its value as `value_in` returns it.
    pub fn shown_in<'a>(&'a self, rows: &'a Rows<'_>, row: usize, place: usize) -> ValueView<'a> {
        match self.literal_at(place) {
            Some(literal) => ValueView::of(&literal.value),
            None => self.value_in(rows, row, place),
        }
    }
}
