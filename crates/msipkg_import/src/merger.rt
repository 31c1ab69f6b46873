//! Rows that files give among those that a table has.

use crate::importing::Merging;
use crate::rows::check_row;
use msipkg_import_files::GivenTable;
use msipkg_packages::msi::{Column, Error, Value};
use msipkg_packages::output::Failure;
use std::alloc::Global;
use std::collections::BTreeMap;

/// Where a row stands, and whether a file gave it.
#[derive(Clone, Copy)]
struct Place {
    row: usize,
    is_given: bool,
}

/// The rows of a table, to which those of a file are added.
struct Merger<'a> {
    alloc: Global,
    columns: &'a [Column],
    table: &'a GivenTable,
    merging: Merging,
    rows: Vec<Vec<Value>>,
    /// Where the rows stand, by their keys.
    places: BTreeMap<Vec<Value>, Place>,
}

/// Written out, so that a function that owns one calls one drop, and its proof doesn't go through those of the parts.
impl Drop for Merger<'_> {
    fn drop(self) {
        let Merger {
            alloc: _,
            columns: _,
            table: _,
            merging: _,
            rows: _,
            places: _,
        } = self;
    }
}

/// Puts the rows of a file in the place of those with the same key, and else behind them. In a row that is updated, a
/// column that the file lacks keeps its value. Fails at a row with the key of an earlier one or with a value that its
/// column doesn't take.
pub(crate) fn merged_rows(
    alloc: Global,
    columns: &[Column],
    table: &GivenTable,
    merging: Merging,
    rows: Vec<Vec<Value>>,
    given: Vec<Vec<Value>>,
) -> Result<Vec<Vec<Value>>, Failure> {
    let places = places_of(alloc, columns, rows.as_slice())?;
    let mut merger = Merger {
        alloc,
        columns,
        table,
        merging,
        rows,
        places,
    };
    merger.take_all(given)?;
    Ok(merger.into_rows())
}

impl Merger<'_> {
    fn into_rows(self) -> Vec<Vec<Value>> {
        let Merger {
            alloc: _,
            columns: _,
            table: _,
            merging: _,
            rows,
            places: _,
        } = self;
        rows
    }

    fn take_all(&mut self, given: Vec<Vec<Value>>) -> Result<(), Failure> {
        let mut number = 0usize;
        for row in given {
            self.take(number, row)?;
            number = number.saturating_add(1);
        }
        Ok(())
    }

    fn take(&mut self, number: usize, row: Vec<Value>) -> Result<(), Failure> {
        let key = key_of(self.alloc, self.columns, row.as_slice())?;
        let end = Place {
            row: self.rows.len(),
            is_given: false,
        };
        let place = self.places.get(&key).copied().unwrap_or(end);
        if place.is_given {
            let failure = Failure::rule("an earlier row has this key");
            return Err(self.table.at_row(self.alloc, failure, number, ""));
        }
        self.put(number, place.row, row)?;
        let place = Place {
            row: place.row,
            is_given: true,
        };
        self.places.insert(key, place)?;
        Ok(())
    }

    /// Puts the row of a number at a place, which is that of another row or behind all.
    fn put(&mut self, number: usize, place: usize, mut row: Vec<Value>) -> Result<(), Failure> {
        if let Some(stored) = self.rows.get(place) {
            self.keep_others(stored.as_slice(), row.as_mut_slice())?;
        }
        check_row(self.alloc, self.columns, self.table, number, row.as_slice())?;
        match self.rows.get_mut(place) {
            Some(stored) => *stored = row,
            None => self.rows.push(row)?,
        }
        Ok(())
    }

    /// Keeps the values of columns that the file lacks, if rows are updated.
    fn keep_others(&self, stored: &[Value], row: &mut [Value]) -> Result<(), Error> {
        if matches!(self.merging, Merging::Replace) {
            return Ok(());
        }
        for i in 0..self.columns.len().min(row.len()).min(stored.len()) {
            if self.table.place_of(self.columns[i].name()).is_none() {
                row[i] = stored[i].clone(self.alloc)?;
            }
        }
        Ok(())
    }
}

fn places_of(
    alloc: Global,
    columns: &[Column],
    rows: &[Vec<Value>],
) -> Result<BTreeMap<Vec<Value>, Place>, Error> {
    let mut places = BTreeMap::new(alloc);
    for row in 0..rows.len() {
        let place = Place {
            row,
            is_given: false,
        };
        places.insert(key_of(alloc, columns, rows[row].as_slice())?, place)?;
    }
    Ok(places)
}

fn key_of(alloc: Global, columns: &[Column], row: &[Value]) -> Result<Vec<Value>, Error> {
    let mut key = Vec::new(alloc);
    for (column, value) in columns.iter().zip(row.iter()) {
        if column.is_primary_key() {
            key.push(value.clone(alloc)?)?;
        }
    }
    Ok(key)
}
