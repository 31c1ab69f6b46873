//! What is wrong with the columns and the rows of an insert.

use crate::naming::{NamedTable, known_columns, missing_column};
use crate::values::value_fault;
use msi_query_tokens::token::Kind;
use msipkg_format::Shown;
use msipkg_packages::msi::{Column, Table};
use msipkg_queries::pieces::{Piece, is_at};
use std::alloc::{AllocError, Global};

/// Returns what is wrong with an insert, if that shows: with the columns that it names first, and then with its rows.
pub(crate) fn insert_fault(
    alloc: Global,
    table: &Table,
    pieces: &[Piece<'_>],
) -> Result<Option<String>, AllocError> {
    let names = named_columns(alloc, pieces)?;
    let fault = name_fault(alloc, table, names.as_slice())?;
    if fault.is_some() {
        return Ok(fault);
    }
    let columns = valued_columns(alloc, table, names.as_slice())?;
    row_fault(alloc, table, columns.as_slice(), pieces)
}

/// Returns the names of the columns in the brackets behind the name of the table; none if there are no brackets.
fn named_columns<'a>(alloc: Global, pieces: &[Piece<'a>]) -> Result<Vec<&'a str>, AllocError> {
    let mut names = Vec::new(alloc);
    for piece in pieces.iter().take(rows_start(pieces)).skip(3) {
        if let Some(name) = piece.name() {
            names.push(name)?;
        }
    }
    Ok(names)
}

/// Returns where the rows begin.
fn rows_start(pieces: &[Piece<'_>]) -> usize {
    let start = pieces.iter().position(|piece| piece.kind == Kind::Values);
    start.unwrap_or(pieces.len())
}

fn name_fault(alloc: Global, table: &Table, names: &[&str]) -> Result<Option<String>, AllocError> {
    for (place, name) in names.iter().enumerate() {
        if !table.has_column(name) {
            return Ok(Some(missing_fault(alloc, table, name)?));
        }
        if names.iter().take(place).any(|other| *other == *name) {
            return column_fault(alloc, table, name, "is named twice");
        }
    }
    left_out_fault(alloc, table, names)
}

fn missing_fault(alloc: Global, table: &Table, column: &str) -> Result<String, AllocError> {
    let tables = [NamedTable {
        name: table.name(),
        table,
    }];
    let known = known_columns(alloc, &tables)?;
    missing_column(alloc, &tables, known.as_slice(), column)
}

fn column_fault(
    alloc: Global,
    table: &Table,
    column: &str,
    fault: &str,
) -> Result<Option<String>, AllocError> {
    let (table, column) = (Shown::escaped(table.name()), Shown::escaped(column));
    Ok(Some(format!(in alloc; "{table}: column {column} {fault}")?))
}

/// Returns what is wrong with a column that isn't named, where some are: it gets null.
fn left_out_fault(
    alloc: Global,
    table: &Table,
    names: &[&str],
) -> Result<Option<String>, AllocError> {
    if names.is_empty() {
        return Ok(None);
    }
    for column in table.columns() {
        let name = column.name();
        if !column.is_nullable() && !names.iter().any(|other| *other == name) {
            return column_fault(alloc, table, name, "is left out, and doesn't take null");
        }
    }
    Ok(None)
}

/// Returns the columns of which the rows of an insert have values, in the order of the values: those that it names, or
/// all columns of the table where it names none.
pub(crate) fn valued_columns<'a>(
    alloc: Global,
    table: &'a Table,
    names: &[&str],
) -> Result<Vec<&'a Column>, AllocError> {
    let mut columns = Vec::new(alloc);
    if names.is_empty() {
        for column in table.columns() {
            columns.push(column)?;
        }
    }
    for name in names {
        if let Some(column) = table.get_column(name) {
            columns.push(column)?;
        }
    }
    Ok(columns)
}

fn row_fault(
    alloc: Global,
    table: &Table,
    columns: &[&Column],
    pieces: &[Piece<'_>],
) -> Result<Option<String>, AllocError> {
    let mut spot = Spot { row: 0, value: 0 };
    for i in rows_start(pieces)..pieces.len() {
        spot = spot.behind(pieces[i].kind);
        let fault = inserted_fault(alloc, table, columns, pieces, i, spot)?;
        if fault.is_some() {
            return Ok(fault);
        }
    }
    Ok(None)
}

/// Where a piece of an insert stands.
#[derive(Clone, Copy)]
struct Spot {
    /// Which row it is of, counted from 1 on.
    row: usize,
    /// Which value of the row it is, counted from 0 on.
    value: usize,
}

impl Spot {
    fn behind(self, kind: Kind) -> Spot {
        match kind {
            Kind::Open => Spot {
                row: self.row.saturating_add(1),
                value: 0,
            },
            Kind::Comma => Spot {
                row: self.row,
                value: self.value.saturating_add(1),
            },
            _ => self,
        }
    }
}

fn inserted_fault(
    alloc: Global,
    table: &Table,
    columns: &[&Column],
    pieces: &[Piece<'_>],
    place: usize,
    spot: Spot,
) -> Result<Option<String>, AllocError> {
    if !is_at(pieces, place, Kind::Close) {
        return value_fault(
            alloc,
            table,
            pieces,
            place,
            columns.get(spot.value).copied(),
        );
    }
    let is_empty = is_at(pieces, place.saturating_sub(1), Kind::Open);
    let has = if is_empty {
        0
    } else {
        spot.value.saturating_add(1)
    };
    count_fault(alloc, table, columns.len(), spot.row, has)
}

fn count_fault(
    alloc: Global,
    table: &Table,
    wanted: usize,
    row: usize,
    has: usize,
) -> Result<Option<String>, AllocError> {
    if has == wanted {
        return Ok(None);
    }
    let name = Shown::escaped(table.name());
    let are = if wanted == table.columns().len() {
        "there are"
    } else {
        "it names"
    };
    Ok(Some(format!(in alloc; "{name}: row {row} has {has} values, and {are} {wanted} columns")?))
}
