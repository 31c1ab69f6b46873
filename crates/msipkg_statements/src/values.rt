//! The values that a text gives to columns, and the first that its column doesn't take.

use crate::fitting::fitted_value;
use msi_query_tokens::token::Kind;
use msipkg_format::{Shown, shown_value};
use msipkg_packages::msi::{Column, Table, Value};
use msipkg_queries::pieces::{Piece, is_at};
use msipkg_queries::spelled_values::value_at;
use std::alloc::{AllocError, Global};

pub(crate) fn update_fault(
    alloc: Global,
    table: &Table,
    pieces: &[Piece<'_>],
) -> Result<Option<String>, AllocError> {
    for i in 0..pieces.len() {
        if pieces[i].kind == Kind::Where {
            break;
        }
        let fault = value_fault(alloc, table, pieces, i, set_column(table, pieces, i))?;
        if fault.is_some() {
            return Ok(fault);
        }
    }
    Ok(None)
}

fn set_column<'a>(table: &'a Table, pieces: &[Piece<'_>], place: usize) -> Option<&'a Column> {
    let before = place.checked_sub(1)?;
    let equals = if is_at(pieces, before, Kind::Sub) {
        before.checked_sub(1)?
    } else {
        before
    };
    if !is_at(pieces, equals, Kind::Eq) {
        return None;
    }
    let name = pieces.get(equals.checked_sub(1)?)?.name()?;
    table.columns().iter().find(|column| column.name() == name)
}

/// Returns what is wrong with the value at a place, if its column doesn't take it.
pub(crate) fn value_fault(
    alloc: Global,
    table: &Table,
    pieces: &[Piece<'_>],
    place: usize,
    column: Option<&Column>,
) -> Result<Option<String>, AllocError> {
    let Some(column) = column else {
        return Ok(None);
    };
    match fitting_value(alloc, column, pieces, place)? {
        Some(value) if !column.is_valid_value(&value) => {
            let is_spelled = is_at(pieces, place, Kind::Null);
            Ok(Some(refused_value(alloc, table, column, &value, is_spelled)?))
        }
        Some(_) | None => Ok(None),
    }
}

/// Returns the message for a value that a column doesn't take. Null may only be spelled as the empty text.
fn refused_value(
    alloc: Global,
    table: &Table,
    column: &Column,
    value: &Value,
    is_spelled: bool,
) -> Result<String, AllocError> {
    let (table, column) = (Shown::escaped(table.name()), Shown::escaped(column.name()));
    let shown = shown_value(alloc, value)?;
    let null = if value.is_null() && !is_spelled {
        ", for which the empty text stands"
    } else {
        ""
    };
    format!(in alloc; "{table}: column {column} doesn't take {shown}{null}")
}

/// Returns the value at a place as its column takes it.
fn fitting_value(
    alloc: Global,
    column: &Column,
    pieces: &[Piece<'_>],
    place: usize,
) -> Result<Option<Value>, AllocError> {
    match value_at(alloc, pieces, place)? {
        Some(value) => Ok(Some(fitted_value(alloc, column, value)?)),
        None => Ok(None),
    }
}
