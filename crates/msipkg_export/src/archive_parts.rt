//! The parts of text archives.

use crate::losses::has_localizable_type;
use msi_exchange::ArchiveColumn;
use msipkg_packages::msi::{Column, Error, IntoText, Items, Text, Value};
use std::alloc::Global;

pub(crate) fn archive_columns(
    alloc: Global,
    columns: &[Column],
) -> Result<Items<ArchiveColumn>, Error> {
    let mut all = Vec::with_capacity(alloc, columns.len())?;
    for column in columns {
        all.push(archive_column(alloc, column)?)?;
    }
    Ok(Items::from_vec(all))
}

/// Returns a column of an archive, which is localizable only if it has texts.
fn archive_column(alloc: Global, column: &Column) -> Result<ArchiveColumn, Error> {
    let name = column.name().into_text(alloc)?;
    Ok(ArchiveColumn::new(
        name,
        column.coltype(),
        column.is_localizable() && has_localizable_type(column),
        column.is_nullable(),
    ))
}

pub(crate) fn key_names(alloc: Global, columns: &[Column]) -> Result<Items<Text>, Error> {
    let mut names = Vec::new(alloc);
    for column in columns {
        if column.is_primary_key() {
            names.push(column.name().into_text(alloc)?)?;
        }
    }
    Ok(Items::from_vec(names))
}

/// Returns a text as a value of an archive, which has null in place of an empty text.
pub(crate) fn text_value(alloc: Global, text: &str) -> Result<Value, Error> {
    if text.is_empty() {
        return Ok(Value::Null);
    }
    Value::from_text(alloc, text)
}
