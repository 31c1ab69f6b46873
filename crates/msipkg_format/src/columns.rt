//! Columns as texts and as JSON.

use crate::JsonObject;
use msi_table::{Column, ColumnType};
use std::fmt;

/// A column's type, which prints as the installer writes it: a letter and a length, as `s72`, `i2` or `v0`. A small
/// letter stands for a column that isn't nullable, and `l` for texts that can be localized.
#[derive(Clone, Copy)]
pub struct ColumnTypeText<'a>(pub &'a Column);

impl fmt::Display for ColumnTypeText<'_> {
    fn fmt<W: fmt::Write>(&self, f: &mut fmt::Formatter<W>) -> fmt::Result {
        let (small, length) = letter_and_length(self.0);
        let letter = if self.0.is_nullable() {
            small.to_ascii_uppercase()
        } else {
            small
        };
        write!(f, "{letter}{length}")
    }
}

fn letter_and_length(column: &Column) -> (char, usize) {
    match column.coltype() {
        ColumnType::Int16 => ('i', 2),
        ColumnType::Int32 => ('i', 4),
        ColumnType::Str(length) if column.is_localizable() => ('l', length),
        ColumnType::Str(length) => ('s', length),
        ColumnType::Binary => ('v', 0),
    }
}

/// Puts the name of a table, and the list of its columns: the name of each, its type, what it is, and what its values
/// are limited to. What a column doesn't have isn't there.
pub fn put_columns(table: &str, columns: &[Column], object: &mut JsonObject) {
    object.put_text("table", Some(table));
    object.open_list("columns");
    for column in columns {
        object.open_item();
        put_column(column, object);
        object.close_item();
    }
    object.close_list();
}

fn put_column(column: &Column, object: &mut JsonObject) {
    put_kind(column, object);
    put_category(column, object);
    put_range(column, object);
    put_values(column, object);
    put_reference(column, object);
}

fn put_kind(column: &Column, object: &mut JsonObject) {
    object.put_text("column", Some(column.name()));
    object.put_shown("type", &ColumnTypeText(column));
    object.put_truth("key", column.is_primary_key());
    object.put_truth("nullable", column.is_nullable());
    object.put_truth("localizable", column.is_localizable());
}

fn put_category(column: &Column, object: &mut JsonObject) {
    if let Some(category) = column.category() {
        object.put_text("category", Some(category.name()));
    }
}

fn put_range(column: &Column, object: &mut JsonObject) {
    if let Some((min, max)) = column.value_range() {
        object.put_number("min", Some(i64::from(min)));
        object.put_number("max", Some(i64::from(max)));
    }
}

fn put_values(column: &Column, object: &mut JsonObject) {
    let Some(texts) = column.enum_values() else {
        return;
    };
    object.open_list("values");
    for text in texts {
        object.put_text_item(text.as_str());
    }
    object.close_list();
}

fn put_reference(column: &Column, object: &mut JsonObject) {
    if let Some((table, number)) = column.foreign_key() {
        object.put_text("key_table", Some(table));
        object.put_number("key_column", Some(i64::from(number)));
    }
}
