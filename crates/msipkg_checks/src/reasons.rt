//! Why a column doesn't take a value.

use crate::shown::Cut;
use msipkg_packages::msi::{Column, ColumnType, ValueView};
use std::fmt::{self, Display};

/// How many of the texts are shown that a column takes.
const MOST_LISTED: usize = 20;

/// Why a column doesn't take a value, which it doesn't.
#[derive(Clone, Copy)]
pub(crate) struct Refusal<'a> {
    pub(crate) column: &'a Column,
    pub(crate) value: ValueView<'a>,
}

impl Display for Refusal<'_> {
    fn fmt<W: fmt::Write>(&self, f: &mut fmt::Formatter<W>) -> fmt::Result {
        match self.value {
            ValueView::Null => f.write_str("null, which the column doesn't take"),
            ValueView::Int(number) => write_number(self.column, number, f),
            ValueView::Str(text) => write_text(self.column, text, f),
            ValueView::Binary => f.write_str("a stream, which the column doesn't take"),
        }
    }
}

fn write_number<W: fmt::Write>(
    column: &Column,
    number: i32,
    f: &mut fmt::Formatter<W>,
) -> fmt::Result {
    match limits_of(column) {
        Some((least, greatest)) => {
            write!(f, "{number} is not a number from {least} to {greatest}")
        }
        None => write!(f, "{number} is a number, which the column doesn't take"),
    }
}

/// Returns the least and the greatest number that a column takes, if it takes numbers. The least of a width means null.
fn limits_of(column: &Column) -> Option<(i32, i32)> {
    let (least, greatest) = match column.coltype() {
        ColumnType::Int16 => (-32767, 32767),
        ColumnType::Int32 => (-2147483647, 2147483647),
        ColumnType::Str(_) | ColumnType::Binary => return None,
    };
    match column.value_range() {
        Some((from, to)) => Some((from.max(least), to.min(greatest))),
        None => Some((least, greatest)),
    }
}

fn write_text<W: fmt::Write>(
    column: &Column,
    text: &str,
    f: &mut fmt::Formatter<W>,
) -> fmt::Result {
    let (value, length) = (Cut(text), text.chars().count());
    let ColumnType::Str(most) = column.coltype() else {
        return write!(f, "'{value}' is a text, which the column doesn't take");
    };
    if most != 0 && length > most {
        return write!(f, "'{value}' is too long: {length} characters of {most}");
    }
    if let Some(category) = column.category()
        && !category.validate(text)
    {
        return write!(f, "'{value}' is not of category {}", category.name());
    }
    write!(f, "'{value}' is not one of ")?;
    write_listed(column, f)
}

fn write_listed<W: fmt::Write>(column: &Column, f: &mut fmt::Formatter<W>) -> fmt::Result {
    let listed = column.enum_values().unwrap_or(&[]);
    for (place, text) in listed.iter().take(MOST_LISTED).enumerate() {
        if place > 0 {
            f.write_str(", ")?;
        }
        write!(f, "{}", Cut(text.as_str()))?;
    }
    if listed.len() > MOST_LISTED {
        return f.write_str(", ...");
    }
    Ok(())
}
