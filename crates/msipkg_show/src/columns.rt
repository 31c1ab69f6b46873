//! What the columns of a table take, as texts.

use msipkg_format::Style;
use msipkg_packages::msi::{Column, ColumnType};
use msipkg_packages::output::ColumnTypeText;
use std::fmt;

/// What is printed of a column.
#[derive(Clone, Copy)]
pub(crate) enum Part {
    /// The name of its table.
    Table,
    Name,
    Type,
    /// What it is, in words: `key`, `nullable`, `localizable`.
    Flags,
    /// The name of its category, or nothing.
    Category,
    /// The values that it is limited to: a range as `0..32767`, or texts parted by `;`; or nothing.
    Values,
    /// The column that its values stand in, as `Component 1`: its table, and its number there; or nothing.
    Reference,
    /// The column as `CREATE TABLE` has it: its name in backquotes, its type, and what else is said of it.
    Definition,
}

/// A part of a column, which prints as the style has it.
#[derive(Clone, Copy)]
pub(crate) struct ColumnPart<'a> {
    pub(crate) style: Style,
    pub(crate) table: &'a str,
    pub(crate) column: &'a Column,
    pub(crate) part: Part,
}

impl fmt::Display for ColumnPart<'_> {
    fn fmt<W: fmt::Write>(&self, f: &mut fmt::Formatter<W>) -> fmt::Result {
        let (style, column) = (self.style, self.column);
        match self.part {
            Part::Table => style.show(self.table).fmt(f),
            Part::Name => style.show(column.name()).fmt(f),
            Part::Type => ColumnTypeText(column).fmt(f),
            Part::Flags => write_flags(column, f),
            Part::Category => f.write_str(category_name(column)),
            Part::Values => write_values(style, column, f),
            Part::Reference => write_reference(style, column, f),
            Part::Definition => write_definition(style, column, f),
        }
    }
}

fn write_flags<W: fmt::Write>(column: &Column, f: &mut fmt::Formatter<W>) -> fmt::Result {
    let flags = [
        ("key", column.is_primary_key()),
        ("nullable", column.is_nullable()),
        ("localizable", column.is_localizable()),
    ];
    let mut before = "";
    for (word, holds) in &flags {
        if *holds {
            write!(f, "{before}{word}")?;
            before = " ";
        }
    }
    Ok(())
}

fn category_name(column: &Column) -> &'static str {
    match column.category() {
        Some(category) => category.name(),
        None => "",
    }
}

fn write_values<W: fmt::Write>(
    style: Style,
    column: &Column,
    f: &mut fmt::Formatter<W>,
) -> fmt::Result {
    if let Some((min, max)) = column.value_range() {
        return write!(f, "{min}..{max}");
    }
    let mut before = "";
    for text in column.enum_values().unwrap_or(&[]) {
        write!(f, "{before}{}", style.show(text.as_str()))?;
        before = ";";
    }
    Ok(())
}

fn write_reference<W: fmt::Write>(
    style: Style,
    column: &Column,
    f: &mut fmt::Formatter<W>,
) -> fmt::Result {
    match column.foreign_key() {
        Some((table, number)) => write!(f, "{} {number}", style.show(table)),
        None => Ok(()),
    }
}

fn write_definition<W: fmt::Write>(
    style: Style,
    column: &Column,
    f: &mut fmt::Formatter<W>,
) -> fmt::Result {
    write!(f, "`{}` ", style.show(column.name()))?;
    write_kind(column.coltype(), f)?;
    if !column.is_nullable() {
        f.write_str(" NOT NULL")?;
    }
    if column.is_localizable() {
        f.write_str(" LOCALIZABLE")?;
    }
    Ok(())
}

/// Writes the type of a column as `CREATE TABLE` has it.
fn write_kind<W: fmt::Write>(kind: ColumnType, f: &mut fmt::Formatter<W>) -> fmt::Result {
    match kind {
        ColumnType::Int16 => f.write_str("SHORT"),
        ColumnType::Int32 => f.write_str("LONG"),
        ColumnType::Str(0) => f.write_str("LONGCHAR"),
        ColumnType::Str(length) => write!(f, "CHAR({length})"),
        ColumnType::Binary => f.write_str("OBJECT"),
    }
}
