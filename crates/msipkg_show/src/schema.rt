//! `schema FILE [TABLE..]`: the columns of tables, and what they take.

use crate::columns::{ColumnPart, Part};
use crate::schema_json::schema_json;
use msipkg_format::{Grid, Style};
use msipkg_looking::PackageView;
use msipkg_packages::chosen_tables;
use msipkg_packages::msi::{Column, Table};
use msipkg_packages::output::{Failure, Output};
use std::alloc::Global;

/// What is printed of each column, under its head.
static PARTS: [(&str, Part); 7] = [
    ("Table", Part::Table),
    ("Column", Part::Name),
    ("Type", Part::Type),
    ("Is", Part::Flags),
    ("Category", Part::Category),
    ("Values", Part::Values),
    ("Refers to", Part::Reference),
];

/// How columns are printed.
#[derive(Clone, Copy)]
pub enum Form {
    /// A row for each column.
    Rows,
    /// JSON on one line.
    Json,
    /// A statement for each table.
    Sql,
}

/// Prints the columns of the named tables, or of all where none is named. The installer's own tables have a statement
/// only where they are named.
pub(crate) fn print_schema(
    alloc: Global,
    style: Style,
    file: &str,
    package: &PackageView,
    names: &[&str],
    form: Form,
    output: &mut Output,
) -> Result<(), Failure> {
    let tables = chosen_tables(alloc, package, names, true)?;
    match form {
        Form::Rows => write_rows(alloc, style, tables.as_slice(), output),
        Form::Json => schema_json(alloc, file, tables.as_slice()).print_line(style, output),
        Form::Sql => write_definitions(style, tables.as_slice(), names.is_empty(), output),
    }
    Ok(())
}

fn write_rows(alloc: Global, style: Style, tables: &[&Table], output: &mut Output) {
    let mut grid = Grid::new(alloc, PARTS.len());
    put_heads(&mut grid);
    for table in tables {
        put_columns(style, table, &mut grid);
    }
    grid.print(style, output);
}

fn put_heads(grid: &mut Grid) {
    for (head, _) in &PARTS {
        grid.push(head);
    }
}

fn put_columns(style: Style, table: &Table, grid: &mut Grid) {
    for column in table.columns() {
        put_column(style, table.name(), column, grid);
    }
}

fn put_column(style: Style, table: &str, column: &Column, grid: &mut Grid) {
    for (_, part) in &PARTS {
        grid.put(&ColumnPart {
            style,
            table,
            column,
            part: *part,
        });
    }
}

/// Writes a statement that creates each table, as `exec` takes it, but skips the installer's own where these are all
/// tables. What `_Validation` says of the columns isn't in it.
fn write_definitions(style: Style, tables: &[&Table], is_all: bool, output: &mut Output) {
    for table in tables {
        if !(is_all && is_of_installer(table.name())) {
            write_definition(style, table, output);
        }
    }
}

fn is_of_installer(name: &str) -> bool {
    matches!(
        name,
        "_Columns" | "_Storages" | "_Streams" | "_Tables" | "_Validation"
    )
}

fn write_definition(style: Style, table: &Table, output: &mut Output) {
    write!(output, "CREATE TABLE `{}`", style.show(table.name()));
    write_columns(style, table, output);
    write_keys(style, table, output);
    output.push_str(")\n");
}

fn write_columns(style: Style, table: &Table, output: &mut Output) {
    let mut before = " (";
    for column in table.columns() {
        let definition = ColumnPart {
            style,
            table: table.name(),
            column,
            part: Part::Definition,
        };
        write!(output, "{before}{definition}");
        before = ", ";
    }
}

fn write_keys(style: Style, table: &Table, output: &mut Output) {
    let mut before = " PRIMARY KEY ";
    for column in table.columns() {
        if column.is_primary_key() {
            write!(output, "{before}`{}`", style.show(column.name()));
            before = ", ";
        }
    }
}
