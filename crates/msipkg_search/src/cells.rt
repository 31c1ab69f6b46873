//! Cells of tables, as `find` and `refs` list them. They print as rows or as JSON.

use msipkg_packages::msi::{Rows, ValueView};
use msipkg_packages::output::{Failure, Grid, JsonObject, Output, Shown, Style, push_key};
use std::alloc::{AllocError, Global};

/// What was found in a package.
#[derive(Clone, Copy)]
pub enum Found {
    Something,
    Nothing,
    /// Not all of the package can be read.
    Incomplete,
}

/// What is listed: the heads of the columns, and the name of the list in JSON.
pub(crate) struct CellSubject {
    pub(crate) heads: &'static [&'static str],
    pub(crate) list: &'static str,
}

/// A cell, and its value if that is printed.
#[derive(Clone, Copy)]
pub(crate) struct Cell<'a> {
    pub(crate) table: &'a str,
    /// The key of its row.
    pub(crate) key: &'a str,
    pub(crate) column: &'a str,
    pub(crate) value: Option<ValueView<'a>>,
}

/// Cells in the order in which they are put.
pub(crate) struct CellList {
    style: Style,
    text: CellText,
    is_empty: bool,
}

/// Written out, so that a function that owns one calls one drop, and its proof doesn't go through those of the parts.
impl Drop for CellList {
    fn drop(self) {
        let CellList {
            style: _,
            text: _,
            is_empty: _,
        } = self;
    }
}

/// The cells as they are printed.
#[derive(Drop)]
enum CellText {
    Json(JsonObject),
    Rows(Grid),
}

impl CellList {
    pub(crate) fn new(
        alloc: Global,
        style: Style,
        file: &str,
        is_json: bool,
        subject: &CellSubject,
    ) -> CellList {
        let text = if is_json {
            CellText::Json(object_of(alloc, file, subject.list))
        } else {
            CellText::Rows(Grid::headed(alloc, subject.heads))
        };
        CellList {
            style,
            text,
            is_empty: true,
        }
    }

    pub(crate) fn put(&mut self, cell: Cell<'_>) {
        self.is_empty = false;
        match &mut self.text {
            CellText::Json(object) => put_object(cell, object),
            CellText::Rows(grid) => put_row(self.style, cell, grid),
        }
    }

    /// Prints the cells, or without any nothing but JSON. Returns what was found, if all of the package was read or
    /// not.
    pub(crate) fn print(self, is_read: bool, output: &mut Output) -> Found {
        let CellList {
            style,
            text,
            is_empty,
        } = self;
        match text {
            CellText::Json(object) => print_object(object, style, output),
            CellText::Rows(grid) => print_rows(&grid, is_empty, style, output),
        }
        match (is_read, is_empty) {
            (false, _) => Found::Incomplete,
            (true, true) => Found::Nothing,
            (true, false) => Found::Something,
        }
    }
}

/// Returns the key of the next row: its values, separated by slashes.
pub(crate) fn row_key(alloc: Global, rows: &Rows<'_>) -> Result<String, AllocError> {
    let mut key = String::new(alloc);
    let mut before = "";
    for (place, column) in rows.columns().iter().enumerate() {
        if column.is_primary_key() {
            key.push_str(before)?;
            push_key(rows.get(place).unwrap_or(ValueView::Null), &mut key)?;
            before = "/";
        }
    }
    Ok(key)
}

pub(crate) fn note_unread(file: &str, failure: &Failure, notes: &mut Output) {
    let file = Shown::escaped(file);
    writeln!(notes, "msipkg: {file}: {failure}");
}

fn object_of(alloc: Global, file: &str, list: &str) -> JsonObject {
    let mut object = JsonObject::new(alloc);
    object.put_text("file", Some(file));
    object.open_list(list);
    object
}

fn print_object(mut object: JsonObject, style: Style, output: &mut Output) {
    object.close_list();
    object.print_line(style, output);
}

fn print_rows(grid: &Grid, is_empty: bool, style: Style, output: &mut Output) {
    if !is_empty {
        grid.print(style, output);
    }
}

fn put_object(cell: Cell<'_>, object: &mut JsonObject) {
    object.open_item();
    object.put_text("table", Some(cell.table));
    object.put_text("key", Some(cell.key));
    object.put_text("column", Some(cell.column));
    if let Some(value) = cell.value {
        put_value(value, object);
    }
    object.close_item();
}

fn put_value(value: ValueView<'_>, object: &mut JsonObject) {
    match value {
        ValueView::Int(number) => object.put_number("value", Some(i64::from(number))),
        ValueView::Str(text) => object.put_text("value", Some(text)),
        ValueView::Null | ValueView::Binary => object.put_text("value", None),
    }
}

fn put_row(style: Style, cell: Cell<'_>, grid: &mut Grid) {
    grid.put_text(style, cell.table);
    grid.put_text(style, cell.key);
    grid.put_text(style, cell.column);
    match cell.value {
        Some(ValueView::Int(number)) => grid.put(&number),
        Some(ValueView::Str(text)) => grid.put_text(style, text),
        Some(ValueView::Null | ValueView::Binary) => grid.push(""),
        None => {}
    }
}
