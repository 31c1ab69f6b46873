//! Rows as objects of JSON whose members aren't just the columns: where columns have the same name, as in a query that
//! selects one twice, where cells of streams are null, and where each row has the path of its file.

use crate::nulls::NullCells;
use crate::{JsonObject, Style};
use msi_table::{Column, Rows, ValueView};
use msipkg_system::Output;
use std::alloc::{AllocError, Global};

/// The name of the member, and of the column in CSV, that has the path of a row's file.
pub(crate) const FILE: &str = "file";

/// The members of an object.
pub(crate) struct Members<'a> {
    /// The path of the file, which is the first member.
    pub(crate) file: Option<&'a str>,
    /// The names of the columns.
    pub(crate) names: Vec<String>,
}

/// Written out, so that a function that owns one calls one drop, and its proof doesn't go through those of the parts.
impl Drop for Members<'_> {
    fn drop(self) {
        let Members { file: _, names: _ } = self;
    }
}

pub(crate) fn has_repeated(columns: &[Column]) -> bool {
    for (place, column) in columns.iter().enumerate() {
        if is_among(columns.get(..place).unwrap_or(&[]), column.name()) {
            return true;
        }
    }
    false
}

fn is_among(columns: &[Column], name: &str) -> bool {
    columns.iter().any(|column| column.name() == name)
}

/// Returns the names of columns as members of an object, which all differ: a repeated one, and that of a file where
/// there is one, has a number behind it, as `Name_2`.
pub(crate) fn member_names(
    alloc: Global,
    has_file: bool,
    columns: &[Column],
    nulls: &NullCells,
) -> Result<Vec<String>, AllocError> {
    let shown = shown_names(alloc, columns, nulls)?;
    let shown = shown.as_slice();
    let mut names = Vec::new(alloc);
    for (place, name) in shown.iter().enumerate() {
        let is_file = has_file && *name == FILE;
        let name = if is_file || shown.iter().take(place).any(|other| *other == *name) {
            numbered(alloc, shown, names.as_slice(), name)?
        } else {
            String::from_str(alloc, name)?
        };
        names.push(name)?;
    }
    Ok(names)
}

/// Returns the names of columns, or of the literals in their places.
fn shown_names<'a>(
    alloc: Global,
    columns: &'a [Column],
    nulls: &'a NullCells,
) -> Result<Vec<&'a str>, AllocError> {
    let mut names = Vec::new(alloc);
    for place in 0..columns.len() {
        names.push(nulls.name_of(columns, place))?;
    }
    Ok(names)
}

fn numbered(
    alloc: Global,
    shown: &[&str],
    taken: &[String],
    name: &str,
) -> Result<String, AllocError> {
    let mut number = 2u64;
    for _ in 0..shown.len().saturating_add(taken.len()) {
        let text = format!(in alloc; "{name}_{number}")?;
        if !shown.iter().any(|other| *other == text.as_str()) && !is_taken(taken, text.as_str()) {
            return Ok(text);
        }
        number = number.saturating_add(1);
    }
    format!(in alloc; "{name}_{number}")
}

fn is_taken(taken: &[String], name: &str) -> bool {
    taken.iter().any(|other| other.as_str() == name)
}

pub(crate) fn write_named(
    alloc: Global,
    style: Style,
    members: &Members<'_>,
    mut rows: Rows<'_>,
    nulls: &NullCells,
    output: &mut Output,
) {
    let mut before = "\n";
    for number in 0..rows.len() {
        output.push_str(before);
        before = ",\n";
        object_of(alloc, members, &rows, number, nulls).print(style, output);
        rows.advance();
    }
}

fn object_of<'a>(
    alloc: Global,
    members: &Members<'_>,
    rows: &'a Rows<'_>,
    number: usize,
    nulls: &'a NullCells,
) -> JsonObject {
    let mut object = JsonObject::new(alloc);
    if members.file.is_some() {
        object.put_text(FILE, members.file);
    }
    for (place, name) in members.names.iter().enumerate() {
        let value = nulls.shown_in(rows, number, place);
        put_value(name.as_str(), value, &mut object);
    }
    object
}

fn put_value(name: &str, value: ValueView<'_>, object: &mut JsonObject) {
    match value {
        ValueView::Null => object.put_text(name, None),
        ValueView::Int(number) => object.put_number(name, Some(i64::from(number))),
        ValueView::Str(text) => object.put_text(name, Some(text)),
        ValueView::Binary => object.put_truth(name, true),
    }
}
