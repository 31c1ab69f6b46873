//! `query FILE.. TEXT`: the rows that a query selects.

use crate::aligned::{widths_of, write_aligned};
use crate::nulls::null_cells;
use msipkg_format::Style;
use msipkg_looking::{PackageView, open_to_look};
use msipkg_packages::msi::{Column, Error, Rows, Select};
use msipkg_packages::output::{
    Failure, NullCells, Output, RowFormat, RowPrinting, System, write_rows,
};
use msipkg_packages::{PackageFile, PackageTables};
use msipkg_queries::{Selection, Written, check_marks, mark_count, read_select};
use msipkg_statements::{explained, lists_for};
use std::alloc::{AllocError, Global};

/// How the rows of a query are printed.
#[derive(Clone, Copy)]
pub enum Format {
    /// Aligned columns under their names.
    Table,
    /// One by one.
    Rows(RowFormat),
}

/// The formats by their names.
static FORMATS: [(&str, Format); 5] = [
    ("table", Format::Table),
    ("tabs", Format::Rows(RowFormat::Tabs)),
    ("csv", Format::Rows(RowFormat::Csv)),
    ("json", Format::Rows(RowFormat::Json)),
    ("lines", Format::Rows(RowFormat::Lines)),
];

impl Format {
    /// Returns the format of this name, as the command line has it.
    pub fn of_name(name: &str) -> Option<Format> {
        for (known, format) in &FORMATS {
            if *known == name {
                return Some(*format);
            }
        }
        None
    }
}

/// A query, and how its rows are printed.
pub struct Query<'a> {
    pub written: Written<'a>,
    /// What it selects.
    pub selection: Selection,
    pub format: Format,
    pub style: Style,
    /// Whether each row has its file in front, since there are several.
    pub has_files: bool,
    pub for_spreadsheets: bool,
}

/// Written out, so that a function that owns one calls one drop, and its proof doesn't go through those of the parts.
impl Drop for Query<'_> {
    fn drop(self) {
        let Query {
            written: _,
            selection: _,
            format: _,
            style: _,
            has_files: _,
            for_spreadsheets: _,
        } = self;
    }
}

/// The names of the columns of the rows that were printed last.
pub struct LastNames {
    /// Each with a line feed behind it; empty if no rows were printed.
    text: String,
}

/// Written out, so that a function that owns one calls one drop, and its proof doesn't go through those of the parts.
impl Drop for LastNames {
    fn drop(self) {
        let LastNames { text: _ } = self;
    }
}

impl LastNames {
    /// Returns no names.
    pub fn new(alloc: Global) -> LastNames {
        LastNames {
            text: String::new(alloc),
        }
    }

    fn is_empty(&self) -> bool {
        self.text.is_empty()
    }

    /// Takes the names of columns in the place of the last ones, and returns whether they differ.
    fn replace(&mut self, alloc: Global, columns: &[Column]) -> Result<bool, AllocError> {
        let mut text = String::new(alloc);
        for column in columns {
            text.push_str(column.name())?;
            text.push('\n')?;
        }
        let is_other = text != self.text;
        self.text = text;
        Ok(is_other)
    }
}

/// Reads a query for rows.
///
/// # Errors
/// Fails if it has more or fewer values than marks, at its text, with the rule that it breaks, and with
/// `OutOfMemory`.
pub fn read_query(alloc: Global, written: Written<'_>) -> Result<Selection, Failure> {
    check_marks(
        alloc,
        mark_count(alloc, written.text)?,
        written.values.len(),
    )?;
    match read_select(alloc, written) {
        Ok(selection) => Ok(selection),
        Err(failure) => Err(failure.at(alloc, "query", written.text)),
    }
}

/// Prints the rows that a query selects in the package of a file, and returns whether all of the package can be read.
/// Of several files in CSV the names of columns are printed once, and again where they differ.
///
/// # Errors
/// Fails as `open_to_look` does and as selecting does.
pub fn print_query(
    rt: &System,
    file: &PackageFile<'_>,
    query: &Query<'_>,
    names: &mut LastNames,
    output: &mut Output,
    notes: &mut Output,
) -> Result<bool, Failure> {
    let package = open_to_look(rt, file, notes)?;
    match write_found(rt, file.path, &package, query, names, output) {
        Ok(()) => Ok(package.has_summary()),
        Err(failure) => Err(failure.at(rt.alloc(), "query", query.written.text)),
    }
}

/// Writes the rows that a query selects in a package, or in the lists of its streams.
fn write_found(
    rt: &System,
    file: &str,
    package: &PackageView,
    query: &Query<'_>,
    names: &mut LastNames,
    output: &mut Output,
) -> Result<(), Failure> {
    match lists_for(rt, file, package, &query.selection.select)? {
        Some(lists) => write_selected(rt.alloc(), file, &lists, query, names, output),
        None => write_selected(rt.alloc(), file, package, query, names, output),
    }
}

fn write_selected<P: PackageTables>(
    alloc: Global,
    file: &str,
    package: &P,
    query: &Query<'_>,
    names: &mut LastNames,
    output: &mut Output,
) -> Result<(), Failure> {
    let mut rows = selected(alloc, package, query)?;
    let mut nulls = null_cells(alloc, package, &query.selection.select, rows.columns())?;
    add_literals(alloc, &query.selection, &mut nulls)?;
    match query.format {
        Format::Rows(format) => {
            let printing = RowPrinting {
                file: if query.has_files { Some(file) } else { None },
                is_first: names.is_empty(),
                has_names: names.replace(alloc, rows.columns())?,
                for_spreadsheets: query.for_spreadsheets,
                ..RowPrinting::of(query.style, format)
            };
            write_rows(alloc, printing, rows, &nulls, output)
        }
        Format::Table => {
            let widths = widths_of(alloc, query.style, &mut rows, &nulls)?;
            rows.rewind();
            write_head(file, query, output);
            write_aligned(query.style, &widths, rows, &nulls, output);
            Ok(())
        }
    }
}

/// Writes the path of the file above its table, if there are several.
fn write_head(file: &str, query: &Query<'_>, output: &mut Output) {
    if query.has_files {
        writeln!(output, "file: {}", query.style.show(file));
    }
}

/// Shows literals in the places of the columns that stand for them.
fn add_literals(alloc: Global, selection: &Selection, nulls: &mut NullCells) -> Result<(), Error> {
    for literal in &selection.literals {
        let name = String::from_str(alloc, literal.name.as_str())?;
        nulls.add_literal(literal.place, name, literal.value.clone(alloc)?)?;
    }
    Ok(())
}

fn selected<'a, P: PackageTables>(
    alloc: Global,
    package: &'a P,
    query: &Query<'_>,
) -> Result<Rows<'a>, Failure> {
    let select = query.selection.select.clone(alloc)?;
    match selected_rows(alloc, package, &query.selection, select) {
        Ok(rows) => Ok(rows),
        Err(error) => Err(explained(alloc, package, query.written, Failure::from(error))),
    }
}

/// Returns the rows of a query. Where it selects literals alone, its first column stands for each.
fn selected_rows<'a, P: PackageTables>(
    alloc: Global,
    package: &'a P,
    selection: &Selection,
    select: Select,
) -> Result<Rows<'a>, Error> {
    if !selection.has_only_literals {
        return package.select_rows(select);
    }
    let name = first_name(alloc, package, select.clone(alloc)?)?;
    let mut names = Vec::new(alloc);
    for _ in 0..selection.literals.len() {
        names.push(name.as_str())?;
    }
    package.select_rows(select.columns(names.as_slice())?)
}

/// Returns the name of the first column of a query.
fn first_name<P: PackageTables>(
    alloc: Global,
    package: &P,
    select: Select,
) -> Result<String, Error> {
    let rows = package.select_rows(select)?;
    match rows.columns() {
        [column, ..] => Ok(String::from_str(alloc, column.name())?),
        [] => Ok(String::new(alloc)),
    }
}
