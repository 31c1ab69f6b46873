//! Tables as text archives, with the files of their rows' streams.

use crate::archive_pages::ArchivePage;
use crate::archive_parts::text_value;
use crate::archive_texts::ArchiveText;
use msipkg_format::Style;
use msipkg_looking::PackageView;
use msipkg_packages::msi::{CodePage, Column, ColumnType, Rows, Table, Value, ValueView};
use msipkg_packages::output::{Failure, Output, stream_name};
use msipkg_packages::{PackageTables, cell_text, has_null_streams, rows_of};
use msipkg_safe_names::{SafeName, SafeNames};
use std::alloc::{AllocError, Global};

/// The refusal of a row whose stream doesn't exist.
const NO_STREAM: &str = "its stream isn't there, and the column doesn't take null";

/// A stream and the name of its file.
pub(crate) struct StreamFile {
    /// The name of the stream.
    pub(crate) stream: String,
    /// The name of its file.
    pub(crate) file: SafeName,
}

/// Written out, so that a function that owns one calls one drop, and its proof doesn't go through those of the parts.
impl Drop for StreamFile {
    fn drop(self) {
        let StreamFile { stream: _, file: _ } = self;
    }
}

impl StreamFile {
    pub(crate) fn into_stream(self) -> String {
        let StreamFile { stream, file: _ } = self;
        stream
    }
}

/// A table on its way into its archive, with the files of its rows' streams.
pub(crate) struct TableArchive<'a> {
    alloc: Global,
    package: &'a PackageView,
    table: &'a str,
    given: SafeNames,
    /// The streams of the rows, whose values in the archive are the names of their files.
    files: Vec<StreamFile>,
    /// The values of a row, as an archive has them.
    row: Vec<Value>,
    text: ArchiveText<'a>,
}

/// Written out, so that a function that owns one calls one drop, and its proof doesn't go through those of the parts.
impl Drop for TableArchive<'_> {
    fn drop(self) {
        let TableArchive {
            alloc: _,
            package: _,
            table: _,
            given: _,
            files: _,
            row: _,
            text: _,
        } = self;
    }
}

impl<'a> TableArchive<'a> {
    /// Returns the archive of a table, which is still to be written. Its rows are gone over here for whether the code
    /// page is to be named, so that none of their lines is kept.
    pub(crate) fn new(
        alloc: Global,
        package: &'a PackageView,
        table: &'a Table,
    ) -> Result<TableArchive<'a>, Failure> {
        let rows = rows_of(alloc, package, table.name())?;
        let pages = page_of_rows(package.database_codepage(), rows);
        Ok(TableArchive {
            alloc,
            package,
            table: table.name(),
            given: SafeNames::new(alloc),
            files: Vec::new(alloc),
            row: Vec::new(alloc),
            text: ArchiveText::new(alloc, pages, table.name(), table.columns())?,
        })
    }

    /// Writes the archive row by row, in its code page, or as text with escapes in its fields if the style escapes.
    /// Fails with `InvalidInput` if a text can't be written in the code page.
    pub(crate) fn write(&mut self, style: Style, output: &mut Output) -> Result<(), Failure> {
        let mut rows = rows_of(self.alloc, self.package, self.table)?;
        for _ in 0..rows.len() {
            self.text.write_lines(style, output)?;
            self.add_row(&rows)?;
            rows.advance();
        }
        Ok(self.text.write_lines(style, output)?)
    }

    pub(crate) fn into_files(self) -> Vec<StreamFile> {
        let TableArchive {
            alloc: _,
            package: _,
            table: _,
            given: _,
            files,
            row: _,
            text: _,
        } = self;
        files
    }

    fn add_row(&mut self, rows: &Rows<'_>) -> Result<(), Failure> {
        self.row.clear();
        for place in 0..rows.columns().len() {
            let value = self.value_of(rows, place)?;
            self.row.push(value)?;
        }
        self.text.push(self.row.as_slice())
    }

    fn value_of(&mut self, rows: &Rows<'_>, place: usize) -> Result<Value, Failure> {
        match rows.get(place).unwrap_or(ValueView::Null) {
            ValueView::Null => Ok(Value::Null),
            ValueView::Int(number) => Ok(Value::Int(number)),
            ValueView::Str(text) => Ok(text_value(self.alloc, text)?),
            ValueView::Binary => self.file_of(rows, place),
        }
    }

    /// Returns the name of the file of the next row's stream, or null if the stream doesn't exist and the column takes
    /// null.
    fn file_of(&mut self, rows: &Rows<'_>, place: usize) -> Result<Value, Failure> {
        let Some(stream) = self.stream_of(rows)? else {
            return self.null_in(rows, place);
        };
        let file = self.given.give(stream.as_str())?;
        let value = Value::from_text(self.alloc, file.as_str())?;
        self.files.push(StreamFile { stream, file })?;
        Ok(value)
    }

    /// Returns the name of the next row's stream, if it exists.
    fn stream_of(&self, rows: &Rows<'_>) -> Result<Option<String>, AllocError> {
        let name = stream_name(self.alloc, self.table, rows)?;
        Ok(name.filter(|name| self.package.has_stream(name.as_str())))
    }

    /// Returns null, unless the column of the cell doesn't take it.
    fn null_in(&self, rows: &Rows<'_>, place: usize) -> Result<Value, Failure> {
        if rows
            .columns()
            .get(place)
            .is_some_and(|column| has_null_streams(column))
        {
            return Ok(Value::Null);
        }
        let cell = cell_text(self.alloc, self.table, rows, place)?;
        Err(Failure::rule(NO_STREAM).at(self.alloc, "table", cell.as_str()))
    }
}

/// Returns the page of an archive of rows. The names of their streams' files are ASCII. Rows without columns of texts
/// aren't gone over.
fn page_of_rows(page: CodePage, mut rows: Rows<'_>) -> ArchivePage {
    let mut pages = ArchivePage::new(page);
    if !rows.columns().iter().any(|column| has_texts(column)) {
        return pages;
    }
    for _ in 0..rows.len() {
        if pages.is_settled() {
            return pages;
        }
        add_texts(&rows, &mut pages);
        rows.advance();
    }
    pages
}

fn add_texts(rows: &Rows<'_>, pages: &mut ArchivePage) {
    for (place, column) in rows.columns().iter().enumerate() {
        if has_texts(column)
            && let Some(ValueView::Str(text)) = rows.get(place)
        {
            pages.add(text);
        }
    }
}

fn has_texts(column: &Column) -> bool {
    matches!(column.coltype(), ColumnType::Str(_))
}

pub(crate) fn print_archive(
    alloc: Global,
    style: Style,
    package: &PackageView,
    table: &Table,
    output: &mut Output,
) -> Result<(), Failure> {
    let mut archive = TableArchive::new(alloc, package, table)?;
    archive.write(style, output)
}
