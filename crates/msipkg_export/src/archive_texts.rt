//! The texts of tables' archives, which are written row by row, so that a table's aren't held at once.

use crate::archive_pages::ArchivePage;
use crate::archive_parts::{archive_columns, key_names};
use msi_exchange::{Archive, ArchiveError, write, write_row};
use msipkg_format::{Shown, Style};
use msipkg_packages::msi::{CodePage, Column, Error, IntoText, Items, Value};
use msipkg_packages::output::{Failure, Output};
use std::alloc::{AllocError, Global};
use std::borrow::CowSlice;

/// How many lines of an archive stand in front of those of the rows.
const HEAD: usize = 3;

/// The refusal of a text in a row: these characters stand for others there.
const STAND_IN: &str = "no text archive has a text with a character 16, 17, 21, 24, 25 or 27";

/// The text of an archive, or lines of it, with the code page in which it is stored.
pub(crate) struct StoredText {
    /// The code page, or `None` where the text is ASCII, which every page has as it is.
    page: Option<CodePage>,
    text: String,
}

/// Written out, so that a function that owns one calls one drop, and its proof doesn't go through those of the parts.
impl Drop for StoredText {
    fn drop(self) {
        let StoredText { page: _, text: _ } = self;
    }
}

impl StoredText {
    pub(crate) fn of_ascii(text: String) -> StoredText {
        StoredText { page: None, text }
    }

    /// Returns the bytes of the text. Fails with `InvalidInput` if it can't be written in its code page.
    pub(crate) fn encoded(&self, alloc: Global) -> Result<CowSlice<'_, u8, Global>, Error> {
        match self.page {
            None | Some(CodePage::Utf8) => Ok(CowSlice::Borrowed(self.text.as_bytes())),
            Some(page) => Ok(CowSlice::Owned(page.encode(alloc, self.text.as_str())?)),
        }
    }

    fn write(&self, alloc: Global, output: &mut Output) -> Result<(), Error> {
        let bytes = self.encoded(alloc)?;
        output.push_bytes(bytes.as_slice());
        Ok(())
    }
}

/// The text of a table's archive on its way, to which rows are added.
pub(crate) struct ArchiveText<'a> {
    alloc: Global,
    table: &'a str,
    columns: &'a [Column],
    /// The archive without its rows.
    archive: Archive,
    /// The lines that aren't written yet.
    lines: StoredText,
    /// The number of the last line.
    line: usize,
}

/// Written out, so that a function that owns one calls one drop, and its proof doesn't go through those of the parts.
impl Drop for ArchiveText<'_> {
    fn drop(self) {
        let ArchiveText {
            alloc: _,
            table: _,
            columns: _,
            archive: _,
            lines: _,
            line: _,
        } = self;
    }
}

impl<'a> ArchiveText<'a> {
    /// Returns the text of a table without rows. It names the code page only if one of its texts isn't ASCII, and UTF-8
    /// if the page lacks a character. The texts of the rows are taken in already. Fails at a name that no archive can
    /// have.
    pub(crate) fn new(
        alloc: Global,
        mut pages: ArchivePage,
        table: &'a str,
        columns: &'a [Column],
    ) -> Result<ArchiveText<'a>, Failure> {
        add_names(&mut pages, table, columns);
        let page = pages.page();
        let archive = archive_of(alloc, number_of(page), table, columns)?;
        let text = text_of(alloc, table, columns, &archive)?;
        Ok(ArchiveText {
            alloc,
            table,
            columns,
            archive,
            lines: StoredText { page, text },
            line: HEAD,
        })
    }

    pub(crate) fn push(&mut self, row: &[Value]) -> Result<(), Failure> {
        self.line = self.line.saturating_add(1);
        match write_row(&mut self.lines.text, self.line, self.archive.columns(), row) {
            Ok(()) => Ok(()),
            Err(error) => Err(refusal(self.alloc, self.table, self.columns, &error)),
        }
    }

    /// Writes the lines that aren't written yet, as they are stored, or with escapes in their fields if the style
    /// escapes. Fails with `InvalidInput` if a text can't be written in the code page.
    pub(crate) fn write_lines(&mut self, style: Style, output: &mut Output) -> Result<(), Error> {
        if style.escapes_hidden() {
            write_shown(self.lines.text.as_str(), output);
        } else {
            self.lines.write(self.alloc, output)?;
        }
        self.lines.text.clear();
        Ok(())
    }

    fn into_lines(self) -> StoredText {
        let ArchiveText {
            alloc: _,
            table: _,
            columns: _,
            archive: _,
            lines,
            line: _,
        } = self;
        lines
    }
}

fn write_shown(text: &str, output: &mut Output) {
    for line in text.lines() {
        write_shown_line(line, output);
    }
}

fn write_shown_line(line: &str, output: &mut Output) {
    let mut before: &[u8] = b"";
    for field in line.split('\t') {
        output.push_bytes(before);
        write!(output, "{}", Shown::escaped(field));
        before = b"\t";
    }
    output.push_str("\n");
}

pub(crate) fn text_of_rows(
    alloc: Global,
    page: CodePage,
    table: &str,
    columns: &[Column],
    rows: &[Items<Value>],
) -> Result<StoredText, Failure> {
    let mut pages = ArchivePage::new(page);
    for row in rows {
        add_texts(&mut pages, row.as_slice());
    }
    let mut text = ArchiveText::new(alloc, pages, table, columns)?;
    push_rows(rows, &mut text)?;
    Ok(text.into_lines())
}

fn push_rows(rows: &[Items<Value>], text: &mut ArchiveText<'_>) -> Result<(), Failure> {
    for row in rows {
        text.push(row.as_slice())?;
    }
    Ok(())
}

fn add_texts(pages: &mut ArchivePage, row: &[Value]) {
    for value in row {
        pages.add(value.as_str().unwrap_or(""));
    }
}

fn add_names(pages: &mut ArchivePage, table: &str, columns: &[Column]) {
    pages.add(table);
    for column in columns {
        pages.add(column.name());
    }
}

fn number_of(page: Option<CodePage>) -> Option<u16> {
    u16::try_from(page?.id()).ok()
}

fn archive_of(
    alloc: Global,
    number: Option<u16>,
    table: &str,
    columns: &[Column],
) -> Result<Archive, Error> {
    let keys = key_names(alloc, columns)?;
    let described = archive_columns(alloc, columns)?;
    let rows = Items::from_vec(Vec::new(alloc));
    let table = table.into_text(alloc)?;
    Ok(Archive::new(number, table, keys, described, rows))
}

fn text_of(
    alloc: Global,
    table: &str,
    columns: &[Column],
    archive: &Archive,
) -> Result<String, Failure> {
    match write(alloc, archive) {
        Ok(text) => Ok(text),
        Err(error) => Err(refusal(alloc, table, columns, &error)),
    }
}

/// Returns why a table has no archive: the column, and in a row also its number, counted from 1.
fn refusal(alloc: Global, table: &str, columns: &[Column], error: &ArchiveError) -> Failure {
    let failure = Failure::rule(rule_of(error));
    match place_text(alloc, table, columns, error) {
        Ok(place) => failure.at(alloc, "table", place.as_str()),
        Err(_) => failure,
    }
}

/// Returns the rule that is broken. In a row, whose values are those of a table, only a text breaks one.
fn rule_of(error: &ArchiveError) -> &'static str {
    match error.place() {
        Some(place) if place.line > HEAD => STAND_IN,
        _ => error.reason().0,
    }
}

fn place_text(
    alloc: Global,
    table: &str,
    columns: &[Column],
    error: &ArchiveError,
) -> Result<String, AllocError> {
    let Some(place) = error.place() else {
        return String::from_str(alloc, table);
    };
    let column = name_of(columns, place.field);
    match place.line {
        1 | 2 => format!(in alloc; "{table}: column {column}"),
        3 => String::from_str(alloc, table),
        line => {
            let row = line.saturating_sub(HEAD);
            format!(in alloc; "{table}: row {row}, column {column}")
        }
    }
}

/// Returns the name of the column of a number, counted from 1.
fn name_of(columns: &[Column], number: usize) -> &str {
    match columns.get(number.saturating_sub(1)) {
        Some(column) => column.name(),
        None => "",
    }
}
