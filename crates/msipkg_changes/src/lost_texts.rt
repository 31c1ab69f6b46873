//! Texts of a package that its code pages can't hold: none is written, since it would read back as another.

use msipkg_format::Shown;
use msipkg_packages::msi::{
    CodePage, Error, Package, Rows, SummaryInfo, SummaryProperty, Table, ValueView,
};
use msipkg_packages::output::{Cause, Failure, Opened, StoredProperty};
use msipkg_packages::{cell_text, property_text, rows_of};
use std::alloc::{AllocError, Global};

/// Returns why no bytes were made of a package: the first text that wouldn't read back, with its place, if that is why.
pub(crate) fn refusal(alloc: Global, package: &Package<Opened>, error: Error) -> Failure {
    if package.is_writable() {
        return Failure::from(error);
    }
    match lost_text(alloc, package) {
        Ok(Some(failure)) => failure,
        Ok(None) => Failure::from(error),
        Err(failure) => failure,
    }
}

fn lost_text(alloc: Global, package: &Package<Opened>) -> Result<Option<Failure>, Failure> {
    for table in package.tables() {
        let lost = lost_in_table(alloc, package, table)?;
        if lost.is_some() {
            return Ok(lost);
        }
    }
    lost_in_summary(alloc, package.summary_info())
}

/// Returns the failure of the first text of a table that wouldn't read back, or none if the table can't be read.
fn lost_in_table(
    alloc: Global,
    package: &Package<Opened>,
    table: &Table,
) -> Result<Option<Failure>, Failure> {
    let page = package.database_codepage();
    let Ok(mut rows) = rows_of(alloc, package, table.name()) else {
        return Ok(None);
    };
    for _ in 0..rows.len() {
        if let Some((place, c)) = lost_in_row(page, &rows) {
            let cell = cell_text(alloc, table.name(), &rows, place)?;
            return Ok(Some(lacking(alloc, page, c)?.at(alloc, "table", cell.as_str())));
        }
        rows.advance();
    }
    Ok(None)
}

/// Returns the place of the first column of the next row whose text has a character that the page lacks, and that
/// character.
fn lost_in_row(page: CodePage, rows: &Rows<'_>) -> Option<(usize, char)> {
    for place in 0..rows.columns().len() {
        if let Some(ValueView::Str(text)) = rows.get(place)
            && let Some(c) = lost_character(page, text)
        {
            return Some((place, c));
        }
    }
    None
}

fn lost_character(page: CodePage, text: &str) -> Option<char> {
    for c in text.chars() {
        let mut bytes = [0u8; 4];
        if !page.reads_back(c.encode_utf8(&mut bytes)) {
            return Some(c);
        }
    }
    None
}

fn lost_in_summary(alloc: Global, summary: &SummaryInfo) -> Result<Option<Failure>, Failure> {
    let page = summary.codepage();
    for property in SummaryProperty::all() {
        if let Some(property) = StoredProperty::of(property)
            && let Some(text) = property_text(alloc, summary, property)?
            && let Some(c) = lost_character(page, text.as_str())
        {
            let failure = lacking(alloc, page, c)?;
            return Ok(Some(failure.at(alloc, "summary property", property.name())));
        }
    }
    Ok(None)
}

fn lacking(alloc: Global, page: CodePage, c: char) -> Result<Failure, AllocError> {
    let mut bytes = [0u8; 4];
    let (id, c) = (page.id(), Shown::escaped(c.encode_utf8(&mut bytes)));
    let text = format!(in alloc; "page {id} has no {c}; --recode writes the package in UTF-8")?;
    Ok(Failure::new(Cause::Shown(text)))
}
