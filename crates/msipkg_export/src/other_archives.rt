//! The archives of what isn't in a table: the code page, the summary, and the streams that no row has.

use crate::archive_parts::text_value;
use crate::archive_texts::{StoredText, text_of_rows};
use crate::table_archives::StreamFile;
use msipkg_looking::PackageView;
use msipkg_packages::msi::{CodePage, Column, Error, Items, SummaryInfo, SummaryProperty, Value};
use msipkg_packages::output::{Failure, StoredProperty};
use msipkg_packages::{PackageTables, property_text};
use msipkg_safe_names::SafeNames;
use std::alloc::{AllocError, Global};
use std::collections::BTreeSet;

/// The names of these archives, as the installer has them.
pub(crate) const PAGE: &str = "_ForceCodepage";

pub(crate) const SUMMARY: &str = "_SummaryInformation";

pub(crate) const STREAMS: &str = "_Streams";

/// Returns the archive of a code page, which has no columns.
pub(crate) fn page_archive(alloc: Global, page: CodePage) -> Result<StoredText, AllocError> {
    let id = page.id();
    let text = format!(in alloc; "\r\n\r\n{id}\t{PAGE}\r\n")?;
    Ok(StoredText::of_ascii(text))
}

/// Returns the archive of the summary, in the summary's own code page. Fails at a text that no archive can have.
pub(crate) fn summary_archive(alloc: Global, summary: &SummaryInfo) -> Result<StoredText, Failure> {
    let columns = summary_columns(alloc)?;
    let rows = summary_rows(alloc, summary)?;
    let page = summary.codepage();
    text_of_rows(alloc, page, SUMMARY, columns.as_slice(), rows.as_slice())
}

fn summary_columns(alloc: Global) -> Result<Vec<Column>, Error> {
    let id = Column::build(alloc, "PropertyId")?.primary_key().int16();
    let value = Column::build(alloc, "Value")?.localizable().string(255);
    Ok(vec![in alloc; id, value]?)
}

fn summary_rows(alloc: Global, summary: &SummaryInfo) -> Result<Vec<Items<Value>>, Error> {
    let mut rows = Vec::new(alloc);
    for property in SummaryProperty::all() {
        if let Some(property) = StoredProperty::of(property)
            && let Some(text) = property_text(alloc, summary, property)?
        {
            rows.push(property_row(alloc, property.id(), text.as_str())?)?;
        }
    }
    Ok(rows)
}

fn property_row(alloc: Global, id: i32, text: &str) -> Result<Items<Value>, Error> {
    let value = text_value(alloc, text)?;
    Ok(Items::from_vec(vec![in alloc; Value::Int(id), value]?))
}

/// Returns the streams that no row has and that are found under their names. Those of rows are in `named`.
pub(crate) fn stream_files(
    alloc: Global,
    package: &PackageView,
    named: &BTreeSet<String>,
) -> Result<Vec<StreamFile>, Error> {
    let mut given = SafeNames::new(alloc);
    let mut files = Vec::new(alloc);
    for stream in package.stream_names()? {
        if !named.contains(stream.as_str()) && package.has_stream(stream.as_str()) {
            let file = given.give(stream.as_str())?;
            files.push(StreamFile { stream, file })?;
        }
    }
    Ok(files)
}

pub(crate) fn streams_archive(
    alloc: Global,
    page: CodePage,
    files: &[StreamFile],
) -> Result<StoredText, Failure> {
    let columns = stream_columns(alloc)?;
    let rows = stream_rows(alloc, files)?;
    text_of_rows(alloc, page, STREAMS, columns.as_slice(), rows.as_slice())
}

fn stream_columns(alloc: Global) -> Result<Vec<Column>, Error> {
    let name = Column::build(alloc, "Name")?.primary_key().string(62);
    let data = Column::build(alloc, "Data")?.nullable().binary();
    Ok(vec![in alloc; name, data]?)
}

fn stream_rows(alloc: Global, files: &[StreamFile]) -> Result<Vec<Items<Value>>, Error> {
    let mut rows = Vec::with_capacity(alloc, files.len())?;
    for file in files {
        rows.push(stream_row(alloc, file)?)?;
    }
    Ok(rows)
}

fn stream_row(alloc: Global, file: &StreamFile) -> Result<Items<Value>, Error> {
    let name = Value::from_text(alloc, file.stream.as_str())?;
    let data = Value::from_text(alloc, file.file.as_str())?;
    Ok(Items::from_vec(vec![in alloc; name, data]?))
}
