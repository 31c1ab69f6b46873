//! What differs between two packages and is in no transform: properties of the summary, streams of no row, signatures
//! and storages.

use msipkg_format::{Failure, JsonObject, Opened, Output, Shown, StoredProperty, stream_name};
use msipkg_packages::msi::{ColumnType, Package, SummaryInfo, SummaryProperty, Table};
use msipkg_packages::{property_text, rows_of};
use std::alloc::{AllocError, Global};
use std::collections::BTreeSet;

/// What a transform of two packages leaves out.
pub(crate) struct LeftOut {
    properties: Vec<&'static str>,
    streams: Vec<String>,
    is_signed: bool,
    has_storages: bool,
}

/// Written out, so that a function that owns one calls one drop, and its proof doesn't go through those of the parts.
impl Drop for LeftOut {
    fn drop(self) {
        let LeftOut {
            properties: _,
            streams: _,
            is_signed: _,
            has_storages: _,
        } = self;
    }
}

impl LeftOut {
    /// Returns what a transform from one package to another leaves out.
    ///
    /// # Errors
    /// Fails if a table can't be read, and if memory is refused.
    pub(crate) fn of(
        alloc: Global,
        old: &Package<Opened>,
        new: &Package<Opened>,
    ) -> Result<LeftOut, Failure> {
        Ok(LeftOut {
            properties: differing_properties(alloc, old.summary_info(), new.summary_info())?,
            streams: differing_streams(alloc, old, new)?,
            is_signed: old.has_digital_signature() || new.has_digital_signature(),
            has_storages: old.has_storages() || new.has_storages(),
        })
    }

    /// Writes a line about the file for each kind of what is left out.
    pub(crate) fn note(&self, file: &str, notes: &mut Output) {
        if !self.properties.is_empty() {
            note_left_out(file, "properties of the summary: ", notes);
            write_names(self.properties.as_slice(), notes);
        }
        if !self.streams.is_empty() {
            note_left_out(file, "streams: ", notes);
            write_texts(self.streams.as_slice(), notes);
        }
        if self.is_signed {
            note_left_out(file, "digital signatures\n", notes);
        }
        if self.has_storages {
            note_left_out(file, "storages\n", notes);
        }
    }

    /// Puts it as members of an object.
    pub(crate) fn put(&self, object: &mut JsonObject) {
        object.open_object("left_out");
        object.open_list("properties");
        for name in &self.properties {
            object.put_text_item(name);
        }
        object.close_list();
        object.open_list("streams");
        for name in &self.streams {
            object.put_text_item(name.as_str());
        }
        object.close_list();
        object.put_truth("signatures", self.is_signed);
        object.put_truth("storages", self.has_storages);
        object.close_item();
    }
}

fn note_left_out(file: &str, what: &str, notes: &mut Output) {
    let file = Shown::escaped(file);
    write!(notes, "msipkg: {file}: it doesn't carry {what}");
}

/// Writes names with commas between them, and ends the line.
fn write_names(names: &[&'static str], notes: &mut Output) {
    for (place, name) in names.iter().enumerate() {
        let comma = if place == 0 { "" } else { ", " };
        write!(notes, "{comma}{name}");
    }
    writeln!(notes, "");
}

fn write_texts(texts: &[String], notes: &mut Output) {
    for (place, text) in texts.iter().enumerate() {
        let comma = if place == 0 { "" } else { ", " };
        write!(notes, "{comma}{}", Shown::escaped(text.as_str()));
    }
    writeln!(notes, "");
}

fn differing_properties(
    alloc: Global,
    old: &SummaryInfo,
    new: &SummaryInfo,
) -> Result<Vec<&'static str>, Failure> {
    let mut names = Vec::new(alloc);
    for property in SummaryProperty::all() {
        if let Some(property) = StoredProperty::of(property)
            && property_text(alloc, old, property)? != property_text(alloc, new, property)?
        {
            names.push(property.name())?;
        }
    }
    Ok(names)
}

/// Returns the names of the streams that differ and that no transform brings: it brings those of the new package's
/// rows, and removes those of rows that go.
fn differing_streams(
    alloc: Global,
    old: &Package<Opened>,
    new: &Package<Opened>,
) -> Result<Vec<String>, Failure> {
    let (gone, brought) = (row_streams(alloc, old)?, row_streams(alloc, new)?);
    let mut names = Vec::new(alloc);
    for name in old.streams() {
        let name = name?;
        let is_gone = gone.contains(name.as_str()) && !new.has_stream(name.as_str());
        if !is_gone && !brought.contains(name.as_str()) && differs(old, new, name.as_str()) {
            names.push(name)?;
        }
    }
    for name in new.streams() {
        let name = name?;
        if !old.has_stream(name.as_str()) && !brought.contains(name.as_str()) {
            names.push(name)?;
        }
    }
    Ok(names)
}

fn differs(old: &Package<Opened>, new: &Package<Opened>, name: &str) -> bool {
    match (old.read_stream(name), new.read_stream(name)) {
        (Ok(old), Ok(new)) => old.rest() != new.rest(),
        (Ok(_), Err(_)) | (Err(_), Ok(_)) => true,
        (Err(_), Err(_)) => false,
    }
}

/// Returns the names that the streams of a package's rows have.
fn row_streams(alloc: Global, package: &Package<Opened>) -> Result<BTreeSet<String>, Failure> {
    let mut names = BTreeSet::new(alloc);
    for table in package.tables() {
        if has_streams(table) {
            add_row_streams(alloc, package, table, &mut names)?;
        }
    }
    Ok(names)
}

fn has_streams(table: &Table) -> bool {
    table
        .columns()
        .iter()
        .any(|column| matches!(column.coltype(), ColumnType::Binary))
}

fn add_row_streams(
    alloc: Global,
    package: &Package<Opened>,
    table: &Table,
    names: &mut BTreeSet<String>,
) -> Result<(), Failure> {
    let mut rows = rows_of(alloc, package, table.name())?;
    for _ in 0..rows.len() {
        if let Some(name) = stream_name(alloc, table.name(), &rows)? {
            names.insert(name)?;
        }
        rows.advance();
    }
    Ok(())
}
