//! Packages as JSON on one line: the summary, the tables with the types of their columns, and the streams.

use crate::base64_texts::Encoder;
use msipkg_format::{JsonObject, Style, write_quoted, write_text};
use msipkg_looking::PackageView;
use msipkg_packages::msi::{Error, Rows, SummaryInfo, SummaryProperty, Table};
use msipkg_packages::output::{Failure, JsonRow, NullCells, Output, StoredProperty, put_columns};
use msipkg_packages::{
    PackageTables, chosen_tables, kind_name, null_cells_of, property_text, rows_of,
};
use std::alloc::{AllocError, Global};

/// Writes a package as an object on one line. If tables are named, it has these alone, without the summary and the
/// streams. Rows are lists of values in the order of the columns; a stream's value is `true`, and its bytes are under
/// `streams`, in base64.
pub(crate) fn write_package(
    alloc: Global,
    style: Style,
    file: &str,
    package: &mut PackageView,
    names: &[&str],
    output: &mut Output,
) -> Result<(), Failure> {
    write_chosen(alloc, style, file, package, names, output)?;
    if names.is_empty() {
        write_streams(alloc, style, package, output)?;
    }
    output.push_str("}\n");
    Ok(())
}

fn write_chosen(
    alloc: Global,
    style: Style,
    file: &str,
    package: &PackageView,
    names: &[&str],
    output: &mut Output,
) -> Result<(), Failure> {
    let tables = chosen_tables(alloc, package, names, false)?;
    write_head(alloc, style, file, package, output);
    if names.is_empty() {
        write_summary(alloc, style, package, output);
    }
    write_tables(alloc, style, package, tables.as_slice(), output)
}

fn write_head(alloc: Global, style: Style, file: &str, package: &PackageView, output: &mut Output) {
    output.push_str("{\"file\":");
    write_quoted(alloc, style, file, output);
    let kind = kind_name(package.package_type());
    let page = package.database_codepage().id();
    write!(output, ",\"kind\":\"{kind}\",\"codepage\":{page}");
}

fn write_summary(alloc: Global, style: Style, package: &PackageView, output: &mut Output) {
    let Some(summary) = package.summary_info() else {
        return;
    };
    output.push_str(",\"summary\":");
    match summary_json(alloc, summary) {
        Ok(object) => object.print(style, output),
        // Texts of properties fail for want of memory alone.
        Err(_) => output.refuse_memory(AllocError),
    }
}

fn summary_json(alloc: Global, summary: &SummaryInfo) -> Result<JsonObject, Error> {
    let mut object = JsonObject::new(alloc);
    for property in SummaryProperty::all() {
        if let Some(property) = StoredProperty::of(property)
            && let Some(text) = property_text(alloc, summary, property)?
        {
            object.put_text(property.name(), Some(text.as_str()));
        }
    }
    Ok(object)
}

fn write_tables(
    alloc: Global,
    style: Style,
    package: &PackageView,
    tables: &[&Table],
    output: &mut Output,
) -> Result<(), Failure> {
    output.push_str(",\"tables\":[");
    let mut before: &[u8] = b"";
    for table in tables {
        output.push_bytes(before);
        before = b",";
        write_table(alloc, style, package, table, output)?;
    }
    output.push_str("]");
    Ok(())
}

fn write_table(
    alloc: Global,
    style: Style,
    package: &PackageView,
    table: &Table,
    output: &mut Output,
) -> Result<(), Failure> {
    write_columns(alloc, style, table, output);
    let rows = rows_of(alloc, package, table.name())?;
    let nulls = null_cells_of(alloc, package, table)?;
    write_rows(alloc, style, rows, &nulls, output)
}

fn write_columns(alloc: Global, style: Style, table: &Table, output: &mut Output) {
    let mut object = JsonObject::new(alloc);
    put_columns(table.name(), table.columns(), &mut object);
    match object.begun() {
        Ok(text) => write_text(style, text, output),
        Err(error) => output.refuse_memory(error),
    }
}

fn write_rows(
    alloc: Global,
    style: Style,
    rows: Rows<'_>,
    nulls: &NullCells,
    output: &mut Output,
) -> Result<(), Failure> {
    output.push_str(",\"rows\":[");
    write_lists(alloc, style, rows, nulls, output)?;
    output.push_str("]}");
    Ok(())
}

fn write_lists(
    alloc: Global,
    style: Style,
    rows: Rows<'_>,
    nulls: &NullCells,
    output: &mut Output,
) -> Result<(), Failure> {
    let mut json = JsonRow::new(alloc);
    let mut before: &[u8] = b"";
    let mut number = 0usize;
    for row in rows {
        json = json.list(&row?, number, nulls)?;
        number = number.saturating_add(1);
        output.push_bytes(before);
        before = b",";
        json.print(style, output);
    }
    Ok(())
}

/// Writes the streams that are found under their names.
fn write_streams(
    alloc: Global,
    style: Style,
    package: &mut PackageView,
    output: &mut Output,
) -> Result<(), Failure> {
    output.push_str(",\"streams\":[");
    let mut before: &[u8] = b"";
    for name in &package.stream_names()? {
        if package.has_stream(name.as_str()) {
            output.push_bytes(before);
            before = b",";
            write_stream(alloc, style, package, name.as_str(), output)?;
        }
    }
    output.push_str("]");
    Ok(())
}

fn write_stream(
    alloc: Global,
    style: Style,
    package: &mut PackageView,
    name: &str,
    output: &mut Output,
) -> Result<(), Failure> {
    output.push_str("{\"stream\":");
    write_quoted(alloc, style, name, output);
    output.push_str(",\"base64\":\"");
    let mut encoder = Encoder::new(alloc, output);
    package.copy_stream(None, name, &mut encoder)?;
    encoder.end();
    output.push_str("\"}");
    Ok(())
}
