//! Rows in the formats in which they are printed one by one.

use crate::Style;
use crate::failure::Failure;
use crate::json_rows::JsonRow;
use crate::nulls::NullCells;
use crate::repeated::{FILE, Members, has_repeated, member_names, write_named};
use crate::values::{STREAM, write_value};
use csv::Writer;
use msi_exchange::write_csv_row;
use msi_table::{Column, Row, Rows, Value};
use msipkg_system::Output;
use std::alloc::Global;

/// How rows are printed one by one.
#[derive(Clone, Copy)]
pub enum RowFormat {
    /// A line for each row, its values parted by tabs, without the names of the columns.
    Tabs,
    /// Comma-separated values, the names of the columns first.
    Csv,
    /// A list of objects, one a line.
    Json,
    /// A line for each value, behind its column's name, and an empty line between rows.
    Lines,
}

/// How rows are printed.
#[derive(Clone, Copy)]
pub struct RowPrinting<'a> {
    pub style: Style,
    pub format: RowFormat,
    /// The path of the file that the rows are of, if it is printed in front of each.
    pub file: Option<&'a str>,
    /// Whether no rows are printed in front of these.
    pub is_first: bool,
    /// Whether CSV begins with the names of the columns.
    pub has_names: bool,
    /// Whether texts in CSV that a spreadsheet would run as formulas have an apostrophe in front.
    pub for_spreadsheets: bool,
}

impl<'a> RowPrinting<'a> {
    /// Returns how the rows of one file are printed.
    pub fn of(style: Style, format: RowFormat) -> RowPrinting<'a> {
        RowPrinting {
            style,
            format,
            file: None,
            is_first: true,
            has_names: true,
            for_spreadsheets: false,
        }
    }

    /// Returns whether a row in CSV has its own values as they are, and nothing else.
    fn is_bare(self) -> bool {
        self.file.is_none() && !self.for_spreadsheets && !self.style.escapes_hidden()
    }
}

/// How values are printed.
#[derive(Clone, Copy)]
struct Printer<'a> {
    alloc: Global,
    printing: RowPrinting<'a>,
    nulls: &'a NullCells,
}

/// Writes rows, in which the cells among `nulls` are null. Null prints as nothing, in JSON as `null`; a stream as
/// `[stream]`, in JSON as `true`. In JSON a column whose name stands in front already has a number behind it, as
/// `Name_2`.
///
/// # Errors
/// Fails for CSV and JSON as reading a row does, and if memory is refused.
pub fn write_rows(
    alloc: Global,
    printing: RowPrinting<'_>,
    rows: Rows<'_>,
    nulls: &NullCells,
    output: &mut Output,
) -> Result<(), Failure> {
    let printer = Printer {
        alloc,
        printing,
        nulls,
    };
    match printing.format {
        RowFormat::Csv => write_csv(&printer, rows, output),
        RowFormat::Json => write_json(&printer, rows, output),
        RowFormat::Tabs | RowFormat::Lines => {
            write_each(&printer, rows, output);
            Ok(())
        }
    }
}

fn write_csv(printer: &Printer<'_>, rows: Rows<'_>, output: &mut Output) -> Result<(), Failure> {
    let mut writer = Writer::from_writer(output);
    write_records(printer, rows, &mut writer)?;
    done(printer, writer.flush())
}

fn write_records(
    printer: &Printer<'_>,
    rows: Rows<'_>,
    writer: &mut Writer<&mut Output>,
) -> Result<(), Failure> {
    if printer.printing.has_names {
        write_names(printer, rows.columns(), writer)?;
    }
    let mut number = 0usize;
    for row in rows {
        write_record(printer, &row?, number, writer)?;
        number = number.saturating_add(1);
    }
    Ok(())
}

fn write_names(
    printer: &Printer<'_>,
    columns: &[Column],
    writer: &mut Writer<&mut Output>,
) -> Result<(), Failure> {
    if printer.printing.file.is_some() {
        write_field(printer, FILE, writer)?;
    }
    for place in 0..columns.len() {
        write_field(printer, printer.nulls.name_of(columns, place), writer)?;
    }
    done(printer, writer.end_record())
}

fn write_record(
    printer: &Printer<'_>,
    row: &Row,
    number: usize,
    writer: &mut Writer<&mut Output>,
) -> Result<(), Failure> {
    if printer.printing.is_bare() && printer.nulls.is_empty() {
        done(printer, write_csv_row(writer, row))
    } else {
        write_shown(printer, row, number, writer)
    }
}

fn write_shown(
    printer: &Printer<'_>,
    row: &Row,
    number: usize,
    writer: &mut Writer<&mut Output>,
) -> Result<(), Failure> {
    if let Some(file) = printer.printing.file {
        write_field(printer, file, writer)?;
    }
    for i in 0..row.len() {
        if printer.nulls.has(number, i) {
            write_field(printer, "", writer)?;
        } else {
            let value = printer.nulls.literal(i).unwrap_or(&row[i]);
            write_value_field(printer, value, writer)?;
        }
    }
    done(printer, writer.end_record())
}

fn write_value_field(
    printer: &Printer<'_>,
    value: &Value,
    writer: &mut Writer<&mut Output>,
) -> Result<(), Failure> {
    match value {
        Value::Null => write_field(printer, "", writer),
        Value::Int(number) => {
            let text = number.to_string(printer.alloc)?;
            write_field(printer, text.as_str(), writer)
        }
        Value::Str(text) => write_text_field(printer, text.as_str(), writer),
        Value::Binary => write_field(printer, STREAM, writer),
    }
}

/// A spreadsheet takes a text for a formula by its first character.
fn write_text_field(
    printer: &Printer<'_>,
    text: &str,
    writer: &mut Writer<&mut Output>,
) -> Result<(), Failure> {
    if printer.printing.for_spreadsheets && text.starts_with(&['=', '+', '-', '@', '\t', '\r']) {
        let marked = format!(in printer.alloc; "'{text}")?;
        return write_field(printer, marked.as_str(), writer);
    }
    write_field(printer, text, writer)
}

fn write_field(
    printer: &Printer<'_>,
    text: &str,
    writer: &mut Writer<&mut Output>,
) -> Result<(), Failure> {
    let text = printer.printing.style.show(text).to_string(printer.alloc)?;
    done(printer, writer.write_field(text.as_bytes()))
}

fn done(printer: &Printer<'_>, returned: Result<(), csv::Error>) -> Result<(), Failure> {
    match returned {
        Ok(()) => Ok(()),
        Err(error) => Err(Failure::shown(printer.alloc, &error)),
    }
}

fn write_json(printer: &Printer<'_>, rows: Rows<'_>, output: &mut Output) -> Result<(), Failure> {
    output.push_str("[");
    let has_file = printer.printing.file.is_some();
    if has_file || has_repeated(rows.columns()) || !printer.nulls.is_empty() {
        write_repeated(printer, rows, output)?;
    } else {
        write_objects(printer, rows, output)?;
    }
    output.push_str("\n]\n");
    Ok(())
}

/// Writes rows as objects, where several columns have the same name, cells of streams are null, or each has its file.
fn write_repeated(
    printer: &Printer<'_>,
    rows: Rows<'_>,
    output: &mut Output,
) -> Result<(), Failure> {
    let has_file = printer.printing.file.is_some();
    let names = Members {
        file: printer.printing.file,
        names: member_names(printer.alloc, has_file, rows.columns(), printer.nulls)?,
    };
    write_named(
        printer.alloc,
        printer.printing.style,
        &names,
        rows,
        printer.nulls,
        output,
    );
    Ok(())
}

fn write_objects(
    printer: &Printer<'_>,
    rows: Rows<'_>,
    output: &mut Output,
) -> Result<(), Failure> {
    let mut json = JsonRow::new(printer.alloc);
    let mut before: &[u8] = b"\n";
    for row in rows {
        json = json.object(&row?)?;
        output.push_bytes(before);
        before = b",\n";
        json.print(printer.printing.style, output);
    }
    Ok(())
}

fn write_each(printer: &Printer<'_>, mut rows: Rows<'_>, output: &mut Output) {
    for number in 0..rows.len() {
        write_row(printer, printer.nulls, number, &rows, output);
        rows.advance();
    }
}

/// Writes the next row, with its values on lines, behind an empty line unless it is the first of all, or separated by
/// tabs.
fn write_row<'a>(
    printer: &Printer<'_>,
    nulls: &'a NullCells,
    number: usize,
    rows: &'a Rows<'_>,
    output: &mut Output,
) {
    let has_lines = matches!(printer.printing.format, RowFormat::Lines);
    let between = if has_lines { "\n" } else { "\t" };
    if has_lines && (number > 0 || !printer.printing.is_first) {
        output.push_str("\n");
    }
    write_file(printer, has_lines, between, output);
    for place in 0..rows.columns().len() {
        if place > 0 {
            output.push_str(between);
        }
        if has_lines {
            printer
                .printing
                .style
                .print(nulls.name_of(rows.columns(), place), output);
            output.push_str(" = ");
        }
        let value = nulls.shown_in(rows, number, place);
        write_value(printer.printing.style, value, output);
    }
    output.push_str("\n");
}

fn write_file(printer: &Printer<'_>, has_lines: bool, between: &str, output: &mut Output) {
    if let Some(file) = printer.printing.file {
        if has_lines {
            output.push_str("file = ");
        }
        printer.printing.style.print(file, output);
        output.push_str(between);
    }
}
