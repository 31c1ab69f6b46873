//! A program that prints the rows of a query as CSV. To run it, copy this file to `crates/NAME/src/main.rt`, add the
//! line `NAME: msi csv thiserror` to `crates.txt`, and start `tools/run-program NAME FILE QUERY`.
#![tactic(auto)]

use csv::Writer;
use msi::{Parse, Row, Rows, Select, Value};
use std::alloc::{AllocError, Global};
use std::io::Write;
use std::process::ExitCode;
use std::{env, io};
use thiserror::Error;

/// Why no rows, or not all of them, are printed.
#[derive(Debug, Drop, Error)]
pub enum Failure {
    #[error("usage: NAME FILE QUERY")]
    Usage,
    #[error("{0}")]
    Package(#[from] msi::Error),
    #[error("the query, {0}")]
    Query(#[from] msi::ParseError),
    #[error("{0}")]
    Csv(#[from] csv::Error),
    #[error("{0}")]
    Io(#[from] io::Error),
    #[error(transparent)]
    Memory(#[from(alloc)] AllocError),
}

/// Prints the rows that the arguments ask for. If that fails, it prints why to standard error.
pub fn main(rt: HostRuntime) -> ExitCode {
    match print_asked(&rt) {
        Ok(()) => ExitCode::SUCCESS,
        Err(failure) => {
            let _ = eprintln!(rt; "{failure}");
            ExitCode::FAILURE
        }
    }
}

/// Prints the rows of the query that is the second argument, from the file that is the first.
fn print_asked(rt: &HostRuntime) -> Result<(), Failure> {
    let arguments: Vec<String> = env::args(rt)?.skip(1).collect(rt.alloc())?;
    match arguments.as_slice() {
        [file, query] => print_rows(rt, file.as_str(), query.as_str()),
        _ => Err(Failure::Usage),
    }
}

/// Prints the names of the columns that a query selects, then its rows.
pub fn print_rows(rt: &HostRuntime, file: &str, query: &str) -> Result<(), Failure> {
    let query = Select::parse(rt.alloc(), query)?;
    let package = msi::open(rt, file)?;
    let rows = package.select_rows(query)?;
    write_rows(rt.alloc(), &mut Writer::from_writer(io::writer(rt)), rows)
}

fn write_rows<W>(alloc: Global, output: &mut Writer<W>, rows: Rows) -> Result<(), Failure>
where
    W: Write + Drop,
{
    write_names(output, &rows)?;
    for row in rows {
        write_row(alloc, output, &row?)?;
    }
    output.flush()?;
    Ok(())
}

fn write_names<W: Write + Drop>(output: &mut Writer<W>, rows: &Rows) -> Result<(), csv::Error> {
    for column in rows.columns() {
        output.write_field(column.name().as_bytes())?;
    }
    output.end_record()
}

fn write_row<W>(alloc: Global, output: &mut Writer<W>, row: &Row) -> Result<(), Failure>
where
    W: Write + Drop,
{
    for i in 0..row.len() {
        let text = text_of(alloc, &row[i])?;
        output.write_field(text.as_bytes())?;
    }
    output.end_record()?;
    Ok(())
}

/// Returns the text of a value. Null has no text, and a stream is written as `binary`.
fn text_of(alloc: Global, value: &Value) -> Result<String, AllocError> {
    match value {
        Value::Null => Ok(String::new(alloc)),
        Value::Int(number) => number.to_string(alloc),
        Value::Str(text) => text.to_string(alloc),
        Value::Binary => "binary".to_string(alloc),
    }
}
