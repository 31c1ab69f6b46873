//! Calls that look at a package.

use crate::summary;
use msi::{Error, Package, Streams};
use std::io::Read;
use transcripts_words::answers::Answer;
use transcripts_words::columns::print_columns;
use transcripts_words::counting::Counting;
use transcripts_words::failure::Failure;
use transcripts_words::kept::print_bytes;
use transcripts_words::words::Words;

/// The names of these calls.
pub(crate) static VERBS: [&str; 13] = [
    "package_type",
    "codepage",
    "is_writable",
    "device_failed",
    "tables",
    "has_table",
    "columns",
    "keys",
    "streams",
    "has_stream",
    "read_stream",
    "has_digital_signature",
    "summary",
];

pub(crate) fn print(
    package: &Package<Counting>,
    verb: &str,
    words: &mut Words,
    answer: &mut Answer,
) -> Result<(), Failure> {
    match verb {
        "package_type" => write!(answer, "{:?}", package.package_type()),
        "codepage" => write!(answer, "{}", package.database_codepage().id()),
        "is_writable" => write!(answer, "{}", package.is_writable()),
        "device_failed" => write!(answer, "{}", package.device_failed()),
        "tables" => print_tables(answer, package),
        "has_table" => write!(answer, "{}", package.has_table(words.name())),
        "columns" => print_table(answer, package, words.name()),
        "keys" => print_keys(answer, package, words)?,
        "streams" => print_streams(answer, package.streams())?,
        "has_stream" => write!(answer, "{}", package.has_stream(words.name())),
        "read_stream" => print_stream(answer, package, words)?,
        "has_digital_signature" => write!(answer, "{}", package.has_digital_signature()),
        _ => summary::print(answer, package.summary_info(), words)?,
    }
    Ok(())
}

fn print_tables(answer: &mut Answer, package: &Package<Counting>) {
    for table in package.tables() {
        writeln!(answer, "{}", table.name());
    }
}

fn print_table(answer: &mut Answer, package: &Package<Counting>, name: &str) {
    match package.get_table(name) {
        Some(table) => print_columns(answer, table.columns()),
        None => answer.push_str("no table"),
    }
}

/// Prints the places of the key columns of a table, from 0 on.
fn print_keys(
    answer: &mut Answer,
    package: &Package<Counting>,
    words: &mut Words,
) -> Result<(), Error> {
    let Some(table) = package.get_table(words.name()) else {
        answer.push_str("no table");
        return Ok(());
    };
    let mut before = "";
    for place in table.primary_key_indices(words.alloc)?.as_slice() {
        write!(answer, "{before}{place}");
        before = " ";
    }
    Ok(())
}

fn print_streams(answer: &mut Answer, streams: Streams) -> Result<(), Error> {
    for name in streams {
        writeln!(answer, "{:?}", name?.as_str());
    }
    if answer.is_empty() {
        answer.push_str("no streams");
    }
    Ok(())
}

fn print_stream(
    answer: &mut Answer,
    package: &Package<Counting>,
    words: &mut Words,
) -> Result<(), Failure> {
    let mut bytes = Vec::new(words.alloc);
    package.read_stream(words.name())?.read_to_end(&mut bytes)?;
    print_bytes(answer, bytes.as_slice());
    Ok(())
}
