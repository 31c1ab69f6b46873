//! Calls that change a package.

use crate::summary;
use msi::{Error, Insert, Package};
use transcripts_words::columns::{column, columns};
use transcripts_words::counting::Counting;
use transcripts_words::texts::codepage;
use transcripts_words::values::rows;
use transcripts_words::words::Words;

/// The names of these calls.
pub(crate) static VERBS: [&str; 12] = [
    "create_table",
    "add_column",
    "drop_table",
    "fill",
    "set_codepage",
    "write_stream",
    "remove_stream",
    "remove_digital_signature",
    "summary_info_mut",
    "set",
    "clear",
    "flush",
];

pub(crate) fn make(
    package: &mut Package<Counting>,
    verb: &str,
    words: &mut Words,
) -> Result<(), Error> {
    match verb {
        "create_table" => create_table(package, words),
        "add_column" => add_column(package, words),
        "fill" => fill(package, words),
        "set" => summary::set(package.summary_info_mut()?, words),
        "clear" => summary::clear(package.summary_info_mut()?, words),
        "drop_table" => package.drop_table(words.name()),
        "set_codepage" => package.set_database_codepage(codepage(words)),
        "remove_stream" => package.remove_stream(words.name()),
        "remove_digital_signature" => package.remove_digital_signature(),
        "flush" => package.flush(),
        _ => borrow(package, verb, words),
    }
}

fn create_table(package: &mut Package<Counting>, words: &mut Words) -> Result<(), Error> {
    let name = words.name();
    package.create_table(name, columns(words)?)
}

fn add_column(package: &mut Package<Counting>, words: &mut Words) -> Result<(), Error> {
    let name = words.name();
    package.add_column(name, column(words)?)
}

fn fill(package: &mut Package<Counting>, words: &mut Words) -> Result<(), Error> {
    let query = Insert::into(words.alloc, words.name())?;
    package.insert_rows(query.rows(rows(words)?)?)
}

/// Opens a stream for writing, or borrows the summary for a change, and makes none.
fn borrow(package: &mut Package<Counting>, verb: &str, words: &mut Words) -> Result<(), Error> {
    if verb == "write_stream" {
        package.write_stream(words.name())?;
    } else {
        package.summary_info_mut()?;
    }
    Ok(())
}
