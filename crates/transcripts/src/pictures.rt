//! All that a package answers, as bytes to compare.

use crate::session::Session;
use msi::{Package, Select, Streams, Table};
use std::alloc::Global;
use std::io::Read;
use transcripts_words::answers::Answer;
use transcripts_words::counting::Counting;
use transcripts_words::failure::Failure;
use transcripts_words::rows::print_rows;

/// Returns all that the package of a session answers, and the bytes that a flush would write; none if there is no
/// package.
pub(crate) fn picture(alloc: Global, session: &Session) -> Result<Vec<u8>, Failure> {
    match &session.package {
        Some(package) => picture_of(alloc, package),
        None => Ok(Vec::new(alloc)),
    }
}

fn picture_of(alloc: Global, package: &Package<Counting>) -> Result<Vec<u8>, Failure> {
    let mut picture = package.image(0)?;
    add_answers(alloc, &mut picture, package)?;
    add_streams(&mut picture, package, package.streams())?;
    Ok(picture)
}

fn add_answers(
    alloc: Global,
    picture: &mut Vec<u8>,
    package: &Package<Counting>,
) -> Result<(), Failure> {
    let mut answer = Answer::new(alloc)?;
    print_facts(&mut answer, package);
    for table in package.tables() {
        print_table(alloc, &mut answer, package, table)?;
    }
    answer.check()?;
    picture.extend_from_slice(answer.as_str().as_bytes())?;
    Ok(())
}

fn print_facts(answer: &mut Answer, package: &Package<Counting>) {
    let page = package.database_codepage().id();
    let is_writable = package.is_writable();
    let has_failed = package.device_failed();
    let title = package.summary_info().title();
    write!(answer, "{page} {is_writable} {has_failed} {title:?}");
}

fn print_table(
    alloc: Global,
    answer: &mut Answer,
    package: &Package<Counting>,
    table: &Table,
) -> Result<(), Failure> {
    answer.push_str(table.name());
    let query = Select::table(alloc, table.name())?;
    print_rows(answer, package.select_rows(query)?)
}

fn add_streams(
    picture: &mut Vec<u8>,
    package: &Package<Counting>,
    streams: Streams,
) -> Result<(), Failure> {
    for name in streams {
        let name = name?;
        picture.extend_from_slice(name.as_str().as_bytes())?;
        package.read_stream(name.as_str())?.read_to_end(picture)?;
    }
    Ok(())
}
