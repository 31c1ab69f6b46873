//! Changes of the rows of `_Streams`, which are the streams of a package.

use crate::applied::{apply_rows, apply_statement, counted};
use crate::outcome::Carried;
use msipkg_packages::msi::{Package, Statement};
use msipkg_packages::output::{Failure, Opened, System};
use msipkg_queries::{Written, stream_files};
use msipkg_statements::stream_changes::{fill_from, streams_met};
use msipkg_statements::{
    Fitted, RowStream, STREAMS, explained, fitted_statement, listed_names, with_stream_lists,
};
use std::alloc::{AllocError, Global};
use std::collections::BTreeSet;

/// Carries out a statement on a list of the streams, and then removes the streams that aren't in it any more, and
/// stores those that got a file. A stream that is new in it has to have a file.
pub(crate) fn apply_streams(
    rt: &System,
    package: &mut Package<Opened>,
    statement: Statement,
    written: Written<'_>,
) -> Result<Carried, Failure> {
    if package.has_table(STREAMS) {
        return apply_rows(rt, package, statement, written);
    }
    let alloc = rt.alloc();
    let mut lists = with_stream_lists(alloc, package)?;
    let files = stream_files(alloc, written)?;
    let Fitted { statement, streams } = fitted_statement(
        alloc,
        &lists,
        statement,
        files.as_slice(),
    )?;
    let carried = counted(&lists, &statement);
    let streams = streams_met(alloc, &lists, &statement, streams);
    if let Err(failure) = apply_statement(&mut lists, statement) {
        return Err(explained(alloc, &lists, written, failure));
    }
    let listed = listed_names(alloc, &lists)?;
    remove_unlisted(alloc, package, &listed)?;
    store_files(rt, package, streams?.as_slice())?;
    check_stored(alloc, package, &listed)?;
    Ok(carried?)
}

fn remove_unlisted(
    alloc: Global,
    package: &mut Package<Opened>,
    listed: &BTreeSet<String>,
) -> Result<(), Failure> {
    for name in &unlisted_names(alloc, package, listed)? {
        package.remove_stream(name.as_str())?;
    }
    Ok(())
}

fn unlisted_names(
    alloc: Global,
    package: &Package<Opened>,
    listed: &BTreeSet<String>,
) -> Result<Vec<String>, Failure> {
    let mut names = Vec::new(alloc);
    for name in package.streams() {
        let name = name?;
        if !listed.contains(name.as_str()) {
            names.push(name)?;
        }
    }
    Ok(names)
}

/// Stores the files of rows. The name of such a row's stream has the list's name in front, which the stream itself
/// hasn't.
fn store_files(
    rt: &System,
    package: &mut Package<Opened>,
    streams: &[RowStream<'_>],
) -> Result<(), Failure> {
    for stream in streams {
        if let Some(name) = own_name(stream)
            && let Some(file) = stream.file()
        {
            fill_from(rt, package, name, file)?;
        }
    }
    Ok(())
}

fn own_name<'a>(stream: &'a RowStream<'_>) -> Option<&'a str> {
    stream.name().strip_prefix(STREAMS)?.strip_prefix('.')
}

/// Fails at the first name in the list that no stream has.
fn check_stored(
    alloc: Global,
    package: &Package<Opened>,
    listed: &BTreeSet<String>,
) -> Result<(), Failure> {
    for name in listed {
        if !package.has_stream(name.as_str()) {
            let failure = Failure::rule(
                "a new stream needs a file: write ? for Data, and --value-file",
            );
            return Err(failure.at(alloc, "stream", name.as_str()));
        }
    }
    Ok(())
}
