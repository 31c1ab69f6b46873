//! Streams of rows that statements change.

use crate::row_streams::{RowStream, StatementStreams, UpdatedStreams};
use msipkg_packages::fill_stream;
use msipkg_packages::msi::parts::updated_rows;
use msipkg_packages::msi::{Package, Rows, Statement};
use msipkg_packages::output::{Failure, Opened, System, stream_name};
use std::alloc::{AllocError, Global};

/// Returns the streams that a statement changes: an update those of the rows that meet its condition, before it is
/// carried out.
///
/// # Errors
/// Fails at an update that sets a key beside a stream, and if its rows can't be selected.
pub fn streams_met<'a>(
    alloc: Global,
    package: &Package<Opened>,
    statement: &Statement,
    streams: StatementStreams<'a>,
) -> Result<Vec<RowStream<'a>>, Failure> {
    match (streams, statement) {
        (StatementStreams::OfRows(streams), _) => Ok(streams),
        (StatementStreams::OfUpdate(streams), Statement::Update(update)) => {
            if streams.sets_key {
                return Err(Failure::rule(
                    "a key and a stream of its row are set one after the other",
                ));
            }
            let rows = package.select_rows(updated_rows(update)?)?;
            Ok(streams_of(alloc, rows, &streams)?)
        }
        (StatementStreams::Kept | StatementStreams::OfUpdate(_), _) => Ok(Vec::new(alloc)),
    }
}

fn streams_of<'a>(
    alloc: Global,
    mut rows: Rows<'_>,
    updated: &UpdatedStreams<'a>,
) -> Result<Vec<RowStream<'a>>, AllocError> {
    let mut streams = Vec::new(alloc);
    for _ in 0..rows.len() {
        if let Some(name) = stream_name(alloc, updated.table.as_str(), &rows)? {
            streams.push(RowStream::new(name, updated.file))?;
        }
        rows.advance();
    }
    Ok(streams)
}

/// Gives streams the bytes of their files, and removes those without one.
///
/// # Errors
/// Fails at the first file that can't be read or stored. The streams in front of it are changed.
pub fn fill_streams(
    rt: &System,
    package: &mut Package<Opened>,
    streams: &[RowStream<'_>],
) -> Result<(), Failure> {
    for stream in streams {
        match stream.file() {
            Some(file) => fill_from(rt, package, stream.name(), file)?,
            None => remove_if_there(package, stream.name())?,
        }
    }
    Ok(())
}

/// Stores a file as the stream of a name.
///
/// # Errors
/// Fails if the file can't be read, or the name is none that a stream may have.
pub fn fill_from(
    rt: &System,
    package: &mut Package<Opened>,
    name: &str,
    path: &str,
) -> Result<(), Failure> {
    match rt.read(path) {
        Ok(bytes) => {
            fill_stream(package, name, bytes.as_slice()).map_err(|failure| failure.at(
                rt.alloc(),
                "stream",
                name,
            ))
        }
        Err(error) => Err(Failure::from(error).at(rt.alloc(), "file", path)),
    }
}

fn remove_if_there(package: &mut Package<Opened>, name: &str) -> Result<(), Failure> {
    if package.has_stream(name) {
        package.remove_stream(name)?;
    }
    Ok(())
}
