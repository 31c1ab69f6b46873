//! The streams of text archives, each in a file of the folder that has the archive's name without its ending.

use crate::given::{Given, GivenStream, GivenTable};
use crate::places::at_part;
use msi_base::Error;
use msi_table::{ColumnType, Value, ValueView};
use msipkg_format::{Failure, System, path_in, push_key};
use std::alloc::{AllocError, Global};
use std::fs;
use std::path::Path;

/// The archive of the streams that no row of a table has.
pub(crate) const STREAMS: &str = "_Streams";

/// The ending of an archive's path, in whatever case.
const ENDING: &str = ".idt";

/// Returns a row of an archive, with marks in place of the files of its streams, which are read. Fails if a file
/// doesn't lie in the archive's folder.
pub(crate) fn row_with_streams(
    rt: &System,
    archive: &str,
    table: &GivenTable,
    row: &[Value],
    given: &mut Given,
) -> Result<Vec<Value>, Failure> {
    let mut values = Vec::with_capacity(rt.alloc(), row.len())?;
    for i in 0..row.len() {
        let is_stream = take_stream(rt, archive, table, row, i, given)?;
        values.push(value_or_mark(rt.alloc(), &row[i], is_stream)?)?;
    }
    Ok(values)
}

fn value_or_mark(alloc: Global, value: &Value, is_stream: bool) -> Result<Value, Error> {
    if is_stream {
        Ok(Value::Binary)
    } else {
        value.clone(alloc)
    }
}

fn take_stream(
    rt: &System,
    archive: &str,
    table: &GivenTable,
    row: &[Value],
    place: usize,
    given: &mut Given,
) -> Result<bool, Failure> {
    let Some(file) = file_at(table, row, place) else {
        return Ok(false);
    };
    let bytes = match read_file(rt, archive, file) {
        Ok(bytes) => bytes,
        Err(failure) => return Err(at_part(rt.alloc(), failure, archive, "file", file)),
    };
    let name = stream_name(rt.alloc(), table, row)?;
    given.streams.push(GivenStream { name, bytes })?;
    Ok(true)
}

fn file_at<'a>(table: &GivenTable, row: &'a [Value], place: usize) -> Option<&'a str> {
    match table.columns.get(place)?.coltype {
        ColumnType::Binary => row.get(place)?.as_str(),
        _ => None,
    }
}

/// Returns the name of a row's stream: its table and the values of its key, separated by dots. A stream that no row of
/// a table has is named by the key alone.
fn stream_name(alloc: Global, table: &GivenTable, row: &[Value]) -> Result<String, AllocError> {
    let mut name = String::new(alloc);
    if table.name.as_str() != STREAMS {
        name.push_str(table.name.as_str())?;
    }
    for i in 0..row.len().min(table.columns.len()) {
        if table.columns[i].is_key {
            if !name.is_empty() {
                name.push('.')?;
            }
            push_key(ValueView::of(&row[i]), &mut name)?;
        }
    }
    Ok(name)
}

fn read_file(rt: &System, archive: &str, file: &str) -> Result<Vec<u8>, Failure> {
    if !is_file_name(file) {
        return Err(Failure::rule("the archive's folder can't have this file"));
    }
    let end = archive.len().saturating_sub(ENDING.len());
    let folder = archive.get(..end).unwrap_or("");
    let path = path_in(rt.alloc(), folder, file)?;
    read_plain(rt, folder, path.as_str())
}

/// Returns whether a name is that of a file in a folder itself, and leads out of none.
fn is_file_name(name: &str) -> bool {
    Path::new(name).file_name() == Some(name) && !name.contains('\\')
}

/// Reads a file that is no link, in a folder that is none, so that an archive yields no other files of the machine.
fn read_plain(rt: &System, folder: &str, path: &str) -> Result<Vec<u8>, Failure> {
    let is_folder = fs::symlink_metadata(&rt.rt, folder)?.is_dir();
    if !is_folder || !fs::symlink_metadata(&rt.rt, path)?.is_file() {
        return Err(Failure::rule("it is no regular file, or its folder or itself is a link"));
    }
    Ok(rt.read(path)?)
}
