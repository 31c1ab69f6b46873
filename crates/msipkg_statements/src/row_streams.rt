//! What statements give to the streams of rows. A cell of a column of streams doesn't record whether there is a stream:
//! the package has one of the row's name, or it hasn't.

use msipkg_packages::has_null_streams;
use msipkg_packages::msi::{Column, ColumnType, Value};

/// The files of the streams that a statement spells, in order, as far as they are given.
#[derive(Drop)]
pub(crate) struct GivenFiles<'a, 'b> {
    left: &'a [Option<&'b str>],
}

impl<'a, 'b> GivenFiles<'a, 'b> {
    pub(crate) fn new(files: &'a [Option<&'b str>]) -> GivenFiles<'a, 'b> {
        GivenFiles { left: files }
    }

    fn take(&mut self) -> Option<&'b str> {
        match self.left {
            [file, others @ ..] => {
                self.left = others;
                *file
            }
            [] => None,
        }
    }
}

/// What a statement gives to the stream of a row.
#[derive(Clone, Copy)]
pub enum GivenStream<'a> {
    Nothing,
    /// The row has no stream.
    Null,
    /// It has the one that the package has, if it has one.
    AsItIs,
    /// It has the bytes of this file.
    File(&'a str),
}

impl<'a> GivenStream<'a> {
    /// Returns what is given by two columns of a row, whose stream is one and the same.
    pub(crate) fn and(self, other: GivenStream<'a>) -> GivenStream<'a> {
        match (self, other) {
            (GivenStream::Nothing, _) | (GivenStream::Null, GivenStream::AsItIs) => other,
            (_, GivenStream::File(_)) => other,
            (GivenStream::Null | GivenStream::AsItIs | GivenStream::File(_), _) => self,
        }
    }

    pub(crate) fn file(self) -> Option<&'a str> {
        match self {
            GivenStream::File(file) => Some(file),
            GivenStream::Nothing | GivenStream::Null | GivenStream::AsItIs => None,
        }
    }
}

/// Returns what a value gives to the stream of its row.
pub(crate) fn given_stream<'a>(
    column: &Column,
    value: &Value,
    files: &mut GivenFiles<'_, 'a>,
) -> GivenStream<'a> {
    match (column.coltype(), value) {
        (_, Value::Binary) => match files.take() {
            Some(file) => GivenStream::File(file),
            None => GivenStream::AsItIs,
        },
        (ColumnType::Binary, Value::Null) if has_null_streams(column) => GivenStream::Null,
        (_, Value::Null | Value::Int(_) | Value::Str(_)) => GivenStream::Nothing,
    }
}

/// The stream of a row, and the file whose bytes it gets. Without one it is removed.
pub struct RowStream<'a> {
    name: String,
    file: Option<&'a str>,
}

/// Written out, so that a function that owns one calls one drop, and its proof doesn't go through those of the parts.
impl Drop for RowStream<'_> {
    fn drop(self) {
        let RowStream { name: _, file: _ } = self;
    }
}

impl<'a> RowStream<'a> {
    pub fn new(name: String, file: Option<&'a str>) -> RowStream<'a> {
        RowStream { name, file }
    }

    pub fn name(&self) -> &str {
        self.name.as_str()
    }

    pub fn file(&self) -> Option<&'a str> {
        self.file
    }
}

/// What becomes of the streams of the rows of a statement.
#[derive(Drop)]
pub enum StatementStreams<'a> {
    /// They stay as they are.
    Kept,
    /// These change.
    OfRows(Vec<RowStream<'a>>),
    /// Those of the rows that it updates.
    OfUpdate(UpdatedStreams<'a>),
}

/// The streams of the rows that an update changes: they get the bytes of a file, or are removed without one.
pub struct UpdatedStreams<'a> {
    pub table: String,
    pub file: Option<&'a str>,
    /// Whether it also sets a key, by which streams are named.
    pub sets_key: bool,
}

/// Written out, so that a function that owns one calls one drop, and its proof doesn't go through those of the parts.
impl Drop for UpdatedStreams<'_> {
    fn drop(self) {
        let UpdatedStreams {
            table: _,
            file: _,
            sets_key: _,
        } = self;
    }
}
