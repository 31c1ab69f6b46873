//! The results of calls, as values.

use msi::{
    CodePage, Column, ErrorKind, Items, LanguageId, PackageType, Row, Table, Text, Timestamp,
};
use uuid::Uuid;

/// The result of a call on a summary.
#[derive(Drop)]
pub enum SummaryAnswer {
    /// It was done.
    Done,
    /// A text, if it is there.
    Text(Option<Text>),
    /// A number, if it is there.
    Number(Option<i32>),
    /// A time, if it is there.
    Time(Option<Timestamp>),
    /// The languages.
    Languages(Items<LanguageId>),
    /// The keywords.
    Keywords(Items<String>),
    /// The UUID, if it is there.
    Uuid(Option<Uuid>),
    /// The page in which texts are written.
    Codepage(CodePage),
}

/// The result of a call on a reader or a writer.
#[derive(Drop)]
pub enum StreamAnswer {
    /// It was done.
    Done,
    /// Bytes that were read.
    Bytes(Items<u8>),
    /// How many bytes were written, or the place that was gone to.
    Place(u64),
}

/// The result of a call on a package.
#[derive(Drop)]
pub enum Answer {
    /// It was done.
    Done,
    /// What the package is for.
    Kind(PackageType),
    /// The page in which the database's texts are written.
    Codepage(CodePage),
    /// Whether it is so.
    Flag(bool),
    /// How many.
    Count(u32),
    /// A table, if it is there.
    Table(Option<Table>),
    /// Tables.
    Tables(Items<Table>),
    /// Names of streams.
    Names(Items<Text>),
    /// Columns, and rows of their values.
    Rows(Items<Column>, Items<Row>),
    /// Bytes.
    Bytes(Items<u8>),
    /// The results of calls on the summary, in order.
    Summary(Items<Result<SummaryAnswer, ErrorKind>>),
    /// The results of calls on a stream's reader or writer, in order.
    Stream(Items<Result<StreamAnswer, ErrorKind>>),
}
