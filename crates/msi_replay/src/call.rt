//! Calls on a package, and on its borrowed summary and streams, as values.

use msi::transforms::{ErrorConditions, Transform};
use msi::{
    CodePage, Column, Delete, Insert, Items, LanguageId, NumberProperty, Select, SummaryProperty,
    Text, TextProperty, TimeProperty, Timestamp, Update,
};
use std::io::SeekFrom;
use uuid::Uuid;

/// What is set in a summary, and to what.
#[derive(Drop)]
pub enum Setting {
    /// A text.
    Text(TextProperty, Text),
    /// A number.
    Number(NumberProperty, i32),
    /// A time.
    Time(TimeProperty, Timestamp),
    /// The architecture.
    Arch(Text),
    /// The languages.
    Languages(Items<LanguageId>),
    /// The keywords.
    Keywords(Items<String>),
    /// The UUID.
    Uuid(Uuid),
    /// The page in which texts are written.
    Codepage(CodePage),
}

/// A call on a mutably borrowed summary.
#[derive(Drop)]
pub enum SummaryCall {
    /// Asks for a property.
    Ask(SummaryProperty),
    /// Sets a property.
    Set(Setting),
    /// Clears a property.
    Clear(SummaryProperty),
}

/// A call on the reader of a stream.
#[derive(Drop)]
pub enum ReaderCall {
    /// Reads into a buffer of so many bytes.
    Read(usize),
    /// Goes to a place.
    Seek(SeekFrom),
}

/// A call on the writer of a stream.
#[derive(Drop)]
pub enum WriterCall {
    /// Writes a piece.
    Write(Items<u8>),
    /// Goes to a place.
    Seek(SeekFrom),
    /// Hands on what was written.
    Flush,
}

/// A call that only looks at a package, and can't fail.
#[derive(Drop)]
pub enum LookUp {
    /// What the package is for.
    PackageType,
    /// The page in which the database's texts are written.
    DatabaseCodepage,
    /// Whether there is a table of this name.
    HasTable(Text),
    /// The table of this name.
    GetTable(Text),
    /// The tables.
    Tables,
    /// Whether there is a stream of this name.
    HasStream(Text),
    /// The names of the streams.
    Streams,
    /// Whether the package is signed.
    HasDigitalSignature,
}

/// A call that changes a package.
#[derive(Drop)]
pub enum Change {
    /// Makes a table of this name, with these columns.
    CreateTable(Text, Items<Column>),
    /// Inserts rows into a table.
    InsertRows(Insert),
    /// Sets columns in rows of a table.
    UpdateRows(Update),
    /// Takes rows out of a table.
    DeleteRows(Delete),
    /// Takes a table out.
    DropTable(Text),
    /// Adds a column to the table of this name.
    AddColumn(Text, Column),
    /// Applies a transform, where these faults of its records pass.
    ApplyTransform(Transform, ErrorConditions),
    /// Sets the page in which the database's texts are written.
    SetDatabaseCodepage(CodePage),
    /// Removes the stream of this name.
    RemoveStream(Text),
    /// Takes the digital signature out.
    RemoveDigitalSignature,
}

/// A call on a package.
#[derive(Drop)]
pub enum Call {
    /// Looks at the package.
    LookUp(LookUp),
    /// Asks what a query selects.
    SelectRows(Select),
    /// Changes the package.
    Change(Change),
    /// Counts the cells of the database anew.
    Recount,
    /// Asks the summary.
    SummaryInfo(Items<SummaryProperty>),
    /// Makes calls on the summary.
    SummaryInfoMut(Items<SummaryCall>),
    /// Writes a stream of this name.
    WriteStream(Text, Items<WriterCall>),
    /// Reads the stream of this name.
    ReadStream(Text, Items<ReaderCall>),
    /// The bytes that a flush would write over so many.
    Image(u64),
    /// Writes the package to its device.
    Flush,
    /// Whether a call of the device failed.
    DeviceFailed,
}
