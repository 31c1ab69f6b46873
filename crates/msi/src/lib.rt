//! Reads, queries, changes and writes Windows Installer packages: a database, a summary and streams in one file.
//!
//! A [`Package`] is opened from a [`Source`] or created over a [`Device`]. Changes stay in memory until
//! [`Package::flush`] writes the file anew. `docs/GUIDE.md` shows the tasks of a user, each with its code.
#![tactic(auto)]

pub mod changes;
pub mod compound;
mod creating;
pub mod files;
mod flushing;
mod imaging;
pub mod kinds;
pub mod laws;
pub mod listing;
mod opening;
pub mod package;
pub mod parts;
pub mod reasons;
pub mod recounting;
mod renewing;
pub mod streams;
mod transform_making;
pub mod transforms;
pub mod uuids;
mod writable;

pub use files::{open, open_rw};
pub use kinds::PackageType;
pub use listing::Tables;
pub use msi_base::{CodePage, Error, ErrorKind, IntoText, Items, Reason, Text};
pub use msi_categories::{Category, LanguageId, Timestamp};
pub use msi_container_device::{Buffered, Device, Memory, Metered, Seekable, Source};
pub use msi_container_format::streamname;
pub use msi_database::Database;
pub use msi_pool::{
    IndexedPool, Operations, StringPool, StringPoolBuilder, StringRef, pool_streams,
};
pub use msi_query::{Delete, Expr, Insert, Select, Update};
pub use msi_query_parse::{Expected, Parse, ParseError, Refused, Statement};
pub use msi_streams::{OpenStream, StreamReader, StreamWriter, Streams, faults, names};
pub use msi_summary::{
    NumberProperty, OperatingSystem, PropertySet, PropertyText, PropertyValue, SummaryInfo,
    SummaryProperty, TextProperty, TimeProperty,
};
pub use msi_table::{
    Column, ColumnBuilder, ColumnType, Row, Rows, Table, Value, ValueRef, ValueView,
};
pub use package::Package;
pub use uuids::{FromUuid, HasUuid};
