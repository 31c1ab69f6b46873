//! Tables and rows as texts that other programs exchange: IDT archives, CSV and JSON.
//!
//! Text archives of tables (IDT files): the tab-separated texts in which tables of an installer are exported and
//! imported.
//!
//! - `read` returns the `Archive` that a text means, and `write` the text of an archive. What is written reads back as
//!   the same archive. Both take and return text: the bytes of a file are its text in the page that its third line
//!   names, or in ASCII where it names none.
//! - `write_row` writes the line of a row, for a table that isn't held as an `Archive`: it goes behind the text of the
//!   archive without rows.
//! - An `Archive` is what the file says of a table: a page, the table's name, the names of its keys, an `ArchiveColumn`
//!   for each column, and rows of values. It is held to no column's width, to no key and to no rule on null.
//! - In a column of type `Binary`, a value is null or the name of a file with the stream's bytes, as a text.
//! - An `ArchiveError` has the line and the field of the first place that breaks a rule.
//!
//! Rows of tables as lines of CSV and as JSON, and the values that their fields stand for.
//!
//! - `write_csv_row` writes a row as a line of CSV, and `csv_value` returns what a field of CSV stands for.
//! - `write_json_row` writes a row as a list and `write_json_object` as an object, and `json_value` returns what JSON
//!   stands for.
//! - Null is an empty field, and `null` in JSON. A stream's bytes stand outside the table: it is `[stream]`, and `true`
//!   in JSON.
#![tactic(auto)]

pub mod archive;
mod characters;
mod columns;
mod csv_fields;
mod csv_rows;
pub mod errors;
mod fields;
mod json_items;
mod json_rows;
mod keys;
pub mod laws;
mod reading;
mod reasons;
pub mod row_laws;
mod type_fields;
mod writable;
mod writing;

pub use archive::{Archive, ArchiveColumn};
pub use csv_fields::csv_value;
pub use csv_rows::write_csv_row;
pub use errors::{ArchiveError, Place};
pub use json::Writer as JsonWriter;
pub use json_items::json_value;
pub use json_rows::{write_json_object, write_json_row, write_json_value};
pub use reading::read;
pub use writing::{write, write_row};
