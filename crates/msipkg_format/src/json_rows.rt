//! The JSON of rows.

use crate::nulls::NullCells;
use crate::{Style, write_text};
use msi_exchange::{JsonWriter, write_json_object, write_json_row, write_json_value};
use msi_table::{Row, Value};
use msipkg_system::Output;
use std::alloc::{AllocError, Global};
use std::str;

/// The JSON of a row. The rows of a query are written to the same memory, one after another.
pub struct JsonRow {
    bytes: Vec<u8>,
}

/// Written out, so that a function that owns one calls one drop, and its proof doesn't go through those of the parts.
impl Drop for JsonRow {
    fn drop(self) {
        let JsonRow { bytes: _ } = self;
    }
}

impl JsonRow {
    /// Returns the memory for rows, in which none is yet.
    pub fn new(alloc: Global) -> JsonRow {
        JsonRow {
            bytes: Vec::new(alloc),
        }
    }

    /// Returns the JSON of a row as an object, in the place of what was there.
    ///
    /// # Errors
    /// Fails if memory is refused.
    pub fn object(self, row: &Row) -> Result<JsonRow, AllocError> {
        let mut writer = self.emptied();
        write_json_object(&mut writer, row)?;
        Ok(JsonRow {
            bytes: writer.into_inner(),
        })
    }

    /// Returns the JSON of the row of a number as a list, in the place of what was there. Of a cell among `nulls` it is
    /// null.
    ///
    /// # Errors
    /// Fails if memory is refused.
    pub fn list(self, row: &Row, number: usize, nulls: &NullCells) -> Result<JsonRow, AllocError> {
        let mut writer = self.emptied();
        if nulls.is_empty() {
            write_json_row(&mut writer, row)?;
        } else {
            write_list(&mut writer, row, number, nulls)?;
        }
        Ok(JsonRow {
            bytes: writer.into_inner(),
        })
    }

    /// Writes the JSON as `write_text` does.
    pub fn print(&self, style: Style, output: &mut Output) {
        let bytes = self.bytes.as_slice();
        if !style.escapes_hidden() {
            output.push_bytes(bytes);
        } else if let Ok(text) = str::from_utf8(bytes) {
            // What a writer has written is a text.
            write_text(style, text, output);
        }
    }

    /// Returns a writer to the same memory.
    fn emptied(self) -> JsonWriter {
        let JsonRow { mut bytes } = self;
        bytes.clear();
        JsonWriter::new(bytes)
    }
}

fn write_list(
    writer: &mut JsonWriter,
    row: &Row,
    number: usize,
    nulls: &NullCells,
) -> Result<(), AllocError> {
    writer.begin_array()?;
    for place in 0..row.len() {
        if nulls.has(number, place) {
            write_json_value(writer, &Value::Null)?;
        } else {
            write_json_value(writer, &row[place])?;
        }
    }
    writer.end_array()
}
