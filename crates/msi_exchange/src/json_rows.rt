//! Rows as JSON.

ghost use Rattle.std.specs.Prelude.{◌≡◌, ◌++◌, OnOk, OnErr};
ghost use Rattle.json.specs.Tree.{json_tokens};
ghost use Rattle.json.specs.Written.{WritesFront};
ghost use Rattle.msi_exchange.specs.JsonRows.{names_of, object_json, row_json, value_json};

use json::Writer;
use msi_table_values::row::Row;
use msi_table_values::value::Value;
use std::alloc::AllocError;

/// Writes a value: a stream as `true`. If it fails, nothing is written.
///
/// # Errors
/// Fails if memory is refused.
pub fn write_json_value(writer: &mut Writer, value: &Value) -> Result<(), AllocError>
    ensures ok { OnOk result (writer.new.tokens ≡ writer.old.tokens ++ json_tokens (value_json value.now)) }
    ensures err { OnErr result (writer.new.tokens ≡ writer.old.tokens) }
    ensures before { writer.new.before ≡ writer.old.before }
{
    match value {
        Value::Null => writer.null(),
        Value::Int(number) => writer.i64(i64::from(*number)),
        Value::Str(text) => writer.string(text.as_str()),
        Value::Binary => writer.boolean(true),
    }
}

/// Writes a row as a list of its values. If it fails, a part in front may be written.
///
/// # Errors
/// Fails if memory is refused.
pub fn write_json_row(writer: &mut Writer, row: &Row) -> Result<(), AllocError>
    ensures ok { OnOk result (writer.new.tokens ≡ writer.old.tokens ++ json_tokens (row_json row.now.values)) }
    ensures err { OnErr result
        (WritesFront writer.old.tokens writer.new.tokens (json_tokens (row_json row.now.values))) }
    ensures before { writer.new.before ≡ writer.old.before }
{
    writer.begin_array()?;
    for i in 0..row.len() {
        write_json_value(writer, &row[i])?;
    }
    writer.end_array()
}

/// Writes a row as an object: a member for each column, under its name. If it fails, a part in front may be written.
///
/// # Errors
/// Fails if memory is refused.
pub fn write_json_object(writer: &mut Writer, row: &Row) -> Result<(), AllocError>
    ensures ok { OnOk result (writer.new.tokens
        ≡ writer.old.tokens ++ json_tokens (object_json (names_of row.now.columns) row.now.values)) }
    ensures err { OnErr result (WritesFront writer.old.tokens writer.new.tokens
        (json_tokens (object_json (names_of row.now.columns) row.now.values))) }
    ensures before { writer.new.before ≡ writer.old.before }
{
    let columns = row.columns();
    writer.begin_object()?;
    for i in 0..row.len() {
        writer.key(columns[i].name())?;
        write_json_value(writer, &row[i])?;
    }
    writer.end_object()
}
