//! Rows as lines of CSV.

ghost use Rattle.std.specs.Prelude.{◌≡◌, ◌≢◌, ◌==◌, ◌++◌, ◌+◌, ◌-◌, ◌^◌, false, true, not, min, length, OnOk, IfErr};
ghost use Rattle.std.specs.Prelude.{IfSome, Some};
ghost use Rattle.std.specs.Io.KnownBytes.{Appends};
ghost use Rattle.csv.specs.Reading.{Refused};
ghost use Rattle.csv.specs.Writing.{field_text, fields_written, first_length, has_written, next_sep, text_written};
ghost use Rattle.csv.specs.Writing.{writer_setup};
ghost use Rattle.csv.specs.declared.writer.QuoteStyle.TheVariants.{NonNumeric};
ghost use Rattle.msi_exchange.specs.CsvRows.{csv_line, value_field};

use csv::{Error, Writer};
use itoa::Buffer;
use msi_table_values::row::Row;
use msi_table_values::value::Value;
use std::io::Write;

fn write_csv_value<W: Write + Drop>(writer: &mut Writer<W>, value: &Value) -> Result<(), Error>
    ensures text { OnOk result ((writer_setup writer.old).style ≢ NonNumeric
        → Appends (text_written W.contents writer.old) (text_written W.contents writer.new)
        (next_sep (writer_setup writer.old) (fields_written writer.old)
        ++ field_text (writer_setup writer.old) (value_field value.now))) }
    ensures setup { OnOk result (writer_setup writer.new ≡ writer_setup writer.old) }
    ensures fields { OnOk result (fields_written writer.new ≡ min (fields_written writer.old + 1) (2 ^ 64 - 1)) }
    ensures wrote { OnOk result (has_written writer.old ≡ false → (writer_setup writer.old).style ≢ NonNumeric
        → has_written writer.new ≡ not (length (field_text (writer_setup writer.old) (value_field value.now)) == 0)) }
    ensures stays { OnOk result (has_written writer.old ≡ true → has_written writer.new ≡ true) }
    ensures first { first_length writer.new ≡ first_length writer.old }
    ensures refused { IfErr result (λ e. Refused e) }
{
    match value {
        Value::Null => writer.write_field(b""),
        Value::Int(number) => {
            let mut buffer = Buffer::new();
            writer.write_field(buffer.format(*number).as_bytes())
        }
        Value::Str(text) => writer.write_field(text.as_str().as_bytes()),
        Value::Binary => writer.write_field(b"[stream]"),
    }
}

/// Writes a row as a line of CSV, as the writer is set up, where no line is begun. A number is written in decimal, null
/// as an empty field, and a stream as `[stream]`. No memory is allocated.
///
/// # Errors
/// Fails if the output does, or if the row has another length than the first line, unless the writer is set up as
/// flexible.
pub fn write_csv_row<W: Write + Drop>(writer: &mut Writer<W>, row: &Row) -> Result<(), Error>
    ensures bytes { OnOk result (fields_written writer.old ≡ 0 → has_written writer.old ≡ false
        → (writer_setup writer.old).style ≢ NonNumeric
        → Appends (text_written W.contents writer.old) (text_written W.contents writer.new)
        (csv_line (writer_setup writer.old) row.now.values)) }
    ensures ended { OnOk result (fields_written writer.new ≡ 0) }
    ensures clean { OnOk result (has_written writer.new ≡ false) }
    ensures setup { OnOk result (writer_setup writer.new ≡ writer_setup writer.old) }
    ensures lengths { OnOk result (fields_written writer.old ≡ 0 → (writer_setup writer.old).flexible ≡ false
        → IfSome (first_length writer.old) (λ first. length row.now.values ≡ first)) }
    ensures noted { OnOk result (fields_written writer.old ≡ 0 → (writer_setup writer.old).flexible ≡ false
        → first_length writer.new ≡ Some (length row.now.values)) }
    ensures refused { IfErr result (λ e. Refused e) }
{
    for i in 0..row.len() {
        write_csv_value(writer, &row[i])?;
    }
    writer.end_record()
}
