//! Fields of a text archive, and what they mean.

ghost use Rattle.std.specs.Prelude.{◌≡◌, IfOk, map};
ghost use Rattle.msi_base.specs.Results.{Gives};
ghost use Rattle.msi_exchange.specs.Fields.{fields, header_fields as header_fields_in, filled_in, number_in};
ghost use Rattle.msi_exchange.specs.Fields.{text_in, value_in};
ghost use Rattle.msi_exchange.specs.Places.{Gives as GivesAt, Placed, unless_read};
ghost use Rattle.msi_exchange.specs.Reading.{cell_in};

use crate::archive::ArchiveColumn;
use crate::characters::{has_control, swapped_text};
use crate::errors::{ArchiveError, Place, at};
use crate::reasons;
use msi_base::errors::{Error, ErrorKind};
use msi_base::text::Text;
use msi_table_values::column::ColumnType;
use msi_table_values::value::Value;
use std::alloc::{AllocError, Global};

pub(crate) fn fields_of<'a>(alloc: Global, line: &'a str) -> Result<Vec<&'a str>, AllocError>
    ensures { IfOk result (λ parts. map (λ part. part.now) parts.items ≡ fields line.now) }
{
    line.split('\t').collect(alloc)
}

pub(crate) fn header_fields<'a>(alloc: Global, line: &'a str) -> Result<Vec<&'a str>, AllocError>
    ensures { IfOk result (λ parts. map (λ part. part.now) parts.items ≡ header_fields_in line.now) }
{
    if line.is_empty() {
        return Ok(Vec::new(alloc));
    }
    fields_of(alloc, line)
}

fn text_of(alloc: Global, field: &str) -> Result<Text, Error>
    ensures { Gives (λ text. text) result (text_in field.now) }
{
    if field.is_empty() || has_control(field) {
        return Err(Error::new(ErrorKind::InvalidData, reasons::TEXT_FIELD));
    }
    Ok(Text::from_string(swapped_text(alloc, field)?))
}

pub(crate) fn text_at(alloc: Global, place: Place, field: &str) -> Result<Text, ArchiveError>
    ensures value { GivesAt (λ text. text) result (text_in field.now) }
    ensures place { Placed result (unless_read (text_in field.now) place) }
{
    at(place, text_of(alloc, field))
}

fn number_of(field: &str) -> Result<i32, Error>
    ensures { Gives (λ number. number) result (number_in field.now) }
{
    match field.parse::<i32>() {
        Ok(number) => Ok(number),
        Err(_) => Err(Error::new(ErrorKind::InvalidData, reasons::NUMBER_FIELD)),
    }
}

/// Returns the value of a field that isn't empty.
fn filled_value(alloc: Global, coltype: ColumnType, field: &str) -> Result<Value, Error>
    ensures { Gives (λ value. value) result (filled_in coltype field.now) }
{
    match coltype {
        ColumnType::Int16 | ColumnType::Int32 => Ok(Value::Int(number_of(field)?)),
        ColumnType::Str(_) | ColumnType::Binary => Ok(Value::Str(text_of(alloc, field)?)),
    }
}

fn value_of(alloc: Global, coltype: ColumnType, field: &str) -> Result<Value, Error>
    ensures { Gives (λ value. value) result (value_in coltype field.now) }
{
    if field.is_empty() {
        return Ok(Value::Null);
    }
    filled_value(alloc, coltype, field)
}

#[tactic(auto, unfolding(crate::specs::Reading::cell_in))]
pub(crate) fn cell_at(
    alloc: Global,
    place: Place,
    column: &ArchiveColumn,
    field: &str,
) -> Result<Value, ArchiveError>
    ensures value { GivesAt (λ value. value) result (cell_in column.now field.now) }
    ensures place { Placed result (unless_read (cell_in column.now field.now) place) }
{
    at(place, value_of(alloc, column.coltype(), field))
}
