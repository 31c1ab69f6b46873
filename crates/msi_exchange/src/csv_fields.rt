//! The values that fields of CSV stand for.

ghost use Rattle.std.specs.Prelude.{◌≡◌, IfOk};
ghost use Rattle.msi_base.specs.Results.{OnlyMemory};
ghost use Rattle.msi_exchange.specs.CsvRows.{field_value, plain_in};
ghost use Rattle.msi_exchange.specs.Fields.{number_in};

use msi_base::errors::Error;
use msi_table_values::column::ColumnType;
use msi_table_values::value::Value;
use std::alloc::Global;

fn number_of(field: &str) -> Option<i32>
    ensures { result ≡ number_in field.now }
{
    match field.parse::<i32>() {
        Ok(number) => Some(number),
        Err(_) => None,
    }
}

/// Returns the value of a field in a column of a type, if it is neither null nor a text.
fn plain_value(coltype: ColumnType, field: &str) -> Option<Value>
    ensures { result ≡ plain_in coltype field.now }
{
    match coltype {
        ColumnType::Int16 | ColumnType::Int32 => match number_of(field) {
            Some(number) => Some(Value::Int(number)),
            None => None,
        },
        ColumnType::Binary if field == "[stream]" => Some(Value::Binary),
        ColumnType::Str(_) | ColumnType::Binary => None,
    }
}

/// Returns the value that a field stands for in a column of a type. An empty field stands for null. In a column of
/// numbers, a number of 32 bits in decimal stands for itself, also behind a sign; in a column of streams, `[stream]`
/// stands for a stream. All else is a text, which the column may refuse.
///
/// # Errors
/// Fails with `OutOfMemory`.
pub fn csv_value(alloc: Global, coltype: ColumnType, field: &str) -> Result<Value, Error>
    ensures ok { IfOk result (λ value. value ≡ field_value coltype field.now) }
    ensures kind { OnlyMemory result }
{
    if field.is_empty() {
        return Ok(Value::Null);
    }
    match plain_value(coltype, field) {
        Some(value) => Ok(value),
        None => Value::from_text(alloc, field),
    }
}
