//! The values that JSON stands for.

ghost use Rattle.std.specs.Prelude.{◌≡◌, IfOk};
ghost use Rattle.serde_json.specs.View.{view};
ghost use Rattle.msi_base.specs.Results.{OnlyMemory};
ghost use Rattle.msi_exchange.specs.JsonRows.{number_value as number_value_of, value_in};

use msi_base::errors::Error;
use msi_table_values::value::Value;
use serde_json::Value as Json;
use std::alloc::Global;

fn number_value(number: i64) -> Option<Value>
    ensures { result ≡ number_value_of number }
{
    match i32::try_from(number) {
        Ok(number) => Some(Value::Int(number)),
        Err(_) => None,
    }
}

/// Returns the value that JSON stands for: null, a text, a number of 32 bits, or a stream where it is `true`. Nothing
/// else stands for one.
///
/// # Errors
/// Fails with `OutOfMemory`.
pub fn json_value(alloc: Global, item: &Json) -> Result<Option<Value>, Error>
    ensures ok { IfOk result (λ found. found ≡ value_in (view item.now)) }
    ensures kind { OnlyMemory result }
{
    match item {
        Json::Null => Ok(Some(Value::Null)),
        Json::Bool(true) => Ok(Some(Value::Binary)),
        Json::Number(number) => match number.as_i64() {
            Some(number) => Ok(number_value(number)),
            None => Ok(None),
        },
        Json::String(text) => Ok(Some(Value::from_text(alloc, text.as_str())?)),
        _ => Ok(None),
    }
}
