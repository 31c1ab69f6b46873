//! Laws of the definitions themselves: each is the contract of a function that does nothing, or only looks at what it
//! is handed.

ghost use Rattle.msi_table_values.specs.Columns.{TypeBitsComeBack};
ghost use Rattle.msi_table_values.specs.Utf8Texts.{AreUtf8Columns, AreUtf8Texts, AreUtf8Values, IsUtf8Column};
ghost use Rattle.msi_table_values.specs.Utf8Texts.{IsUtf8Value};
ghost use Rattle.msi_table_values.specs.Values.{ValuesAreOrdered};
ghost use Rattle.msi_table_values.specs.Row.{IsUtf8Row};

use crate::column::Column;
use crate::row::Row;
use crate::value::Value;
use msi_base::laws::texts_are_utf8;
use msi_base::text::Text;

/// Values have a total order, in which only equal values tie.
pub fn values_are_ordered()
    ensures { ValuesAreOrdered }
{}

/// The bits of a column determine its flags, if its length is below 256, and its type, unless it is a Binary column
/// that is localizable or a key.
pub fn type_bits_come_back()
    ensures { TypeBitsComeBack }
{}

/// The text of a value is UTF-8, where it is one.
pub fn value_texts_are_utf8(value: &Value)
    ensures { IsUtf8Value value.now }
{
    if let Value::Str(text) = value {
        texts_are_utf8(text);
    }
}

/// Each text in a list of values is UTF-8.
pub fn listed_values_are_utf8(values: &[Value])
    ensures { AreUtf8Values values.now }
{
    for value in values {
        value_texts_are_utf8(value);
    }
}

/// Each of a list of texts is UTF-8.
pub fn listed_texts_are_utf8(texts: &[Text])
    ensures { AreUtf8Texts texts.now }
{
    for text in texts {
        texts_are_utf8(text);
    }
}

/// Each text of a column is UTF-8: its name, that of the table that it refers to, and those that it takes.
pub fn column_texts_are_utf8(column: &Column)
    ensures { IsUtf8Column column.now }
{
    let _name = column.name();
    let _key = column.foreign_key();
    if let Some(texts) = column.enum_values() {
        listed_texts_are_utf8(texts);
    }
}

/// Each text of a list of columns is UTF-8.
pub fn listed_columns_are_utf8(columns: &[Column])
    ensures { AreUtf8Columns columns.now }
{
    for column in columns {
        column_texts_are_utf8(column);
    }
}

/// Each text of a row is UTF-8: its values, and those of its columns.
pub fn row_texts_are_utf8(row: &Row)
    ensures { IsUtf8Row row.now }
{
    listed_columns_are_utf8(row.columns());
    listed_values_are_utf8(row.values());
}
