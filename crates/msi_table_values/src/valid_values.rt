//! Which values a column takes.

ghost use Rattle.std.specs.Prelude.{◌≡◌};
ghost use Rattle.msi_table_values.specs.ValidValues.{fits_type, is_in_value_range, is_of_category, is_of_values};
ghost use Rattle.msi_table_values.specs.ValidValues.{is_valid_value};
ghost use Rattle.msi_table_values.specs.declared.value.Value.TheVariants as value_of;

use crate::column::{Column, ColumnType};
use crate::value::Value;
use msi_base::text::Text;
use msi_categories::category::Category;

impl Column {
    /// Returns whether a value may stand in the column (MSI SDK, "_Validation table").
    ///
    /// - Null may where the column is nullable and isn't Binary.
    /// - A number may where it is of the column's width, and in the range, if one is set. The least number of a width
    ///   may not, since its cell would read as null.
    /// - A text may in a column of strings, where the category accepts it, it is one of the listed texts, if there
    ///   are some, and it has at most as many characters as the column says, unless that is 0.
    /// - Binary may in a Binary column.
    pub fn is_valid_value(&self, value: &Value) -> bool
        ensures { result ≡ is_valid_value self.now value.now }
    {
        match value {
            Value::Null => self.is_nullable() && !holds_streams(self.coltype()),
            Value::Int(number) => {
                fits_number(self.coltype(), *number)
                    && is_in_value_range(self.value_range(), *number)
            }
            Value::Str(text) => {
                fits_text(self.coltype(), text.as_str())
                    && is_of_category(self.category(), text.as_str())
                    && is_of_values(self, text)
            }
            Value::Binary => holds_streams(self.coltype()),
        }
    }
}

/// Returns whether a column's cells stand for streams.
pub fn holds_streams(coltype: ColumnType) -> bool
    ensures { result ≡ fits_type coltype value_of.Binary }
{
    matches!(coltype, ColumnType::Binary)
}

/// Returns whether a number is of the width of a column's numbers, and not the least, whose cell would read as null.
pub fn fits_number(coltype: ColumnType, number: i32) -> bool
    ensures { result ≡ fits_type coltype (value_of.Int number) }
{
    match coltype {
        ColumnType::Int16 => -32767 <= number && number <= 32767,
        ColumnType::Int32 => -2147483647 <= number,
        ColumnType::Str(_) | ColumnType::Binary => false,
    }
}

/// Whether a text has at most as many characters as a column's texts.
fn fits_text(coltype: ColumnType, text: &str) -> bool
    ensures { result ≡ fits_type coltype (value_of.Str text.now) }
{
    match coltype {
        ColumnType::Str(length) => length == 0 || text.chars().count() <= length,
        ColumnType::Int16 | ColumnType::Int32 | ColumnType::Binary => false,
    }
}

fn is_in_value_range(range: Option<(i32, i32)>, number: i32) -> bool
    ensures { result ≡ is_in_value_range range number }
{
    match range {
        Some((least, greatest)) => least <= number && number <= greatest,
        None => true,
    }
}

fn is_of_category(category: Option<Category>, text: &str) -> bool
    ensures { result ≡ is_of_category category text.now }
{
    match category {
        Some(category) => category.validate(text),
        None => true,
    }
}

fn is_of_values(column: &Column, text: &Text) -> bool
    ensures { result ≡ is_of_values column.now.enum_values text.now }
{
    match column.enum_values() {
        Some(listed) => listed.iter().any(|one| text == one),
        None => true,
    }
}
