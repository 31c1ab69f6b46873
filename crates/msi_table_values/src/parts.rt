//! What the crates above need beyond the surface.

ghost use Rattle.std.specs.Prelude.{◌≡◌, ◌<◌, ◌≤◌, ◌↔◌, IfOk, IfErr, IsErr, Some, None, true, is_some, length};
ghost use Rattle.std.specs.Prelude.{option_copied};
ghost use Rattle.msi_base.specs.Results.{OnlyMemory};
ghost use Rattle.msi_base.specs.declared.errors.ErrorKind.TheVariants.{InvalidData};
ghost use Rattle.msi_table_values.specs.Columns.{HasShortLength, bit_if as number_if, column_of_bits as column_in};
ghost use Rattle.msi_table_values.specs.Columns.{has_bit as is_set, is_of_category_binary as is_binary};
ghost use Rattle.msi_table_values.specs.Columns.{kind_bits as bits_of_kind, type_bits as bits_of};
ghost use Rattle.msi_table_values.specs.Columns.{type_of_bits as type_in, has_column as has_one};
ghost use Rattle.msi_table_values.specs.Row.{value_named as value_in_row};

use crate::column::{Column, ColumnBuilder, ColumnType};
pub use crate::columns::{column_index, copied_columns, has_column};
use crate::reasons;
use crate::row::Row;
pub use crate::shared_texts::SharedTexts;
pub use crate::texts::copied_list;
pub use crate::valid_values::{fits_number, holds_streams};
use crate::value::Value;
pub use crate::views::ValueView;
use msi_base::errors::{Error, ErrorKind};
use msi_base::text::{IntoText, Items};
use std::alloc::Global;
use std::rc::Rc;

fn kind_bits(coltype: ColumnType) -> u16
    requires { HasShortLength coltype }
    ensures value { result ≡ bits_of_kind coltype }
    ensures small { result ≤ 0xDFF }
{
    match coltype {
        ColumnType::Int16 => 0x502,
        ColumnType::Int32 => 0x104,
        ColumnType::Str(length) => 0xD00 + length as u16,
        ColumnType::Binary => 0x900,
    }
}

fn bit_if(flag: bool, number: u16) -> u16
    ensures { result ≡ number_if flag number }
{
    if flag { number } else { 0 }
}

/// Returns the bits of a column's type and flags (MSI SDK, "_Columns table"). The length of its texts has to be below
/// 256.
pub fn type_bits(column: &Column) -> u16
    requires { HasShortLength column.now.coltype }
    ensures { result ≡ bits_of column.now }
{
    kind_bits(column.coltype())
        + bit_if(column.is_localizable(), 0x200)
        + bit_if(column.is_nullable(), 0x1000)
        + bit_if(column.is_primary_key(), 0x2000)
}

fn has_bit(bits: u16, mask: u16) -> bool
    requires { 0 < mask }
    ensures { result ≡ is_set bits mask }
{
    bits / mask % 2 == 1
}

/// Returns the type that bits name (MSI SDK, "_Columns table"), whether or not a column could have been written with
/// them. Fails with `InvalidData` if they name none.
fn type_of_bits(bits: u16) -> Result<ColumnType, Error>
    ensures ok { IfOk result (λ coltype. type_in bits ≡ Some coltype) }
    ensures refused { IsErr result ↔ (type_in bits ≡ None) }
    ensures kind { IfErr result (λ kind. kind ≡ InvalidData) }
{
    if bits == 0x900 || bits == 0x1900 {
        return Ok(ColumnType::Binary);
    }
    if has_bit(bits, 0x800) {
        return Ok(ColumnType::Str((bits % 256) as usize));
    }
    let size = bits % 256;
    if size == 4 {
        return Ok(if has_bit(bits, 0x400) {
            ColumnType::Binary
        } else {
            ColumnType::Int32
        });
    }
    if size <= 2 {
        return Ok(ColumnType::Int16);
    }
    Err(Error::new(ErrorKind::InvalidData, reasons::TYPE_BITS))
}

/// Ends a builder with the type and the flags that bits name: the column is nullable by them or as the builder left
/// it.
///
/// # Errors
/// Fails with `InvalidData` if they name no type.
pub fn column_of_bits(builder: ColumnBuilder, bits: u16) -> Result<Column, Error>
    ensures ok { IfOk result (λ column. column_in builder bits ≡ Some column) }
    ensures refused { IsErr result ↔ (column_in builder bits ≡ None) }
    ensures kind { IfErr result (λ kind. kind ≡ InvalidData) }
{
    let coltype = type_of_bits(bits)?;
    Ok(builder.with_flags(
        coltype,
        has_bit(bits, 0x200),
        has_bit(bits, 0x1000),
        has_bit(bits, 0x2000),
    ))
}

/// Lets a builder's column take these texts alone, which it shares with others that take them.
pub fn with_shared_values(builder: ColumnBuilder, texts: SharedTexts) -> ColumnBuilder
    ensures { result ≡ record builder { enum_values = texts } }
{
    builder.shared_values(texts)
}

/// Returns a copy of a column under another name.
///
/// # Errors
/// Fails with `OutOfMemory`.
pub fn renamed<S: IntoText>(alloc: Global, column: &Column, name: S) -> Result<Column, Error>
    ensures ok { IfOk result (λ renamed. renamed ≡ record column.now { name = S.text name }) }
    ensures kind { OnlyMemory result }
{
    column.renamed(name.into_shared(alloc)?)
}

/// Returns a column that takes null, and else is as it was.
pub fn nullable(column: Column) -> Column
    ensures { result ≡ record column { is_nullable = true } }
{
    column.nullable()
}

/// Returns whether the column's cells stand for streams, which have no order.
pub fn is_of_category_binary(column: &Column) -> bool
    ensures { result ≡ is_binary column.now.category }
{
    column.is_of_category_binary()
}

/// Returns the value of the column of a name in a row, unless the row has no such column; of a repeated name the
/// first.
pub fn value_named<'a>(row: &'a Row, name: &str) -> Option<&'a Value>
    ensures value { option_copied result ≡ value_in_row name.now row.now }
    ensures found { is_some result ≡ has_one name.now row.now.columns }
{
    row.value_named(name)
}

/// Returns a row of a value for each column. It has to have as many values as columns.
pub fn row(columns: Rc<Items<Column>>, values: Items<Value>) -> Row
    requires { length values ≡ length columns.value }
    ensures { result ≡ record { columns = columns.value; values = values } }
{
    Row::new(columns, values)
}
