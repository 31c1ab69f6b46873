//! The cells of records, and their bytes.

ghost use Rattle.std.specs.Prelude.{◌≡◌, ◌<◌, ◌≤◌, ◌+◌, ◌++◌, ◌^◌, ◌+ℤ◌, length, OnOk, pos};
ghost use Rattle.std.specs.Int.{cast_unsigned, w16};
ghost use Rattle.msi_base.specs.Results.{OnlyMemory};
ghost use Rattle.msi_base.specs.declared.errors.ErrorKind.TheVariants.{InvalidData};
ghost use Rattle.msi_table.specs.Cells.{cell_of_number, width as width_of};
ghost use Rattle.msi_transform_records.specs.Cells.{bytes_of_cell, cell_at, cell_of_bytes, number_of_cell};
ghost use Rattle.msi_transform_records.specs.Cells.{stream_cell as cell_of_streams, text_cell as cell_of_texts};
ghost use Rattle.msi_transform_records.specs.Reading.{Reads};

use crate::reasons;
use msi_base::errors::{Error, ErrorKind, Reason};
use msi_base::parts::number_of;
use msi_pool::parts::{place_number, string_ref};
use msi_pool::stringpool::StringPool;
use msi_table_cells::cell::ValueRef;
use msi_table_values::column::ColumnType;

pub(crate) fn invalid(reason: Reason) -> Error
    ensures { result ≡ InvalidData }
{
    Error::new(ErrorKind::InvalidData, reason)
}

fn width(long: bool, coltype: ColumnType) -> usize
    ensures value { result ≡ width_of long coltype }
    ensures least { 2 ≤ result }
    ensures most { result ≤ 4 }
{
    match coltype {
        ColumnType::Int16 | ColumnType::Binary => 2,
        ColumnType::Int32 => 4,
        ColumnType::Str(_) => { if long { 3 } else { 2 } }
    }
}

fn number_cell(middle: u32, number: u64) -> ValueRef
    requires inside { middle ≤ 2 ^ 31 }
    requires narrow { number < 2 ^ 31 + middle }
    ensures { result ≡ cell_of_number middle number }
{
    if number == 0 {
        return ValueRef::Null;
    }
    ValueRef::Int((number as i64 - middle as i64) as i32)
}

fn text_cell(pool: &StringPool, number: u32) -> Result<ValueRef, Error>
    requires { number < 2 ^ 24 }
    ensures { Reads (λ cell. cell) result (cell_of_texts pool.now.places number) }
{
    if number == 0 {
        return Ok(ValueRef::Null);
    }
    let reference = string_ref(number);
    if pool.refcount(reference) == 0 {
        return Err(invalid(if number > pool.num_strings() {
            reasons::TEXT_UNKNOWN
        } else {
            reasons::TEXT_FREE
        }));
    }
    Ok(ValueRef::Str(reference))
}

fn stream_cell(number: u64) -> Result<ValueRef, Error>
    ensures { Reads (λ cell. cell) result (cell_of_streams number) }
{
    match number {
        0 => Ok(ValueRef::Null),
        1 => Ok(ValueRef::Binary),
        _ => Err(invalid(reasons::STREAM_CELL)),
    }
}

fn cell_of(pool: &StringPool, coltype: ColumnType, bytes: &[u8]) -> Result<ValueRef, Error>
    requires { length bytes.now ≡ width_of pool.now.long coltype }
    ensures { Reads (λ cell. cell) result (cell_of_bytes pool.now.places coltype bytes.now) }
{
    match coltype {
        ColumnType::Int16 => Ok(number_cell(0x8000, number_of(bytes))),
        ColumnType::Int32 => Ok(number_cell(0x8000_0000, number_of(bytes))),
        ColumnType::Str(_) => text_cell(pool, number_of(bytes) as u32),
        ColumnType::Binary => stream_cell(number_of(bytes)),
    }
}

/// Returns the cell of a column that stands in front, and the bytes after it. Fails with `InvalidData` if the bytes end
/// before it does, or are those of no cell.
#[tactic(auto, unfolding(crate::specs::Cells::cell_at))]
pub(crate) fn read_cell<'a>(
    pool: &StringPool,
    coltype: ColumnType,
    bytes: &'a [u8],
) -> Result<(ValueRef, &'a [u8]), Error>
    ensures { Reads (λ x. (x.0, x.1.now)) result (cell_at pool.now coltype bytes.now) }
{
    let width = width(pool.long_string_refs(), coltype);
    if bytes.len() < width {
        return Err(invalid(reasons::RECORD_CUT));
    }
    let (piece, rest) = bytes.split_at(width);
    let cell = cell_of(pool, coltype, piece)?;
    Ok((cell, rest))
}

/// Returns the number whose bytes a number takes in a column of short ones. Those that are far too low for it take 0.
fn short_number(number: i32) -> u32
    ensures { result ≡ cast_unsigned w16 (number +ℤ pos (2 ^ 15)) }
{
    let number = number as i64 + 0x8000;
    if number >= 0 {
        return number as u32;
    }
    if number < -0x10000 {
        return 0;
    }
    (number + 0x10000) as u32
}

/// Returns the number whose bytes a cell takes.
fn number_for(coltype: ColumnType, cell: ValueRef) -> u32
    ensures { result ≡ number_of_cell coltype cell }
{
    match coltype {
        ColumnType::Int16 => match cell {
            ValueRef::Int(number) => short_number(number),
            ValueRef::Null | ValueRef::Str(_) | ValueRef::Binary => 0,
        },
        ColumnType::Int32 => match cell {
            ValueRef::Int(number) => (number as i64 + 0x8000_0000) as u32,
            ValueRef::Null | ValueRef::Str(_) | ValueRef::Binary => 0,
        },
        ColumnType::Str(_) => match cell {
            ValueRef::Str(place) => place_number(place),
            ValueRef::Null | ValueRef::Int(_) | ValueRef::Binary => 0,
        },
        ColumnType::Binary => match cell {
            ValueRef::Null => 0,
            ValueRef::Int(_) | ValueRef::Str(_) | ValueRef::Binary => 1,
        },
    }
}

/// Appends the bytes of a cell.
pub(crate) fn push_cell(
    bytes: &mut Vec<u8>,
    long: bool,
    coltype: ColumnType,
    cell: ValueRef,
) -> Result<(), Error>
    ensures ok { OnOk result (bytes.new.items ≡ bytes.old.items ++ bytes_of_cell long coltype cell) }
    ensures kind { OnlyMemory result }
{
    let number = number_for(coltype, cell).to_le_bytes();
    bytes.extend_from_slice(&number[..width(long, coltype)])?;
    Ok(())
}
