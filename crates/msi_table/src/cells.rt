//! Cells and their bytes.

ghost use Rattle.std.specs.Prelude.{◌≡◌, ◌<◌, ◌≤◌, ◌+◌, ◌^◌, length, take, drop};
ghost use Rattle.msi_base.specs.Numbers.{number_of as number_in};
ghost use Rattle.msi_table.specs.Cells.{width as width_of, cell_of_number, cell_in, is_for_texts};

use msi_base::parts::number_of;
use msi_pool::parts::string_ref;
use msi_table_cells::cell::ValueRef;
use msi_table_values::column::ColumnType;

pub(crate) fn width(long: bool, coltype: ColumnType) -> usize
    ensures value { result ≡ width_of long coltype }
    ensures least { 2 ≤ result }
    ensures most { result ≤ 4 }
{
    match coltype {
        ColumnType::Int16 | ColumnType::Binary => 2,
        ColumnType::Int32 => 4,
        ColumnType::Str(_) => { if long { 3 } else { 2 } }
    }
}

pub(crate) fn holds_texts(coltype: ColumnType) -> bool
    ensures { result ≡ is_for_texts coltype }
{
    matches!(coltype, ColumnType::Str(_))
}

fn number_cell(middle: u32, number: u64) -> ValueRef
    requires inside { middle ≤ 2 ^ 31 }
    requires narrow { number < 2 ^ 31 + middle }
    ensures { result ≡ cell_of_number middle number }
{
    if number == 0 {
        return ValueRef::Null;
    }
    ValueRef::Int((number as i64 - middle as i64) as i32)
}

/// Returns the number that the bytes of a cell are. Most have two, for which a general read would take twice as long.
fn number_of_cell(bytes: &[u8]) -> u64
    requires least { 2 ≤ length bytes.now }
    requires most { length bytes.now ≤ 4 }
    ensures value { result ≡ number_in bytes.now }
    ensures below { result < 256 ^ length bytes.now }
{
    match *bytes {
        [low, high] => low as u64 + 256 * high as u64,
        _ => number_of(bytes),
    }
}

fn cell_of(long: bool, coltype: ColumnType, bytes: &[u8]) -> ValueRef
    requires { length bytes.now ≡ width_of long coltype }
    ensures { result ≡ cell_in coltype bytes.now }
{
    match coltype {
        ColumnType::Int16 => number_cell(0x8000, number_of_cell(bytes)),
        ColumnType::Int32 => number_cell(0x8000_0000, number_of_cell(bytes)),
        ColumnType::Str(_) => match number_of_cell(bytes) {
            0 => ValueRef::Null,
            number => ValueRef::Str(string_ref(number as u32)),
        },
        ColumnType::Binary => ValueRef::Binary,
    }
}

pub(crate) fn read_cell(long: bool, coltype: ColumnType, bytes: &[u8], at: usize) -> ValueRef
    requires { at + width_of long coltype ≤ length bytes.now }
    ensures { result ≡ cell_in coltype (take (width_of long coltype) (drop at bytes.now)) }
{
    let end = at + width(long, coltype);
    cell_of(long, coltype, &bytes[at..end])
}
