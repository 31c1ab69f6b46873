//! The rows of a table's stream.

ghost use Rattle.std.specs.Prelude.{◌≡◌, ◌*◌, ◌<◌, ◌≤◌, is_some, length, sum, take, IfOk, IfSome, Some};
ghost use Rattle.msi_base.specs.Lists.{tabulated};
ghost use Rattle.msi_base.specs.Results.{OnlyMemory};
ghost use Rattle.msi_base.specs.declared.errors.ErrorKind.TheVariants.{InvalidData};
ghost use Rattle.msi_table.specs.Cells.{AreStarts, cell_at, widths, row_count as count_of, row_in, rows_in};
ghost use Rattle.msi_table_values.specs.Columns.{most_columns, types_of};
ghost use Rattle.msi_table_values.specs.Refusals.{FailsWith};

use crate::cells::{read_cell, width};
use crate::reasons;
use msi_base::errors::{Error, ErrorKind};
use msi_base::text::Items;
use msi_table_cells::cell::ValueRef;
use msi_table_cells::parts::MAX_ROWS;
use msi_table_values::column::Column;
use std::alloc::Global;

fn row_width(long: bool, columns: &[Column]) -> usize
    requires { length columns.now ≤ most_columns }
    ensures { result ≡ sum (widths long (types_of columns.now)) }
{
    let mut total = 0;
    for column in columns {
        total += width(long, column.coltype());
    }
    total
}

pub(crate) fn row_count(long: bool, columns: &[Column], bytes: &[u8]) -> usize
    requires { length columns.now ≤ most_columns }
    ensures { result ≡ count_of long (types_of columns.now) bytes.now }
{
    let width = row_width(long, columns);
    if width == 0 {
        return 0;
    }
    bytes.len() / width
}

/// Whether the bytes of a stream encode rows, that is, aren't too many.
pub(crate) fn are_rows(long: bool, columns: &[Column], bytes: &[u8]) -> bool
    requires { length columns.now ≤ most_columns }
    ensures { result ≡ is_some (rows_in long (types_of columns.now) bytes.now) }
{
    row_count(long, columns, bytes) <= MAX_ROWS
}

pub(crate) fn column_starts(
    alloc: Global,
    long: bool,
    columns: &[Column],
    count: usize,
) -> Result<Vec<usize>, Error>
    requires fits { count * sum (widths long (types_of columns.now)) ≤ usize.MAX }
    ensures ok { IfOk result (λ starts. AreStarts long (types_of columns.now) count starts.items) }
    ensures kind { OnlyMemory result }
{
    let mut starts = Vec::with_capacity(alloc, columns.len())?;
    let mut start = 0;
    for column in columns {
        starts.push(start)?;
        start += count * width(long, column.coltype());
    }
    Ok(starts)
}

/// Returns where the cells of a column begin, as it was noted, and else by the widths of the columns before.
pub(crate) fn column_start(
    long: bool,
    columns: &[Column],
    count: usize,
    starts: &Option<Vec<usize>>,
    j: usize,
) -> usize
    requires many { length columns.now ≤ most_columns }
    requires fits { count * sum (widths long (types_of columns.now)) ≤ usize.MAX }
    requires column { j < length columns.now }
    requires noted { IfSome starts.now (λ noted. AreStarts long (types_of columns.now) count noted.items) }
    ensures { result ≡ count * sum (take j (widths long (types_of columns.now))) }
{
    match starts {
        Some(noted) => noted[j],
        None => count * row_width(long, &columns[..j]),
    }
}

/// Returns the cell of row `i` and column `j`, whose cells begin at `start`.
pub(crate) fn read_one(
    long: bool,
    columns: &[Column],
    bytes: &[u8],
    i: usize,
    j: usize,
    start: usize,
) -> ValueRef
    requires row { i < count_of long (types_of columns.now) bytes.now }
    requires column { j < length columns.now }
    requires start { let types = types_of columns.now in
        start ≡ count_of long types bytes.now * sum (take j (widths long types)) }
    ensures { result ≡ cell_at long (types_of columns.now) bytes.now i j }
{
    let coltype = columns[j].coltype();
    read_cell(long, coltype, bytes, start + i * width(long, coltype))
}

pub(crate) fn read_row(
    alloc: Global,
    long: bool,
    columns: &[Column],
    bytes: &[u8],
    count: usize,
    i: usize,
) -> Result<Items<ValueRef>, Error>
    requires count { count ≡ count_of long (types_of columns.now) bytes.now }
    requires inside { i < count }
    ensures ok { IfOk result (λ row. row ≡ row_in long (types_of columns.now) bytes.now i) }
    ensures kind { OnlyMemory result }
{
    let mut row = Vec::with_capacity(alloc, columns.len())?;
    let mut start = 0;
    for column in columns {
        let coltype = column.coltype();
        let width = width(long, coltype);
        let at = start + i * width;
        row.push(read_cell(long, coltype, bytes, at))?;
        start += count * width;
    }
    Ok(Items::from_vec(row))
}

pub(crate) fn read_all(
    alloc: Global,
    long: bool,
    columns: &[Column],
    bytes: &[u8],
    count: usize,
) -> Result<Vec<Items<ValueRef>>, Error>
    requires { count ≡ count_of long (types_of columns.now) bytes.now }
    ensures ok { IfOk result (λ rows. rows.items ≡ tabulated count (row_in long (types_of columns.now) bytes.now)) }
    ensures kind { OnlyMemory result }
{
    let mut rows = Vec::with_capacity(alloc, count)?;
    for i in 0..count {
        rows.push(read_row(alloc, long, columns, bytes, count, i)?)?;
    }
    Ok(rows)
}

pub(crate) fn read_rows(
    alloc: Global,
    long: bool,
    columns: &[Column],
    bytes: &[u8],
) -> Result<Vec<Items<ValueRef>>, Error>
    requires { length columns.now ≤ most_columns }
    ensures ok { IfOk result (λ rows. rows_in long (types_of columns.now) bytes.now ≡ Some rows.items) }
    ensures kind { FailsWith InvalidData result (rows_in long (types_of columns.now) bytes.now) }
{
    let count = row_count(long, columns, bytes);
    if count > MAX_ROWS {
        return Err(Error::new(ErrorKind::InvalidData, reasons::ROWS_MANY));
    }
    read_all(alloc, long, columns, bytes, count)
}
