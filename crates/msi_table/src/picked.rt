//! Rows of a table's stream that are picked, and which of their cells.

ghost use Rattle.std.specs.Prelude.{◌≡◌, ◌<◌, IfOk, Some, length, slice_get};
ghost use Rattle.msi_base.specs.Results.{OnlyMemory};
ghost use Rattle.msi_table.specs.Rows.{AreRowNumbers, cell_at, cell_in_row, cells_at, rows_numbered, rows_picked};

use crate::stored::StoredRows;
use msi_base::errors::Error;
use msi_base::text::Items;
use msi_table_cells::cell::ValueRef;
use std::alloc::Global;

/// Rows of a table that stay in its stream: those of some numbers, or all, with the cells at some places, or all.
#[derive(Drop)]
pub struct PickedRows<'a> {
    pub stored: StoredRows<'a>,
    /// Numbers of rows, counted from 0: a table has at most 65536.
    pub numbers: Option<Items<u16>>,
    /// Places of columns. A cell is null where a place is none.
    pub places: Option<Items<Option<usize>>>,
}

impl<'a> PickedRows<'a> {
    pub(crate) fn len(&self) -> usize
        ensures { result
            ≡ length (rows_picked self.now.numbers self.now.places self.now.stored.rows) }
    {
        match &self.numbers {
            Some(numbers) => numbers.as_slice().len(),
            None => self.stored.len(),
        }
    }

    fn number(&self, at: usize) -> usize
        requires inside { at < length (rows_picked self.now.numbers self.now.places self.now.stored.rows) }
        requires numbers { AreRowNumbers (length self.now.stored.rows) self.now.numbers }
        ensures inside { result < length self.now.stored.rows }
        ensures row { slice_get (rows_numbered self.now.numbers self.now.stored.rows) at
            ≡ slice_get self.now.stored.rows result }
    {
        match &self.numbers {
            Some(numbers) => numbers.as_slice()[at] as usize,
            None => at,
        }
    }

    pub(crate) fn cell(&self, at: usize, column: usize) -> Option<ValueRef>
        requires inside { at < length (rows_picked self.now.numbers self.now.places self.now.stored.rows) }
        requires numbers { AreRowNumbers (length self.now.stored.rows) self.now.numbers }
        ensures { result ≡ cell_in_row column
            (slice_get (rows_picked self.now.numbers self.now.places self.now.stored.rows) at) }
    {
        let row = self.number(at);
        match &self.places {
            Some(places) => match places.as_slice().get(column) {
                Some(Some(place)) => Some(self.stored.cell(row, *place).unwrap_or(ValueRef::Null)),
                Some(None) => Some(ValueRef::Null),
                None => None,
            },
            None => self.stored.cell(row, column),
        }
    }

    pub(crate) fn row(&self, alloc: Global, at: usize) -> Result<Items<ValueRef>, Error>
        requires inside { at < length (rows_picked self.now.numbers self.now.places self.now.stored.rows) }
        requires numbers { AreRowNumbers (length self.now.stored.rows) self.now.numbers }
        ensures ok { IfOk result (λ row.
            slice_get (rows_picked self.now.numbers self.now.places self.now.stored.rows) at ≡ Some row) }
        ensures kind { OnlyMemory result }
    {
        let row = self.stored.row(alloc, self.number(at))?;
        match &self.places {
            Some(places) => projected_row(alloc, places.as_slice(), row.as_slice()),
            None => Ok(row),
        }
    }
}

/// The cell at a place of a row, or null.
pub fn cell_of(row: &[ValueRef], place: Option<usize>) -> ValueRef
    ensures { result ≡ cell_at row.now place }
{
    match place {
        Some(place) if place < row.len() => row[place],
        _ => ValueRef::Null,
    }
}

/// The cells at the places of a row, in the places' order.
///
/// # Errors
/// `OutOfMemory`.
pub fn projected_row(
    alloc: Global,
    places: &[Option<usize>],
    row: &[ValueRef],
) -> Result<Items<ValueRef>, Error>
    ensures ok { IfOk result (λ cells. cells ≡ cells_at places.now row.now) }
    ensures kind { OnlyMemory result }
{
    let mut cells = Vec::with_capacity(alloc, places.len())?;
    for place in places {
        cells.push(cell_of(row, *place))?;
    }
    Ok(Items::from_vec(cells))
}
