//! Rows where they stand in a table's stream: each is decoded when it is asked for.

ghost use Rattle.std.specs.Prelude.{◌≡◌, ◌<◌, ◌≤◌, IfOk, Some, length, option_map, slice_get};
ghost use Rattle.msi_base.specs.Results.{OnlyMemory};
ghost use Rattle.msi_table.specs.Rows.{AreAsWide, cell_in_row, table_rows};
ghost use Rattle.msi_table.specs.Tables.{rows_spelled};

use crate::rows::{column_start, column_starts, read_all, read_one, read_row, row_count};
use crate::table::Table;
use msi_base::errors::Error;
use msi_base::text::Items;
use msi_table_cells::cell::ValueRef;
use msi_table_cells::parts::MAX_ROWS;
use msi_table_values::column::Column;
use std::alloc::Global;
use std::marker::Model;

/// The columns of a table, and the rows that the bytes of its stream encode. It holds the bytes, and no cell. Where the
/// cells of each column begin may be noted: then a cell is found without the widths of the columns before it.
#[derive(Drop)]
pub struct StoredRows<'a> {
    table: &'a Table,
    bytes: &'a [u8],
    count: usize,
    starts: Option<Vec<usize>>,
}

impl<'a> Model for StoredRows<'a> {
    ghost use Rattle.std.specs.Prelude.{◌≡◌, ◌≤◌, IfSome};
    ghost use Rattle.msi_base.specs.Lists.{tabulated};
    ghost use Rattle.msi_table.specs.Cells.{AreStarts, row_count, row_in};
    ghost use Rattle.msi_table.specs.Rows.{TableRows};
    ghost use Rattle.msi_table_values.specs.Columns.{types_of};

    ghost Value = { TableRows };

    ghost view = { λ s. let t = s.table.now in record {
      columns = t.columns;
      rows = tabulated s.count (row_in t.long (types_of t.columns) s.bytes.now);
    } };

    ghost invariant = { λ s. let t = s.table.now in
        (s.count ≡ row_count t.long (types_of t.columns) s.bytes.now) × (s.count ≤ 65536)
        × IfSome s.starts (λ starts. AreStarts t.long (types_of t.columns) s.count starts.items) };
}

impl<'a> StoredRows<'a> {
    /// Returns None where there are too many rows.
    pub(crate) fn of_stream(table: &'a Table, bytes: &'a [u8]) -> Option<StoredRows<'a>>
        ensures { result ≡ option_map (table_rows table.now.columns) (rows_spelled table.now bytes.now) }
    {
        let count = row_count(table.is_long(), table.columns(), bytes);
        if count > MAX_ROWS {
            return None;
        }
        Some(StoredRows {
            table,
            bytes,
            count,
            starts: None,
        })
    }

    /// Returns the same rows, which note where the cells of each column begin.
    pub(crate) fn with_starts(self, alloc: Global) -> Result<StoredRows<'a>, Error>
        ensures ok { IfOk result (λ rows. rows ≡ self.entry) }
        ensures kind { OnlyMemory result }
    {
        let StoredRows {
            table,
            bytes,
            count,
            starts: _,
        } = self;
        let starts = column_starts(alloc, table.is_long(), table.columns(), count)?;
        Ok(StoredRows {
            table,
            bytes,
            count,
            starts: Some(starts),
        })
    }

    /// Returns the columns of the table.
    pub fn columns(&self) -> &'a [Column]
        ensures columns { result.now ≡ self.now.columns }
        ensures wide { AreAsWide self.now.columns self.now.rows }
    {
        self.table.columns()
    }

    /// Returns the number of rows: at most 65536.
    pub fn len(&self) -> usize
        ensures many { result ≡ length self.now.rows }
        ensures most { result ≤ 65536 }
    {
        self.count
    }

    pub(crate) fn cell(&self, row: usize, column: usize) -> Option<ValueRef>
        ensures { result ≡ cell_in_row column (slice_get self.now.rows row) }
    {
        let columns = self.table.columns();
        if row >= self.count || column >= columns.len() {
            return None;
        }
        let long = self.table.is_long();
        let start = column_start(long, columns, self.count, &self.starts, column);
        Some(read_one(long, columns, self.bytes, row, column, start))
    }

    /// Returns the cells of a row, one for each column. Its number, counted from 0, has to be below that of the rows
    /// (`len`).
    ///
    /// # Errors
    /// Fails with `OutOfMemory`.
    pub fn row(&self, alloc: Global, at: usize) -> Result<Items<ValueRef>, Error>
        requires { at < length self.now.rows }
        ensures ok { IfOk result (λ row. slice_get self.now.rows at ≡ Some row) }
        ensures kind { OnlyMemory result }
    {
        read_row(
            alloc,
            self.table.is_long(),
            self.table.columns(),
            self.bytes,
            self.count,
            at,
        )
    }

    /// Returns the cells of all rows.
    ///
    /// # Errors
    /// Fails with `OutOfMemory`.
    pub fn all(&self, alloc: Global) -> Result<Vec<Items<ValueRef>>, Error>
        ensures ok { IfOk result (λ rows. rows.items ≡ self.now.rows) }
        ensures wide { IfOk result (λ rows. AreAsWide self.now.columns rows.items) }
        ensures kind { OnlyMemory result }
    {
        read_all(
            alloc,
            self.table.is_long(),
            self.table.columns(),
            self.bytes,
            self.count,
        )
    }
}
