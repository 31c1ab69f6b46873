//! How many cells of tables name each place of a pool.

ghost use Rattle.std.specs.Prelude.{◌≡◌, ◌∷◌, [], ◌+◌, ◌*◌, ◌≤◌, IfOk, drop, is_some, length, take, unwrap_or};
ghost use Rattle.msi_base.specs.Lists.{tabulated};
ghost use Rattle.msi_base.specs.Results.{OnlyMemory};
ghost use Rattle.msi_table.specs.Cells.{cell_in, row_count as count_of, row_in, width as width_of};
ghost use Rattle.msi_table.specs.Census.{CountsMore, IsCensus, numbers_of_row, numbers_of_rows};
ghost use Rattle.msi_table.specs.Tables.{rows_spelled};
ghost use Rattle.msi_table_values.specs.Columns.{most_columns, types_of};

use crate::cells::{holds_texts, read_cell, width};
use crate::rows::{are_rows, row_count};
use crate::table::Table;
use msi_base::errors::Error;
use msi_base::text::Items;
use msi_pool::parts::place_number;
use msi_pool::stringpool::MAX_CELLS;
use msi_table_cells::cell::ValueRef;
use msi_table_values::column::{Column, ColumnType};
use std::alloc::Global;
use std::marker::Model;

/// How many cells name each place of a pool. It is taken of the bytes of tables' streams column by column, and no row
/// is made for it.
#[derive(Drop)]
pub struct Census {
    counts: Vec<u16>,
    is_within: bool,
    fits: bool,
}

impl Model for Census {
    ghost use Rattle.msi_table.specs.Census.{CensusDef};

    ghost Value = { CensusDef };

    ghost view = { λ c. record { counts = c.counts.items; is_within = c.is_within; fits = c.fits } };
}

impl Census {
    /// Returns the census of no cell, for a pool of so many places.
    ///
    /// # Errors
    /// Fails with `OutOfMemory`.
    pub fn new(alloc: Global, many: u32) -> Result<Census, Error>
        ensures ok { IfOk result (IsCensus many []) }
        ensures kind { OnlyMemory result }
    {
        Ok(Census {
            counts: vec![in alloc; 0; many as usize]?,
            is_within: true,
            fits: true,
        })
    }

    /// Returns how many cells name each place, in the places' order. Counting ends at 65,535.
    pub fn counts(&self) -> &[u16]
        ensures { result.now ≡ self.now.counts }
    {
        self.counts.as_slice()
    }

    /// Returns whether no cell names a place past the pool's last one.
    pub fn is_within(&self) -> bool
        ensures { result ≡ self.now.is_within }
    {
        self.is_within
    }

    /// Returns whether no place is named by more than 65,535 cells.
    pub fn fits(&self) -> bool
        ensures { result ≡ self.now.fits }
    {
        self.fits
    }

    fn count(&mut self, cell: ValueRef)
        ensures { CountsMore (numbers_of_row (cell ∷ [])) self.old self.new }
    {
        let ValueRef::Str(reference) = cell else {
            return;
        };
        let Some(at) = place_number(reference).checked_sub(1) else {
            return;
        };
        let at = at as usize;
        if at >= self.counts.len() {
            self.is_within = false;
        } else if self.counts[at] < MAX_CELLS {
            self.counts[at] += 1;
        } else {
            self.fits = false;
        }
    }

    fn count_row(&mut self, row: &[ValueRef])
        ensures { CountsMore (numbers_of_row row.now) self.old self.new }
    {
        for cell in row {
            self.count(*cell);
        }
    }

    /// Counts the cells of rows.
    pub fn count_rows(&mut self, rows: &[Items<ValueRef>])
        ensures { CountsMore (numbers_of_rows rows.now) self.old self.new }
    {
        for row in rows {
            self.count_row(row.as_slice());
        }
    }

    /// Counts `count` cells of a column whose bytes begin at a place. Only texts name places.
    fn count_column(
        &mut self,
        long: bool,
        coltype: ColumnType,
        bytes: &[u8],
        start: usize,
        count: usize,
    )
        requires { start + count * width_of long coltype ≤ length bytes.now }
        ensures { let wide = width_of long coltype in
            let cells = tabulated count (λ i. cell_in coltype (take wide (drop (start + i * wide) bytes.now))) in
            CountsMore (numbers_of_row cells) self.old self.new }
    {
        if !holds_texts(coltype) {
            return;
        }
        let width = width(long, coltype);
        for i in 0..count {
            self.count(read_cell(long, coltype, bytes, start + i * width));
        }
    }

    fn count_columns(&mut self, long: bool, columns: &[Column], bytes: &[u8], count: usize)
        requires few { length columns.now ≤ most_columns }
        requires count { count ≡ count_of long (types_of columns.now) bytes.now }
        ensures { let rows = tabulated count (row_in long (types_of columns.now) bytes.now) in
            CountsMore (numbers_of_rows rows) self.old self.new }
    {
        let mut start = 0;
        for column in columns {
            let coltype = column.coltype();
            self.count_column(long, coltype, bytes, start, count);
            start += count * width(long, coltype);
        }
    }

    /// Counts the cells of the rows that the bytes of a table's stream encode, and returns whether they can be read.
    /// Where they can't, none is counted.
    pub fn count_stored(&mut self, table: &Table, bytes: &[u8]) -> bool
        ensures readable { result ≡ is_some (rows_spelled table.now bytes.now) }
        ensures counted { let rows = unwrap_or (rows_spelled table.now bytes.now) [] in
            CountsMore (numbers_of_rows rows) self.old self.new }
    {
        let (long, columns) = (table.is_long(), table.columns());
        if !are_rows(long, columns, bytes) {
            return false;
        }
        self.count_columns(long, columns, bytes, row_count(long, columns, bytes));
        true
    }
}
