//! Rows with their values.

ghost use Rattle.std.specs.Prelude.{◌≡◌, ◌<◌, IfOk, drop, length, option_map, slice_get};
ghost use Rattle.std.specs.Iterator.{at_most};
ghost use Rattle.msi_base.specs.Results.{OnlyMemory};
ghost use Rattle.msi_table.specs.Rows.{AreAsWide, AreRowNumbers, GivesRow, IsRowAt, cell_in_row, rows_picked};
ghost use Rattle.msi_table.specs.Rows.{rows_from, value_next};
ghost use Rattle.msi_table.specs.Sources.{HasRowNumbers, rows_of_source};
ghost use Rattle.msi_table_cells.specs.CellValues.{row_values};
ghost use Rattle.msi_table_values.specs.Views.{seen_value};

use crate::picked::PickedRows;
use msi_base::errors::Error;
use msi_base::text::Items;
use msi_pool::stringpool::StringPool;
use msi_table_cells::cell::ValueRef;
use msi_table_cells::parts::view_of_cell;
use msi_table_values::column::Column;
use msi_table_values::parts::{ValueView, row};
use msi_table_values::row::Row;
use msi_table_values::value::Value;
use std::alloc::Global;
use std::marker::Model;
use std::rc::Rc;

pub(crate) fn values_of(
    alloc: Global,
    pool: &StringPool,
    cells: &[ValueRef],
) -> Result<Items<Value>, Error>
    ensures ok { IfOk result (λ values. values ≡ row_values pool.now.places cells.now) }
    ensures kind { OnlyMemory result }
{
    let mut values = Vec::with_capacity(alloc, cells.len())?;
    for cell in cells {
        values.push(cell.to_value(alloc, pool)?)?;
    }
    Ok(Items::from_vec(values))
}

fn row_of(
    alloc: Global,
    pool: &StringPool,
    columns: &Rc<Items<Column>>,
    cells: &[ValueRef],
) -> Result<Row, Error>
    requires { length cells.now ≡ length columns.now.value }
    ensures ok { IfOk result (λ row.
        row ≡ record { columns = columns.now.value; values = row_values pool.now.places cells.now }) }
    ensures kind { OnlyMemory result }
{
    let values = values_of(alloc, pool, cells)?;
    Ok(row(columns.clone()?, values))
}

/// Where rows come from.
#[derive(Drop)]
enum Source<'a> {
    /// They were made, as those of a join are.
    Made(Vec<Items<ValueRef>>),
    /// They stand in a table's stream, and are decoded one by one.
    Stored(PickedRows<'a>),
}

impl<'a> Source<'a> {
    fn len(&self) -> usize
        ensures { result ≡ length (rows_of_source self.now) }
    {
        match self {
            Source::Made(rows) => rows.len(),
            Source::Stored(picked) => picked.len(),
        }
    }

    fn cell(&self, at: usize, column: usize) -> Option<ValueRef>
        requires numbers { HasRowNumbers self.now }
        requires inside { at < length (rows_of_source self.now) }
        ensures { result ≡ cell_in_row column (slice_get (rows_of_source self.now) at) }
    {
        match self {
            Source::Made(rows) => rows[at].as_slice().get(column).copied(),
            Source::Stored(picked) => picked.cell(at, column),
        }
    }

    fn row(
        &self,
        alloc: Global,
        pool: &StringPool,
        columns: &Rc<Items<Column>>,
        at: usize,
    ) -> Result<Row, Error>
        requires numbers { HasRowNumbers self.now }
        requires inside { at < length (rows_of_source self.now) }
        requires wide { AreAsWide columns.now.value (rows_of_source self.now) }
        ensures ok { IfOk result (IsRowAt columns.now.value pool.now.places (rows_of_source self.now) at) }
        ensures kind { OnlyMemory result }
    {
        match self {
            Source::Made(rows) => row_of(alloc, pool, columns, rows[at].as_slice()),
            Source::Stored(picked) => {
                let cells = picked.row(alloc, at)?;
                row_of(alloc, pool, columns, cells.as_slice())
            }
        }
    }
}

/// Rows, each of which is returned once. After `OutOfMemory` none is left.
pub struct Rows<'a> {
    alloc: Global,
    pool: &'a StringPool,
    columns: Rc<Items<Column>>,
    source: Source<'a>,
    given: usize,
}

/// Written out, so that a function that owns one calls one drop, and its proof doesn't go through those of the parts.
impl Drop for Rows<'_> {
    fn drop(self) {
        let Rows {
            alloc: _,
            pool: _,
            columns: _,
            source: _,
            given: _,
        } = self;
    }
}

impl<'a> Model for Rows<'a> {
    ghost use Rattle.std.specs.Prelude.{drop};
    ghost use Rattle.msi_table.specs.Rows.{AreAsWide, RowsDef};
    ghost use Rattle.msi_table.specs.Sources.{HasRowNumbers, rows_of_source};

    ghost Value = { RowsDef };

    ghost view = { λ r. record {
      columns = r.columns.value;
      places = r.pool.now.places;
      all = rows_of_source r.source;
      rows = drop r.given (rows_of_source r.source);
    } };

    ghost invariant = { λ r. HasRowNumbers r.source × AreAsWide r.columns.value (rows_of_source r.source) };
}

impl<'a> Rows<'a> {
    pub(crate) fn of_cells(
        alloc: Global,
        pool: &'a StringPool,
        columns: Items<Column>,
        rows: Vec<Items<ValueRef>>,
    ) -> Result<Rows<'a>, Error>
        requires { AreAsWide columns rows.items }
        ensures ok { IfOk result (λ given.
            given ≡ rows_from columns pool.now.places rows.items) }
        ensures kind { OnlyMemory result }
    {
        Rows::from_source(alloc, pool, columns, Source::Made(rows))
    }

    pub(crate) fn of_picked(
        alloc: Global,
        pool: &'a StringPool,
        columns: Items<Column>,
        picked: PickedRows<'a>,
    ) -> Result<Rows<'a>, Error>
        requires numbers { AreRowNumbers (length picked.stored.rows) picked.numbers }
        requires wide { AreAsWide columns (rows_picked picked.numbers picked.places picked.stored.rows) }
        ensures ok { IfOk result (λ given. given ≡ rows_from columns pool.now.places
            (rows_picked picked.entry.numbers picked.entry.places picked.entry.stored.rows)) }
        ensures kind { OnlyMemory result }
    {
        let PickedRows {
            stored,
            numbers,
            places,
        } = picked;
        let stored = stored.with_starts(alloc)?;
        let picked = PickedRows {
            stored,
            numbers,
            places,
        };
        Rows::from_source(alloc, pool, columns, Source::Stored(picked))
    }

    fn from_source(
        alloc: Global,
        pool: &'a StringPool,
        columns: Items<Column>,
        source: Source<'a>,
    ) -> Result<Rows<'a>, Error>
        requires numbers { HasRowNumbers source }
        requires wide { AreAsWide columns (rows_of_source source) }
        ensures ok { IfOk result (λ given.
            given ≡ rows_from columns pool.now.places (rows_of_source source.entry)) }
        ensures kind { OnlyMemory result }
    {
        let columns = Rc::new(alloc, columns)?;
        Ok(Rows {
            alloc,
            pool,
            columns,
            source,
            given: 0,
        })
    }

    /// Returns the columns of the rows.
    pub fn columns(&self) -> &[Column]
        ensures { result.now ≡ self.now.columns }
    {
        self.columns.as_slice()
    }

    /// Returns how many rows are left.
    pub fn len(&self) -> usize
        ensures { result ≡ length self.now.rows }
    {
        self.source.len().saturating_sub(self.given)
    }

    /// Returns the value of the next row in a column, counted from 0, without taking the row. Its text is borrowed
    /// from where it lies, so this takes no memory. There is none if no row is left, or no column has the number.
    pub fn get(&self, column: usize) -> Option<ValueView<'_>>
        ensures { option_map seen_value result ≡ value_next column self.now }
    {
        if self.given < self.source.len()
            && let Some(cell) = self.source.cell(self.given, column)
        {
            return Some(view_of_cell(self.pool, cell));
        }
        None
    }

    /// Goes on to the row after the next one, if one is left. It takes no memory.
    pub fn advance(&mut self)
        ensures { self.new ≡ record self.old { rows = drop 1 self.old.rows } }
    {
        if self.given < self.source.len() {
            self.given += 1;
        }
    }

    /// Goes back to the first row, so that all rows are left. It takes no memory.
    pub fn rewind(&mut self)
        ensures { self.new ≡ record self.old { rows = self.old.all } }
    {
        self.given = 0;
    }
}

/// Gives the rows in order. An item is `OutOfMemory` where a growth was refused, and then no row is left.
impl<'a> Iterator for Rows<'a> {
    type Item = Result<Row, Error>;

    ghost next_gives = { GivesRow };

    ghost remaining = { λ rows. at_most (length rows.rows) };

    fn next(&mut self) -> Option<Result<Row, Error>> {
        let count = self.source.len();
        if self.given >= count {
            return None;
        }
        match self
            .source
            .row(self.alloc, self.pool, &self.columns, self.given)
        {
            Ok(row) => {
                self.given += 1;
                Some(Ok(row))
            }
            Err(error) => {
                self.given = count;
                Some(Err(error))
            }
        }
    }
}
