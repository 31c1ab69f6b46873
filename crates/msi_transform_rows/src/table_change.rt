//! A table to whose rows the records of a transform are applied.

ghost use Rattle.std.specs.Prelude.{◌≡◌, IfErr, IfOk, Ok, option_to_list};
ghost use Rattle.msi_base.specs.Refusals.{IsRefusal};
ghost use Rattle.msi_base.specs.Results.{OnlyMemory};
ghost use Rattle.msi_transform_rows.specs.RowChanges.{held_in, streams_without, values_told};
ghost use Rattle.msi_transform_rows.specs.RowStreams.{row_stream_stored};
ghost use Rattle.msi_transform.specs.Transforms.{record_key, shapes_of as shapes_in, value_in};

use crate::row::RowStream;
use crate::row_streams::{gone_row_stream, has_streams, is_of_streams, stored_row_stream};
use msi_base::errors::Error;
use msi_base::text::Items;
use msi_database_changes::Stored;
use msi_database_changes::keys::Key;
use msi_database_changes::views::views_of_cells;
use msi_table_cells::cell::ValueRef;
use msi_table_cells::parts::view_of_cell;
use msi_table_values::column::Column;
use msi_table_values::value::Value;
use msi_transform::{ErrorConditions, Transform};
use msi_transform_records::parts::key_cells;
use msi_transform_records::{Record, Shape};
use std::alloc::Global;
use std::marker::Model;

/// The table whose rows are changed, by which transform, and which faults pass.
#[derive(Drop)]
pub struct TableChange<'a, 'b> {
    pub(crate) alloc: Global,
    pub(crate) passing: ErrorConditions,
    name: &'b str,
    columns: &'b [Column],
    shapes: Items<Shape>,
    transform: &'a Transform,
}

impl<'a, 'b> Model for TableChange<'a, 'b> {
    ghost use Rattle.std.specs.Prelude.{◌≡◌};
    ghost use Rattle.msi_transform_rows.specs.RowChanges.{TableChange as ChangeOf};
    ghost use Rattle.msi_transform.specs.Transforms.{shapes_of};

    ghost Value = { ChangeOf };

    ghost view = { λ c. record {
      name = c.name.now;
      columns = c.columns.now;
      by = c.transform.now;
      passing = c.passing;
    } };

    ghost invariant = { λ c. c.shapes ≡ shapes_of c.columns.now };
}

/// Returns what records need to know of columns.
///
/// # Errors
/// Fails with `OutOfMemory`.
pub fn shapes_of(alloc: Global, columns: &[Column]) -> Result<Items<Shape>, Error>
    ensures ok { IfOk result (λ shapes. shapes ≡ shapes_in columns.now) }
    ensures kind { OnlyMemory result }
{
    let mut shapes = Vec::with_capacity(alloc, columns.len())?;
    for column in columns {
        shapes.push(Shape::of(column))?;
    }
    Ok(Items::from_vec(shapes))
}

impl<'a, 'b> TableChange<'a, 'b> {
    /// Returns the change of the rows of a table by the records of a transform.
    ///
    /// # Errors
    /// Fails with `OutOfMemory`.
    pub fn new(
        alloc: Global,
        name: &'b str,
        columns: &'b [Column],
        transform: &'a Transform,
        passing: ErrorConditions,
    ) -> Result<TableChange<'a, 'b>, Error>
        ensures ok { IfOk result (λ change. change
            ≡ record { name = name.now; columns = columns.now; by = transform.now; passing = passing }) }
        ensures kind { OnlyMemory result }
    {
        let shapes = shapes_of(alloc, columns)?;
        Ok(TableChange {
            alloc,
            passing,
            name,
            columns,
            shapes,
            transform,
        })
    }

    /// Returns the columns of the table.
    pub(crate) fn columns(&self) -> &'b [Column]
        ensures { result.now ≡ self.now.columns }
    {
        self.columns
    }

    /// Returns what records need to know of the columns.
    pub fn shapes(&self) -> &[Shape]
        ensures { result.now ≡ shapes_in self.now.columns }
    {
        self.shapes.as_slice()
    }

    /// Returns the key of the row that a record tells of.
    pub(crate) fn row_key(&self, record: &Record) -> Result<Key<'a>, Error>
        ensures ok { IfOk result (λ key.
            key ≡ record_key self.now.by (shapes_in self.now.columns) «record».now) }
        ensures kind { OnlyMemory result }
    {
        let cells = key_cells(self.alloc, self.shapes.as_slice(), record)?;
        let values = views_of_cells(self.alloc, self.transform.pool(), cells.as_slice())?;
        Ok(Key::of_values(values))
    }

    /// Returns the value of a record's cell.
    pub(crate) fn value(&self, cell: ValueRef) -> Result<Value, Error>
        ensures ok { IfOk result (λ value. value ≡ value_in self.now.by cell) }
        ensures kind { OnlyMemory result }
    {
        view_of_cell(self.transform.pool(), cell).into_value(self.alloc)
    }

    /// Returns the value that a column holds of a record's cell: that of a stream is never null.
    fn held_value(&self, column: &Column, cell: ValueRef) -> Result<Value, Error>
        ensures ok { IfOk result (λ value. value ≡ held_in (column.now, value_in self.now.by cell)) }
        ensures kind { OnlyMemory result }
    {
        if is_of_streams(column.coltype()) {
            return Ok(Value::Binary);
        }
        self.value(cell)
    }

    /// Returns the values of a row that a record adds.
    pub(crate) fn added_values(&self, cells: &[ValueRef]) -> Result<Items<Value>, Error>
        ensures ok { IfOk result (λ values. values ≡ values_told self.now cells.now) }
        ensures kind { OnlyMemory result }
    {
        let mut values = Vec::new(self.alloc);
        for i in 0..self.columns.len().min(cells.len()) {
            values.push(self.held_value(&self.columns[i], cells[i])?)?;
        }
        Ok(Items::from_vec(values))
    }

    /// Returns that the stream of a row goes, if it may have one.
    pub(crate) fn gone_stream(&self, key: &Key) -> Result<Option<Stored>, Error>
        ensures ok { IfOk result (λ stored. option_to_list stored ≡ streams_without self.now key.now) }
        ensures kind { OnlyMemory result }
    {
        if !has_streams(self.columns) {
            return Ok(None);
        }
        gone_row_stream(self.alloc, self.name, key)
    }

    /// Returns what becomes of the stream of a row, if it changes.
    pub(crate) fn stored_stream(
        &self,
        key: &Key,
        stream: RowStream,
    ) -> Result<Option<Stored>, Error>
        ensures ok { IfOk result (λ stored.
            row_stream_stored self.now.by self.now.name key.now stream ≡ Ok (option_to_list stored)) }
        ensures kind { IfErr result (IsRefusal (row_stream_stored self.now.by self.now.name key.now stream)) }
    {
        stored_row_stream(self.alloc, self.transform.streams(), self.name, key, stream)
    }
}
