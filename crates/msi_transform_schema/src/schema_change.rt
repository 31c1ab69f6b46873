//! What a transform's records of `_Tables` and `_Columns` are applied to: a package's parts.

ghost use Rattle.std.specs.Prelude.{◌≡◌, ◌≤◌, ◌∷◌, [], IfOk, length, map, not, option_map, unwrap_or, ◌==◌};
ghost use Rattle.std.specs.FinMap.{entries};
ghost use Rattle.msi_base.specs.Results.{OnlyMemory};
ghost use Rattle.msi_table_values.specs.Columns.{most_columns};
ghost use Rattle.msi_table_values.specs.Views.{seen_value};
ghost use Rattle.msi_table_values.specs.declared.value.Value.TheVariants.{Int, Str};
ghost use Rattle.msi_table_cells.specs.CellValues.{row_values};
ghost use Rattle.msi_table_cells.specs.KeyOrder.{key_of};
ghost use Rattle.msi_database_schema.specs.Schema.{table_with, value_at};
ghost use Rattle.msi_database_schema.specs.System.{validation_columns as columns_of_validation, validation_name};
ghost use Rattle.msi_database_changes.specs.Database.{has_table, rows_of, table_at};
ghost use Rattle.msi_database_storage.specs.Kept.{AreAsLong, database_kept};
ghost use Rattle.msi_database_storage.specs.StreamNames.{HaveShortNames};
ghost use Rattle.msi_transform_schema.specs.SchemaChanges.{columns_of_package, is_unlisted as has_rows_already};
ghost use Rattle.msi_transform_schema.specs.SchemaChanges.{rows_of_package, table_in_hand, untold_table};
ghost use Rattle.msi_transform_schema.specs.TablesInHand.{HasSmallNumber};
ghost use Rattle.msi_transform.specs.Transforms.{record_key, value_in};

use crate::schema::{Standing, TableInHand};
use crate::tables_by_name::TablesByName;
use msi_base::errors::Error;
use msi_base::text::Items;
use msi_container_format::contents::StreamMap;
use msi_database_changes::keys::Key;
use msi_database_schema::named_table;
use msi_database_schema::system::{VALIDATION, validation_columns};
use msi_database_storage::listing::table_named;
use msi_database_storage::table_rows;
use msi_pool::stringpool::StringPool;
use msi_table::Table;
use msi_table_cells::cell::ValueRef;
use msi_table_cells::parts::view_of_cell;
use msi_table_values::column::Column;
use msi_table_values::parts::ValueView;
use msi_transform::{ErrorConditions, Transform};
use msi_transform_records::parts::key_cells;
use msi_transform_records::{Record, Shape};
use msi_transform_rows::keyed::key_of_cells;
use std::alloc::Global;
use std::marker::Model;

/// The package to whose tables a transform is applied, borrowed from its parts, the transform, and which faults pass.
#[derive(Drop)]
pub struct SchemaChange<'a> {
    pub(crate) alloc: Global,
    pub(crate) passing: ErrorConditions,
    pub(crate) pool: &'a StringPool,
    pub(crate) tables: &'a [Table],
    pub(crate) streams: &'a StreamMap,
    pub(crate) transform: &'a Transform,
}

impl<'a> Model for SchemaChange<'a> {
    ghost use Rattle.std.specs.FinMap.{entries};
    ghost use Rattle.msi_database_storage.specs.Kept.{AreAsLong, database_kept};
    ghost use Rattle.msi_database_storage.specs.StreamNames.{HaveShortNames};
    ghost use Rattle.msi_transform_schema.specs.SchemaChanges.{SchemaChange as ChangeOf};

    ghost Value = { ChangeOf };

    ghost view = { λ c. record {
      database = database_kept c.pool.now c.tables.now (entries c.streams.now);
      streams = entries c.streams.now;
      by = c.transform.now;
      passing = c.passing;
    } };

    ghost invariant = { λ c. HaveShortNames (entries c.streams.now) × AreAsLong c.pool.now.long c.tables.now };
}

impl<'a> SchemaChange<'a> {
    /// Returns the change of these parts of a package, its pool, tables and streams, by a transform. The references of
    /// all tables are as long as those of the pool.
    pub fn new(
        alloc: Global,
        pool: &'a StringPool,
        tables: &'a [Table],
        streams: &'a StreamMap,
        transform: &'a Transform,
        passing: ErrorConditions,
    ) -> SchemaChange<'a>
        requires names { HaveShortNames (entries streams.now) }
        requires long { AreAsLong pool.now.long tables.now }
        ensures { let d = database_kept pool.now tables.now (entries streams.now) in
            result ≡ record { database = d; streams = entries streams.now; by = transform.now; passing = passing } }
    {
        SchemaChange {
            alloc,
            passing,
            pool,
            tables,
            streams,
            transform,
        }
    }

    /// Returns what memory is taken from.
    pub fn alloc(&self) -> Global {
        self.alloc
    }

    /// Returns which faults pass.
    pub fn passing(&self) -> ErrorConditions
        ensures { result ≡ self.now.passing }
    {
        self.passing
    }

    /// Returns the package's tables.
    pub fn tables(&self) -> &'a [Table]
        ensures kept { self.now.database ≡ database_kept self.now.database.pool result.now self.now.streams }
        ensures long { AreAsLong self.now.database.pool.long result.now }
    {
        self.tables
    }

    /// Returns the package's streams.
    pub fn streams(&self) -> &'a StreamMap
        ensures value { entries result.now ≡ self.now.streams }
        ensures names { HaveShortNames self.now.streams }
    {
        self.streams
    }

    /// Returns the transform.
    pub fn transform(&self) -> &'a Transform
        ensures { result.now ≡ self.now.by }
    {
        self.transform
    }

    /// Returns the key of a table's row of `_Tables`.
    pub(crate) fn listing_key(&self, name: &'a str) -> Result<Key<'a>, Error>
        ensures ok { IfOk result (λ key. key ≡ Str name.now ∷ []) }
        ensures kind { OnlyMemory result }
    {
        let values = Vec::from_array(self.alloc, [ValueView::Str(name)])?;
        Ok(Key::of_values(values))
    }

    /// Returns the key of a column's row of `_Columns`.
    pub(crate) fn describing_key(&self, name: &'a str, number: i32) -> Result<Key<'a>, Error>
        ensures ok { IfOk result (λ key. key ≡ Str name.now ∷ Int number ∷ []) }
        ensures kind { OnlyMemory result }
    {
        let values = [ValueView::Str(name), ValueView::Int(number)];
        Ok(Key::of_values(Vec::from_array(self.alloc, values)?))
    }

    /// Returns the value of a record's cell: null where there is none.
    pub(crate) fn view_at(&self, cells: &[ValueRef], place: usize) -> ValueView<'a>
        ensures { seen_value result ≡ value_at place (map (value_in self.now.by) cells.now) }
    {
        match cells.get(place) {
            Some(cell) => view_of_cell(self.transform.pool(), *cell),
            None => ValueView::Null,
        }
    }

    /// Returns the first value of the key that a record tells: null where there is none.
    pub(crate) fn key_name(&self, shapes: &[Shape], record: &Record) -> Result<ValueView<'a>, Error>
        ensures ok { IfOk result (λ name.
            seen_value name ≡ value_at 0 (record_key self.now.by shapes.now «record».now)) }
        ensures kind { OnlyMemory result }
    {
        let key = key_cells(self.alloc, shapes, record)?;
        Ok(self.view_at(key.as_slice(), 0))
    }

    /// Returns the key of a row of a table of the package.
    ///
    /// # Errors
    /// Fails with `OutOfMemory`.
    pub fn key_of_row(&self, columns: &[Column], row: &[ValueRef]) -> Result<Key<'a>, Error>
        ensures ok { IfOk result (λ key.
            key ≡ key_of columns.now (row_values self.now.database.pool.places row.now)) }
        ensures kind { OnlyMemory result }
    {
        key_of_cells(self.alloc, self.pool, columns, row)
    }

    fn has_table(&self, name: &str) -> bool
        ensures { result ≡ has_table name.now self.now.database }
    {
        table_named(self.tables, name).is_some()
    }

    /// Returns the table of the rows of the stream of `_Validation` where none lists them.
    fn standard_table(&self) -> Result<Table, Error>
        ensures ok { IfOk result (λ table.
            table ≡ table_with self.now.database.pool.long (validation_name, columns_of_validation)) }
        ensures kind { OnlyMemory result }
    {
        let columns = validation_columns(self.alloc)?;
        named_table(
            self.alloc,
            VALIDATION,
            columns,
            self.pool.long_string_refs(),
        )
    }

    fn has_unlisted_rows(&self) -> Result<bool, Error>
        ensures ok { IfOk result (λ there. there ≡ not (length self.now.database.unlisted_validation == 0)) }
        ensures kind { OnlyMemory result }
    {
        if table_named(self.tables, VALIDATION).is_some() {
            return Ok(false);
        }
        let standard = self.standard_table()?;
        Ok(match table_rows(self.streams, &standard) {
            Some(rows) => rows.len() != 0,
            None => false,
        })
    }

    /// Returns whether a table of this name would get the rows of a stream of `_Validation` that no table lists.
    pub(crate) fn is_unlisted(&self, name: &str) -> Result<bool, Error>
        ensures ok { IfOk result (λ there. there ≡ has_rows_already self.now.database name.now) }
        ensures kind { OnlyMemory result }
    {
        if name != VALIDATION {
            return Ok(false);
        }
        self.has_unlisted_rows()
    }

    /// Returns a table to which no columns are added yet.
    pub(crate) fn bare_table(&self, standing: Standing) -> TableInHand
        requires { HasSmallNumber standing }
        ensures { result ≡ record { standing = standing; added = [] } }
    {
        TableInHand::new(standing, Items::from_vec(Vec::new(self.alloc)))
    }

    fn untold_table(&self, name: &str) -> TableInHand
        ensures { result ≡ untold_table self.now.database name.now }
    {
        self.bare_table(if self.has_table(name) {
            Standing::Kept
        } else {
            Standing::Gone
        })
    }

    /// Returns a copy of a table as it is in hand, or as the package has it.
    ///
    /// # Errors
    /// Fails with `OutOfMemory`.
    pub fn table_in_hand(&self, tables: &TablesByName<'a>, name: &str) -> Result<TableInHand, Error>
        ensures ok { IfOk result (λ table. table ≡ table_in_hand self.now.database (entries tables.now) name.now) }
        ensures kind { OnlyMemory result }
    {
        match tables.get(name) {
            Some(table) => table.clone(self.alloc),
            None => Ok(self.untold_table(name)),
        }
    }

    fn columns_named(&self, name: &str) -> &'a [Column]
        ensures value { result.now ≡ unwrap_or (option_map (λ t. t.columns) (table_at name.now self.now.database)) [] }
        ensures few { length result.now ≤ most_columns }
    {
        match table_named(self.tables, name) {
            Some(table) => table.columns(),
            None => &[],
        }
    }

    /// Returns the columns that a table has of the package.
    pub fn columns_of(&self, name: &str, standing: Standing) -> &'a [Column]
        ensures value { result.now ≡ columns_of_package self.now.database name.now standing }
        ensures few { length result.now ≤ most_columns }
    {
        match standing {
            Standing::Kept | Standing::Found(_) => self.columns_named(name),
            Standing::Added | Standing::Gone => &[],
        }
    }

    /// Returns the rows of a table of the package: none where it has none of this name, or its stream can't be read.
    pub(crate) fn rows_named(&self, name: &str) -> Result<Vec<Items<ValueRef>>, Error>
        ensures ok { IfOk result (λ rows.
            rows.items ≡ unwrap_or (option_map rows_of (table_at name.now self.now.database)) []) }
        ensures kind { OnlyMemory result }
    {
        let Some(table) = table_named(self.tables, name) else {
            return Ok(Vec::new(self.alloc));
        };
        match table_rows(self.streams, table) {
            Some(rows) => rows.all(self.alloc),
            None => Ok(Vec::new(self.alloc)),
        }
    }

    /// Returns the rows that a table has of the package.
    ///
    /// # Errors
    /// Fails with `OutOfMemory`.
    pub fn rows_of(&self, name: &str, standing: Standing) -> Result<Vec<Items<ValueRef>>, Error>
        ensures ok { IfOk result (λ rows. rows.items ≡ rows_of_package self.now.database name.now standing) }
        ensures kind { OnlyMemory result }
    {
        match standing {
            Standing::Kept | Standing::Found(_) => self.rows_named(name),
            Standing::Added | Standing::Gone => Ok(Vec::new(self.alloc)),
        }
    }
}
