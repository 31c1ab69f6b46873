//! A table that a transform drops: its rows, those that describe it, and their streams go.

ghost use Rattle.std.specs.Prelude.{◌≡◌, ◌++◌, ◌∷◌, [], IfErr, IfOk, Ok, OnOk, map, true};
ghost use Rattle.std.specs.FinMap.{entries};
ghost use Rattle.std.specs.List.{flat_map};
ghost use Rattle.msi_base.specs.Refusals.{IsRefusal};
ghost use Rattle.msi_base.specs.Results.{OnlyMemory};
ghost use Rattle.msi_table_cells.specs.CellValues.{row_values};
ghost use Rattle.msi_table_cells.specs.KeyOrder.{key_of};
ghost use Rattle.msi_table_values.specs.declared.value.Value.TheVariants.{Str};
ghost use Rattle.msi_database_schema.specs.Keys.{is_table_name};
ghost use Rattle.msi_database_changes.specs.Texts.{in_use, rows_released};
ghost use Rattle.msi_database_storage.specs.Storing.{stream_gone};
ghost use Rattle.msi_transform_rows.specs.RowStreams.{row_stream_gone};
ghost use Rattle.msi_transform_schema.specs.InHand.{in_hand};
ghost use Rattle.msi_transform_schema.specs.SchemaChanges.{column_keys, columns_of_package, released_at};
ghost use Rattle.msi_transform_schema.specs.SchemaChanges.{rows_of_package};
ghost use Rattle.msi_transform_schema.specs.SchemaChanges.{streams_of_rows, table_removed, with_table_gone};
ghost use Rattle.msi_transform_schema.specs.SchemaChanges.{without_keys};

use crate::reasons;
use crate::schema::{SchemaInHand, Standing, TableInHand};
use crate::schema_change::SchemaChange;
use msi_base::errors::{Error, ErrorKind};
use msi_base::text::Items;
use msi_database_changes::Stored;
use msi_database_changes::keys::Key;
use msi_database_changes::texts::PoolInUse;
use msi_database_storage::no_stream;
use msi_table_cells::cell::ValueRef;
use msi_table_values::column::Column;
use msi_transform_rows::keyed::KeyedRows;
use msi_transform_rows::row_streams::{gone_row_stream, has_streams};

/// Gives the texts of the rows of keys back, of those that there are.
fn release_at<'a>(pool: &mut PoolInUse, rows: &KeyedRows<'a>, keys: &[Key<'a>]) -> Result<(), Error>
    ensures ok { OnOk result (in_use pool.new ≡ released_at (entries rows.now) (in_use pool.old) keys.now) }
    ensures kind { OnlyMemory result }
    ensures page { pool.new.pool.page ≡ pool.old.pool.page }
    ensures long { pool.new.pool.long ≡ pool.old.pool.long }
{
    for key in keys {
        if let Some(row) = rows.get(key) {
            pool.release_row(row.cells.as_slice())?;
        }
    }
    Ok(())
}

fn remove_keys<'a>(rows: &mut KeyedRows<'a>, keys: &[Key<'a>])
    ensures { entries rows.new ≡ without_keys (entries rows.old) keys.now }
{
    for key in keys {
        rows.remove(key);
    }
}

impl<'a> SchemaChange<'a> {
    /// Returns the keys of a table's rows of `_Columns`, of those of the columns that are added to it, too.
    fn column_keys(&self, table: &TableInHand, name: &'a str) -> Result<Vec<Key<'a>>, Error>
        ensures ok { IfOk result (λ keys. keys.items ≡ column_keys self.now.database name.now table.now) }
        ensures kind { OnlyMemory result }
    {
        let count = self.columns_of(name, table.standing()).len() + table.added().len();
        let mut keys = Vec::new(self.alloc);
        for i in 0..count {
            keys.push(self.describing_key(name, (i + 1) as i32)?)?;
        }
        Ok(keys)
    }

    /// Gives the texts of a table's rows back, then those of its rows of `_Columns`, then that of its row of `_Tables`.
    fn release_table(
        &self,
        hand: &mut SchemaInHand<'a>,
        rows: &[Items<ValueRef>],
        columns: &[Key<'a>],
        listing: &[Key<'a>],
    ) -> Result<(), Error>
        ensures pool { let s = in_hand hand.old in OnOk result (in_use hand.new.pool
            ≡ released_at s.listed (released_at s.described (rows_released s.pool rows.now) columns.now) listing.now) }
        ensures tables { hand.new.tables ≡ hand.old.tables }
        ensures listed { hand.new.listed ≡ hand.old.listed }
        ensures described { hand.new.described ≡ hand.old.described }
        ensures streams { hand.new.streams ≡ hand.old.streams }
        ensures kind { OnlyMemory result }
        ensures page { hand.new.pool.pool.page ≡ hand.old.pool.pool.page }
        ensures long { hand.new.pool.pool.long ≡ hand.old.pool.pool.long }
    {
        hand.pool.release_rows(rows)?;
        release_at(&mut hand.pool, &hand.described, columns)?;
        release_at(&mut hand.pool, &hand.listed, listing)
    }

    fn push_gone_stream(
        &self,
        streams: &mut Vec<Stored>,
        table: &str,
        columns: &[Column],
        row: &[ValueRef],
    ) -> Result<(), Error>
        ensures ok { let key = key_of columns.now (row_values self.now.database.pool.places row.now) in
            OnOk result (streams.new.items ≡ streams.old.items ++ row_stream_gone table.now key) }
        ensures kind { OnlyMemory result }
    {
        let key = self.key_of_row(columns, row)?;
        if let Some(gone) = gone_row_stream(self.alloc, table, &key)? {
            streams.push(gone)?;
        }
        Ok(())
    }

    /// Tells that the streams of rows go, those of a table with these columns.
    ///
    /// # Errors
    /// Fails with `OutOfMemory`.
    pub fn push_gone_streams(
        &self,
        streams: &mut Vec<Stored>,
        table: &str,
        columns: &[Column],
        rows: &[Items<ValueRef>],
    ) -> Result<(), Error>
        ensures ok { let values = map (row_values self.now.database.pool.places) rows.now in
            let gone = flat_map (λ row. row_stream_gone table.now (key_of columns.now row)) values in
            OnOk result (streams.new.items ≡ streams.old.items ++ gone) }
        ensures kind { OnlyMemory result }
    {
        for row in rows {
            self.push_gone_stream(streams, table, columns, row.as_slice())?;
        }
        Ok(())
    }

    /// Tells that the streams of the rows of a table go, where its columns are of streams.
    fn drop_row_streams(
        &self,
        streams: &mut Vec<Stored>,
        table: &str,
        columns: &[Column],
        rows: &[Items<ValueRef>],
    ) -> Result<(), Error>
        ensures ok { let values = map (row_values self.now.database.pool.places) rows.now in OnOk result
            (streams.new.items ≡ streams.old.items ++ streams_of_rows table.now columns.now values) }
        ensures kind { OnlyMemory result }
    {
        if !has_streams(columns) {
            return Ok(());
        }
        self.push_gone_streams(streams, table, columns, rows)
    }

    /// Tells that the stream of a table goes, and those of its rows.
    fn drop_streams(
        &self,
        streams: &mut Vec<Stored>,
        name: &str,
        standing: Standing,
        rows: &[Items<ValueRef>],
    ) -> Result<(), Error>
        requires { is_table_name name.now ≡ true }
        ensures ok { let columns = columns_of_package self.now.database name.now standing in
            let values = map (row_values self.now.database.pool.places) rows.now in
            OnOk result (streams.new.items
            ≡ streams.old.items ++ stream_gone name.now ∷ streams_of_rows name.now columns values) }
        ensures kind { OnlyMemory result }
    {
        streams.push(no_stream(name))?;
        self.drop_row_streams(streams, name, self.columns_of(name, standing), rows)
    }

    fn drop_table(
        &self,
        hand: &mut SchemaInHand<'a>,
        name: &'a str,
        table: &TableInHand,
    ) -> Result<(), Error>
        requires { is_table_name name.now ≡ true }
        ensures ok { let d = self.now.database in
            OnOk result (in_hand hand.new ≡ with_table_gone d name.now table.now (in_hand hand.old)) }
        ensures kind { OnlyMemory result }
        ensures page { hand.new.pool.pool.page ≡ hand.old.pool.pool.page }
        ensures long { hand.new.pool.pool.long ≡ hand.old.pool.pool.long }
    {
        let rows = self.rows_of(name, table.standing())?;
        let columns = self.column_keys(table, name)?;
        let listing = Vec::from_array(self.alloc, [self.listing_key(name)?])?;
        self.release_table(
            hand,
            rows.as_slice(),
            columns.as_slice(),
            listing.as_slice(),
        )?;
        remove_keys(&mut hand.described, columns.as_slice());
        remove_keys(&mut hand.listed, listing.as_slice());
        self.drop_streams(&mut hand.streams, name, table.standing(), rows.as_slice())?;
        hand.tables.insert(name, self.bare_table(Standing::Gone))
    }

    /// Drops a table that is there, or passes over one that isn't.
    pub(crate) fn remove_table(
        &self,
        hand: &mut SchemaInHand<'a>,
        name: &'a str,
    ) -> Result<(), Error>
        requires { is_table_name name.now ≡ true }
        ensures ok { OnOk result (table_removed self.now name.now (in_hand hand.old) ≡ Ok (in_hand hand.new)) }
        ensures kind { IfErr result (IsRefusal (table_removed self.now name.now (in_hand hand.old))) }
        ensures page { hand.new.pool.pool.page ≡ hand.old.pool.pool.page }
        ensures long { hand.new.pool.pool.long ≡ hand.old.pool.pool.long }
    {
        let table = self.table_in_hand(&hand.tables, name)?;
        if !table.standing().is_gone() {
            return self.drop_table(hand, name, &table);
        }
        if !self.passing.removed_table_missing {
            return Err(Error::new(ErrorKind::NotFound, reasons::TABLE_MISSING));
        }
        Ok(())
    }
}
