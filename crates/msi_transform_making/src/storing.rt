//! The records of a transform over the pool of their texts.

ghost use Rattle.std.specs.Prelude.{◌≡◌, [], IfErr, IfOk, OnOk, Some, map};
ghost use Rattle.std.specs.FinMap.{entries, put};
ghost use Rattle.std.specs.List.{flat_map, fold};
ghost use Rattle.msi_base.specs.Lists.{list_cmp};
ghost use Rattle.msi_base.specs.Refusals.{IsRefusal, or_refused};
ghost use Rattle.msi_base.specs.Results.{OnlyMemory};
ghost use Rattle.msi_base.specs.declared.errors.ErrorKind.TheVariants.{InvalidInput};
ghost use Rattle.msi_database_changes.specs.Texts.{in_turn, in_use};
ghost use Rattle.msi_database_storage.specs.Streams.{with_stream};
ghost use Rattle.msi_transform_records.specs.Records.{record_bytes};
ghost use Rattle.msi_transform_making.specs.Making.{by_names, stored_record as record_stored};
ghost use Rattle.msi_transform_making.specs.Making.{stored_table as table_stored, table_records};
ghost use Rattle.msi_transform_making.specs.Making.{with_told_stream, with_told_streams};

use crate::reasons;
use crate::record::ToldRecord;
use crate::tables::ToldTable;
use msi_base::errors::{Error, ErrorKind};
use msi_base::text::Items;
use msi_container_format::contents::{Bytes, StreamMap};
use msi_container_format::name::Name;
use msi_database_changes::texts::PoolInUse;
use msi_transform::records_by_table::RecordsByTable;
use msi_transform_pair::seen::owned;
use msi_transform_records::parts::push_record;
use msi_transform_records::{Record, Shape};
use msi_transform_rows::row_streams::row_stream;
use std::alloc::Global;
use std::marker::Model;

/// A table of which a transform tells, and its records over the pool of their texts.
#[derive(Drop)]
pub(crate) struct StoredTable<'a, 'b> {
    table: &'b ToldTable<'a>,
    records: Items<Record>,
}

impl<'a, 'b> Model for StoredTable<'a, 'b> {
    ghost use Rattle.std.specs.Prelude.{List};
    ghost use Rattle.msi_transform_making.specs.Making.{ToldTable as TableOf};
    ghost use Rattle.msi_transform_records.specs.declared.records.Record.{Record as RecordOf};

    ghost Value = { TableOf × List RecordOf };

    ghost view = { λ s. (s.table.now, s.records) };
}

impl<'a, 'b> StoredTable<'a, 'b> {
    fn new(table: &'b ToldTable<'a>, records: Items<Record>) -> StoredTable<'a, 'b>
        ensures { result ≡ (table.now, records) }
    {
        StoredTable { table, records }
    }

    fn table(&self) -> &'b ToldTable<'a>
        ensures { result.now ≡ self.now.0 }
    {
        self.table
    }

    fn records(&self) -> &[Record]
        ensures { result.now ≡ self.now.1 }
    {
        self.records.as_slice()
    }
}

fn stored_record(alloc: Global, pool: &mut PoolInUse, told: &ToldRecord) -> Result<Record, Error>
    ensures ok { IfOk result (λ made. record_stored (in_use pool.old) told.now ≡ Some (made, in_use pool.new)) }
    ensures kind { IfErr result (IsRefusal (or_refused InvalidInput (record_stored (in_use pool.old) told.now))) }
    ensures page { pool.new.pool.page ≡ pool.old.pool.page }
    ensures long { pool.new.pool.long ≡ pool.old.pool.long }
{
    let Some(action) = told.action() else {
        return Err(Error::new(ErrorKind::InvalidInput, reasons::ADDED_CELLS_MANY));
    };
    let values = owned(alloc, told.values())?;
    let cells = pool.put_row(alloc, values)?;
    Ok(Record { action, cells })
}

fn stored_records(
    alloc: Global,
    pool: &mut PoolInUse,
    told: &[ToldRecord],
) -> Result<Items<Record>, Error>
    ensures ok { IfOk result (λ made.
        in_turn record_stored (in_use pool.old) told.now ≡ Some (made, in_use pool.new)) }
    ensures kind { let made = in_turn record_stored (in_use pool.old) told.now in
        IfErr result (IsRefusal (or_refused InvalidInput made)) }
    ensures page { pool.new.pool.page ≡ pool.old.pool.page }
    ensures long { pool.new.pool.long ≡ pool.old.pool.long }
{
    let mut records = Vec::with_capacity(alloc, told.len())?;
    for record in told {
        records.push(stored_record(alloc, pool, record)?)?;
    }
    Ok(Items::from_vec(records))
}

/// Returns the tables with their records, whose texts the pool takes in order.
///
/// # Errors
/// Fails with `InvalidInput` if a record adds a row of more than 255 columns or the pool is full, and otherwise with
/// `OutOfMemory`.
pub(crate) fn stored_tables<'a, 'b>(
    alloc: Global,
    pool: &mut PoolInUse,
    tables: &'b [ToldTable<'a>],
) -> Result<Vec<StoredTable<'a, 'b>>, Error>
    ensures ok { IfOk result (λ stored.
        in_turn table_stored (in_use pool.old) tables.now ≡ Some (stored.items, in_use pool.new)) }
    ensures kind { let stored = in_turn table_stored (in_use pool.old) tables.now in
        IfErr result (IsRefusal (or_refused InvalidInput stored)) }
    ensures page { pool.new.pool.page ≡ pool.old.pool.page }
    ensures long { pool.new.pool.long ≡ pool.old.pool.long }
{
    let mut stored = Vec::with_capacity(alloc, tables.len())?;
    for table in tables {
        let records = stored_records(alloc, pool, table.records())?;
        stored.push(StoredTable::new(table, records))?;
    }
    Ok(stored)
}

fn spelled(
    alloc: Global,
    long: bool,
    shapes: &[Shape],
    records: &[Record],
) -> Result<Vec<u8>, Error>
    ensures ok { IfOk result (λ bytes. bytes.items ≡ flat_map (record_bytes long shapes.now) records.now) }
    ensures kind { OnlyMemory result }
{
    let mut bytes = Vec::new(alloc);
    for record in records {
        push_record(&mut bytes, long, shapes, record)?;
    }
    Ok(bytes)
}

fn put_table(
    alloc: Global,
    long: bool,
    by_table: &mut RecordsByTable,
    stored: &StoredTable,
) -> Result<(), Error>
    ensures ok { OnOk result (entries by_table.new
        ≡ put list_cmp stored.now.0.name (table_records long stored.now).1 (entries by_table.old)) }
    ensures kind { OnlyMemory result }
{
    let table = stored.table();
    let bytes = spelled(alloc, long, table.shapes(), stored.records())?;
    let name = String::from_str(alloc, table.name())?;
    by_table.insert(name, Bytes::from_vec(bytes))
}

/// Returns the bytes of the records by the names of their tables. References to texts take three bytes if they are
/// long, and otherwise two.
///
/// # Errors
/// Fails with `OutOfMemory`.
pub(crate) fn records_by_table(
    alloc: Global,
    long: bool,
    stored: &[StoredTable],
) -> Result<RecordsByTable, Error>
    ensures ok { IfOk result (λ by_table.
        entries by_table ≡ by_names (map (table_records long) stored.now)) }
    ensures kind { OnlyMemory result }
{
    let mut by_table = RecordsByTable::new(alloc);
    for i in 0..stored.len() {
        put_table(alloc, long, &mut by_table, &stored[stored.len() - 1 - i])?;
    }
    Ok(by_table)
}

fn put_stream(streams: &mut StreamMap, name: Name, bytes: &Bytes) -> Result<(), Error>
    ensures ok { OnOk result (entries streams.new ≡ with_stream name bytes.now (entries streams.old)) }
    ensures kind { OnlyMemory result }
{
    streams.insert(name, bytes.clone()?)?;
    Ok(())
}

/// Puts the stream that a record brings among others.
fn put_told_stream(
    alloc: Global,
    streams: &mut StreamMap,
    table: &str,
    told: &ToldRecord,
) -> Result<(), Error>
    ensures ok { OnOk result (entries streams.new ≡ with_told_stream table.now (entries streams.old) told.now) }
    ensures kind { OnlyMemory result }
{
    let Some(bytes) = told.stream() else {
        return Ok(());
    };
    match row_stream(alloc, table, told.key())? {
        Some(name) => put_stream(streams, name, bytes),
        None => Ok(()),
    }
}

fn put_told_streams(alloc: Global, streams: &mut StreamMap, table: &ToldTable) -> Result<(), Error>
    ensures ok { OnOk result (entries streams.new ≡ with_told_streams (entries streams.old) table.now) }
    ensures kind { OnlyMemory result }
{
    for told in table.records() {
        put_told_stream(alloc, streams, table.name(), told)?;
    }
    Ok(())
}

/// Returns the streams that the records of tables bring.
///
/// # Errors
/// Fails with `OutOfMemory`.
pub(crate) fn told_streams(alloc: Global, tables: &[ToldTable]) -> Result<StreamMap, Error>
    ensures ok { IfOk result (λ streams. entries streams ≡ fold with_told_streams [] tables.now) }
    ensures kind { OnlyMemory result }
{
    let mut streams = StreamMap::new(alloc);
    for table in tables {
        put_told_streams(alloc, &mut streams, table)?;
    }
    Ok(streams)
}
