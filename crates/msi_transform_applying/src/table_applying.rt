//! The records of tables, applied to their rows.

ghost use Rattle.std.specs.Prelude.{◌≡◌, ◌++◌, ◌∷◌, [], ◌&&◌, if◌then◌else◌, IfErr, IfOk, Ok, OnOk, map, not};
ghost use Rattle.std.specs.FinMap.{entries};
ghost use Rattle.std.specs.List.{list_any};
ghost use Rattle.msi_base.specs.Refusals.{IsRefusal, unless_refused};
ghost use Rattle.msi_base.specs.Results.{OnlyMemory};
ghost use Rattle.msi_base.specs.declared.errors.ErrorKind.TheVariants as kind;
ghost use Rattle.msi_database_changes.specs.KeySets.{keys_of_rows};
ghost use Rattle.msi_database_changes.specs.Texts.{in_use};
ghost use Rattle.msi_database_schema.specs.Keys.{is_table_name as is_of_table};
ghost use Rattle.msi_database_schema.specs.System.{columns_columns as columns_of_columns, columns_name};
ghost use Rattle.msi_database_schema.specs.System.{tables_columns as columns_of_tables, tables_name};
ghost use Rattle.msi_transform.specs.Transforms.{shapes_of as shapes_in};
ghost use Rattle.msi_transform_rows.specs.TableRecords.{all_applied, changes_schema as tells_of_schema};
ghost use Rattle.msi_transform_rows.specs.RecordRefusals.{IsRefused};
ghost use Rattle.msi_transform_rows.specs.RowChanges.{TableChange as RowsChange, by_key, keyed, record_applied};
ghost use Rattle.msi_transform_rows.specs.RowsInHand.{hand as rows_now};
ghost use Rattle.msi_transform_rows.specs.RowStreams.{is_of_streams as holds_stream};
ghost use Rattle.msi_transform_schema.specs.SchemaApplying.{have_own_keys as all_have_own_keys};
ghost use Rattle.msi_transform_schema.specs.InHand.{in_hand};
ghost use Rattle.msi_transform_schema.specs.SchemaChanges.{is_gone, rows_of_package};
ghost use Rattle.msi_transform_applying.specs.AnewInHand.{anew_in_hand, changed_in_hand};
ghost use Rattle.msi_transform_applying.specs.Applying.{system_anew};
ghost use Rattle.msi_transform_applying.specs.Applying.{is_broken as has_bad_key, rows_begun, rows_changed};
ghost use Rattle.msi_transform_applying.specs.Applying.{streams_begun, table_applied, table_or_schema, tables_in_turn};

use crate::lengthening::{begin_rows, begin_streams, columns_in_hand, lengthen_tables, with_keys};
use crate::reasons;
use crate::tables_in_hand::{TableAnew, TablesChanged, TablesInHand};
use msi_base::errors::{Error, ErrorKind};
use msi_base::text::Items;
use msi_database_changes::Stored;
use msi_database_changes::keys::{Key, distinct_keys};
use msi_database_changes::texts::PoolInUse;
use msi_database_schema::names::is_table_name;
use msi_database_schema::system::{
    COLUMNS, TABLES, columns_columns, is_schema_table, tables_columns,
};
use msi_table_cells::cell::ValueRef;
use msi_table_values::column::Column;
use msi_transform_rows::keyed::KeyedRows;
use msi_transform_rows::row::RowInHand;
use msi_transform_rows::row_changes::apply_records;
use msi_transform_rows::row_streams::is_of_streams;
use msi_transform_rows::rows_in_hand::RowsInHand;
use msi_transform_rows::table_change::TableChange;
use msi_transform_rows::table_records::{changes_schema, read_table};
use msi_transform_rows::{RecordPlace, Refusal};
use msi_transform_schema::SchemaChange;
use msi_transform_schema::schema::{SchemaInHand, TableInHand};
use msi_transform_schema::tables_by_name::TablesByName;
use std::alloc::Global;

fn has_key(columns: &[Column]) -> bool
    ensures { result ≡ list_any (λ c. c.is_primary_key) columns.now }
{
    columns.iter().any(Column::is_primary_key)
}

fn is_key_of_streams(column: &Column) -> bool
    ensures { result ≡ (column.now.is_primary_key && holds_stream column.now.coltype) }
{
    column.is_primary_key() && is_of_streams(column.coltype())
}

fn has_key_of_streams(columns: &[Column]) -> bool
    ensures { result ≡ list_any (λ c. c.is_primary_key && holds_stream c.coltype) columns.now }
{
    columns.iter().any(is_key_of_streams)
}

/// Returns rows by their keys: of those with one key, the first. It takes the rows times a logarithm.
fn by_keys<'a>(alloc: Global, rows: Vec<(Key<'a>, RowInHand)>) -> Result<KeyedRows<'a>, Error>
    ensures ok { IfOk result (λ keyed. entries keyed ≡ by_key rows.entry.items) }
    ensures kind { OnlyMemory result }
{
    let mut left = rows;
    let mut keyed = KeyedRows::new(alloc);
    while let Some((key, row)) = left.pop() {
        keyed.insert(key, row)?;
    }
    Ok(keyed)
}

/// Returns what is in hand after a table's records were applied.
fn with_anew<'a>(
    alloc: Global,
    tables: Vec<TableAnew<'a>>,
    name: &'a str,
    columns: Items<Column>,
    rows: RowsInHand<'a>,
) -> Result<TablesInHand<'a>, Error>
    ensures ok { IfOk result (λ changed. anew_in_hand changed ≡ record {
      tables = tables.entry.items
          ++ record { name = name.now; columns = columns; rows = entries rows.entry.rows } ∷ [];
      pool = in_use rows.entry.pool;
      streams = rows.entry.streams.items;
    }) }
    ensures kind { OnlyMemory result }
    ensures page { IfOk result (λ changed. changed.pool.pool.page ≡ rows.entry.pool.pool.page) }
    ensures long { IfOk result (λ changed. changed.pool.pool.long ≡ rows.entry.pool.pool.long) }
{
    let RowsInHand {
        rows,
        pool,
        streams,
    } = rows;
    let mut tables = tables;
    tables.push(TableAnew {
        name,
        columns,
        rows: rows.into_rows(alloc)?,
    })?;
    Ok(TablesInHand {
        tables,
        pool,
        streams,
    })
}

fn keys_of<'a>(
    change: &SchemaChange<'a>,
    columns: &[Column],
    rows: &[Items<ValueRef>],
) -> Result<Vec<Key<'a>>, Error>
    ensures ok { IfOk result (λ keys.
        keys.items ≡ keys_of_rows change.now.database.pool.places columns.now rows.now) }
    ensures kind { OnlyMemory result }
{
    let mut keys = Vec::with_capacity(change.alloc(), rows.len())?;
    for row in rows {
        keys.push(change.key_of_row(columns, row.as_slice())?)?;
    }
    Ok(keys)
}

fn have_own_keys(
    change: &SchemaChange,
    columns: &[Column],
    rows: &[Items<ValueRef>],
) -> Result<bool, Error>
    ensures ok { IfOk result (λ own.
        own ≡ all_have_own_keys change.now.database.pool.places columns.now rows.now) }
    ensures kind { OnlyMemory result }
{
    let keys = keys_of(change, columns, rows)?;
    Ok(distinct_keys(change.alloc(), keys)?.is_some())
}

/// Returns whether the key of a table has no columns, or some of streams, or two rows share one.
fn is_broken(
    change: &SchemaChange,
    columns: &[Column],
    rows: &[Items<ValueRef>],
) -> Result<bool, Error>
    ensures ok { IfOk result (λ broken. broken ≡ has_bad_key change.now.database columns.now rows.now) }
    ensures kind { OnlyMemory result }
{
    if !has_key(columns) || has_key_of_streams(columns) {
        return Ok(true);
    }
    Ok(!have_own_keys(change, columns, rows)?)
}

/// Refuses a table that isn't there, or whose rows can't be told apart by their keys.
fn refuse_table(
    change: &SchemaChange,
    name: &str,
    table: &TableInHand,
    columns: &[Column],
) -> Result<(), Error>
    ensures ok { let rows = rows_of_package change.now.database name.now table.now.standing in
        let broken = has_bad_key change.now.database columns.now rows in
        OnOk result (unless_refused ((is_gone table.now.standing, kind.NotFound)
        ∷ (not (is_of_table name.now), kind.InvalidData)
        ∷ (broken, kind.InvalidData) ∷ []) (tt {0}) ≡ Ok tt) }
    ensures kind { let rows = rows_of_package change.now.database name.now table.now.standing in
        let broken = has_bad_key change.now.database columns.now rows in
        IfErr result (IsRefusal (unless_refused ((is_gone table.now.standing, kind.NotFound)
        ∷ (not (is_of_table name.now), kind.InvalidData)
        ∷ (broken, kind.InvalidData) ∷ []) (tt {0}))) }
{
    if table.standing().is_gone() {
        return Err(Error::new(ErrorKind::NotFound, reasons::NO_TABLE));
    }
    if !is_table_name(name) {
        return Err(Error::new(ErrorKind::InvalidData, reasons::ODD_TABLE_NAME));
    }
    let rows = change.rows_of(name, table.standing())?;
    if is_broken(change, columns, rows.as_slice())? {
        return Err(Error::new(ErrorKind::InvalidData, reasons::TABLE_BROKEN));
    }
    Ok(())
}

/// Returns the rows of a table, before its records are applied, beside the pool and the streams.
fn begin_table<'a>(
    change: &SchemaChange<'a>,
    name: &str,
    table: &TableInHand,
    columns: &[Column],
    pool: PoolInUse,
    streams: Vec<Stored>,
) -> Result<RowsInHand<'a>, Error>
    ensures ok { let d = change.now.database in IfOk result (λ begun. rows_now begun ≡ record {
      rows = by_key (map (keyed columns.now d.pool.places) (rows_begun d name.now table.now));
      pool = in_use pool;
      streams = streams.items ++ streams_begun d name.now table.now;
    }) }
    ensures kind { OnlyMemory result }
    ensures page { IfOk result (λ begun. begun.pool.pool.page ≡ pool.pool.page) }
    ensures long { IfOk result (λ begun. begun.pool.pool.long ≡ pool.pool.long) }
{
    let rows = with_keys(change, columns, begin_rows(change, name, table)?)?;
    let rows = by_keys(change.alloc(), rows)?;
    let mut streams = streams;
    begin_streams(change, &mut streams, name, table)?;
    Ok(RowsInHand {
        rows,
        pool,
        streams,
    })
}

/// Applies the records of a table to its rows.
fn apply_to_rows<'a>(
    change: &SchemaChange<'a>,
    number: usize,
    name: &str,
    columns: &[Column],
    bytes: &[u8],
    rows: &mut RowsInHand<'a>,
) -> Result<(), Refusal>
    ensures ok { let by : RowsChange =
        record { name = name.now; columns = columns.now; by = change.now.by; passing = change.now.passing } in
        let applied = all_applied number change.now.by (shapes_in columns.now) bytes.now (record_applied by) in
        OnOk result (applied (rows_now rows.old) ≡ Ok (rows_now rows.new)) }
    ensures kind { let by : RowsChange =
        record { name = name.now; columns = columns.now; by = change.now.by; passing = change.now.passing } in
        let applied = all_applied number change.now.by (shapes_in columns.now) bytes.now (record_applied by) in
        IfErr result (IsRefused (applied (rows_now rows.old))) }
    ensures page { rows.new.pool.pool.page ≡ rows.old.pool.pool.page }
    ensures long { rows.new.pool.pool.long ≡ rows.old.pool.pool.long }
{
    let (alloc, transform) = (change.alloc(), change.transform());
    let change = TableChange::new(alloc, name, columns, transform, change.passing())?;
    let records = read_table(alloc, number, transform, change.shapes(), bytes)?;
    apply_records(&change, number, rows, records.as_slice())
}

/// Applies the records of a table, which has this place among those of the transform.
fn change_table<'a>(
    change: &SchemaChange<'a>,
    told: &TablesByName<'a>,
    number: usize,
    hand: TablesInHand<'a>,
    name: &'a str,
    bytes: &[u8],
) -> Result<TablesInHand<'a>, Refusal>
    ensures ok { let applied = table_applied change.now (entries told.now) number in IfOk result (λ changed.
        applied (anew_in_hand hand.entry) (name.now, bytes.now) ≡ Ok (anew_in_hand changed)) }
    ensures kind { let applied = table_applied change.now (entries told.now) number in
        IfErr result (IsRefused (applied (anew_in_hand hand.entry) (name.now, bytes.now))) }
    ensures page { IfOk result (λ changed. changed.pool.pool.page ≡ hand.entry.pool.pool.page) }
    ensures long { IfOk result (λ changed. changed.pool.pool.long ≡ hand.entry.pool.pool.long) }
{
    let table = change.table_in_hand(told, name)?;
    let columns = columns_in_hand(change, name, &table)?;
    let slice = columns.as_slice();
    if let Err(error) = refuse_table(change, name, &table, slice) {
        let place = RecordPlace {
            table: number,
            record_number: 0,
        };
        return Err(Refusal::at(error, place));
    }
    let TablesInHand {
        tables,
        pool,
        streams,
    } = hand;
    let mut rows = begin_table(change, name, &table, slice, pool, streams)?;
    apply_to_rows(change, number, name, slice, bytes, &mut rows)?;
    Ok(with_anew(change.alloc(), tables, name, columns, rows)?)
}

/// Applies the records of a table, or passes over `_Tables` and `_Columns`.
fn change_or_pass<'a>(
    change: &SchemaChange<'a>,
    told: &TablesByName<'a>,
    number: usize,
    hand: TablesInHand<'a>,
    name: &'a str,
    bytes: &[u8],
) -> Result<TablesInHand<'a>, Refusal>
    ensures ok { let applied = table_or_schema change.now (entries told.now) number in IfOk result (λ changed.
        applied (anew_in_hand hand.entry) (name.now, bytes.now) ≡ Ok (anew_in_hand changed)) }
    ensures kind { let applied = table_or_schema change.now (entries told.now) number in
        IfErr result (IsRefused (applied (anew_in_hand hand.entry) (name.now, bytes.now))) }
    ensures page { IfOk result (λ changed. changed.pool.pool.page ≡ hand.entry.pool.pool.page) }
    ensures long { IfOk result (λ changed. changed.pool.pool.long ≡ hand.entry.pool.pool.long) }
{
    if is_schema_table(name) {
        return Ok(hand);
    }
    change_table(change, told, number, hand, name, bytes)
}

/// Applies the records of the tables of the transform in turn.
fn change_tables<'a>(
    change: &SchemaChange<'a>,
    told: &TablesByName<'a>,
    hand: TablesInHand<'a>,
) -> Result<TablesInHand<'a>, Refusal>
    ensures ok { let applied = tables_in_turn change.now (entries told.now) 0 in IfOk result (λ changed.
        applied (anew_in_hand hand.entry) change.now.by.tables ≡ Ok (anew_in_hand changed)) }
    ensures kind { let applied = tables_in_turn change.now (entries told.now) 0 in
        IfErr result (IsRefused (applied (anew_in_hand hand.entry) change.now.by.tables)) }
    ensures page { IfOk result (λ changed. changed.pool.pool.page ≡ hand.entry.pool.pool.page) }
    ensures long { IfOk result (λ changed. changed.pool.pool.long ≡ hand.entry.pool.pool.long) }
{
    let mut changed = hand;
    let mut number = 0;
    for (name, bytes) in change.transform().tables() {
        changed = change_or_pass(
            change,
            told,
            number,
            changed,
            name.as_str(),
            bytes.as_slice(),
        )?;
        number += 1;
    }
    Ok(changed)
}

/// Returns `_Tables` and `_Columns`, which are stored anew where the transform has records of either.
fn systems_anew<'a>(
    change: &SchemaChange<'a>,
    listed: KeyedRows<'a>,
    described: KeyedRows<'a>,
) -> Result<Vec<TableAnew<'a>>, Error>
    ensures ok { let anew = system_anew tables_name columns_of_tables (entries listed.entry)
        ∷ system_anew columns_name columns_of_columns (entries described.entry) ∷ [] in
        IfOk result (λ tables. tables.items ≡ (if tells_of_schema change.now.by then anew else [])) }
    ensures kind { OnlyMemory result }
{
    let mut tables = Vec::new(change.alloc());
    if changes_schema(change.transform()) {
        tables.push(TableAnew {
            name: TABLES,
            columns: tables_columns(change.alloc())?,
            rows: listed.into_rows(change.alloc())?,
        })?;
        tables.push(TableAnew {
            name: COLUMNS,
            columns: columns_columns(change.alloc())?,
            rows: described.into_rows(change.alloc())?,
        })?;
    }
    Ok(tables)
}

/// Applies the records of all tables but `_Tables` and `_Columns`, and lengthens the rows of tables that only get
/// columns.
///
/// # Errors
/// Fails at the first table that isn't there (`NotFound`) or is broken (`InvalidData`), and at the first record
/// that is malformed (`InvalidData`) or at which `apply_records` fails, with that record's place: a table's is that
/// of its first. It may fail with `OutOfMemory` in place of any.
pub(crate) fn change_rows<'a>(
    change: &SchemaChange<'a>,
    schema: SchemaInHand<'a>,
) -> Result<TablesChanged<'a>, Refusal>
    ensures ok { IfOk result (λ changed.
        rows_changed change.now (in_hand schema.entry) ≡ Ok (changed_in_hand changed)) }
    ensures kind { IfErr result (IsRefused (rows_changed change.now (in_hand schema.entry))) }
    ensures page { IfOk result (λ changed. changed.tables.pool.pool.page ≡ schema.entry.pool.pool.page) }
    ensures long { IfOk result (λ changed. changed.tables.pool.pool.long ≡ schema.entry.pool.pool.long) }
{
    let SchemaInHand {
        tables: told,
        listed,
        described,
        pool,
        streams,
    } = schema;
    let begun = TablesInHand {
        tables: systems_anew(change, listed, described)?,
        pool,
        streams,
    };
    let mut tables = change_tables(change, &told, begun)?;
    lengthen_tables(change, &mut tables, &told)?;
    Ok(TablesChanged { told, tables })
}
