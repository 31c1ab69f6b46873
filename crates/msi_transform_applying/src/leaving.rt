//! What a transform leaves: the pool, and the streams.

ghost use Rattle.std.specs.Prelude.{◌≡◌, ◌∷◌, [], IfErr, IfOk, Ok, OnOk, map, not};
ghost use Rattle.std.specs.FinMap.{entries};
ghost use Rattle.std.specs.List.{AllByRecursion};
ghost use Rattle.msi_base.specs.Refusals.{unless_refused};
ghost use Rattle.msi_base.specs.Results.{OnlyMemory};
ghost use Rattle.msi_base.specs.declared.errors.ErrorKind.TheVariants.{InvalidInput};
ghost use Rattle.msi_pool.specs.FirstFit.{is_long_with};
ghost use Rattle.msi_database_changes.specs.Texts.{in_use, widens};
ghost use Rattle.msi_database_schema.specs.Keys.{table_key as key_of_table};
ghost use Rattle.msi_database_storage.specs.Storing.{stored_in};
ghost use Rattle.msi_database_storage.specs.Streams.{with_stream, with_stream_or_none, without_stream};
ghost use Rattle.msi_transform_rows.specs.RecordRefusals.{IsRefused};
ghost use Rattle.msi_transform_rows.specs.RowChanges.{cells_of};
ghost use Rattle.msi_transform_applying.specs.AnewInHand.{anew_in_hand, changed_in_hand};
ghost use Rattle.msi_transform_applying.specs.Applying.{finished, page_after as page_left};
ghost use Rattle.msi_transform_applying.specs.Applying.{pool_left as pool_that_is_left};
ghost use Rattle.msi_transform_applying.specs.Applying.{streams_stored, streams_under, table_stored};
ghost use Rattle.msi_transform_applying.specs.Applying.{texts_read_back as all_read_back};
ghost use Rattle.msi_transform_applying.specs.LeftInHand.{CanBeStored, base_of, left_in_hand};

use crate::agreeing::{check_expected, expected_streams};
use crate::reasons;
use crate::tables_in_hand::{TableAnew, TablesChanged, TablesInHand};
use msi_base::codepage::CodePage;
use msi_base::errors::{Error, ErrorKind};
use msi_base::text::Items;
use msi_container_format::contents::{Bytes, StreamMap};
use msi_container_format::name::Name;
use msi_database_changes::Stored;
use msi_database_changes::keys::Key;
use msi_database_changes::texts::PoolInUse;
use msi_database_schema::names::table_key;
use msi_database_schema::short_table_key;
use msi_database_storage::look_at;
use msi_pool::stringpool::StringPool;
use msi_table_cells::cell::ValueRef;
use msi_transform::Transform;
use msi_transform_rows::Refusal;
use msi_transform_rows::row::RowInHand;
use msi_transform_rows::row_bytes::row_bytes;
use msi_transform_schema::SchemaChange;
use std::alloc::Global;

/// The pool and the streams that a transform leaves.
#[derive(Drop)]
pub struct Left {
    /// The pool.
    pub pool: StringPool,
    /// The streams of the container's root.
    pub streams: StreamMap,
}

fn page_after(page: CodePage, transform: &Transform) -> CodePage
    ensures { result ≡ page_left page transform.now }
{
    if transform.page_id() == 0 {
        page
    } else {
        transform.pool().codepage()
    }
}

/// Returns the pool that is left.
fn pool_left(used: PoolInUse, transform: &Transform) -> StringPool
    ensures { result ≡ pool_that_is_left used.pool transform.now (in_use used) }
{
    let mut pool = used.into_pool();
    let page = page_after(pool.codepage(), transform);
    pool.set_codepage(page);
    pool
}

fn put_stream(streams: &mut StreamMap, name: Name, bytes: Bytes) -> Result<(), Error>
    ensures ok { OnOk result (entries streams.new ≡ with_stream name bytes (entries streams.old)) }
    ensures kind { OnlyMemory result }
{
    streams.insert(name, bytes)?;
    Ok(())
}

fn remove_stream(streams: &mut StreamMap, name: &Name)
    ensures { entries streams.new ≡ without_stream name.now (entries streams.old) }
{
    streams.remove(name);
}

/// Makes a stream what it becomes. After an error the streams are as they were.
#[tactic(auto, using(crate::proofs::LeavingLemmas::stored_put, crate::proofs::LeavingLemmas::stored_gone))]
fn store(streams: &mut StreamMap, stored: Stored) -> Result<(), Error>
    ensures ok { OnOk result
        (entries streams.new ≡ with_stream_or_none stored.name stored.bytes (entries streams.old)) }
    ensures kind { OnlyMemory result }
{
    let Stored { name, bytes } = stored;
    match bytes {
        Some(bytes) => put_stream(streams, name, bytes),
        None => {
            remove_stream(streams, &name);
            Ok(())
        }
    }
}

/// Makes streams what they become, one after the other. After an error they may be in any state.
fn store_each(streams: &mut StreamMap, stored: Vec<Stored>) -> Result<(), Error>
    ensures ok { OnOk result (entries streams.new ≡ stored_in stored.items (entries streams.old)) }
    ensures kind { OnlyMemory result }
{
    for stream in stored {
        store(streams, stream)?;
    }
    Ok(())
}

/// Removes the stream of a table without rows. One whose name is too long for a stream has none.
fn remove_table(streams: &mut StreamMap, name: &str)
    ensures { entries streams.new ≡ without_stream (key_of_table name.now) (entries streams.old) }
{
    match table_key(name) {
        Some(key) => remove_stream(streams, &key),
        None => look_at(streams),
    }
}

/// Returns the cells of rows, moved out.
fn into_cells(alloc: Global, rows: Vec<(Key<'_>, RowInHand)>) -> Result<Vec<Items<ValueRef>>, Error>
    ensures ok { IfOk result (λ cells. cells.items ≡ cells_of rows.entry.items) }
    ensures kind { OnlyMemory result }
{
    let mut all = Vec::with_capacity(alloc, rows.len())?;
    for (_, row) in rows {
        let RowInHand { cells, stream: _ } = row;
        all.push(cells)?;
    }
    Ok(all)
}

/// Stores a table anew.
fn store_table(
    alloc: Global,
    streams: &mut StreamMap,
    long: bool,
    table: TableAnew,
) -> Result<(), Error>
    requires { CanBeStored table }
    ensures ok { let stored = table_stored long table.entry in OnOk result
        (entries streams.new ≡ with_stream_or_none stored.name stored.bytes (entries streams.old)) }
    ensures kind { OnlyMemory result }
{
    let TableAnew {
        name,
        columns,
        rows,
    } = table;
    let cells = into_cells(alloc, rows)?;
    if cells.is_empty() {
        remove_table(streams, name);
        return Ok(());
    }
    let bytes = row_bytes(alloc, long, columns.as_slice(), cells)?;
    put_stream(streams, short_table_key(name), Bytes::from_vec(bytes))?;
    Ok(())
}

/// Stores tables anew, one after the other. After an error the streams may be in any state.
fn store_tables(
    alloc: Global,
    streams: &mut StreamMap,
    long: bool,
    tables: Vec<TableAnew>,
) -> Result<(), Error>
    requires { AllByRecursion CanBeStored tables.items }
    ensures ok { OnOk result
        (entries streams.new ≡ stored_in (map (table_stored long) tables.entry.items) (entries streams.old)) }
    ensures kind { OnlyMemory result }
{
    for table in tables {
        store_table(alloc, streams, long, table)?;
    }
    Ok(())
}

/// Returns the pool and the streams once the tables that are in hand are stored over these streams.
fn stored_over(
    alloc: Global,
    tables: TablesInHand,
    transform: &Transform,
    under: StreamMap,
) -> Result<Left, Error>
    requires { AllByRecursion CanBeStored (anew_in_hand tables).tables }
    ensures pool { IfOk result (λ left.
        left.pool ≡ pool_that_is_left tables.entry.pool.pool transform.now (in_use tables.entry.pool)) }
    ensures streams { IfOk result (λ left. entries left.streams
        ≡ stored_in (streams_stored left.pool.long (anew_in_hand tables.entry)) (entries under)) }
    ensures kind { OnlyMemory result }
{
    let TablesInHand {
        tables,
        pool,
        streams: stored,
    } = tables;
    let pool = pool_left(pool, transform);
    let mut streams = under;
    store_each(&mut streams, stored)?;
    store_tables(alloc, &mut streams, pool.long_string_refs(), tables)?;
    Ok(Left { pool, streams })
}

/// Returns whether each text that a cell refers to can be written in the pool's page, and reads back as it was.
fn texts_read_back(pool: &StringPool) -> bool
    ensures { result ≡ all_read_back pool.now }
{
    pool.is_writable()
}

fn check_texts(pool: &StringPool) -> Result<(), Error>
    ensures { result ≡ unless_refused ((not (all_read_back pool.now), InvalidInput) ∷ []) tt }
{
    if texts_read_back(pool) {
        Ok(())
    } else {
        Err(Error::new(ErrorKind::InvalidInput, reasons::TEXT_NOT_IN_PAGE))
    }
}

impl TablesChanged<'_> {
    /// Returns whether the references of the package's pool have to get wider.
    pub fn needs_long(&self) -> bool
        ensures { result ≡ widens self.now.tables.pool.pool }
    {
        self.tables.pool.is_widened()
    }
}

/// Returns the pool and the streams that are left once the changed tables are stored over these streams: the
/// package's, with wider references where `needs_long` says so. A table that has rows needs a name whose stream a
/// container can have.
///
/// # Errors
/// Fails with `InvalidInput` if two rows whose streams have one name would have other bytes, or if a text can't be
/// written in the code page so that it reads back. Otherwise it fails with `OutOfMemory`.
pub fn leave<'a>(
    change: &SchemaChange<'a>,
    changed: TablesChanged<'a>,
    under: StreamMap,
) -> Result<Left, Refusal>
    requires page { changed.tables.pool.pool.page ≡ change.now.database.pool.page }
    requires long { changed.tables.pool.pool.long ≡ change.now.database.pool.long }
    requires named { AllByRecursion CanBeStored (changed_in_hand changed).tables.tables }
    requires under { let long = is_long_with change.now.database.pool.long changed.tables.pool.pool.places in
        entries under ≡ streams_under (base_of change.now) long }
    ensures ok { let c = changed_in_hand changed.entry in
        IfOk result (λ left. finished (base_of change.now) change.now.by c ≡ Ok (left_in_hand left)) }
    ensures kind { let c = changed_in_hand changed.entry in
        IfErr result (IsRefused (finished (base_of change.now) change.now.by c)) }
{
    let expected = expected_streams(change, &changed)?;
    let TablesChanged { told: _, tables } = changed;
    let left = stored_over(change.alloc(), tables, change.transform(), under)?;
    check_expected(expected.as_slice(), &left.streams)?;
    check_texts(&left.pool)?;
    Ok(left)
}
