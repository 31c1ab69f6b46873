//! Which places of a pool cells name, so that the texts of the other free places can be dropped.

ghost use Rattle.std.specs.Prelude.{◌≡◌, ◌≤◌, ◌++◌, ◌||◌, ℕ, Bool, IfOk, List, length, map, nat_lt};
ghost use Rattle.std.specs.FinMap.{entries};
ghost use Rattle.msi_base.specs.Lists.{tabulated};
ghost use Rattle.msi_base.specs.Results.{OnlyMemory};
ghost use Rattle.msi_pool.specs.Pool.{CountsFit};
ghost use Rattle.msi_table.specs.Census.{IsCensus, numbers_of_rows};
ghost use Rattle.msi_database_storage.specs.Kept.{AreAsLong, table_kept};
ghost use Rattle.msi_database_storage.specs.Naming.{is_named_in, numbers_of_tables, pool_shown};
ghost use Rattle.msi_database_storage.specs.StreamNames.{HaveShortNames};

use crate::decoding::stream_bytes;
use msi_base::errors::Error;
use msi_base::text::Items;
use msi_container_format::contents::StreamMap;
use msi_pool::parts::{forget_texts, free_places_are_empty};
use msi_pool::stringpool::StringPool;
use msi_table::Table;
use msi_table::parts::Census;
use msi_table_cells::cell::ValueRef;
use std::alloc::Global;

/// Returns the census of the cells of tables, for a pool of so many places. It makes no row. A table that can't be
/// read has no cell. The streams' names are a container's.
///
/// # Errors
/// Fails with `OutOfMemory`.
pub fn tables_census(
    alloc: Global,
    many: u32,
    streams: &StreamMap,
    tables: &[Table],
) -> Result<Census, Error>
    requires { HaveShortNames (entries streams.now) }
    ensures ok { let root = entries streams.now in
        IfOk result (λ census. (long : Bool) → AreAsLong long tables.now
        → IsCensus many (numbers_of_tables (map (table_kept root long) tables.now)) census) }
    ensures kind { OnlyMemory result }
{
    let mut census = Census::new(alloc, many)?;
    for table in tables {
        census.count_stored(table, stream_bytes(streams, table.name()));
    }
    Ok(census)
}

fn is_named(count: u16, other: u16) -> bool
    ensures { result ≡ (nat_lt 0 count || nat_lt 0 other) }
{
    count > 0 || other > 0
}

fn named_places(alloc: Global, census: &Census, other: &Census) -> Result<Vec<bool>, Error>
    requires { length census.now.counts ≡ length other.now.counts }
    ensures ok { IfOk result (λ named.
        named.items ≡ tabulated (length census.now.counts) (is_named_in census.now other.now)) }
    ensures kind { OnlyMemory result }
{
    let (counts, others) = (census.counts(), other.counts());
    let mut named = Vec::with_capacity(alloc, counts.len())?;
    for i in 0..counts.len() {
        named.push(is_named(counts[i], others[i]))?;
    }
    Ok(named)
}

/// Returns the pool without the texts of free places that no cell names: none that the census of the tables has
/// counted, and none of rows beside them. It costs nothing where no free place has a text.
///
/// # Errors
/// Fails with `OutOfMemory`.
pub fn with_named_texts(
    alloc: Global,
    pool: StringPool,
    census: &Census,
    rows: &[Items<ValueRef>],
) -> Result<StringPool, Error>
    requires { length census.now.counts ≡ length pool.places }
    ensures ok { IfOk result (λ shown. (numbers : List ℕ) → IsCensus (length pool.places) numbers census.now
        → shown ≡ pool_shown (numbers ++ numbers_of_rows rows.now) pool) }
    ensures few { IfOk result (λ _. length pool.places ≤ 16777215) }
    ensures counts { IfOk result (λ _. CountsFit pool.places) }
    ensures kind { OnlyMemory result }
{
    if free_places_are_empty(&pool) {
        return Ok(pool);
    }
    let mut pool = pool;
    let mut beside = Census::new(alloc, pool.num_strings())?;
    beside.count_rows(rows);
    let named = named_places(alloc, census, &beside)?;
    forget_texts(&mut pool, named.as_slice());
    Ok(pool)
}
