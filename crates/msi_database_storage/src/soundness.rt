//! Whether a database is sound. All that its cells have to do with it stands in their census.

ghost use Rattle.std.specs.Prelude.{◌≡◌, ◌&&◌, ℕ, Bool, List, bytes_eq, length, map, nat_le, true};
ghost use Rattle.std.specs.FinMap.{entries};
ghost use Rattle.std.specs.List.{list_all};
ghost use Rattle.std.specs.Option as options;
ghost use Rattle.msi_pool.specs.FirstFit.{most_places as most_of};
ghost use Rattle.msi_table.specs.Census.{IsCensus};
ghost use Rattle.msi_database_schema.specs.System.{validation_columns, validation_name};
ghost use Rattle.msi_database_changes.specs.Database.{are_alike as alike, is_readable_table, is_sound as is_sound_one};
ghost use Rattle.msi_database_changes.specs.Database.{named_numbers, same_bool, same_kind as same_kinds};
ghost use Rattle.msi_database_storage.specs.Kept.{AreAsLong, database_kept, table_kept, table_kept_at};
ghost use Rattle.msi_database_storage.specs.Naming.{all_suffice};
ghost use Rattle.msi_database_storage.specs.StreamNames.{HaveShortNames};

use crate::decoding::is_readable;
use crate::listing::table_named;
use msi_container_format::contents::StreamMap;
use msi_database_schema::names::is_table_name;
use msi_database_schema::system::VALIDATION;
use msi_pool::parts::{most_places, string_ref};
use msi_pool::stringpool::StringPool;
use msi_table::Table;
use msi_table::parts::Census;
use msi_table_values::column::{Column, ColumnType};

/// Returns whether the pool has no more places than its references can name.
pub fn fits_width(pool: &StringPool) -> bool
    ensures { result ≡ nat_le (length pool.now.places) (most_of pool.now.long) }
{
    pool.num_strings() as usize <= most_places(pool.long_string_refs())
}

fn same_kind(coltype: ColumnType, other: ColumnType) -> bool
    ensures { result ≡ same_kinds coltype other }
{
    match coltype {
        ColumnType::Int16 => matches!(other, ColumnType::Int16),
        ColumnType::Int32 => matches!(other, ColumnType::Int32),
        ColumnType::Str(_) => matches!(other, ColumnType::Str(_)),
        ColumnType::Binary => matches!(other, ColumnType::Binary),
    }
}

/// Returns whether two columns agree in name, type and key.
fn is_alike(column: &Column, other: &Column) -> bool
    ensures { result ≡ (bytes_eq column.now.name other.now.name && same_kinds column.now.coltype other.now.coltype
        && same_bool column.now.is_primary_key other.now.is_primary_key) }
{
    column.name() == other.name()
        && same_kind(column.coltype(), other.coltype())
        && column.is_primary_key() == other.is_primary_key()
}

fn are_alike(columns: &[Column], others: &[Column]) -> bool
    ensures { result ≡ alike columns.now others.now }
{
    if columns.len() != others.len() {
        return false;
    }
    for i in 0..columns.len() {
        if !is_alike(&columns[i], &others[i]) {
            return false;
        }
    }
    true
}

/// Returns whether `_Validation`, where it is a table, has these columns by name, kind and key.
pub fn is_standard(tables: &[Table], standard: &[Column]) -> bool
    ensures { result ≡ options.option_map_or (λ t. alike t.columns standard.now)
        (table_kept_at validation_name tables.now) true }
{
    match table_named(tables, VALIDATION) {
        Some(table) => are_alike(table.columns(), standard),
        None => true,
    }
}

/// Returns whether each place's count is at least the number of the cells that name it. No place has one above the most
/// that a census counts.
fn counts_suffice(pool: &StringPool, census: &Census) -> bool
    requires { length census.now.counts ≡ length pool.now.places }
    ensures { (numbers : List ℕ) → IsCensus (length pool.now.places) numbers census.now
        → result ≡ all_suffice pool.now.places numbers }
{
    let counts = census.counts();
    for i in 0..pool.num_strings() {
        if counts[i as usize] > pool.refcount(string_ref(i + 1)) {
            return false;
        }
    }
    census.fits()
}

fn is_sound_table(streams: &StreamMap, table: &Table) -> bool
    requires { HaveShortNames (entries streams.now) }
    ensures { result ≡ is_readable_table (table_kept (entries streams.now) table.now.long table.now) }
{
    is_readable(streams, table) && is_table_name(table.name())
}

/// Returns whether tables have accepted names and rows that can be read. The streams' names are a container's, as each
/// `Name` is. It takes no memory.
pub fn are_sound_tables(streams: &StreamMap, tables: &[Table]) -> bool
    requires { HaveShortNames (entries streams.now) }
    ensures { (long : Bool) → AreAsLong long tables.now
        → result ≡ list_all is_readable_table (map (table_kept (entries streams.now) long) tables.now) }
{
    for table in tables {
        if !is_sound_table(streams, table) {
            return false;
        }
    }
    true
}

/// Returns whether a database of these parts is sound. The census is that of all cells, and `standard` are the
/// standard columns of `_Validation`. The tables refer to texts in the pool's width. It takes no memory.
pub fn are_sound(
    pool: &StringPool,
    tables: &[Table],
    streams: &StreamMap,
    census: &Census,
    standard: &[Column],
) -> bool
    requires names { HaveShortNames (entries streams.now) }
    requires long { AreAsLong pool.now.long tables.now }
    requires census { let database = database_kept pool.now tables.now (entries streams.now) in
        IsCensus (length pool.now.places) (named_numbers database) census.now }
    requires standard { standard.now ≡ validation_columns }
    ensures { result ≡ is_sound_one (database_kept pool.now tables.now (entries streams.now)) }
{
    if !counts_suffice(pool, census) {
        return false;
    }
    if !census.is_within() {
        return false;
    }
    if !fits_width(pool) {
        return false;
    }
    if !are_sound_tables(streams, tables) {
        return false;
    }
    is_standard(tables, standard)
}
