//! Whether a transform can be made of databases.

ghost use Rattle.std.specs.Prelude.{◌≡◌, ◌≢◌, ◌∷◌, ◌&&◌, ◌==◌, [], IfErr, IfOk, IfSome, None, OnOk};
ghost use Rattle.std.specs.Prelude.{bytes_eq, drop, length, map, not};
ghost use Rattle.std.specs.FinMap.{entries};
ghost use Rattle.std.specs.List.{flat_map, list_any};
ghost use Rattle.msi_base.specs.Lists.{has_pair};
ghost use Rattle.msi_base.specs.Refusals.{first_refusal, unless_refused};
ghost use Rattle.msi_base.specs.Results.{OnlyMemory};
ghost use Rattle.msi_base.specs.declared.errors.ErrorKind.TheVariants.{InvalidInput, OutOfMemory};
ghost use Rattle.msi_database_changes.specs.Database.{has_table};
ghost use Rattle.msi_database_changes.specs.KeySets.{keys_of_rows};
ghost use Rattle.msi_database_schema.specs.System.{columns_name};
ghost use Rattle.msi_transform_applying.specs.Applying.{is_broken as is_table_broken};
ghost use Rattle.msi_transform_schema.specs.SchemaApplying.{have_own_keys as are_keys_apart};
ghost use Rattle.msi_transform_applying.specs.Applying.{reads_back as reads_back_in};
ghost use Rattle.msi_transform_rows.specs.RowStreams.{is_of_streams as holds_stream};
ghost use Rattle.msi_transform_schema.specs.SchemaChanges.{is_name_to_list as may_be_listed};
ghost use Rattle.msi_transform_pair.specs.Pair.{StopsBy, begin_alike as rows_begin_alike};
ghost use Rattle.msi_transform_pair.specs.Pair.{gains_columns as are_columns_gained};
ghost use Rattle.msi_transform_pair.specs.Pair.{has_odd_columns as are_columns_odd};
ghost use Rattle.msi_transform_pair.specs.Pair.{is_odd_table as is_table_odd, is_unfit as is_kept_unfit};
ghost use Rattle.msi_transform_pair.specs.Pair.{keeps_columns as are_columns_kept, lacks_text as is_text_lacking};
ghost use Rattle.msi_transform_pair.specs.Pair.{is_lacking as is_place_lacking};
ghost use Rattle.msi_transform_pair.specs.Pair.{lacks_text_of as is_text_of_pool_lacking};
ghost use Rattle.msi_transform_pair.specs.Pair.{loses_page as is_page_lost, pair_of, reasons as all_reasons};
ghost use Rattle.msi_transform_pair.specs.Pair.{table_reasons, told_names as names_told, told_rows as rows_told};
ghost use Rattle.msi_transform_pair.specs.MakingRefusals.{IsAtFault};
ghost use Rattle.msi_transform_pair.specs.Names.{names_in};

use crate::base::Base;
use crate::described::{Described, described_columns};
use crate::fingerprints::have_own_fingerprints;
use crate::reasons;
use crate::refusal::MakingRefusal;
use crate::stream_names::shares_stream;
use msi_base::codepage::CodePage;
use msi_base::errors::{Error, ErrorKind, Reason};
use msi_base::text::Items;
use msi_database_changes::keys::{Key, distinct_keys};
use msi_database_changes::views::views_of_cells;
use msi_database_schema::names::is_table_name;
use msi_database_schema::system::is_schema_table;
use msi_pool::parts::string_ref;
use msi_pool::stringpool::StringPool;
use msi_table_cells::cell::ValueRef;
use msi_table_values::column::Column;
use msi_transform_rows::row_streams::is_of_streams;
use std::alloc::Global;

fn is_name_to_list(name: &str) -> bool
    ensures { result ≡ may_be_listed name.now }
{
    is_table_name(name) && !is_schema_table(name)
}

fn keys_of_cells<'a>(
    alloc: Global,
    pool: &'a StringPool,
    columns: &[Column],
    rows: &[Items<ValueRef>],
) -> Result<Vec<Key<'a>>, Error>
    ensures ok { IfOk result (λ keys. keys.items ≡ keys_of_rows pool.now.places columns.now rows.now) }
    ensures kind { OnlyMemory result }
{
    let mut keys = Vec::new(alloc);
    for row in rows {
        let views = views_of_cells(alloc, pool, row.as_slice())?;
        keys.push(Key::of_row(alloc, columns, views.as_slice())?)?;
    }
    Ok(keys)
}

fn have_own_keys(
    alloc: Global,
    pool: &StringPool,
    columns: &[Column],
    rows: &[Items<ValueRef>],
) -> Result<bool, Error>
    ensures ok { IfOk result (λ own. own ≡ are_keys_apart pool.now.places columns.now rows.now) }
    ensures kind { OnlyMemory result }
{
    if have_own_fingerprints(alloc, pool, columns, rows)? {
        return Ok(true);
    }
    let keys = keys_of_cells(alloc, pool, columns, rows)?;
    let distinct = distinct_keys(alloc, keys)?;
    Ok(distinct.is_some())
}

fn has_key(columns: &[Column]) -> bool
    ensures { result ≡ list_any (λ c. c.is_primary_key) columns.now }
{
    columns.iter().any(|column| column.is_primary_key())
}

fn has_key_of_streams(columns: &[Column]) -> bool
    ensures { result ≡ list_any (λ c. c.is_primary_key && holds_stream c.coltype) columns.now }
{
    columns.iter().any(|column| column.is_primary_key() && is_of_streams(column.coltype()))
}

/// Returns whether a table has no key, or one of streams, or two rows with one key.
fn is_broken(base: &Base, columns: &[Column], rows: &[Items<ValueRef>]) -> Result<bool, Error>
    ensures ok { IfOk result (λ broken. broken ≡ is_table_broken base.now.kept.database columns.now rows.now) }
    ensures kind { OnlyMemory result }
{
    if !has_key(columns) || has_key_of_streams(columns) {
        return Ok(true);
    }
    Ok(!have_own_keys(base.alloc, base.pool(), columns, rows)?)
}

fn is_odd_table(base: &Base, name: &str) -> Result<bool, Error>
    ensures ok { IfOk result (λ odd. odd ≡ is_table_odd base.now.kept name.now) }
    ensures kind { OnlyMemory result }
{
    if !is_name_to_list(name) {
        return Ok(true);
    }
    if !base.has_table(name) {
        return Ok(false);
    }
    is_broken(base, base.columns_of(name), base.rows_of(name)?.as_slice())
}

fn has_odd_table(base: &Base, names: &[&str]) -> Result<bool, Error>
    ensures ok { IfOk result (λ odd. odd ≡ list_any (is_table_odd base.now.kept) (names_in names.now)) }
    ensures kind { OnlyMemory result }
{
    for name in names {
        if is_odd_table(base, name)? {
            return Ok(true);
        }
    }
    Ok(false)
}

/// Returns whether no transform is made of a database: it has a table of a name that none may have, or one that is
/// broken.
fn is_unfit(base: &Base) -> Result<bool, Error>
    ensures ok { IfOk result (λ unfit. unfit ≡ is_kept_unfit base.now.kept) }
    ensures kind { OnlyMemory result }
{
    let names = base.told_names()?;
    has_odd_table(base, names.as_slice())
}

fn loses_page(old: &Base, new: &Base) -> bool
    ensures { result ≡ is_page_lost (pair_of old.now new.now) }
{
    new.page_id() == 0 && old.page_id() != 0
}

/// Returns whether a text that is written in a page is read back, as each is in UTF-8.
fn reads_back(page: CodePage, text: &str) -> bool
    ensures { result ≡ reads_back_in page text.now }
{
    page.reads_back(text)
}

fn is_lacking(page: CodePage, count: u16, text: &str) -> bool
    ensures { result ≡ is_place_lacking page (record { text = text.now; count = count }) }
{
    count > 0 && !reads_back(page, text)
}

/// Returns whether the page of a pool lacks a text in use.
fn lacks_text_of(pool: &StringPool) -> bool
    ensures { result ≡ is_text_of_pool_lacking pool.now }
{
    for at in 0..pool.num_strings() {
        let reference = string_ref(at + 1);
        let lacking = is_lacking(
            pool.codepage(),
            pool.refcount(reference),
            pool.get(reference),
        );
        if lacking {
            return true;
        }
    }
    false
}

fn lacks_text(base: &Base) -> bool
    ensures { result ≡ is_text_lacking base.now.kept }
{
    lacks_text_of(base.pool())
}

/// Returns whether rows are those with which others begin.
fn begin_alike(rows: &[Key], others: &[Key]) -> bool
    ensures { result ≡ rows_begin_alike rows.now others.now }
{
    for i in 0..rows.len() {
        if i >= others.len() {
            return false;
        }
        if rows[i] != others[i] {
            return false;
        }
    }
    true
}

fn adds_key(columns: &[Column], before: usize) -> bool
    ensures { result ≡ list_any (λ c. c.is_primary_key) (drop before columns.now) }
{
    before < columns.len() && has_key(&columns[before..])
}

/// Returns whether a table that both databases have keeps its columns, and gets none of the key.
fn keeps_columns<'a>(
    old: &Base<'a>,
    new: &Base<'a>,
    described: &Described<'a>,
    name: &str,
) -> Result<bool, Error>
    requires old { entries described.now.old ≡ rows_told old.now.kept columns_name 0 }
    requires new { entries described.now.new ≡ rows_told new.now.kept columns_name 0 }
    ensures ok { IfOk result (λ kept. kept ≡ are_columns_kept old.now.kept new.now.kept name.now) }
    ensures kind { OnlyMemory result }
{
    let rows = described_columns(old, &described.old, name)?;
    let others = described_columns(new, &described.new, name)?;
    if !begin_alike(rows.as_slice(), others.as_slice()) {
        return Ok(false);
    }
    Ok(!adds_key(new.columns_of(name), old.columns_of(name).len()))
}

fn gains_columns(old: &Base, new: &Base, name: &str) -> bool
    ensures { result ≡ are_columns_gained old.now.kept new.now.kept name.now }
{
    old.columns_of(name).len() < new.columns_of(name).len()
}

fn has_nameless(columns: &[Column]) -> bool
    ensures { result ≡ list_any (λ c. length c.name == 0) columns.now }
{
    columns.iter().any(|column| column.name().is_empty())
}

fn has_name(columns: &[Column], name: &str) -> bool
    ensures { result ≡ list_any (bytes_eq name.now) (map (λ c. c.name) columns.now) }
{
    for column in columns {
        if name == column.name() {
            return true;
        }
    }
    false
}

/// Returns whether two columns have one name.
fn has_name_twice(columns: &[Column]) -> bool
    ensures { result ≡ has_pair bytes_eq (map (λ c. c.name) columns.now) }
{
    for i in 0..columns.len() {
        if has_name(&columns[i + 1..], columns[i].name()) {
            return true;
        }
    }
    false
}

fn has_odd_columns(columns: &[Column]) -> bool
    ensures { result ≡ are_columns_odd columns.now }
{
    columns.len() > 32 || has_nameless(columns) || has_name_twice(columns)
}

fn refuse_if(holds: bool, reason: Reason) -> Result<(), Error>
    ensures { result ≡ unless_refused ((holds, InvalidInput) ∷ []) tt }
{
    if holds {
        return Err(Error::new(ErrorKind::InvalidInput, reason));
    }
    Ok(())
}

fn loses_columns<'a>(
    old: &Base<'a>,
    new: &Base<'a>,
    described: &Described<'a>,
    name: &str,
) -> Result<bool, Error>
    requires old { entries described.now.old ≡ rows_told old.now.kept columns_name 0 }
    requires new { entries described.now.new ≡ rows_told new.now.kept columns_name 0 }
    ensures ok { IfOk result (λ lost. lost
        ≡ (has_table name.now old.now.kept.database && not (are_columns_kept old.now.kept new.now.kept name.now))) }
    ensures kind { OnlyMemory result }
{
    if !old.has_table(name) {
        return Ok(false);
    }
    Ok(!keeps_columns(old, new, described, name)?)
}

fn check_table<'a>(
    old: &Base<'a>,
    new: &Base<'a>,
    described: &Described<'a>,
    name: &str,
) -> Result<(), Error>
    requires old { entries described.now.old ≡ rows_told old.now.kept columns_name 0 }
    requires new { entries described.now.new ≡ rows_told new.now.kept columns_name 0 }
    ensures ok { OnOk result (first_refusal (table_reasons (pair_of old.now new.now) name.now) ≡ None) }
    ensures kind { IfErr result (StopsBy (table_reasons (pair_of old.now new.now) name.now)) }
{
    let lost = loses_columns(old, new, described, name)?;
    refuse_if(lost, reasons::COLUMNS_DIFFER)?;
    let odd = gains_columns(old, new, name) && has_odd_columns(new.columns_of(name));
    refuse_if(odd, reasons::COLUMNS_ODD)
}

/// Returns why a table of this place is refused. Want of memory is no table's fault.
fn refusal_at(error: Error, table: usize) -> MakingRefusal
    ensures kind { result.kind ≡ error }
    ensures table { IfSome result.table (λ place. (place ≡ table) × (error ≢ OutOfMemory)) }
{
    match error.kind() {
        ErrorKind::OutOfMemory => MakingRefusal::nowhere(error),
        ErrorKind::AlreadyExists
        | ErrorKind::InvalidData
        | ErrorKind::InvalidInput
        | ErrorKind::NotFound
        | ErrorKind::Io => MakingRefusal::at(error, table),
    }
}

fn check_tables<'a>(
    old: &Base<'a>,
    new: &Base<'a>,
    described: &Described<'a>,
    names: &[&str],
) -> Result<(), MakingRefusal>
    requires old { entries described.now.old ≡ rows_told old.now.kept columns_name 0 }
    requires new { entries described.now.new ≡ rows_told new.now.kept columns_name 0 }
    ensures ok { let rules = flat_map (table_reasons (pair_of old.now new.now)) (names_in names.now) in
        OnOk result (first_refusal rules ≡ None) }
    ensures kind { let rules = flat_map (table_reasons (pair_of old.now new.now)) (names_in names.now) in
        IfErr result (λ refusal. StopsBy rules refusal.kind) }
    ensures table { IfErr result (IsAtFault (table_reasons (pair_of old.now new.now)) (names_in names.now)) }
{
    for i in 0..names.len() {
        if let Err(error) = check_table(old, new, described, names[i]) {
            return Err(refusal_at(error, i));
        }
    }
    Ok(())
}

/// Checks that a transform can be made of two databases.
///
/// # Errors
/// Fails with `InvalidInput` if there is a reason why none is made, or with `OutOfMemory`.
pub fn check_pair<'a>(
    old: &Base<'a>,
    new: &Base<'a>,
    described: &Described<'a>,
) -> Result<(), MakingRefusal>
    requires old { entries described.now.old ≡ rows_told old.now.kept columns_name 0 }
    requires new { entries described.now.new ≡ rows_told new.now.kept columns_name 0 }
    ensures ok { OnOk result (first_refusal (all_reasons (pair_of old.now new.now)) ≡ None) }
    ensures kind { IfErr result (λ refusal. StopsBy (all_reasons (pair_of old.now new.now)) refusal.kind) }
    ensures table { let rules = table_reasons (pair_of old.now new.now) in
        IfErr result (IsAtFault rules (names_told new.now.kept)) }
{
    refuse_if(is_unfit(old)?, reasons::OLD_UNFIT)?;
    refuse_if(is_unfit(new)?, reasons::NEW_UNFIT)?;
    refuse_if(loses_page(old, new), reasons::PAGE_LOST)?;
    refuse_if(lacks_text(new), reasons::TEXT_NOT_IN_PAGE)?;
    refuse_if(shares_stream(old, new)?, reasons::STREAM_SHARED)?;
    let names = new.told_names()?;
    check_tables(old, new, described, names.as_slice())
}
