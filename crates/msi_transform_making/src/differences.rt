//! The records of a table's rows.

ghost use Rattle.std.specs.Prelude.{◌≡◌, ◌∷◌, ◌++◌, [], IfOk, OnOk, false, map};
ghost use Rattle.std.specs.FinMap.{entries};
ghost use Rattle.msi_base.specs.Results.{OnlyMemory};
ghost use Rattle.msi_transform_making.specs.LeftOut.{AreTextsOf, AreToldAlike, HasOwnKeys};
ghost use Rattle.msi_transform_making.specs.Making.{addition as addition_of, additions as all_additions};
ghost use Rattle.msi_transform_making.specs.Making.{change_of_row as change_in_row, told_rows as rows_told};
ghost use Rattle.msi_transform_making.specs.Making.{changes as all_changes, differences as all_differences};
ghost use Rattle.msi_transform_making.specs.Making.{columns_before, columns_in_table, is_odd_table, is_unfit};
ghost use Rattle.msi_transform_making.specs.Making.{first_told as told_first, is_replaced as is_row_replaced};
ghost use Rattle.msi_transform_making.specs.Making.{records_beside as records_in_both};
ghost use Rattle.msi_transform_making.specs.Making.{records_of_table as records_in_table, removals as all_removals};

use crate::differing::{can_be_marked, differing, has_bit_for};
use crate::left_out::{are_told_alike, rows_left_of};
use crate::record::{ToldRecord, addition, changing, removal};
use crate::same_texts::SameTexts;
use msi_base::errors::Error;
use msi_database_changes::keys::Key;
use msi_table_values::column::Column;
use msi_transform_pair::base::Base;
use msi_transform_pair::reading::{rows_by_keys, told_rows};
use msi_transform_pair::told::{ToldRow, ToldRows};
use std::alloc::Global;

/// Returns whether a row isn't told as a change: the other rows have none of its key, or a column in which the two
/// differ has no bit.
fn is_replaced<'a>(
    alloc: Global,
    others: &ToldRows<'a>,
    key: &Key<'a>,
    row: &ToldRow<'a>,
) -> Result<bool, Error>
    ensures ok { IfOk result (λ replaced. replaced ≡ is_row_replaced (entries others.now) (key.now, row.now)) }
    ensures kind { OnlyMemory result }
{
    match others.get(key) {
        None => Ok(true),
        Some(other) => {
            let columns = differing(alloc, other, row)?;
            Ok(!can_be_marked(columns.as_slice()))
        }
    }
}

fn push_removals<'a>(
    alloc: Global,
    records: &mut Vec<ToldRecord<'a>>,
    old: &ToldRows<'a>,
    new: &ToldRows<'a>,
) -> Result<(), Error>
    ensures ok { OnOk result (records.new.items
        ≡ records.old.items ++ all_removals (entries old.now) (entries new.now)) }
    ensures kind { OnlyMemory result }
{
    for (key, row) in old.iter() {
        let replaced = is_replaced(alloc, new, key, row)?;
        if !replaced {
            continue;
        }
        records.push(removal(alloc, key)?)?;
    }
    Ok(())
}

fn push_additions<'a>(
    alloc: Global,
    records: &mut Vec<ToldRecord<'a>>,
    old: &ToldRows<'a>,
    new: &ToldRows<'a>,
) -> Result<(), Error>
    ensures ok { OnOk result (records.new.items
        ≡ records.old.items ++ all_additions (entries old.now) (entries new.now)) }
    ensures kind { OnlyMemory result }
{
    for (key, row) in new.iter() {
        let replaced = is_replaced(alloc, old, key, row)?;
        if !replaced {
            continue;
        }
        records.push(addition(alloc, key, row)?)?;
    }
    Ok(())
}

/// Returns the record of a row that both databases have, if it is told as a change.
fn change_of_row<'a>(
    alloc: Global,
    columns: &[Column],
    old: &ToldRows<'a>,
    key: &Key<'a>,
    row: &ToldRow<'a>,
) -> Result<Option<ToldRecord<'a>>, Error>
    ensures ok { IfOk result (λ told. told ≡ change_in_row columns.now (entries old.now) (key.now, row.now)) }
    ensures kind { OnlyMemory result }
{
    let Some(other) = old.get(key) else {
        return Ok(None);
    };
    let marked = differing(alloc, other, row)?;
    if marked.is_empty() || !can_be_marked(marked.as_slice()) {
        return Ok(None);
    }
    Ok(Some(changing(alloc, columns, marked.as_slice(), key, row)?))
}

fn push_changes<'a>(
    alloc: Global,
    records: &mut Vec<ToldRecord<'a>>,
    columns: &[Column],
    old: &ToldRows<'a>,
    new: &ToldRows<'a>,
) -> Result<(), Error>
    ensures ok { OnOk result (records.new.items
        ≡ records.old.items ++ all_changes columns.now (entries old.now) (entries new.now)) }
    ensures kind { OnlyMemory result }
{
    for (key, row) in new.iter() {
        let Some(told) = change_of_row(alloc, columns, old, key, row)? else {
            continue;
        };
        records.push(told)?;
    }
    Ok(())
}

fn differences<'a>(
    alloc: Global,
    columns: &[Column],
    old: &ToldRows<'a>,
    new: &ToldRows<'a>,
) -> Result<Vec<ToldRecord<'a>>, Error>
    ensures ok { IfOk result (λ records.
        records.items ≡ all_differences columns.now (entries old.now) (entries new.now)) }
    ensures kind { OnlyMemory result }
{
    let mut records = Vec::new(alloc);
    push_removals(alloc, &mut records, old, new)?;
    push_changes(alloc, &mut records, columns, old, new)?;
    push_additions(alloc, &mut records, old, new)?;
    Ok(records)
}

/// Returns the records of a row as if it differed in the column of this index.
#[tactic(auto, using(crate::proofs::MaskLemmas::mask_of_one))]
fn told_as_differing<'a>(
    alloc: Global,
    columns: &[Column],
    column: usize,
    key: &Key<'a>,
    row: &ToldRow<'a>,
) -> Result<Vec<ToldRecord<'a>>, Error>
    ensures ok { IfOk result (λ records. records.items ≡ told_first columns.now column ((key.now, row.now) ∷ [])) }
    ensures kind { OnlyMemory result }
{
    let mut records = Vec::new(alloc);
    if has_bit_for(column) {
        records.push(changing(alloc, columns, &[column], key, row)?)?;
    } else {
        records.push(removal(alloc, key)?)?;
        records.push(addition(alloc, key, row)?)?;
    }
    Ok(records)
}

/// Returns the records of the first row, if there is one, as if it differed in the column of this index.
fn first_told<'a>(
    alloc: Global,
    columns: &[Column],
    column: usize,
    rows: &ToldRows<'a>,
) -> Result<Vec<ToldRecord<'a>>, Error>
    ensures ok { IfOk result (λ records. records.items ≡ told_first columns.now column (entries rows.now)) }
    ensures kind { OnlyMemory result }
{
    match rows.iter().next() {
        Some((key, row)) => told_as_differing(alloc, columns, column, key, row),
        None => Ok(Vec::new(alloc)),
    }
}

/// Returns the records of a table whose rows are told alike, of those rows that aren't the same in both databases.
fn records_of_rows_left<'a>(
    old: &Base<'a>,
    new: &Base<'a>,
    texts: &SameTexts,
    table: &str,
) -> Result<Vec<ToldRecord<'a>>, Error>
    requires texts { AreTextsOf old.now.kept new.now.kept texts.now }
    requires alike { AreToldAlike (columns_in_table old.now.kept table.now) (columns_in_table new.now.kept table.now) }
    requires old_keys { HasOwnKeys old.now.kept table.now }
    requires new_keys { HasOwnKeys new.now.kept table.now }
    ensures ok { IfOk result (λ records. records.items ≡ all_differences (columns_in_table new.now.kept table.now)
        (rows_told old.now.kept table.now 0) (rows_told new.now.kept table.now 0)) }
    ensures kind { OnlyMemory result }
{
    let left = rows_left_of(old, new, texts, table)?;
    let columns = new.columns_of(table);
    let rows = rows_by_keys(old, table, old.columns_of(table), 0, left.old.as_slice())?;
    let others = rows_by_keys(new, table, columns, 0, left.new.as_slice())?;
    differences(new.alloc, columns, &rows, &others)
}

/// Returns the records of a table that both databases have, and of whose columns the first so many are old.
fn records_of_all_rows<'a>(
    old: &Base<'a>,
    new: &Base<'a>,
    table: &str,
    before: usize,
) -> Result<Vec<ToldRecord<'a>>, Error>
    ensures ok { IfOk result (λ records.
        records.items ≡ records_in_both old.now.kept new.now.kept table.now before) }
    ensures kind { OnlyMemory result }
{
    let columns = new.columns_of(table);
    let added = columns.len().saturating_sub(before);
    let rows = told_rows(old, table, added)?;
    let records = differences(new.alloc, columns, &rows, &told_rows(new, table, 0)?)?;
    if records.is_empty() && added > 0 {
        return first_told(new.alloc, columns, before, &rows);
    }
    Ok(records)
}

/// Returns the records of a table that both databases have.
fn records_beside<'a>(
    old: &Base<'a>,
    new: &Base<'a>,
    texts: &SameTexts,
    table: &str,
) -> Result<Vec<ToldRecord<'a>>, Error>
    requires texts { AreTextsOf old.now.kept new.now.kept texts.now }
    requires old_keys { HasOwnKeys old.now.kept table.now }
    requires new_keys { HasOwnKeys new.now.kept table.now }
    ensures ok { let before = columns_before old.now.kept.database table.now in IfOk result (λ records.
        records.items ≡ records_in_both old.now.kept new.now.kept table.now before) }
    ensures kind { OnlyMemory result }
{
    let before = old.columns_of(table);
    if are_told_alike(before, new.columns_of(table)) {
        return records_of_rows_left(old, new, texts, table);
    }
    records_of_all_rows(old, new, table, before.len())
}

fn push_all_added<'a>(
    alloc: Global,
    records: &mut Vec<ToldRecord<'a>>,
    rows: &ToldRows<'a>,
) -> Result<(), Error>
    ensures ok { OnOk result (records.new.items ≡ records.old.items ++ map addition_of (entries rows.now)) }
    ensures kind { OnlyMemory result }
{
    for (key, row) in rows.iter() {
        records.push(addition(alloc, key, row)?)?;
    }
    Ok(())
}

fn all_added<'a>(base: &Base<'a>, table: &str) -> Result<Vec<ToldRecord<'a>>, Error>
    ensures ok { IfOk result (λ records. records.items ≡ map addition_of (rows_told base.now.kept table.now 0)) }
    ensures kind { OnlyMemory result }
{
    let rows = told_rows(base, table, 0)?;
    let mut records = Vec::new(base.alloc);
    push_all_added(base.alloc, &mut records, &rows)?;
    Ok(records)
}

/// Returns the records of a table of the new database.
///
/// # Errors
/// Fails with `OutOfMemory`.
pub(crate) fn records_of_table<'a>(
    old: &Base<'a>,
    new: &Base<'a>,
    texts: &SameTexts,
    table: &str,
) -> Result<Vec<ToldRecord<'a>>, Error>
    requires texts { AreTextsOf old.now.kept new.now.kept texts.now }
    requires old_fit { is_unfit old.now.kept ≡ false }
    requires new_fit { is_odd_table new.now.kept table.now ≡ false }
    ensures ok { IfOk result (λ records. records.items ≡ records_in_table old.now.kept new.now.kept table.now) }
    ensures kind { OnlyMemory result }
{
    if !old.has_table(table) {
        return all_added(new, table);
    }
    records_beside(old, new, texts, table)
}
