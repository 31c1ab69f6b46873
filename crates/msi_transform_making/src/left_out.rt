//! Rows that two databases have alike, and that are left out before records are made of the others.

ghost use Rattle.std.specs.Prelude.{◌≡◌, ◌++◌, ◌≤◌, IfOk, OnOk, drop, false, length, true};
ghost use Rattle.std.specs.declared.cmp.Ordering.TheVariants.{Equal};
ghost use Rattle.msi_base.specs.Results.{OnlyMemory};
ghost use Rattle.msi_table_cells.specs.declared.cell.ValueRef.TheVariants as cell;
ghost use Rattle.msi_transform_rows.specs.RowStreams.{is_of_streams as is_stream_type};
ghost use Rattle.msi_transform_schema.specs.SchemaApplying.{system_rows};
ghost use Rattle.msi_transform_making.specs.LeftOut.{AreCellsLeft, AreSameCells, AreSameRows, AreToldAlike};

use crate::same_texts::SameTexts;
use msi_base::errors::Error;
use msi_base::text::Items;
use msi_pool::parts::place_number;
use msi_pool::stringpool::StringRef;
use msi_table::parts::StoredRows;
use msi_table_cells::cell::ValueRef;
use msi_table_values::column::Column;
use msi_transform_pair::base::Base;
use msi_transform_rows::row_streams::is_of_streams;
use std::alloc::Global;
use std::cmp::Ordering;

/// The rows of a table of two databases, but for pairs of the same rows.
#[derive(Drop)]
pub(crate) struct RowsLeft {
    /// Those of the old one.
    pub(crate) old: Vec<Items<ValueRef>>,
    /// Those of the new one.
    pub(crate) new: Vec<Items<ValueRef>>,
}

/// Compares an old text with a new one by their numbers in the new pool. An old one that wasn't found there comes
/// first.
fn compare_texts(texts: &SameTexts, text: StringRef, other: StringRef) -> Ordering
    ensures { result ≡ Equal → AreSameCells texts.now (cell.Str text) (cell.Str other) }
{
    let number = texts.number_of(text);
    if number == 0 {
        return Ordering::Less;
    }
    number.cmp(&place_number(other))
}

/// Compares an old cell with a new one in the order of cells.
fn compare_cells(texts: &SameTexts, cell: ValueRef, other: ValueRef) -> Ordering
    ensures { result ≡ Equal → AreSameCells texts.now cell other }
{
    match cell {
        ValueRef::Null => match other {
            ValueRef::Null => Ordering::Equal,
            ValueRef::Int(_) | ValueRef::Str(_) | ValueRef::Binary => Ordering::Less,
        },
        ValueRef::Int(number) => match other {
            ValueRef::Null => Ordering::Greater,
            ValueRef::Int(others) => number.cmp(&others),
            ValueRef::Str(_) | ValueRef::Binary => Ordering::Less,
        },
        ValueRef::Str(text) => match other {
            ValueRef::Null | ValueRef::Int(_) => Ordering::Greater,
            ValueRef::Str(others) => compare_texts(texts, text, others),
            ValueRef::Binary => Ordering::Less,
        },
        ValueRef::Binary => match other {
            ValueRef::Binary => Ordering::Equal,
            ValueRef::Null | ValueRef::Int(_) | ValueRef::Str(_) => Ordering::Greater,
        },
    }
}

/// Compares an old row with a new one: the first cell that differs decides. Rows stand in the order of their cells, so
/// the one that comes first has no equal further on.
fn compare_rows(texts: &SameTexts, row: &[ValueRef], other: &[ValueRef]) -> Ordering
    ensures { result ≡ Equal → AreSameRows texts.now row.now other.now }
{
    if row.len() != other.len() {
        return Ordering::Less;
    }
    for i in 0..row.len() {
        let order = compare_cells(texts, row[i], other[i]);
        if order != Ordering::Equal {
            return order;
        }
    }
    Ordering::Equal
}

fn is_told_alike(column: &Column, other: &Column) -> bool
    ensures key { result ≡ true → column.now.is_primary_key ≡ other.now.is_primary_key }
    ensures plain { result ≡ true → is_stream_type column.now.coltype ≡ false }
    ensures others_plain { result ≡ true → is_stream_type other.now.coltype ≡ false }
{
    if is_of_streams(column.coltype()) || is_of_streams(other.coltype()) {
        return false;
    }
    column.is_primary_key() == other.is_primary_key()
}

fn push_rows(
    alloc: Global,
    rows: &mut Vec<Items<ValueRef>>,
    stored: &StoredRows,
    from: usize,
) -> Result<(), Error>
    requires { from ≤ length stored.now.rows }
    ensures ok { OnOk result (rows.new.items ≡ rows.old.items ++ drop from stored.now.rows) }
    ensures kind { OnlyMemory result }
{
    for at in from..stored.len() {
        rows.push(stored.row(alloc, at)?)?;
    }
    Ok(())
}

/// Goes through the rows of both side by side. Any two that are the same are left out; of two others the one that comes
/// first stays.
fn rows_left(
    alloc: Global,
    texts: &SameTexts,
    old: &StoredRows,
    new: &StoredRows,
) -> Result<RowsLeft, Error>
    ensures ok { IfOk result (λ left. AreCellsLeft texts.now old.now.rows new.now.rows left.old.items left.new.items) }
    ensures kind { OnlyMemory result }
{
    let mut left = Vec::new(alloc);
    let mut others = Vec::new(alloc);
    let mut i = 0;
    let mut j = 0;
    while i < old.len() && j < new.len() {
        let row = old.row(alloc, i)?;
        let other = new.row(alloc, j)?;
        match compare_rows(texts, row.as_slice(), other.as_slice()) {
            Ordering::Equal => {
                i += 1;
                j += 1;
            }
            Ordering::Less => {
                left.push(row)?;
                i += 1;
            }
            Ordering::Greater => {
                others.push(other)?;
                j += 1;
            }
        }
    }
    push_rows(alloc, &mut left, old, i)?;
    push_rows(alloc, &mut others, new, j)?;
    Ok(RowsLeft {
        old: left,
        new: others,
    })
}

/// Returns all rows of a table of both databases.
fn all_rows(old: &Base, new: &Base, texts: &SameTexts, table: &str) -> Result<RowsLeft, Error>
    ensures ok { IfOk result (λ left. AreCellsLeft texts.now (system_rows old.now.kept.database table.now)
        (system_rows new.now.kept.database table.now) left.old.items left.new.items) }
    ensures kind { OnlyMemory result }
{
    let rows = old.rows_of(table)?;
    let others = new.rows_of(table)?;
    Ok(RowsLeft {
        old: rows,
        new: others,
    })
}

fn rows_left_beside(
    old: &Base,
    new: &Base,
    texts: &SameTexts,
    table: &str,
    rows: &StoredRows,
) -> Result<RowsLeft, Error>
    requires { rows.now.rows ≡ system_rows old.now.kept.database table.now }
    ensures ok { IfOk result (λ left. AreCellsLeft texts.now (system_rows old.now.kept.database table.now)
        (system_rows new.now.kept.database table.now) left.old.items left.new.items) }
    ensures kind { OnlyMemory result }
{
    match new.stored_rows_of(table) {
        Some(others) => rows_left(new.alloc, texts, rows, &others),
        None => all_rows(old, new, texts, table),
    }
}

/// Returns the rows of a table of both databases, but for pairs of the same rows.
///
/// # Errors
/// Fails with `OutOfMemory`.
pub(crate) fn rows_left_of(
    old: &Base,
    new: &Base,
    texts: &SameTexts,
    table: &str,
) -> Result<RowsLeft, Error>
    ensures ok { IfOk result (λ left. AreCellsLeft texts.now (system_rows old.now.kept.database table.now)
        (system_rows new.now.kept.database table.now) left.old.items left.new.items) }
    ensures kind { OnlyMemory result }
{
    match old.stored_rows_of(table) {
        Some(rows) => rows_left_beside(old, new, texts, table, &rows),
        None => all_rows(old, new, texts, table),
    }
}

/// Returns whether the rows of two tables are told alike: there are no streams among their columns, and no column is
/// of the key in one table alone.
pub(crate) fn are_told_alike(columns: &[Column], others: &[Column]) -> bool
    ensures { result ≡ true → AreToldAlike columns.now others.now }
{
    if columns.len() != others.len() {
        return false;
    }
    for i in 0..columns.len() {
        if !is_told_alike(&columns[i], &others[i]) {
            return false;
        }
    }
    true
}
