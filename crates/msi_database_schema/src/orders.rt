//! Rows in order, and looking them up there: a system table can have 65536 rows.

ghost use Rattle.std.specs.Prelude.{◌≡◌, ◌≤◌, ◌+◌, ◌&&◌, ℕ, IfOk, OnOk, bytes_eq, filter, find, length, option_copied};
ghost use Rattle.std.specs.Prelude.{pos, slice_get};
ghost use Rattle.std.specs.List.{IsAllAdjacentAnswer};
ghost use Rattle.std.specs.List.Sorted.{IsSorted};
ghost use Rattle.std.specs.Ordering.{is_lt};
ghost use Rattle.msi_base.specs.Lists.{has_pair, list_cmp, stable_sort};
ghost use Rattle.msi_base.specs.Results.{OnlyMemory};
ghost use Rattle.msi_database_schema.specs.RowOrders.{by_numbers, by_texts, by_values, number_in, numbers_cmp};
ghost use Rattle.msi_database_schema.specs.RowOrders.{texts_at, texts_cmp};
ghost use Rattle.msi_database_schema.specs.Schema.{has_number, is_about as is_of_table, share_key, text_at as text_in};

use crate::rows::{SchemaRow, compare_at, number_at, text_at};
use msi_base::errors::Error;
use std::cmp::Ordering;

fn texts_order(row: &SchemaRow, place: usize, table: &str, text: &str) -> Ordering
    ensures { result ≡ texts_cmp (texts_at place row.now) (table.now, text.now) }
{
    text_at(row, 0)
        .cmp(table)
        .then(text_at(row, place).cmp(text))
}

fn number_order(row: &SchemaRow, table: &str, number: i32) -> Ordering
    ensures { result ≡ numbers_cmp (number_in row.now) (table.now, number) }
{
    text_at(row, 0)
        .cmp(table)
        .then(number_at(row, 1).cmp(&number))
}

fn numbered_order(row: &SchemaRow, table: &str, number: u16) -> Ordering
    ensures { result ≡ numbers_cmp (number_in row.now) (table.now, pos number) }
{
    text_at(row, 0)
        .cmp(table)
        .then(number_at(row, 1).cmp(&i32::from(number)))
}

/// Compares the first values of two rows, then those at `place`.
fn compare_values(row: &SchemaRow, other: &SchemaRow, place: usize) -> Ordering
    ensures { result ≡ by_values place row.now other.now }
{
    compare_at(row, other, 0).then(compare_at(row, other, place))
}

pub(crate) fn sort_by_texts(rows: &mut Vec<SchemaRow>, place: usize) -> Result<(), Error>
    ensures ok { OnOk result (rows.new.items ≡ stable_sort (by_texts place) rows.old.items) }
    ensures kind { OnlyMemory result }
{
    rows.sort_by(|row, other| texts_order(row, place, text_at(other, 0), text_at(other, place)))?;
    Ok(())
}

pub(crate) fn sort_by_numbers(rows: &mut Vec<SchemaRow>) -> Result<(), Error>
    ensures ok { OnOk result (rows.new.items ≡ stable_sort by_numbers rows.old.items) }
    ensures kind { OnlyMemory result }
{
    rows.sort_by(|row, other| number_order(row, text_at(other, 0), number_at(other, 1)))?;
    Ok(())
}

pub(crate) fn is_about(row: &SchemaRow, table: &str) -> bool
    ensures { result ≡ is_of_table table.now row.now }
{
    text_at(row, 0) == table
}

fn row_at<'r, 'a>(rows: &'r [SchemaRow<'a>], at: usize) -> Option<&'r SchemaRow<'a>>
    ensures { option_copied result ≡ slice_get rows.now at }
{
    rows.get(at)
}

/// The rows have to be ordered by `sort_by_texts`.
pub(crate) fn find_by_texts<'r, 'a>(
    rows: &'r [SchemaRow<'a>],
    place: usize,
    table: &str,
    text: &str,
) -> Option<&'r SchemaRow<'a>>
    requires { IsSorted (by_texts place) rows.now }
    ensures { option_copied result
        ≡ find (λ row. is_of_table table.now row && bytes_eq (text_in place row) text.now) rows.now }
{
    let at = rows.partition_point(|row| texts_order(row, place, table, text).is_lt());
    match row_at(rows, at) {
        Some(row) => {
            if texts_order(row, place, table, text).is_eq() {
                Some(row)
            } else {
                None
            }
        }
        None => None,
    }
}

/// The rows have to be ordered by `sort_by_numbers`.
pub(crate) fn find_by_number<'r, 'a>(
    rows: &'r [SchemaRow<'a>],
    table: &str,
    number: u16,
) -> Option<&'r SchemaRow<'a>>
    requires { IsSorted by_numbers rows.now }
    ensures { option_copied result ≡ find (λ row. is_of_table table.now row && has_number number row) rows.now }
{
    let at = rows.partition_point(|row| numbered_order(row, table, number).is_lt());
    match row_at(rows, at) {
        Some(row) => {
            if numbered_order(row, table, number).is_eq() {
                Some(row)
            } else {
                None
            }
        }
        None => None,
    }
}

/// The rows have to be ordered by `sort_by_numbers`.
pub(crate) fn count_about(rows: &[SchemaRow], table: &str) -> usize
    requires { IsSorted by_numbers rows.now }
    ensures { result ≡ length (filter (is_of_table table.now) rows.now) }
{
    let start = rows.partition_point(|row| text_at(row, 0) < table);
    let end = rows.partition_point(|row| text_at(row, 0) <= table);
    end - start
}

fn sort_by_values(rows: &mut Vec<SchemaRow>, place: usize) -> Result<(), Error>
    ensures ok { OnOk result (rows.new.items ≡ stable_sort (by_values place) rows.old.items) }
    ensures kind { OnlyMemory result }
{
    rows.sort_by(|row, other| compare_values(row, other, place))?;
    Ok(())
}

fn ascends_strictly(rows: &[SchemaRow], place: usize) -> bool
    ensures { IsAllAdjacentAnswer (λ row other b. b ≡ is_lt (by_values place row other)) rows.now result }
{
    rows.is_sorted_by(|row, other| compare_values(row, other, place).is_lt())
}

/// Returns whether two rows share their first values and those at `place`, which is 0 or 1.
pub(crate) fn has_repeat(rows: Vec<SchemaRow>, place: usize) -> Result<bool, Error>
    requires { place ≤ 1 }
    ensures ok { IfOk result (λ found. found ≡ has_pair (share_key (place + 1)) rows.entry.items) }
    ensures kind { OnlyMemory result }
{
    let mut rows = rows;
    sort_by_values(&mut rows, place)?;
    Ok(!ascends_strictly(rows.as_slice(), place))
}
