//! Rows by their numbers, in the order of their values in a column, so that those with a value are found by halving.

ghost use Rattle.std.specs.Prelude.{◌≡◌, ℕ, List, Some, IfOk, filter, length};
ghost use Rattle.std.specs.List.{range_with_len};
ghost use Rattle.std.specs.Ordering.{is_eq};
ghost use Rattle.msi_base.specs.Lists.{stable_sort};
ghost use Rattle.msi_base.specs.Results.{OnlyMemory};
ghost use Rattle.msi_table.specs.Rows.{cell_at};
ghost use Rattle.msi_table_cells.specs.CellValues.{value_of_cell};
ghost use Rattle.msi_table_values.specs.Values.{value_cmp};
ghost use Rattle.msi_query_rows.specs.Combinations.{numbered_row as numbered};
ghost use Rattle.msi_query_rows.specs.Index.{value_there};

use msi_base::errors::Error;
use msi_base::text::Items;
use msi_pool::stringpool::StringPool;
use msi_table::parts::cell_of;
use msi_table_cells::cell::ValueRef;
use msi_table_cells::parts::compare_values;
use std::alloc::Global;
use std::cmp::Ordering;

/// Returns the row of a number, or no cells where there is none.
pub(crate) fn numbered_row<'a>(rows: &'a [Items<ValueRef>], number: usize) -> &'a [ValueRef]
    ensures { result.now ≡ numbered rows.now number }
{
    match rows.get(number) {
        Some(row) => row.as_slice(),
        None => &[],
    }
}

/// Returns the cell in a column of the row of a number, or null.
pub(crate) fn cell_in(rows: &[Items<ValueRef>], number: usize, column: usize) -> ValueRef
    ensures { result ≡ cell_at (numbered rows.now number) (Some column) }
{
    cell_of(numbered_row(rows, number), Some(column))
}

fn compare_rows(
    pool: &StringPool,
    rows: &[Items<ValueRef>],
    column: usize,
    number: usize,
    other: usize,
) -> Ordering
    ensures { let value = λ (i : ℕ). value_there pool.now.places column (numbered rows.now i) in
        result ≡ value_cmp (value number) (value other) }
{
    let cell = cell_in(rows, number, column);
    compare_values(pool, cell, cell_in(rows, other, column))
}

fn compare_with(
    pool: &StringPool,
    rows: &[Items<ValueRef>],
    column: usize,
    number: usize,
    cell: ValueRef,
) -> Ordering
    ensures { let value = λ (i : ℕ). value_there pool.now.places column (numbered rows.now i) in
        result ≡ value_cmp (value number) (value_of_cell pool.now.places cell) }
{
    compare_values(pool, cell_in(rows, number, column), cell)
}

pub(crate) fn all_numbers(alloc: Global, rows: &[Items<ValueRef>]) -> Result<Vec<usize>, Error>
    ensures ok { IfOk result (λ numbers. numbers.items ≡ range_with_len 0 (length rows.now)) }
    ensures kind { OnlyMemory result }
{
    let mut numbers = Vec::with_capacity(alloc, rows.len())?;
    for number in 0..rows.len() {
        numbers.push(number)?;
    }
    Ok(numbers)
}

/// Numbers of rows with equal values stay in their order.
pub(crate) fn numbers_by_value(
    alloc: Global,
    pool: &StringPool,
    rows: &[Items<ValueRef>],
    column: usize,
) -> Result<Vec<usize>, Error>
    ensures ok { let value = λ (i : ℕ). value_there pool.now.places column (numbered rows.now i) in
        IfOk result (λ numbers. numbers.items
        ≡ stable_sort (λ (i j : ℕ). value_cmp (value i) (value j)) (range_with_len 0 (length rows.now))) }
    ensures kind { OnlyMemory result }
{
    let mut numbers = all_numbers(alloc, rows)?;
    numbers.sort_by(|number, other| compare_rows(pool, rows, column, *number, *other))?;
    Ok(numbers)
}

/// The numbers have to be ordered by `numbers_by_value`. Those returned are in the order that they had before.
pub(crate) fn numbers_with<'a>(
    pool: &StringPool,
    rows: &[Items<ValueRef>],
    column: usize,
    numbers: &'a [usize],
    cell: ValueRef,
) -> &'a [usize]
    ensures { let places = pool.now.places in
        let value = λ (i : ℕ). value_there places column (numbered rows.now i) in (before : List ℕ)
        → numbers.now ≡ stable_sort (λ (i j : ℕ). value_cmp (value i) (value j)) before
        → result.now ≡ filter (λ i. is_eq (value_cmp (value i) (value_of_cell places cell))) before }
{
    let start = numbers.partition_point(|number| compare_with(
        pool, rows, column, *number, cell,
    ).is_lt());
    let numbers = &numbers[start..];
    let end = numbers.partition_point(|number| compare_with(
        pool, rows, column, *number, cell,
    ).is_le());
    &numbers[..end]
}
