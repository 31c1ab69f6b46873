//! Rows in the order of their values in a column, so that those with a value are found by halving.

ghost use Rattle.std.specs.Prelude.{◌≡◌, List, Some, IfSome, OnOk, filter};
ghost use Rattle.msi_pool.specs.Pool.{Place};
ghost use Rattle.msi_base.specs.Results.{OnlyMemory};
ghost use Rattle.msi_table_cells.specs.CellValues.{value_of_cell};
ghost use Rattle.msi_table_cells.specs.declared.cell.ValueRef.{ValueRef as Cell};
ghost use Rattle.msi_table_values.specs.Values.{value_cmp};
ghost use Rattle.msi_query_expressions.specs.Conditions.{meets};
ghost use Rattle.msi_query_rows.specs.Index.{PassWithEqual, has_value, has_width as have_width, in_place_order};
ghost use Rattle.msi_query_rows.specs.Index.{place_cmp, places_asked as asked, value_there};

use msi_base::errors::Error;
use msi_base::text::Items;
use msi_pool::stringpool::StringPool;
use msi_query_expressions::expr::Expr;
use msi_query_expressions::parts::equated_places;
use msi_table::parts::cell_of;
use msi_table_cells::cell::ValueRef;
use msi_table_cells::parts::compare_values;
use msi_table_values::column::Column;
use std::cmp::Ordering;

fn has_width(width: usize, rows: &[Items<ValueRef>]) -> bool
    ensures { result ≡ have_width width rows.now }
{
    rows.iter().all(|row| row.as_slice().len() == width)
}

/// Returns the places, of a left row and of a right one, where pairs that meet the condition have equal values, if it
/// names such. A left row of a wrong width would shift the right one's columns, so then it returns none.
pub(crate) fn places_asked(
    columns: &[Column],
    width: usize,
    on: &Expr,
    left: &[Items<ValueRef>],
) -> Option<(usize, usize)>
    ensures places { result ≡ asked columns.now width on.now left.now }
    ensures equal { (places : List Place)
        → IfSome result (PassWithEqual places (meets columns.now (Some on.now)) left.now) }
{
    if !has_width(width, left) {
        return None;
    }
    equated_places(on, columns, width)
}

fn compare_rows(pool: &StringPool, place: usize, row: &[ValueRef], other: &[ValueRef]) -> Ordering
    ensures { result ≡ place_cmp pool.now.places place row.now other.now }
{
    compare_values(pool, cell_of(row, Some(place)), cell_of(other, Some(place)))
}

fn compare_with(pool: &StringPool, place: usize, row: &[ValueRef], cell: ValueRef) -> Ordering
    ensures { result
        ≡ value_cmp (value_there pool.now.places place row.now) (value_of_cell pool.now.places cell) }
{
    compare_values(pool, cell_of(row, Some(place)), cell)
}

/// Rows with equal values stay in their order.
pub(crate) fn sort_by_place(
    pool: &StringPool,
    place: usize,
    rows: &mut Vec<Items<ValueRef>>,
) -> Result<(), Error>
    ensures ok { OnOk result (rows.new.items ≡ in_place_order pool.now.places place rows.old.items) }
    ensures kind { OnlyMemory result }
{
    rows.sort_by(|row, other| compare_rows(pool, place, row.as_slice(), other.as_slice()))?;
    Ok(())
}

/// The rows have to be ordered by `sort_by_place`. Those returned are in the order that they had before.
pub(crate) fn rows_with<'a>(
    pool: &StringPool,
    place: usize,
    rows: &'a [Items<ValueRef>],
    cell: ValueRef,
) -> &'a [Items<ValueRef>]
    ensures { let places = pool.now.places in (before : List (List Cell))
        → rows.now ≡ in_place_order places place before
        → result.now ≡ filter (has_value places place (value_of_cell places cell)) before }
{
    let start = rows.partition_point(|row| compare_with(pool, place, row.as_slice(), cell).is_lt());
    let rows = &rows[start..];
    let end = rows.partition_point(|row| compare_with(pool, place, row.as_slice(), cell).is_le());
    &rows[..end]
}
