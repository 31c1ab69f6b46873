//! Rows in the order that a query asks for.

ghost use Rattle.std.specs.Prelude.{◌≡◌, IfOk, OnOk};
ghost use Rattle.msi_base.specs.Lists.{stable_sort};
ghost use Rattle.msi_base.specs.Results.{OnlyMemory};
ghost use Rattle.msi_query.specs.Rows.{rows_values};
ghost use Rattle.msi_query.specs.Selection.{in_order};
ghost use Rattle.msi_query_rows.specs.Order.{values_at_cmp};

use crate::columns::places_of;
use msi_base::errors::Error;
use msi_base::text::{Items, Text};
use msi_pool::stringpool::StringPool;
use msi_table::parts::cell_of;
use msi_table_cells::cell::ValueRef;
use msi_table_cells::parts::compare_values;
use msi_table_values::column::Column;
use std::alloc::Global;
use std::cmp::Ordering;

/// Compares by the first of the places at which the values differ.
fn compare_at(
    pool: &StringPool,
    places: &[Option<usize>],
    row: &[ValueRef],
    other: &[ValueRef],
) -> Ordering
    ensures { result ≡ values_at_cmp pool.now.places places.now row.now other.now }
{
    for place in places {
        let order = compare_values(pool, cell_of(row, *place), cell_of(other, *place));
        if order != Ordering::Equal {
            return order;
        }
    }
    Ordering::Equal
}

/// Rows with equal values stay in their order.
fn sort_by_places(
    pool: &StringPool,
    places: &[Option<usize>],
    rows: &mut Vec<Items<ValueRef>>,
) -> Result<(), Error>
    ensures ok { OnOk result (rows.new.items
        ≡ stable_sort (values_at_cmp pool.now.places places.now) rows.old.items) }
    ensures kind { OnlyMemory result }
{
    rows.sort_by(|row, other| compare_at(pool, places, row.as_slice(), other.as_slice()))?;
    Ok(())
}

/// Without names the rows stay as they are.
pub(crate) fn ordered_rows(
    alloc: Global,
    pool: &StringPool,
    columns: &[Column],
    names: &[Text],
    rows: Vec<Items<ValueRef>>,
) -> Result<Vec<Items<ValueRef>>, Error>
    ensures ok { IfOk result (λ ordered. rows_values pool.now.places ordered.items
        ≡ in_order columns.now names.now (rows_values pool.now.places rows.items)) }
    ensures kind { OnlyMemory result }
{
    if names.is_empty() {
        return Ok(rows);
    }
    let places = places_of(alloc, columns, names)?;
    let mut ordered = rows;
    sort_by_places(pool, places.as_slice(), &mut ordered)?;
    Ok(ordered)
}
