//! Joins.

ghost use Rattle.std.specs.Prelude.{◌≡◌, IfOk, Some, length};
ghost use Rattle.std.specs.List.{flat_map};
ghost use Rattle.msi_base.specs.Results.{OnlyMemory};
ghost use Rattle.msi_query_expressions.specs.Conditions.{meets};
ghost use Rattle.msi_query_rows.specs.Index.{PassWithEqual};
ghost use Rattle.msi_query.specs.Rows.{rows_values};
ghost use Rattle.msi_query.specs.Selection.{rows_of_row};

use crate::index::{places_asked, rows_with, sort_by_place};
use crate::joins::{Join, add_row};
use crate::relation::Relation;
use msi_base::errors::Error;
use msi_base::text::Items;
use msi_pool::stringpool::StringPool;
use msi_query::query::JoinKind;
use msi_query_expressions::expr::Expr;
use msi_query_expressions::parts::RowFilter;
use msi_table::parts::cell_of;
use msi_table_cells::cell::ValueRef;
use msi_table_values::column::Column;
use std::alloc::Global;

fn rows_by_scan(
    alloc: Global,
    pool: &StringPool,
    join: &Join,
    left: &[Items<ValueRef>],
    right: &[Items<ValueRef>],
) -> Result<Vec<Items<ValueRef>>, Error>
    ensures ok { let values = rows_values pool.now.places in
        let test = meets join.now.filter.now.columns join.now.filter.now.condition in
        IfOk result (λ rows. values rows.items
        ≡ flat_map (rows_of_row join.now.kind test join.now.width (values right.now)) (values left.now)) }
    ensures kind { OnlyMemory result }
{
    let mut rows = Vec::new(alloc);
    for row in left {
        add_row(alloc, pool, join, right, row.as_slice(), &mut rows)?;
    }
    Ok(rows)
}

/// Tries each left row only with the right ones that have its value: pairs that meet the condition have equal values at
/// the places `at`.
fn rows_by_index(
    alloc: Global,
    pool: &StringPool,
    join: &Join,
    at: (usize, usize),
    left: &[Items<ValueRef>],
    right: Vec<Items<ValueRef>>,
) -> Result<Vec<Items<ValueRef>>, Error>
    requires { let test = meets join.now.filter.now.columns join.now.filter.now.condition in
        PassWithEqual pool.now.places test left.now at }
    ensures ok { let values = rows_values pool.now.places in
        let test = meets join.now.filter.now.columns join.now.filter.now.condition in
        IfOk result (λ rows. values rows.items
        ≡ flat_map (rows_of_row join.now.kind test join.now.width (values right.items)) (values left.now)) }
    ensures kind { OnlyMemory result }
{
    let (place, other) = at;
    let mut sorted = right;
    sort_by_place(pool, other, &mut sorted)?;
    let mut rows = Vec::new(alloc);
    for row in left {
        let row = row.as_slice();
        let found = rows_with(pool, other, sorted.as_slice(), cell_of(row, Some(place)));
        add_row(alloc, pool, join, found, row, &mut rows)?;
    }
    Ok(rows)
}

/// Where the condition wants columns to be equal, one of each side, the right side is sorted by its column and looked
/// up.
pub(crate) fn joined_rows(
    alloc: Global,
    pool: &StringPool,
    kind: JoinKind,
    columns: &[Column],
    on: &Expr,
    left: &Relation,
    right: Relation,
) -> Result<Vec<Items<ValueRef>>, Error>
    ensures ok { let values = rows_values pool.now.places in
        let test = meets columns.now (Some on.now) in
        IfOk result (λ rows. values rows.items
        ≡ flat_map (rows_of_row kind test (length right.columns) (values right.rows)) (values left.now.rows)) }
    ensures kind { OnlyMemory result }
{
    let filter = RowFilter::new(alloc, columns, Some(on))?;
    let (_name, right_columns, right) = right.into_parts();
    let join = Join {
        kind,
        filter: &filter,
        width: right_columns.as_slice().len(),
    };
    match places_asked(columns, left.columns().len(), on, left.rows()) {
        Some(at) => rows_by_index(alloc, pool, &join, at, left.rows(), right),
        None => rows_by_scan(alloc, pool, &join, left.rows(), right.as_slice()),
    }
}
