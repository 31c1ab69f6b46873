//! What a join gives of a row.

ghost use Rattle.std.specs.Prelude.{◌≡◌, ◌++◌, OnOk};
ghost use Rattle.msi_base.specs.Results.{OnlyMemory};
ghost use Rattle.msi_table_cells.specs.CellValues.{row_values};
ghost use Rattle.msi_query_expressions.specs.Conditions.{meets};
ghost use Rattle.msi_query.specs.Rows.{rows_values};
ghost use Rattle.msi_query.specs.Selection.{pairs_of, rows_of_row};

use crate::rows::{pair, with_nulls};
use msi_base::errors::Error;
use msi_base::text::Items;
use msi_pool::stringpool::StringPool;
use msi_query::query::JoinKind;
use msi_query_expressions::joins::keeps_alone;
use msi_query_expressions::parts::RowFilter;
use msi_table_cells::cell::ValueRef;
use std::alloc::Global;

/// A join: its kind, its condition on pairs, and how many columns its right side has.
#[derive(Clone, Copy, Drop)]
pub(crate) struct Join<'a, 'b> {
    pub(crate) kind: JoinKind,
    pub(crate) filter: &'a RowFilter<'b>,
    pub(crate) width: usize,
}

/// Makes no row for a pair that is only tried.
fn add_pairs(
    alloc: Global,
    pool: &StringPool,
    filter: &RowFilter,
    right: &[Items<ValueRef>],
    row: &[ValueRef],
    rows: &mut Vec<Items<ValueRef>>,
) -> Result<(), Error>
    ensures ok { let values = rows_values pool.now.places in
        let test = meets filter.now.columns filter.now.condition in
        OnOk result (values rows.new.items
        ≡ values rows.old.items ++ pairs_of test (values right.now) (row_values pool.now.places row.now)) }
    ensures kind { OnlyMemory result }
{
    for other in right {
        let other = other.as_slice();
        if filter.meets_pair(alloc, pool, row, other)? {
            rows.push(pair(alloc, row, other)?)?;
        }
    }
    Ok(())
}

/// Adds the pairs of a left row, or in a left join where it has none the row with nulls.
pub(crate) fn add_row(
    alloc: Global,
    pool: &StringPool,
    join: &Join,
    right: &[Items<ValueRef>],
    row: &[ValueRef],
    rows: &mut Vec<Items<ValueRef>>,
) -> Result<(), Error>
    ensures ok { let values = rows_values pool.now.places in
        let test = meets join.now.filter.now.columns join.now.filter.now.condition in
        OnOk result (values rows.new.items ≡ values rows.old.items
        ++ rows_of_row join.now.kind test join.now.width (values right.now) (row_values pool.now.places row.now)) }
    ensures kind { OnlyMemory result }
{
    let before = rows.len();
    add_pairs(alloc, pool, join.filter, right, row, rows)?;
    if keeps_alone(join.kind, rows.len() - before) {
        rows.push(with_nulls(alloc, row, join.width)?)?;
    }
    Ok(())
}
