//! Rows of which each counts once.

ghost use Rattle.std.specs.Prelude.{◌≡◌, IfOk, []};
ghost use Rattle.std.specs.Cmp.{po, partial_equiv_from_equiv, eq_by_cmp_equiv};
ghost use Rattle.std.specs.Cmp.Lexicographic.{slice_cmp, lists_total};
ghost use Rattle.std.specs.Ordering.{as_partial_cmp, eq_by_cmp};
ghost use Rattle.std.proofs.Common.{refl};
ghost use Rattle.msi_base.specs.Results.{OnlyMemory};
ghost use Rattle.msi_table_cells.specs.CellValues.{row_values};
ghost use Rattle.msi_table_values.specs.OrderLaws.{value_cmp-total};
ghost use Rattle.msi_table_values.specs.Values.{value_cmp};
ghost use Rattle.msi_query.specs.Rows.{rows_values};
ghost use Rattle.msi_query.specs.Selection.{unseen};

use msi_base::errors::Error;
use msi_base::text::Items;
use msi_pool::stringpool::StringPool;
use msi_table_cells::cell::ValueRef;
use msi_table_cells::parts::view_of_cell;
use std::alloc::Global;
use std::cmp::Ordering;
use std::collections::BTreeSet;
use std::marker::Model;

/// A row, borrowed from where it lies, and the pool of its texts. A contract sees the values.
#[derive(Drop)]
struct SeenRow<'a> {
    pool: &'a StringPool,
    cells: &'a [ValueRef],
}

impl<'a> Model for SeenRow<'a> {
    ghost use Rattle.std.specs.Prelude.{List};
    ghost use Rattle.msi_table_values.specs.declared.value.Value.{Value as ValueOf};
    ghost use Rattle.msi_table_cells.specs.CellValues.{row_values};

    ghost Value = { List ValueOf };

    ghost view = { λ r. row_values r.pool.now.places r.cells.now };
}

/// The first value that differs decides, and else the lengths do. No text is copied.
fn compare_cells(
    pool: &StringPool,
    row: &[ValueRef],
    others: &StringPool,
    other: &[ValueRef],
) -> Ordering
    ensures { result
        ≡ slice_cmp value_cmp (row_values pool.now.places row.now) (row_values others.now.places other.now) }
{
    for i in 0..row.len() {
        if i >= other.len() {
            return Ordering::Greater;
        }
        let order = view_of_cell(pool, row[i]).compare(view_of_cell(others, other[i]));
        if order != Ordering::Equal {
            return order;
        }
    }
    if row.len() < other.len() {
        Ordering::Less
    } else {
        Ordering::Equal
    }
}

/// Compares the rows' values.
impl Ord for SeenRow<'_> {
    ghost cmp = { slice_cmp value_cmp };

    ghost total = { lists_total value_cmp-total };

    ghost matches_partial_cmp = { λ _ _. refl };

    ghost matches_eq = { λ _ _. refl };

    fn cmp(&self, other: &Self) -> Ordering {
        compare_cells(self.pool, self.cells, other.pool, other.cells)
    }
}

impl PartialOrd for SeenRow<'_> {
    ghost partial_cmp = { as_partial_cmp (slice_cmp value_cmp) };

    ghost laws = { po (lists_total value_cmp-total) (λ _ _. refl) };

    fn partial_cmp(&self, other: &Self) -> Option<Ordering> {
        Some(self.cmp(other))
    }
}

impl PartialEq for SeenRow<'_> {
    ghost eq = { eq_by_cmp (slice_cmp value_cmp) };

    ghost laws = { partial_equiv_from_equiv (eq_by_cmp_equiv (lists_total value_cmp-total)) };

    fn eq(&self, other: &Self) -> bool {
        self.cmp(other) == Ordering::Equal
    }
}

impl Eq for SeenRow<'_> {
    ghost laws = { eq_by_cmp_equiv (lists_total value_cmp-total) };
}

fn copied_row(alloc: Global, row: &[ValueRef]) -> Result<Items<ValueRef>, Error>
    ensures ok { IfOk result (λ copy. copy ≡ row.now) }
    ensures kind { OnlyMemory result }
{
    let mut cells = Vec::with_capacity(alloc, row.len())?;
    cells.extend_from_slice(row)?;
    Ok(Items::from_vec(cells))
}

/// Returns the rows without those whose values an earlier row has too. It takes the rows times a logarithm.
pub(crate) fn distinct_rows(
    alloc: Global,
    pool: &StringPool,
    rows: &[Items<ValueRef>],
) -> Result<Vec<Items<ValueRef>>, Error>
    ensures ok { IfOk result (λ kept. rows_values pool.now.places kept.items
        ≡ unseen [] (rows_values pool.now.places rows.now)) }
    ensures kind { OnlyMemory result }
{
    let mut seen = BTreeSet::new(alloc);
    let mut kept = Vec::new(alloc);
    for row in rows {
        let cells = row.as_slice();
        if seen.insert(SeenRow { pool, cells })? {
            kept.push(copied_row(alloc, cells)?)?;
        }
    }
    Ok(kept)
}
