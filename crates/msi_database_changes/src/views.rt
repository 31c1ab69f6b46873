//! Rows of values borrowed from where they lie, so that no text is copied.

ghost use Rattle.std.specs.Prelude.{◌≡◌, IfOk};
ghost use Rattle.std.specs.Cmp.Lexicographic.{slice_cmp};
ghost use Rattle.msi_base.specs.Results.{OnlyMemory};
ghost use Rattle.msi_table_cells.specs.CellValues.{row_values};
ghost use Rattle.msi_table_values.specs.Values.{value_cmp};
ghost use Rattle.msi_database_changes.specs.Views.{seen_row};

use msi_base::errors::Error;
use msi_pool::stringpool::StringPool;
use msi_table_cells::cell::ValueRef;
use msi_table_cells::parts::view_of_cell;
use msi_table_values::parts::ValueView;
use msi_table_values::value::Value;
use std::alloc::Global;
use std::cmp::Ordering;

/// Returns the values of a row of cells.
///
/// # Errors
/// Fails with `OutOfMemory`.
pub fn views_of_cells<'a>(
    alloc: Global,
    pool: &'a StringPool,
    row: &[ValueRef],
) -> Result<Vec<ValueView<'a>>, Error>
    ensures ok { IfOk result (λ views. seen_row views.items ≡ row_values pool.now.places row.now) }
    ensures kind { OnlyMemory result }
{
    let mut views = Vec::new(alloc);
    for cell in row {
        views.push(view_of_cell(pool, *cell))?;
    }
    Ok(views)
}

pub(crate) fn views_of_values<'a>(
    alloc: Global,
    row: &'a [Value],
) -> Result<Vec<ValueView<'a>>, Error>
    ensures ok { IfOk result (λ views. seen_row views.items ≡ row.now) }
    ensures kind { OnlyMemory result }
{
    let mut views = Vec::new(alloc);
    for value in row {
        views.push(ValueView::of(value))?;
    }
    Ok(views)
}

pub(crate) fn compare_views(row: &[ValueView], other: &[ValueView]) -> Ordering
    ensures { result ≡ slice_cmp value_cmp (seen_row row.now) (seen_row other.now) }
{
    for i in 0..row.len() {
        if i >= other.len() {
            return Ordering::Greater;
        }
        let order = row[i].compare(other[i]);
        if order != Ordering::Equal {
            return order;
        }
    }
    if row.len() < other.len() {
        Ordering::Less
    } else {
        Ordering::Equal
    }
}
