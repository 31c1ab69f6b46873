//! Rows of cells.

ghost use Rattle.std.specs.Prelude.{◌≡◌, ◌++◌, IfOk, replicate};
ghost use Rattle.msi_base.specs.Results.{OnlyMemory};
ghost use Rattle.msi_table_cells.specs.declared.cell.ValueRef.TheVariants as cell;

use msi_base::errors::Error;
use msi_base::text::Items;
use msi_table_cells::cell::ValueRef;
use std::alloc::Global;

pub(crate) fn pair(
    alloc: Global,
    row: &[ValueRef],
    other: &[ValueRef],
) -> Result<Items<ValueRef>, Error>
    ensures ok { IfOk result (λ pair. pair ≡ row.now ++ other.now) }
    ensures kind { OnlyMemory result }
{
    let mut cells = Vec::with_capacity(alloc, row.len().saturating_add(other.len()))?;
    cells.extend_from_slice(row)?;
    cells.extend_from_slice(other)?;
    Ok(Items::from_vec(cells))
}

pub(crate) fn with_nulls(
    alloc: Global,
    row: &[ValueRef],
    count: usize,
) -> Result<Items<ValueRef>, Error>
    ensures ok { IfOk result (λ cells. cells ≡ row.now ++ replicate count cell.Null) }
    ensures kind { OnlyMemory result }
{
    let mut cells = Vec::with_capacity(alloc, row.len().saturating_add(count))?;
    cells.extend_from_slice(row)?;
    for _ in 0..count {
        cells.push(ValueRef::Null)?;
    }
    Ok(Items::from_vec(cells))
}
