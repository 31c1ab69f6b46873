//! Products of relations.

ghost use Rattle.std.specs.Prelude.{◌≡◌, [], IfOk, filter, map, option_copied, slice_index_or};
ghost use Rattle.std.specs.List.{AllByRecursion};
ghost use Rattle.msi_base.specs.Results.{OnlyMemory};
ghost use Rattle.msi_table.specs.Rows.{AreAsWide};
ghost use Rattle.msi_query_expressions.specs.Conditions.{meets};
ghost use Rattle.msi_query.specs.Product.{product};
ghost use Rattle.msi_query.specs.Rows.{rows_values};
ghost use Rattle.msi_query_rows.specs.Combinations.{combined, is_kept, rows_of_each};

use crate::combining::kept_combinations;
use crate::links::links_of;
use crate::numbers::numbered_row;
use crate::relation::Relation;
use msi_base::errors::Error;
use msi_base::text::Items;
use msi_pool::stringpool::StringPool;
use msi_query_expressions::expr::Expr;
use msi_query_expressions::parts::RowFilter;
use msi_table_cells::cell::ValueRef;
use msi_table_values::column::Column;
use std::alloc::Global;

/// Relations, and a condition on the rows of their product. The texts of their cells stand in the pool.
#[derive(Clone, Copy, Drop)]
pub(crate) struct Product<'a, 'b> {
    pub(crate) pool: &'a StringPool,
    pub(crate) relations: &'a [Relation],
    pub(crate) filter: &'a RowFilter<'b>,
}

/// Returns the rows of the relation of a number, or none where there is no such relation.
pub(crate) fn rows_of<'a>(relations: &'a [Relation], relation: usize) -> &'a [Items<ValueRef>]
    ensures { result.now ≡ slice_index_or (rows_of_each relations.now) relation [] }
{
    match relations.get(relation) {
        Some(relation) => relation.rows(),
        None => &[],
    }
}

pub(crate) fn number_of(combination: &[usize], relation: usize) -> usize
    ensures { result ≡ slice_index_or combination.now relation 0 }
{
    combination.get(relation).copied().unwrap_or(0)
}

fn combined_row(
    alloc: Global,
    relations: &[Relation],
    combination: &[usize],
) -> Result<Items<ValueRef>, Error>
    ensures ok { IfOk result (λ row. row ≡ combined (rows_of_each relations.now) combination.now) }
    ensures kind { OnlyMemory result }
{
    let mut row = Vec::new(alloc);
    for i in 0..relations.len() {
        let number = number_of(combination, i);
        row.extend_from_slice(numbered_row(rows_of(relations, i), number))?;
    }
    Ok(Items::from_vec(row))
}

/// Returns whether the row that a combination makes meets the condition.
pub(crate) fn is_met(alloc: Global, product: &Product, combination: &[usize]) -> Result<bool, Error>
    ensures ok { let rows = rows_of_each product.now.relations.now in
        IfOk result (λ met. met ≡ is_kept product.now.pool.now.places product.now.filter.now rows combination.now) }
    ensures kind { OnlyMemory result }
{
    let row = combined_row(alloc, product.relations, combination)?;
    product.filter.meets(alloc, product.pool, row.as_slice())
}

fn combined_rows(
    alloc: Global,
    relations: &[Relation],
    combinations: &[Items<usize>],
) -> Result<Vec<Items<ValueRef>>, Error>
    ensures ok { IfOk result (λ rows. rows.items ≡ map (combined (rows_of_each relations.now)) combinations.now) }
    ensures kind { OnlyMemory result }
{
    let mut rows = Vec::new(alloc);
    for combination in combinations {
        rows.push(combined_row(alloc, relations, combination.as_slice())?)?;
    }
    Ok(rows)
}

/// Returns the rows of the relations' product that meet a condition, the first relation's varying fastest. The columns
/// are those of all relations in order, as the condition names them. Where it wants columns to be equal, no more rows
/// are put together than have equal values there.
pub(crate) fn product_rows(
    alloc: Global,
    pool: &StringPool,
    columns: &[Column],
    relations: &[Relation],
    condition: Option<&Expr>,
) -> Result<Vec<Items<ValueRef>>, Error>
    requires { AllByRecursion (λ r. AreAsWide r.columns r.rows) relations.now }
    ensures ok { let values = rows_values pool.now.places in
        IfOk result (λ rows. values rows.items ≡ filter (meets columns.now (option_copied condition.entry))
        (product (map (λ r. values r.rows) relations.now))) }
    ensures kind { OnlyMemory result }
{
    let filter = RowFilter::new(alloc, columns, condition)?;
    let links = links_of(alloc, relations, columns, condition)?;
    let product = Product {
        pool,
        relations,
        filter: &filter,
    };
    let found = kept_combinations(alloc, &product, links.as_slice())?;
    combined_rows(alloc, relations, found.as_slice())
}
