//! What a query for one table picks of its rows, which stay in the table's stream.

ghost use Rattle.std.specs.Prelude.{◌≡◌, ℕ, IfErr, IfOk, IsTrue, List, Some, filter, length, option_copied};
ghost use Rattle.msi_base.specs.Refusals.{IsRefusal};
ghost use Rattle.msi_base.specs.Results.{OnlyMemory};
ghost use Rattle.msi_table.specs.Rows.{AreRowNumbers, rows_numbered};
ghost use Rattle.msi_query_expressions.specs.Conditions.{meets};
ghost use Rattle.msi_query.specs.Rows.{rows_values};
ghost use Rattle.msi_query.specs.Selection.{narrowed as narrowed_by};
ghost use Rattle.msi_query_rows.specs.Picking.{columns_picked, keep_order as stay_in_order, places_picked};
ghost use Rattle.msi_query.specs.Selected.{Selects};

use crate::columns::{columns_of, places_of};
use crate::narrowing::refuse_unknown;
use msi_base::errors::Error;
use msi_base::text::{Items, Text};
use msi_pool::stringpool::StringPool;
use msi_query::parts::Clauses;
use msi_query_expressions::expr::Expr;
use msi_query_expressions::parts::RowFilter;
use msi_table::parts::{PickedRows, StoredRows, rows_of_picked};
use msi_table::row::Rows;
use msi_table_values::column::Column;
use msi_table_values::parts::copied_columns;
use std::alloc::Global;

/// Returns whether the rows that are picked stay in their order, and none is left out for another.
pub(crate) fn keep_order(clauses: &Clauses) -> bool
    ensures { result ≡ stay_in_order clauses.now }
{
    clauses.order().is_empty() && !clauses.is_distinct()
}

/// Decodes one row at a time.
fn filtered_numbers(
    alloc: Global,
    pool: &StringPool,
    test: &RowFilter,
    stored: &StoredRows<'_>,
) -> Result<Items<u16>, Error>
    ensures ok { let values = rows_values pool.now.places in let rows = stored.now.rows in
        IfOk result (λ numbers. values (rows_numbered (Some numbers) rows)
        ≡ filter (meets test.now.columns test.now.condition) (values rows)) }
    ensures inside { IfOk result (λ numbers. AreRowNumbers (length stored.now.rows) (Some numbers)) }
    ensures kind { OnlyMemory result }
{
    let mut numbers = Vec::new(alloc);
    for i in 0..stored.len() {
        let row = stored.row(alloc, i)?;
        if test.meets(alloc, pool, row.as_slice())? {
            numbers.push(i as u16)?;
        }
    }
    Ok(Items::from_vec(numbers))
}

/// Looks the condition's columns up once. Without a condition all rows are kept, and no number is noted.
fn kept_numbers(
    alloc: Global,
    pool: &StringPool,
    condition: Option<&Expr>,
    stored: &StoredRows<'_>,
) -> Result<Option<Items<u16>>, Error>
    ensures ok { let values = rows_values pool.now.places in let rows = stored.now.rows in
        IfOk result (λ numbers. values (rows_numbered numbers rows)
        ≡ filter (meets stored.now.columns (option_copied condition.entry)) (values rows)) }
    ensures inside { IfOk result (AreRowNumbers (length stored.now.rows)) }
    ensures kind { OnlyMemory result }
{
    match condition {
        None => Ok(None),
        Some(_) => {
            let test = RowFilter::new(alloc, stored.columns(), condition)?;
            Ok(Some(filtered_numbers(alloc, pool, &test, stored)?))
        }
    }
}

/// Returns the columns in the names' order, and their places; without names all columns, and no places.
fn picked_columns(
    alloc: Global,
    columns: &[Column],
    names: &[Text],
) -> Result<(Items<Column>, Option<Items<Option<usize>>>), Error>
    ensures places { IfOk result (λ picked. picked.1 ≡ places_picked names.now columns.now) }
    ensures columns { IfOk result (λ picked. picked.0 ≡ columns_picked picked.1 columns.now) }
    ensures kind { OnlyMemory result }
{
    if names.is_empty() {
        return Ok((copied_columns(alloc, columns)?, None));
    }
    let places = places_of(alloc, columns, names)?;
    let kept = columns_of(alloc, columns, places.as_slice())?;
    Ok((kept, Some(Items::from_vec(places))))
}

pub(crate) fn narrowed_rows<'a>(
    alloc: Global,
    pool: &'a StringPool,
    clauses: &Clauses,
    stored: StoredRows<'a>,
) -> Result<Rows<'a>, Error>
    requires { IsTrue (stay_in_order clauses.now) }
    ensures ok { (name : List ℕ) → IfOk result (Selects (narrowed_by clauses.now (record {
      name = name;
      columns = stored.entry.columns;
      rows = rows_values pool.now.places stored.entry.rows;
    }))) }
    ensures kind { (name : List ℕ) → IfErr result (IsRefusal (narrowed_by clauses.now (record {
      name = name;
      columns = stored.entry.columns;
      rows = rows_values pool.now.places stored.entry.rows;
    }))) }
{
    refuse_unknown(stored.columns(), clauses)?;
    let (columns, places) = picked_columns(alloc, stored.columns(), clauses.columns())?;
    let numbers = kept_numbers(alloc, pool, clauses.condition(), &stored)?;
    let picked = PickedRows {
        stored,
        numbers,
        places,
    };
    rows_of_picked(alloc, pool, columns, picked)
}
