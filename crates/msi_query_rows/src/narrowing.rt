//! Selection and projection.

ghost use Rattle.std.specs.Prelude.{◌≡◌, List, map, filter, IfOk, IfErr, Ok, option_copied};
ghost use Rattle.msi_base.specs.Results.{OnlyMemory};
ghost use Rattle.msi_query_expressions.specs.Conditions.{meets};
ghost use Rattle.msi_base.specs.Refusals.{IsRefusal, unless_refused};
ghost use Rattle.msi_pool.specs.Pool.{Place};
ghost use Rattle.msi_table.specs.Rows.{cells_at};
ghost use Rattle.msi_query.specs.Rows.{projected_cells, relation_values, rows_values};
ghost use Rattle.msi_query.specs.Selection.{clause_refusals, distinct_if as distinct_by, kept_of as kept_by};
ghost use Rattle.msi_query.specs.Selection.{meant_clauses, narrowed as narrowed_by, projected as projected_by};
ghost use Rattle.msi_query.specs.Selection.{selected as selected_by};

use crate::columns::{
    columns_of, condition_means_columns, has_columns, knows_condition, mean_columns, places_of,
};
use crate::distinct::distinct_rows;
use crate::ordering::ordered_rows;
use crate::reasons;
use crate::relation::Relation;
use msi_base::errors::{Error, ErrorKind};
use msi_base::text::{Items, Text};
use msi_pool::stringpool::StringPool;
use msi_query::parts::Clauses;
use msi_query_expressions::expr::Expr;
use msi_query_expressions::meaning::Scope;
use msi_query_expressions::parts::RowFilter;
use msi_table::parts::projected_row;
use msi_table_cells::cell::ValueRef;
use msi_table_values::column::Column;
use std::alloc::Global;

fn filtered(
    alloc: Global,
    pool: &StringPool,
    test: &RowFilter,
    rows: Vec<Items<ValueRef>>,
) -> Result<Vec<Items<ValueRef>>, Error>
    ensures ok { IfOk result (λ kept. rows_values pool.now.places kept.items
        ≡ filter (meets test.now.columns test.now.condition) (rows_values pool.now.places rows.items)) }
    ensures kind { OnlyMemory result }
{
    let mut kept = Vec::new(alloc);
    for row in rows {
        if test.meets(alloc, pool, row.as_slice())? {
            kept.push(row)?;
        }
    }
    Ok(kept)
}

fn kept_rows(
    alloc: Global,
    pool: &StringPool,
    columns: &[Column],
    condition: Option<&Expr>,
    rows: Vec<Items<ValueRef>>,
) -> Result<Vec<Items<ValueRef>>, Error>
    ensures ok { IfOk result (λ kept. rows_values pool.now.places kept.items
        ≡ filter (meets columns.now (option_copied condition.entry)) (rows_values pool.now.places rows.items)) }
    ensures kind { OnlyMemory result }
{
    match condition {
        None => Ok(rows),
        Some(_) => {
            let test = RowFilter::new(alloc, columns, condition)?;
            filtered(alloc, pool, &test, rows)
        }
    }
}

fn projected_rows(
    alloc: Global,
    places: &[Option<usize>],
    rows: &[Items<ValueRef>],
) -> Result<Vec<Items<ValueRef>>, Error>
    ensures ok { IfOk result (λ projected. projected.items ≡ map (cells_at places.now) rows.now) }
    ensures kind { OnlyMemory result }
{
    let mut projected = Vec::with_capacity(alloc, rows.len())?;
    for row in rows {
        projected.push(projected_row(alloc, places, row.as_slice())?)?;
    }
    Ok(projected)
}

fn projected(
    alloc: Global,
    names: &[Text],
    columns: &[Column],
    rows: &[Items<ValueRef>],
) -> Result<Relation, Error>
    ensures ok { IfOk result (λ kept. kept ≡ projected_cells names.now columns.now rows.now) }
    ensures kind { OnlyMemory result }
{
    let places = places_of(alloc, columns, names)?;
    let kept = columns_of(alloc, columns, places.as_slice())?;
    let rows = projected_rows(alloc, places.as_slice(), rows)?;
    let name = Text::from_string(String::new(alloc));
    Ok(Relation::new(name, kept, rows))
}

/// Without names all columns are kept.
fn with_columns(alloc: Global, names: &[Text], relation: Relation) -> Result<Relation, Error>
    ensures ok { IfOk result (λ kept. (places : List Place)
        → relation_values places kept ≡ projected_by names.now (relation_values places relation)) }
    ensures kind { OnlyMemory result }
{
    if names.is_empty() {
        return Ok(relation);
    }
    projected(alloc, names, relation.columns(), relation.rows())
}

fn distinct_if(
    alloc: Global,
    pool: &StringPool,
    is_distinct: bool,
    relation: Relation,
) -> Result<Relation, Error>
    ensures ok { let values = relation_values pool.now.places in
        IfOk result (λ kept. values kept ≡ distinct_by is_distinct (values relation)) }
    ensures kind { OnlyMemory result }
{
    if !is_distinct {
        return Ok(relation);
    }
    let (name, columns, rows) = relation.into_parts();
    let rows = distinct_rows(alloc, pool, rows.as_slice())?;
    Ok(Relation::new(name, columns, rows))
}

/// Applies the condition and the order before the columns are selected, and compares rows after that. All names have
/// to be known.
pub(crate) fn selected(
    alloc: Global,
    pool: &StringPool,
    clauses: &Clauses,
    relation: Relation,
) -> Result<Relation, Error>
    ensures ok { IfOk result (λ kept. relation_values pool.now.places kept
        ≡ selected_by clauses.now (relation_values pool.now.places relation)) }
    ensures kind { OnlyMemory result }
{
    let (name, columns, rows) = relation.into_parts();
    let rows = kept_rows(alloc, pool, columns.as_slice(), clauses.condition(), rows)?;
    let rows = ordered_rows(alloc, pool, columns.as_slice(), clauses.order(), rows)?;
    let ordered = Relation::new(name, columns, rows);
    let names = clauses.columns();
    let kept = with_columns(alloc, names, ordered)?;
    distinct_if(alloc, pool, clauses.is_distinct(), kept)
}

pub(crate) fn refuse_unknown(columns: &[Column], clauses: &Clauses) -> Result<(), Error>
    ensures { result ≡ unless_refused (clause_refusals clauses.now columns.now) tt }
{
    if !has_columns(columns, clauses.columns()) {
        return Err(Error::new(ErrorKind::InvalidInput, reasons::KEPT_COLUMN));
    }
    if !knows_condition(columns, clauses.condition()) {
        return Err(Error::new(ErrorKind::InvalidInput, reasons::CONDITION_COLUMN));
    }
    if !has_columns(columns, clauses.order()) {
        return Err(Error::new(ErrorKind::InvalidInput, reasons::ORDER_COLUMN));
    }
    Ok(())
}

pub(crate) fn narrowed(
    alloc: Global,
    pool: &StringPool,
    clauses: &Clauses,
    relation: Relation,
) -> Result<Relation, Error>
    ensures ok { IfOk result (λ kept. narrowed_by clauses.now (relation_values pool.now.places relation)
        ≡ Ok (relation_values pool.now.places kept)) }
    ensures kind { IfErr result (IsRefusal (narrowed_by clauses.now (relation_values pool.now.places relation))) }
{
    refuse_unknown(relation.columns(), clauses)?;
    selected(alloc, pool, clauses, relation)
}

/// Refuses clauses where a name means no column. It takes no memory.
pub(crate) fn refuse_meaningless(scope: Scope<'_>, clauses: &Clauses) -> Result<(), Error>
    ensures { let columns = scope.entry.columns.now in
        result ≡ unless_refused (clause_refusals (meant_clauses scope.entry.table.now columns clauses.now) columns) tt }
{
    if !mean_columns(scope, clauses.columns()) {
        return Err(Error::new(ErrorKind::InvalidInput, reasons::KEPT_COLUMN));
    }
    if !condition_means_columns(scope, clauses.condition()) {
        return Err(Error::new(ErrorKind::InvalidInput, reasons::CONDITION_COLUMN));
    }
    if !mean_columns(scope, clauses.order()) {
        return Err(Error::new(ErrorKind::InvalidInput, reasons::ORDER_COLUMN));
    }
    Ok(())
}

/// The names in the clauses may have the relation's in front.
pub(crate) fn kept_of(
    alloc: Global,
    pool: &StringPool,
    clauses: &Clauses,
    relation: Relation,
) -> Result<Relation, Error>
    ensures ok { let values = relation_values pool.now.places in
        IfOk result (λ kept. kept_by clauses.now (values relation) ≡ Ok (values kept)) }
    ensures kind { let values = relation_values pool.now.places in
        IfErr result (IsRefusal (kept_by clauses.now (values relation))) }
{
    let scope = Scope {
        table: relation.name(),
        columns: relation.columns(),
    };
    let clauses = clauses.with_meant_names(alloc, scope)?;
    narrowed(alloc, pool, &clauses, relation)
}
