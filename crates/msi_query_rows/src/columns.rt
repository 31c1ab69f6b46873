//! The columns of relations.

ghost use Rattle.std.specs.Prelude.{◌≡◌, ◌++◌, ◌∷◌, ◌==◌, map, IfOk, OnOk, if◌then◌else◌, length, List, option_copied};
ghost use Rattle.std.specs.Prelude.{option_map, string_bytes};
ghost use Rattle.std.specs.List.{filter_map};
ghost use Rattle.msi_pool.specs.Pool.{Place};
ghost use Rattle.msi_base.specs.Results.{OnlyMemory};
ghost use Rattle.msi_table_values.specs.Columns.{column_index as index_of, has_column as has_named};
ghost use Rattle.msi_query_expressions.specs.Meaning.{meant, renamed as with_names};
ghost use Rattle.msi_query.specs.Rows.{column_at as column_there, relation_values};
ghost use Rattle.msi_query.specs.Selection.{condition_names, has_columns as has_each};
ghost use Rattle.msi_query.specs.Selection.{joined_columns as joined_by, nullable_if, prefixed as prefixed_by};
ghost use Rattle.msi_query.specs.Selection.{product_columns as product_by};

use crate::relation::Relation;
use msi_base::errors::Error;
use msi_base::text::{Items, Text};
use msi_query::query::JoinKind;
use msi_query_expressions::expr::Expr;
use msi_query_expressions::joins::is_left;
use msi_query_expressions::meaning::{Scope, meant_name};
use msi_query_expressions::parts::{knows_meant_names, knows_names};
use msi_table_values::column::Column;
use msi_table_values::parts::{column_index, has_column, nullable, renamed};
use std::alloc::Global;

pub(crate) fn has_columns(columns: &[Column], names: &[Text]) -> bool
    ensures { result ≡ has_each columns.now names.now }
{
    names.iter().all(|name| has_column(columns, name.as_str()))
}

pub(crate) fn knows_condition(columns: &[Column], condition: Option<&Expr>) -> bool
    ensures { result ≡ has_each columns.now (condition_names (option_copied condition.entry)) }
{
    match condition {
        Some(condition) => knows_names(condition, columns),
        None => true,
    }
}

fn means_column(scope: Scope<'_>, name: &str) -> bool
    ensures { let columns = scope.entry.columns.now in
        result ≡ has_named (meant scope.entry.table.now columns name.now) columns }
{
    has_column(scope.columns, meant_name(scope, name))
}

/// Returns whether each name means a column.
pub(crate) fn mean_columns(scope: Scope<'_>, names: &[Text]) -> bool
    ensures { result ≡ has_each scope.entry.columns.now
        (map (meant scope.entry.table.now scope.entry.columns.now) names.now) }
{
    match names {
        [] => true,
        [name, others @ ..] => { means_column(scope, name.as_str()) && mean_columns(scope, others) }
    }
}

pub(crate) fn condition_means_columns(scope: Scope<'_>, condition: Option<&Expr>) -> bool
    ensures { result ≡ has_each scope.entry.columns.now (condition_names (option_map
        (with_names (meant scope.entry.table.now scope.entry.columns.now)) (option_copied condition.entry))) }
{
    match condition {
        Some(condition) => knows_meant_names(condition, scope),
        None => true,
    }
}

pub(crate) fn places_of(
    alloc: Global,
    columns: &[Column],
    names: &[Text],
) -> Result<Vec<Option<usize>>, Error>
    ensures ok { IfOk result (λ places. places.items ≡ map (λ name. index_of name columns.now) names.now) }
    ensures kind { OnlyMemory result }
{
    let mut places = Vec::new(alloc);
    for name in names {
        places.push(column_index(columns, name.as_str()))?;
    }
    Ok(places)
}

fn column_at(columns: &[Column], place: Option<usize>) -> Option<&Column>
    ensures { option_copied result ≡ column_there columns.now place }
{
    match place {
        Some(place) => columns.get(place),
        None => None,
    }
}

pub(crate) fn columns_of(
    alloc: Global,
    columns: &[Column],
    places: &[Option<usize>],
) -> Result<Items<Column>, Error>
    ensures ok { IfOk result (λ kept. kept ≡ filter_map (column_there columns.now) places.now) }
    ensures kind { OnlyMemory result }
{
    let mut kept = Vec::new(alloc);
    for place in places {
        if let Some(column) = column_at(columns, *place) {
            kept.push(column.clone(alloc)?)?;
        }
    }
    Ok(Items::from_vec(kept))
}

fn prefixed(alloc: Global, side: &str, name: &str) -> Result<String, Error>
    ensures ok { IfOk result (λ whole. string_bytes whole
        ≡ (if length side.now == 0 then name.now else side.now ++ 46 ∷ name.now)) }
    ensures kind { OnlyMemory result }
{
    if side.is_empty() {
        return Ok(String::from_str(alloc, name)?);
    }
    let mut whole = String::from_str(alloc, side)?;
    whole.push('.')?;
    whole.push_str(name)?;
    Ok(whole)
}

/// The column takes null where it did, or where `nulls` asks for it.
fn side_column(alloc: Global, side: &str, nulls: bool, column: &Column) -> Result<Column, Error>
    ensures ok { IfOk result (λ joined. joined ≡ nullable_if nulls (prefixed_by side.now column.now)) }
    ensures kind { OnlyMemory result }
{
    let name = prefixed(alloc, side, column.name())?;
    let column = renamed(alloc, column, name)?;
    Ok(if nulls { nullable(column) } else { column })
}

fn add_columns(
    alloc: Global,
    side: &str,
    nulls: bool,
    columns: &[Column],
    joined: &mut Vec<Column>,
) -> Result<(), Error>
    ensures ok { OnOk result (joined.new.items
        ≡ joined.old.items ++ map (λ c. nullable_if nulls (prefixed_by side.now c)) columns.now) }
    ensures kind { OnlyMemory result }
{
    for column in columns {
        joined.push(side_column(alloc, side, nulls, column)?)?;
    }
    Ok(())
}

pub(crate) fn joined_columns(
    alloc: Global,
    kind: JoinKind,
    left: &Relation,
    right: &Relation,
) -> Result<Items<Column>, Error>
    ensures ok { IfOk result (λ columns. (places : List Place)
        → columns ≡ joined_by kind (relation_values places left.now) (relation_values places right.now)) }
    ensures kind { OnlyMemory result }
{
    let (name, nulls) = (right.name(), is_left(kind));
    let mut columns = Vec::new(alloc);
    add_columns(alloc, left.name(), false, left.columns(), &mut columns)?;
    add_columns(alloc, name, nulls, right.columns(), &mut columns)?;
    Ok(Items::from_vec(columns))
}

pub(crate) fn product_columns(alloc: Global, relations: &[Relation]) -> Result<Items<Column>, Error>
    ensures ok { IfOk result (λ columns. (places : List Place)
        → columns ≡ product_by (map (relation_values places) relations.now)) }
    ensures kind { OnlyMemory result }
{
    let mut columns = Vec::new(alloc);
    for relation in relations {
        add_columns(
            alloc,
            relation.name(),
            false,
            relation.columns(),
            &mut columns,
        )?;
    }
    Ok(Items::from_vec(columns))
}
