//! Rows of named columns: why they are refused, and the rows of all columns that they stand for.

ghost use Rattle.std.specs.Prelude.{◌≡◌, IfOk, bytes_eq, length, map, option_and_then, option_copied, position};
ghost use Rattle.std.specs.Prelude.{slice_get, ◌++◌, Err};
ghost use Rattle.std.specs.List.{list_all, list_any};
ghost use Rattle.msi_base.specs.declared.errors.ErrorKind.TheVariants.{InvalidInput};
ghost use Rattle.msi_base.specs.Lists.{has_pair};
ghost use Rattle.msi_base.specs.Refusals.{unless_refused};
ghost use Rattle.msi_base.specs.Results.{OnlyMemory};
ghost use Rattle.msi_table_values.specs.ValidValues.{is_valid_value};
ghost use Rattle.msi_query.specs.Selection.{has_columns as has_each};
ghost use Rattle.msi_database_changes.specs.Insert.{count_refusals, misfit_refusals, name_refusals};
ghost use Rattle.msi_database_changes.specs.Insert.{row_fits, value_beside as value_of_column};
ghost use Rattle.msi_database_changes.specs.Insert.{whole_row as row_of_all_columns};

use crate::reasons;
use msi_base::errors::{Error, ErrorKind, Reason};
use msi_base::text::{Items, Text};
use msi_query::parts::NewRow;
use msi_table_values::column::Column;
use msi_table_values::parts::has_column;
use msi_table_values::value::Value;
use std::alloc::Global;

fn has_columns(columns: &[Column], names: &[Text]) -> bool
    ensures { result ≡ has_each columns.now names.now }
{
    names.iter().all(|name| has_column(columns, name.as_str()))
}

fn is_among(name: &Text, names: &[Text]) -> bool
    ensures { result ≡ list_any (bytes_eq name.now) names.now }
{
    names.iter().any(|other| name.as_str() == other.as_str())
}

fn repeats_name(names: &[Text]) -> bool
    ensures { result ≡ has_pair bytes_eq names.now }
{
    match names {
        [] => false,
        [first, others @ ..] => is_among(first, others) || repeats_name(others),
    }
}

fn place_of(names: &[Text], name: &str) -> Option<usize>
    ensures { result ≡ position (λ n. bytes_eq n name.now) names.now }
{
    names.iter().position(|named| named.as_str() == name)
}

/// Returns the value beside the name of a column.
fn value_beside<'a>(names: &[Text], row: &'a [Value], name: &str) -> Option<&'a Value>
    ensures { option_copied result
        ≡ option_and_then (slice_get row.now) (position (λ n. bytes_eq n name.now) names.now) }
{
    match place_of(names, name) {
        Some(place) => row.get(place),
        None => None,
    }
}

/// Returns whether a column takes the value beside its name, or null if it isn't named.
fn takes_value(column: &Column, names: &[Text], row: &[Value]) -> bool
    ensures { result ≡ is_valid_value column.now (value_of_column names.now row.now column.now.name) }
{
    match value_beside(names, row, column.name()) {
        Some(value) => column.is_valid_value(value),
        None => column.is_valid_value(&Value::Null),
    }
}

fn take_values(columns: &[Column], names: &[Text], row: &[Value]) -> bool
    ensures { result ≡ list_all (λ c. is_valid_value c (value_of_column names.now row.now c.name)) columns.now }
{
    columns.iter().all(|column| takes_value(column, names, row))
}

/// Returns whether the row of all columns fits them. It isn't made for that.
fn named_row_fits(columns: &[Column], names: &[Text], row: &[Value]) -> bool
    ensures { result ≡ row_fits columns.now (row_of_all_columns columns.now names.now row.now) }
{
    take_values(columns, names, row)
}

fn refused(reason: Reason) -> Result<(), Error>
    ensures { result ≡ Err InvalidInput }
{
    Err(Error::new(ErrorKind::InvalidInput, reason))
}

fn refuse_names(columns: &[Column], names: &[Text]) -> Result<(), Error>
    ensures { result ≡ unless_refused (name_refusals columns.now names.now) tt }
{
    if !has_columns(columns, names) {
        return refused(reasons::UNKNOWN_COLUMN);
    }
    if repeats_name(names) {
        return refused(reasons::NAMED_TWICE);
    }
    Ok(())
}

fn refuse_counts(names: &[Text], rows: &[NewRow]) -> Result<(), Error>
    ensures { result ≡ unless_refused (count_refusals names.now rows.now) tt }
{
    for row in rows {
        if row.values().len() != names.len() {
            return refused(reasons::VALUE_COUNT);
        }
    }
    Ok(())
}

fn refuse_named_misfits(columns: &[Column], names: &[Text], rows: &[NewRow]) -> Result<(), Error>
    ensures { result
        ≡ unless_refused (misfit_refusals columns.now (map (row_of_all_columns columns.now names.now) rows.now)) tt }
{
    for row in rows {
        if !named_row_fits(columns, names, row.values()) {
            return refused(reasons::ROW_MISFITS);
        }
    }
    Ok(())
}

/// Refuses rows whose values are of the named columns. It takes no memory.
///
/// # Errors
/// Fails with `InvalidInput` if a named column isn't there or is named twice, if a row has more or fewer values than
/// there are names, and if a column doesn't take its value: null if it isn't named.
pub(crate) fn refuse_named_rows(
    columns: &[Column],
    names: &[Text],
    rows: &[NewRow],
) -> Result<(), Error>
    ensures { result ≡ unless_refused (name_refusals columns.now names.now ++ (count_refusals names.now rows.now
        ++ misfit_refusals columns.now (map (row_of_all_columns columns.now names.now) rows.now))) tt }
{
    refuse_names(columns, names)?;
    refuse_counts(names, rows)?;
    refuse_named_misfits(columns, names, rows)
}

fn whole_row(
    alloc: Global,
    columns: &[Column],
    names: &[Text],
    row: &[Value],
) -> Result<Items<Value>, Error>
    ensures ok { IfOk result (λ values. values ≡ row_of_all_columns columns.now names.now row.now) }
    ensures kind { OnlyMemory result }
{
    let mut values = Vec::with_capacity(alloc, columns.len())?;
    for column in columns {
        values.push(whole_value(alloc, names, row, column.name())?)?;
    }
    Ok(Items::from_vec(values))
}

fn whole_value(alloc: Global, names: &[Text], row: &[Value], name: &str) -> Result<Value, Error>
    ensures ok { IfOk result (λ value. value ≡ value_of_column names.now row.now name.now) }
    ensures kind { OnlyMemory result }
{
    match value_beside(names, row, name) {
        Some(value) => value.clone(alloc),
        None => Ok(Value::Null),
    }
}

/// Returns rows with a value for each column, from those whose values are of the named columns. The others get null.
///
/// # Errors
/// Fails with `OutOfMemory`.
pub(crate) fn named_rows(
    alloc: Global,
    columns: &[Column],
    names: &[Text],
    rows: &[NewRow],
) -> Result<Vec<Items<Value>>, Error>
    ensures ok { IfOk result (λ values. values.items ≡ map (row_of_all_columns columns.now names.now) rows.now) }
    ensures kind { OnlyMemory result }
{
    let mut values = Vec::with_capacity(alloc, rows.len())?;
    for row in rows {
        values.push(whole_row(alloc, columns, names, row.values())?)?;
    }
    Ok(values)
}
