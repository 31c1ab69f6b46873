//! Rows of the system tables as they are looked at: the values of a row by their places, without a copy of a text.

ghost use Rattle.std.specs.Prelude.{◌≡◌, IfOk, map};
ghost use Rattle.std.specs.List.{list_any};
ghost use Rattle.msi_base.specs.Results.{OnlyMemory};
ghost use Rattle.msi_table_cells.specs.CellValues.{row_values, value_of_cell};
ghost use Rattle.msi_table_values.specs.Values.{value_cmp, is_null, is_text};
ghost use Rattle.msi_table_values.specs.Views.{seen_value};
ghost use Rattle.msi_database_schema.specs.Schema.{number_of, text_at as text_in, value_at, values_in};

use crate::copies::Copies;
use msi_base::errors::Error;
use msi_base::shared_text::SharedText;
use msi_base::text::Items;
use msi_pool::stringpool::StringPool;
use msi_table_cells::cell::ValueRef;
use msi_table_cells::parts::view_of_cell;
use msi_table_values::parts::{SharedTexts, ValueView};
use std::alloc::Global;
use std::cmp::Ordering;
use std::marker::Model;

/// A row of a system table, borrowed: its cells, and the pool of their texts with copies of some. A contract sees its
/// values.
#[derive(Drop)]
pub(crate) struct SchemaRow<'a> {
    copies: &'a Copies<'a>,
    cells: &'a [ValueRef],
}

impl<'a> Model for SchemaRow<'a> {
    ghost use Rattle.std.specs.Prelude.{List};
    ghost use Rattle.msi_table_cells.specs.CellValues.{row_values};
    ghost use Rattle.msi_table_values.specs.declared.value.Value.{Value as ValueOf};

    ghost Value = { List ValueOf };

    ghost view = { λ r. row_values r.copies.now r.cells.now };
}

pub(crate) fn rows_of_cells<'a>(
    alloc: Global,
    copies: &'a Copies<'a>,
    rows: &'a [Items<ValueRef>],
) -> Result<Vec<SchemaRow<'a>>, Error>
    ensures ok { IfOk result (λ seen. seen.items ≡ map (row_values copies.now) rows.now) }
    ensures kind { OnlyMemory result }
{
    let mut seen = Vec::with_capacity(alloc, rows.len())?;
    for row in rows {
        let cells = row.as_slice();
        seen.push(SchemaRow { copies, cells })?;
    }
    Ok(seen)
}

/// Returns null where the place has no value.
#[tactic(auto, using(crate::proofs::SeenRowLemmas::cell_found))]
pub(crate) fn view_at<'a>(row: &SchemaRow<'a>, place: usize) -> ValueView<'a>
    ensures { seen_value result ≡ value_at place row.now }
{
    match row.cells.get(place) {
        Some(cell) => view_of_cell(row.copies.pool(), *cell),
        None => ValueView::Null,
    }
}

/// Returns the empty text where the place has none.
pub(crate) fn text_at<'a>(row: &SchemaRow<'a>, place: usize) -> &'a str
    ensures { result.now ≡ text_in place row.now }
{
    match view_at(row, place) {
        ValueView::Str(text) => text,
        _ => "",
    }
}

#[tactic(auto, using(crate::proofs::SeenRowLemmas::cell_found))]
pub(crate) fn shared_text_at(
    alloc: Global,
    row: &SchemaRow,
    place: usize,
) -> Result<SharedText, Error>
    ensures ok { IfOk result (λ text. text ≡ text_in place row.now) }
    ensures kind { OnlyMemory result }
{
    match row.cells.get(place) {
        Some(ValueRef::Str(reference)) => row.copies.text(*reference),
        _ => SharedText::from_str(alloc, ""),
    }
}

#[tactic(auto, using(crate::proofs::SeenRowLemmas::cell_found))]
pub(crate) fn shared_values_at(row: &SchemaRow, place: usize) -> Result<SharedTexts, Error>
    ensures ok { IfOk result (λ texts. texts ≡ values_in (value_at place row.now)) }
    ensures kind { OnlyMemory result }
{
    match row.cells.get(place) {
        Some(ValueRef::Str(reference)) => row.copies.list(*reference),
        _ => Ok(SharedTexts::new()),
    }
}

/// Returns 0 where the place has no number.
pub(crate) fn number_at(row: &SchemaRow, place: usize) -> i32
    ensures { result ≡ number_of (value_at place row.now) }
{
    match view_at(row, place) {
        ValueView::Int(number) => number,
        _ => 0,
    }
}

pub(crate) fn is_null_at(row: &SchemaRow, place: usize) -> bool
    ensures { result ≡ is_null (value_at place row.now) }
{
    matches!(view_at(row, place), ValueView::Null)
}

pub(crate) fn is_text_at(row: &SchemaRow, place: usize) -> bool
    ensures { result ≡ is_text (value_at place row.now) }
{
    matches!(view_at(row, place), ValueView::Str(_))
}

fn is_null_cell(pool: &StringPool, cell: ValueRef) -> bool
    ensures { result ≡ is_null (value_of_cell pool.now.places cell) }
{
    matches!(view_of_cell(pool, cell), ValueView::Null)
}

fn has_null_cell(pool: &StringPool, cells: &[ValueRef]) -> bool
    ensures { result ≡ list_any (λ cell. is_null (value_of_cell pool.now.places cell)) cells.now }
{
    cells.iter().any(|cell| is_null_cell(pool, *cell))
}

fn stand_for_null(pool: &StringPool, cells: &[ValueRef]) -> bool
    ensures { result ≡ list_any is_null (row_values pool.now.places cells.now) }
{
    has_null_cell(pool, cells)
}

pub(crate) fn holds_null(row: &SchemaRow) -> bool
    ensures { result ≡ list_any is_null row.now }
{
    stand_for_null(row.copies.pool(), row.cells)
}

pub(crate) fn compare_at(row: &SchemaRow, other: &SchemaRow, place: usize) -> Ordering
    ensures { result ≡ value_cmp (value_at place row.now) (value_at place other.now) }
{
    view_at(row, place).compare(view_at(other, place))
}
