//! Records that are made, by their values.

ghost use Rattle.std.specs.Prelude.{◌≡◌, ◌&&◌, ◌<◌, ◌==◌, IfOk, length, map, option_copied, true};
ghost use Rattle.std.specs.List.{list_any};
ghost use Rattle.msi_base.specs.Results.{OnlyMemory};
ghost use Rattle.msi_database_changes.specs.Views.{seen_row};
ghost use Rattle.msi_table_values.specs.Views.{seen_value};
ghost use Rattle.msi_transform_making.specs.Making.{addition as addition_of, can_be_marked as all_have_bits};
ghost use Rattle.msi_transform_making.specs.Making.{changing as changing_of, is_marked as is_column_marked};
ghost use Rattle.msi_transform_making.specs.Making.{is_stream as is_stream_value, mask_for as mask_of_columns};
ghost use Rattle.msi_transform_making.specs.Making.{marked_values as values_marked, removal as removal_of};
ghost use Rattle.msi_transform_making.specs.Making.{stored_action, tells_stream as is_stream_told};
ghost use Rattle.msi_transform_making.specs.Telling.{action_of};

use crate::differing::mask_for;
use crate::telling::Telling;
use msi_base::errors::Error;
use msi_container_format::contents::Bytes;
use msi_database_changes::keys::Key;
use msi_table_values::column::Column;
use msi_table_values::parts::ValueView;
use msi_transform_pair::seen::{SeenValues, copied, key_with};
use msi_transform_pair::told::ToldRow;
use msi_transform_records::Action;
use msi_transform_rows::row_streams::is_of_streams;
use std::alloc::Global;
use std::marker::Model;

/// A record that is made: what it does with a row, the values that it tells, the row's key, and the row's stream where
/// it tells one.
#[derive(Drop)]
pub(crate) struct ToldRecord<'a> {
    telling: Telling,
    values: SeenValues<'a>,
    key: Key<'a>,
    stream: Option<&'a Bytes>,
}

impl<'a> Model for ToldRecord<'a> {
    ghost use Rattle.std.specs.Prelude.{option_copied};
    ghost use Rattle.std.specs.Prelude as prelude;
    ghost use Rattle.msi_transform_making.specs.Making.{ToldRecord as RecordOf};
    ghost use Rattle.msi_transform_making.specs.Telling.{action_of};

    ghost Value = { RecordOf };

    ghost view = { λ r. record {
      action = action_of r.telling (prelude.length r.values);
      values = r.values;
      key = r.key;
      stream = option_copied r.stream;
    } };
}

impl<'a> ToldRecord<'a> {
    pub(crate) fn new(
        telling: Telling,
        values: SeenValues<'a>,
        key: Key<'a>,
        stream: Option<&'a Bytes>,
    ) -> ToldRecord<'a>
        ensures { result ≡ record {
          action = action_of telling (length values.entry);
          values = values.entry;
          key = key.entry;
          stream = option_copied stream.entry;
        } }
    {
        ToldRecord {
            telling,
            values,
            key,
            stream,
        }
    }

    /// Returns the action of a record, unless it adds a row of more than 255 values: a mask has 8 bits for their
    /// number.
    pub(crate) fn action(&self) -> Option<Action>
        ensures { result ≡ stored_action self.now.action }
    {
        match self.telling {
            Telling::Add => {
                let count = self.values.len();
                if count > 255 {
                    return None;
                }
                Some(Action::Add(count as u8))
            }
            Telling::Remove => Some(Action::Remove),
            Telling::Change(mask) => Some(Action::Change(mask)),
        }
    }

    pub(crate) fn values(&self) -> &[ValueView<'a>]
        ensures { seen_row result.now ≡ self.now.values }
    {
        self.values.as_slice()
    }

    pub(crate) fn key(&self) -> &Key<'a>
        ensures { result.now ≡ self.now.key }
    {
        &self.key
    }

    pub(crate) fn stream(&self) -> Option<&'a Bytes>
        ensures { option_copied result ≡ self.now.stream }
    {
        self.stream
    }
}

/// Returns the record that removes the row of a key.
///
/// # Errors
/// Fails with `OutOfMemory`.
pub(crate) fn removal<'a>(alloc: Global, key: &Key<'a>) -> Result<ToldRecord<'a>, Error>
    ensures ok { IfOk result (λ told. told ≡ removal_of key.now) }
    ensures kind { OnlyMemory result }
{
    let values = copied(alloc, key.values())?;
    let key = key_with(alloc, key.values())?;
    Ok(ToldRecord::new(Telling::Remove, values, key, None))
}

/// Returns the record that adds a row.
///
/// # Errors
/// Fails with `OutOfMemory`.
pub(crate) fn addition<'a>(
    alloc: Global,
    key: &Key<'a>,
    row: &ToldRow<'a>,
) -> Result<ToldRecord<'a>, Error>
    ensures ok { IfOk result (λ told. told ≡ addition_of (key.now, row.now)) }
    ensures kind { OnlyMemory result }
{
    let values = row.values().copy(alloc)?;
    let key = key_with(alloc, key.values())?;
    Ok(ToldRecord::new(Telling::Add, values, key, row.stream()))
}

fn has_index(marked: &[usize], index: usize) -> bool
    ensures { result ≡ list_any (λ i. i == index) marked.now }
{
    marked.iter().any(|other| *other == index)
}

fn is_marked(marked: &[usize], column: &Column, index: usize) -> bool
    ensures { result ≡ is_column_marked marked.now index column.now }
{
    column.is_primary_key() || has_index(marked, index)
}

/// Returns the values of the key and of the marked columns, in order.
fn marked_values<'a>(
    alloc: Global,
    columns: &[Column],
    marked: &[usize],
    values: &[ValueView<'a>],
) -> Result<SeenValues<'a>, Error>
    ensures ok { let all = values_marked columns.now marked.now (seen_row values.now) in
        IfOk result (λ told. told ≡ map (λ e. e.1) all) }
    ensures kind { OnlyMemory result }
{
    let mut told = Vec::new(alloc);
    for i in 0..columns.len().min(values.len()) {
        if !is_marked(marked, &columns[i], i) {
            continue;
        }
        told.push(values[i])?;
    }
    Ok(SeenValues::from_vec(told))
}

fn is_stream(column: &Column, value: ValueView) -> bool
    ensures { result ≡ is_stream_value (column.now, seen_value value.entry) }
{
    is_of_streams(column.coltype()) && !matches!(value, ValueView::Null)
}

fn tells(marked: &[usize], column: &Column, index: usize, value: ValueView) -> bool
    ensures { result ≡ (is_column_marked marked.now index column.now
        && is_stream_value (column.now, seen_value value.entry)) }
{
    is_marked(marked, column, index) && is_stream(column, value)
}

/// Returns whether one of the values of the key and of the marked columns is a stream.
fn tells_stream(columns: &[Column], marked: &[usize], values: &[ValueView]) -> bool
    ensures { result ≡ is_stream_told (values_marked columns.now marked.now (seen_row values.now)) }
{
    for i in 0..columns.len().min(values.len()) {
        if tells(marked, &columns[i], i, values[i]) {
            return true;
        }
    }
    false
}

/// Returns the record that changes the marked columns of a row.
///
/// # Errors
/// Fails with `OutOfMemory`.
pub(crate) fn changing<'a>(
    alloc: Global,
    columns: &[Column],
    marked: &[usize],
    key: &Key<'a>,
    row: &ToldRow<'a>,
) -> Result<ToldRecord<'a>, Error>
    requires bits { all_have_bits marked.now ≡ true }
    requires small { mask_of_columns marked.now < 65536 }
    ensures ok { IfOk result (λ told. told ≡ changing_of columns.now marked.now (key.now, row.now)) }
    ensures kind { OnlyMemory result }
{
    let all = row.values().as_slice();
    let values = marked_values(alloc, columns, marked, all)?;
    let stream = if tells_stream(columns, marked, all) {
        row.stream()
    } else {
        None
    };
    let telling = Telling::Change(mask_for(marked));
    let key = key_with(alloc, key.values())?;
    Ok(ToldRecord::new(telling, values, key, stream))
}
