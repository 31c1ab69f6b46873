//! What the records of a transform do to the rows of a table.

ghost use Rattle.std.specs.Prelude.{◌≡◌, ◌∷◌, [], IfErr, OnOk, Ok, Some};
ghost use Rattle.std.specs.FinMap.{entries};
ghost use Rattle.msi_base.specs.Refusals.{IsRefusal, or_refused, unless_refused};
ghost use Rattle.msi_base.specs.declared.errors.ErrorKind.TheVariants.{InvalidInput};
ghost use Rattle.msi_database_changes.specs.Texts.{in_use};
ghost use Rattle.msi_transform_rows.specs.RecordRefusals.{IsRefused, in_turn_from};
ghost use Rattle.msi_transform_rows.specs.RowChanges.{cell_changed, cells_changed, pool_for, record_applied, row_added};
ghost use Rattle.msi_transform_rows.specs.RowChanges.{row_changed, row_removed, with_changes};
ghost use Rattle.msi_transform_rows.specs.RowsInHand.{hand};

use crate::keyed::KeyedRows;
use crate::reasons;
use crate::refusal::{RecordPlace, Refusal};
use crate::row::{RowInHand, RowStream};
use crate::row_streams::{is_of_streams, told_by_changes, told_by_row, type_at};
use crate::rows_in_hand::RowsInHand;
use crate::table_change::TableChange;
use msi_base::errors::{Error, ErrorKind, Reason};
use msi_base::text::Items;
use msi_database_changes::keys::Key;
use msi_database_changes::setting::exchange_cell;
use msi_database_changes::texts::PoolInUse;
use msi_table_cells::cell::ValueRef;
use msi_table_cells::parts::MAX_ROWS;
use msi_transform_records::parts::{added_cells, changed_cells};
use msi_transform_records::{Action, Record};

fn refuse_if(holds: bool, kind: ErrorKind, reason: Reason) -> Result<(), Error>
    ensures { result ≡ unless_refused ((holds, kind) ∷ []) tt }
{
    if holds {
        return Err(Error::new(kind, reason));
    }
    Ok(())
}

/// Removes the row of a key: its texts are given back, and its stream goes.
fn remove_row<'a>(
    change: &TableChange<'a, '_>,
    rows: &mut RowsInHand<'a>,
    key: &Key<'a>,
) -> Result<(), Error>
    ensures ok { OnOk result (row_removed change.now (hand rows.old) key.now ≡ Ok (hand rows.new)) }
    ensures kind { IfErr result (IsRefusal (row_removed change.now (hand rows.old) key.now)) }
    ensures page { rows.new.pool.pool.page ≡ rows.old.pool.pool.page }
    ensures long { rows.new.pool.pool.long ≡ rows.old.pool.pool.long }
{
    let Some(row) = rows.rows.remove(key) else {
        let missing = !change.passing.removed_row_missing;
        return refuse_if(missing, ErrorKind::NotFound, reasons::REMOVED_ROW_MISSING);
    };
    rows.pool.release_row(row.cells.as_slice())?;
    let gone = change.gone_stream(key)?;
    rows.store(gone)
}

/// Changes one cell of a row, whose old text is given back before the new one is taken. A cell of a stream stays.
fn change_cell(
    change: &TableChange,
    pool: &mut PoolInUse,
    cells: &mut Vec<ValueRef>,
    place: usize,
    cell: ValueRef,
) -> Result<(), Error>
    ensures ok { OnOk result (cell_changed change.now (in_use pool.old) cells.old.items (place, cell)
        ≡ Some (cells.new.items, in_use pool.new)) }
    ensures kind { let changed = cell_changed change.now (in_use pool.old) cells.old.items (place, cell) in
        IfErr result (IsRefusal (or_refused InvalidInput changed)) }
    ensures page { pool.new.pool.page ≡ pool.old.pool.page }
    ensures long { pool.new.pool.long ≡ pool.old.pool.long }
{
    if is_of_streams(type_at(change.columns(), place)) {
        return Ok(());
    }
    let value = change.value(cell)?;
    exchange_cell(pool, cells, place, value)
}

fn change_cells(
    change: &TableChange,
    pool: &mut PoolInUse,
    cells: &mut Vec<ValueRef>,
    told: &[(usize, ValueRef)],
) -> Result<(), Error>
    ensures ok { OnOk result (cells_changed change.now (in_use pool.old) cells.old.items told.now
        ≡ Some (cells.new.items, in_use pool.new)) }
    ensures kind { let changed = cells_changed change.now (in_use pool.old) cells.old.items told.now in
        IfErr result (IsRefusal (or_refused InvalidInput changed)) }
    ensures page { pool.new.pool.page ≡ pool.old.pool.page }
    ensures long { pool.new.pool.long ≡ pool.old.pool.long }
{
    for (place, cell) in told {
        change_cell(change, pool, cells, *place, *cell)?;
    }
    Ok(())
}

/// Puts a row with changes in place of the one that a key has.
fn put_changed<'a>(
    change: &TableChange<'a, '_>,
    rows: &mut RowsInHand<'a>,
    key: Key<'a>,
    row: RowInHand,
    told: &[(usize, ValueRef)],
) -> Result<(), Error>
    ensures ok { OnOk result (with_changes change.now key.entry told.now (hand rows.old) row ≡ Ok (hand rows.new)) }
    ensures kind { IfErr result (IsRefusal (with_changes change.now key.entry told.now (hand rows.old) row)) }
    ensures page { rows.new.pool.pool.page ≡ rows.old.pool.pool.page }
    ensures long { rows.new.pool.pool.long ≡ rows.old.pool.pool.long }
{
    let says = told_by_changes(change.columns(), told);
    let stored = change.stored_stream(&key, says.unwrap_or(RowStream::AsBefore))?;
    let stream = says.unwrap_or(row.stream);
    let mut cells = row.cells.into_vec();
    change_cells(change, &mut rows.pool, &mut cells, told)?;
    let cells = Items::from_vec(cells);
    rows.put(key, RowInHand { cells, stream }, stored)
}

/// Changes the row of a key.
fn change_row<'a>(
    change: &TableChange<'a, '_>,
    rows: &mut RowsInHand<'a>,
    key: Key<'a>,
    told: &[(usize, ValueRef)],
) -> Result<(), Error>
    ensures ok { OnOk result (row_changed change.now (hand rows.old) key.entry told.now ≡ Ok (hand rows.new)) }
    ensures kind { IfErr result (IsRefusal (row_changed change.now (hand rows.old) key.entry told.now)) }
    ensures page { rows.new.pool.pool.page ≡ rows.old.pool.pool.page }
    ensures long { rows.new.pool.pool.long ≡ rows.old.pool.pool.long }
{
    match rows.rows.get(&key) {
        Some(row) => {
            let row = row.clone(change.alloc)?;
            put_changed(change, rows, key, row, told)
        }
        None => {
            let missing = !change.passing.changed_row_missing;
            refuse_if(missing, ErrorKind::NotFound, reasons::CHANGED_ROW_MISSING)
        }
    }
}

/// Makes room for a row that is added: one that is there gives its texts back.
fn make_room<'a>(
    change: &TableChange,
    rows: &KeyedRows<'a>,
    pool: &mut PoolInUse,
    key: &Key<'a>,
) -> Result<(), Error>
    ensures ok { OnOk result (pool_for change.now (entries rows.now) (in_use pool.old) key.now ≡ Ok (in_use pool.new)) }
    ensures kind { IfErr result (IsRefusal (pool_for change.now (entries rows.now) (in_use pool.old) key.now)) }
    ensures page { pool.new.pool.page ≡ pool.old.pool.page }
    ensures long { pool.new.pool.long ≡ pool.old.pool.long }
{
    match rows.get(key) {
        Some(row) => {
            let there = !change.passing.added_row_exists;
            refuse_if(there, ErrorKind::AlreadyExists, reasons::ADDED_ROW_EXISTS)?;
            pool.release_row(row.cells.as_slice())
        }
        None => {
            let full = rows.len() >= MAX_ROWS;
            refuse_if(full, ErrorKind::InvalidInput, reasons::TOO_MANY_ROWS)
        }
    }
}

/// Adds a row of cells, whose texts are taken by column.
fn add_row<'a>(
    change: &TableChange<'a, '_>,
    rows: &mut RowsInHand<'a>,
    key: Key<'a>,
    cells: &[ValueRef],
) -> Result<(), Error>
    ensures ok { OnOk result (row_added change.now (hand rows.old) key.entry cells.now ≡ Ok (hand rows.new)) }
    ensures kind { IfErr result (IsRefusal (row_added change.now (hand rows.old) key.entry cells.now)) }
    ensures page { rows.new.pool.pool.page ≡ rows.old.pool.pool.page }
    ensures long { rows.new.pool.pool.long ≡ rows.old.pool.pool.long }
{
    make_room(change, &rows.rows, &mut rows.pool, &key)?;
    let stream = told_by_row(change.columns(), cells).unwrap_or(RowStream::AsBefore);
    let stored = change.stored_stream(&key, stream)?;
    let values = change.added_values(cells)?;
    let cells = rows.pool.put_row(change.alloc, values)?;
    rows.put(key, RowInHand { cells, stream }, stored)
}

/// Applies one record.
fn apply_record<'a>(
    change: &TableChange<'a, '_>,
    rows: &mut RowsInHand<'a>,
    record: &Record,
) -> Result<(), Error>
    ensures ok { OnOk result (record_applied change.now (hand rows.old) «record».now ≡ Ok (hand rows.new)) }
    ensures kind { IfErr result (IsRefusal (record_applied change.now (hand rows.old) «record».now)) }
    ensures page { rows.new.pool.pool.page ≡ rows.old.pool.pool.page }
    ensures long { rows.new.pool.pool.long ≡ rows.old.pool.pool.long }
{
    let key = change.row_key(record)?;
    match record.action {
        Action::Remove => remove_row(change, rows, &key),
        Action::Change(_) => {
            let told = changed_cells(change.alloc, change.shapes(), record)?;
            change_row(change, rows, key, told.as_slice())
        }
        Action::Add(_) => {
            let cells = added_cells(change.alloc, change.shapes(), record)?;
            add_row(change, rows, key, cells.as_slice())
        }
    }
}

/// Applies the records of a table in turn. The table's place among those of the transform is for refusals.
///
/// # Errors
/// Fails at the first record that can't be applied, with that record's place: `NotFound` if a row that is removed or
/// changed isn't there, or the transform lacks a stream; `AlreadyExists` if a row that is added is there;
/// `InvalidInput` if the table or the pool is full. Of these, what `ErrorConditions` name may pass. It may fail with
/// `OutOfMemory` in place of any.
pub fn apply_records<'a>(
    change: &TableChange<'a, '_>,
    table: usize,
    rows: &mut RowsInHand<'a>,
    records: &[Record],
) -> Result<(), Refusal>
    ensures ok { let applied = in_turn_from table (record_applied change.now) 0 (hand rows.old) records.now in
        OnOk result (applied ≡ Ok (hand rows.new)) }
    ensures kind { let applied = in_turn_from table (record_applied change.now) 0 (hand rows.old) records.now in
        IfErr result (IsRefused applied) }
    ensures page { rows.new.pool.pool.page ≡ rows.old.pool.pool.page }
    ensures long { rows.new.pool.pool.long ≡ rows.old.pool.pool.long }
{
    for record_number in 0..records.len() {
        if let Err(error) = apply_record(change, rows, &records[record_number]) {
            let place = RecordPlace {
                table,
                record_number,
            };
            return Err(Refusal::at(error, place));
        }
    }
    Ok(())
}
