//! The bytes of records.

ghost use Rattle.std.specs.Prelude.{◌≡◌, ◌++◌, OnOk};
ghost use Rattle.msi_base.specs.Results.{OnlyMemory};
ghost use Rattle.msi_transform_records.specs.Actions.{told};
ghost use Rattle.msi_transform_records.specs.Records.{record_bytes, told_bytes};

use crate::action::Action;
use crate::cells::push_cell;
use crate::records::Record;
use crate::shape::Shape;
use crate::telling::tells;
use msi_base::errors::Error;
use msi_base::fields::push_u16;
use msi_table_cells::cell::ValueRef;

/// Appends the bytes of the cells that a record of such an action tells.
fn push_cells(
    bytes: &mut Vec<u8>,
    long: bool,
    shapes: &[Shape],
    action: Action,
    cells: &[ValueRef],
) -> Result<(), Error>
    ensures ok { OnOk result (bytes.new.items ≡ bytes.old.items ++ told_bytes long (told shapes.now action) cells.now) }
    ensures kind { OnlyMemory result }
{
    let mut rest = cells;
    for i in 0..shapes.len() {
        if !tells(action, i, shapes[i]) {
            continue;
        }
        let Some((cell, others)) = rest.split_first() else {
            continue;
        };
        push_cell(bytes, long, shapes[i].coltype, *cell)?;
        rest = others;
    }
    Ok(())
}

/// Appends the bytes of a record of a table with such columns, with references of three bytes where they are long, and
/// otherwise of two. They read as the record where that has a cell for each column that its action tells, which fits
/// the column.
///
/// # Errors
/// Fails with `OutOfMemory`; the bytes may then have a part of the record.
pub fn push_record(
    bytes: &mut Vec<u8>,
    long: bool,
    shapes: &[Shape],
    record: &Record,
) -> Result<(), Error>
    ensures ok { OnOk result (bytes.new.items ≡ bytes.old.items ++ record_bytes long shapes.now «record».now) }
    ensures kind { OnlyMemory result }
{
    push_u16(bytes, record.action.mask())?;
    push_cells(bytes, long, shapes, record.action, record.cells.as_slice())
}
