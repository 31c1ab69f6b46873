//! The records of a transform's tables.

ghost use Rattle.std.specs.Prelude.{◌≡◌, IfErr, IfOk, Ok};
ghost use Rattle.msi_transform_rows.specs.TableRecords.{changes_schema as tells_of_schema, number_of as place_of};
ghost use Rattle.msi_transform_rows.specs.TableRecords.{read_for};
ghost use Rattle.msi_transform_rows.specs.RecordRefusals.{IsRefused};

use crate::refusal::{RecordPlace, Refusal};
use msi_base::errors::ErrorKind;
use msi_database_schema::system::{COLUMNS, TABLES};
use msi_transform::Transform;
use msi_transform_records::{Record, Shape, read_records};
use std::alloc::Global;

/// Returns whether the transform has records of `_Tables` or of `_Columns`.
pub fn changes_schema(transform: &Transform) -> bool
    ensures { result ≡ tells_of_schema transform.now }
{
    transform.records_for(TABLES).is_some() || transform.records_for(COLUMNS).is_some()
}

/// Returns the place of a table among those of the transform, or the number of tables if it has no records.
pub fn number_of(transform: &Transform, name: &str) -> usize
    ensures { result ≡ place_of transform.now name.now }
{
    let mut number = 0;
    for (table, _) in transform.tables() {
        if table.as_str() == name {
            return number;
        }
        number += 1;
    }
    number
}

/// Returns the records of a table. The table's place among those of the transform is for refusals.
///
/// # Errors
/// Fails with `InvalidData` at the first record that is malformed, or with `OutOfMemory`.
pub fn read_table(
    alloc: Global,
    table: usize,
    transform: &Transform,
    shapes: &[Shape],
    bytes: &[u8],
) -> Result<Vec<Record>, Refusal>
    ensures ok { IfOk result (λ records. read_for table transform.now shapes.now bytes.now ≡ Ok records.items) }
    ensures kind { IfErr result (IsRefused (read_for table transform.now shapes.now bytes.now)) }
{
    match read_records(alloc, shapes, transform.pool(), bytes) {
        Ok(records) => Ok(records),
        Err(fault) => match fault.error.kind() {
            ErrorKind::OutOfMemory => Err(Refusal::nowhere(fault.error)),
            ErrorKind::AlreadyExists
            | ErrorKind::InvalidData
            | ErrorKind::InvalidInput
            | ErrorKind::NotFound
            | ErrorKind::Io => {
                let place = RecordPlace {
                    table,
                    record_number: fault.before,
                };
                Err(Refusal::at(fault.error, place))
            }
        },
    }
}
