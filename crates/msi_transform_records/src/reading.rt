//! Reads the records of a stream.

ghost use Rattle.std.specs.Prelude.{◌≡◌, IfErr, IfOk, None, Some, if◌then◌else◌, is_some, length, option_map};
ghost use Rattle.msi_base.specs.Results.{Gives, OnlyMemory};
ghost use Rattle.msi_base.specs.declared.errors.ErrorKind.TheVariants.{InvalidData, OutOfMemory};
ghost use Rattle.msi_transform_records.specs.Actions.{told};
ghost use Rattle.msi_transform_records.specs.Cells.{cells_at};
ghost use Rattle.msi_transform_records.specs.Reading.{Reads};
ghost use Rattle.msi_transform_records.specs.Records.{head_at, leading, record_at, records_in};

use crate::action::Action;
use crate::cells::{invalid, read_cell};
use crate::reasons;
use crate::records::Record;
use crate::shape::Shape;
use crate::telling::{check_columns, tells};
use msi_base::errors::Error;
use msi_base::text::Items;
use msi_pool::stringpool::StringPool;
use msi_table_cells::cell::ValueRef;
use std::alloc::Global;

/// Why a stream of records isn't read.
#[derive(Debug, Drop)]
pub struct Fault {
    /// The error.
    pub error: Error,
    /// How many records stand before the malformed one; 0 if memory ran out.
    pub before: usize,
}

/// Returns the action of the mask in front, and the bytes after it. Fails with `InvalidData` if they end before, the
/// mask says no action, or the table hasn't the columns that it names.
#[tactic(auto, unfolding(crate::specs::Records::head_at))]
fn read_head<'a>(shapes: &[Shape], bytes: &'a [u8]) -> Result<(Action, &'a [u8]), Error>
    ensures { Reads (λ x. (x.0, told shapes.now x.0, x.1.now)) result (head_at shapes.now bytes.now) }
{
    match bytes.split_first_chunk::<2>() {
        Some((mask, rest)) => match Action::of_mask(u16::from_le_bytes(*mask)) {
            Some(action) => {
                check_columns(shapes, action)?;
                Ok((action, rest))
            }
            None => Err(invalid(reasons::MASK_UNKNOWN)),
        },
        None => Err(invalid(reasons::RECORD_CUT)),
    }
}

/// Returns the bytes after the cells that a record of such an action tells.
fn skip_cells<'a>(
    shapes: &[Shape],
    pool: &StringPool,
    action: Action,
    bytes: &'a [u8],
) -> Result<&'a [u8], Error>
    ensures { let cells = cells_at pool.now (told shapes.now action) bytes.now in
        Reads (λ rest. rest.now) result (option_map (λ read. read.1) cells) }
{
    let mut rest = bytes;
    for i in 0..shapes.len() {
        if tells(action, i, shapes[i]) {
            let (_, after) = read_cell(pool, shapes[i].coltype, rest)?;
            rest = after;
        }
    }
    Ok(rest)
}

/// Returns the cells that a record of such an action tells, and the bytes after them.
fn read_cells<'a>(
    alloc: Global,
    shapes: &[Shape],
    pool: &StringPool,
    action: Action,
    bytes: &'a [u8],
) -> Result<(Items<ValueRef>, &'a [u8]), Error>
    ensures { Gives (λ x. (x.0, x.1.now)) result (cells_at pool.now (told shapes.now action) bytes.now) }
{
    let mut cells = Vec::new(alloc);
    let mut rest = bytes;
    for i in 0..shapes.len() {
        if tells(action, i, shapes[i]) {
            let (cell, after) = read_cell(pool, shapes[i].coltype, rest)?;
            cells.push(cell)?;
            rest = after;
        }
    }
    Ok((Items::from_vec(cells), rest))
}

/// Returns the bytes after the record in front. It takes no memory.
#[tactic(auto, unfolding(crate::specs::Records::record_at))]
fn skip_record<'a>(shapes: &[Shape], pool: &StringPool, bytes: &'a [u8]) -> Result<&'a [u8], Error>
    ensures { Reads (λ rest. rest.now) result (option_map (λ read. read.1) (record_at shapes.now pool.now bytes.now)) }
{
    let (action, rest) = read_head(shapes, bytes)?;
    skip_cells(shapes, pool, action, rest)
}

/// Returns the record in front, and the bytes after it.
#[tactic(auto, unfolding(crate::specs::Records::record_at))]
fn read_record<'a>(
    alloc: Global,
    shapes: &[Shape],
    pool: &StringPool,
    bytes: &'a [u8],
) -> Result<(Record, &'a [u8]), Error>
    ensures { Gives (λ x. (x.0, x.1.now)) result (record_at shapes.now pool.now bytes.now) }
{
    let (action, rest) = read_head(shapes, bytes)?;
    let (cells, rest) = read_cells(alloc, shapes, pool, action, rest)?;
    Ok((Record { action, cells }, rest))
}

/// Returns how many records the bytes are. Fails with `InvalidData` if they are none, and says how many stand in front.
/// It takes no memory.
fn count_records(shapes: &[Shape], pool: &StringPool, bytes: &[u8]) -> Result<usize, Fault>
    ensures ok { IfOk result (λ count.
        option_map (λ records. length records) (records_in shapes.now pool.now bytes.now) ≡ Some count) }
    ensures none { IfErr result (λ fault. records_in shapes.now pool.now bytes.now ≡ None) }
    ensures kind { IfErr result (λ fault. fault.error ≡ InvalidData) }
    ensures place { IfErr result (λ fault. fault.before ≡ length (leading shapes.now pool.now bytes.now).0) }
{
    let mut count = 0;
    let mut rest = bytes;
    while !rest.is_empty() {
        match skip_record(shapes, pool, rest) {
            Ok(after) => {
                count += 1;
                rest = after;
            }
            Err(error) => {
                return Err(Fault {
                    error,
                    before: count,
                });
            }
        }
    }
    Ok(count)
}

/// Returns the records that the bytes are, of which there are so many.
fn read_all(
    alloc: Global,
    shapes: &[Shape],
    pool: &StringPool,
    bytes: &[u8],
    count: usize,
) -> Result<Vec<Record>, Error>
    requires { option_map (λ records. length records) (records_in shapes.now pool.now bytes.now) ≡ Some count }
    ensures ok { IfOk result (λ records. records_in shapes.now pool.now bytes.now ≡ Some records.items) }
    ensures kind { OnlyMemory result }
{
    let mut records = Vec::with_capacity(alloc, count)?;
    let mut rest = bytes;
    for _ in 0..count {
        let (record, after) = read_record(alloc, shapes, pool, rest)?;
        records.push(record)?;
        rest = after;
    }
    Ok(records)
}

/// Returns the records of a table's stream in a transform (the format of transforms, as FORMATS has it), one behind
/// another without padding. The shapes are those of all columns that the table has when the transform is applied, and
/// the pool is the transform's own. The bytes are checked before memory is taken, which is in proportion to them.
///
/// # Errors
/// Fails with `InvalidData` if a record is malformed: it is cut, its mask says nothing, it names columns that the table
/// hasn't, it adds a row without a cell for each key column, it refers to a text that is past the pool's end or whose
/// place is free, or it has a cell of a stream that is neither 0 nor 1. The fault says how many records stand before.
/// Otherwise fails with `OutOfMemory`.
pub fn read_records(
    alloc: Global,
    shapes: &[Shape],
    pool: &StringPool,
    bytes: &[u8],
) -> Result<Vec<Record>, Fault>
    ensures ok { IfOk result (λ records. records_in shapes.now pool.now bytes.now ≡ Some records.items) }
    ensures kind { let readable = is_some (records_in shapes.now pool.now bytes.now) in
        IfErr result (λ fault. fault.error ≡ (if readable then OutOfMemory else InvalidData)) }
    ensures place { let before = length (leading shapes.now pool.now bytes.now).0 in
        IfErr result (λ fault. fault.error ≡ InvalidData → fault.before ≡ before) }
{
    let count = count_records(shapes, pool, bytes)?;
    match read_all(alloc, shapes, pool, bytes, count) {
        Ok(records) => Ok(records),
        Err(error) => Err(Fault { error, before: 0 }),
    }
}
