//! Of which columns a record tells cells.

ghost use Rattle.std.specs.Prelude.{◌≡◌, ◌^◌, not, nat_lt};
ghost use Rattle.std.specs.List.{list_any};
ghost use Rattle.msi_table_values.specs.Columns.{has_bit as is_set};
ghost use Rattle.msi_transform_records.specs.Actions.{tells as is_told, told, told_columns};
ghost use Rattle.msi_transform_records.specs.Reading.{Reads};

use crate::action::Action;
use crate::cells::invalid;
use crate::reasons;
use crate::shape::Shape;
use msi_base::errors::Error;

fn has_bit(mask: u16, column: usize) -> bool
    ensures { result ≡ is_set mask (2 ^ column) }
{
    column < 16 && (mask >> column) % 2 == 1
}

fn has_bit_past(mask: u16, count: usize) -> bool
    ensures { result ≡ not (nat_lt mask (2 ^ count)) }
{
    count < 16 && mask >> count != 0
}

fn has_key(shapes: &[Shape]) -> bool
    ensures { result ≡ list_any (λ s. s.is_key) shapes.now }
{
    shapes.iter().any(|shape| shape.is_key)
}

/// Returns whether a record of such an action tells the cell of a column, which has this index.
pub(crate) fn tells(action: Action, column: usize, shape: Shape) -> bool
    ensures { result ≡ is_told action column shape }
{
    match action {
        Action::Add(count) => column < count as usize,
        Action::Remove => shape.is_key,
        Action::Change(mask) => shape.is_key || has_bit(mask, column),
    }
}

/// Fails with `InvalidData` if a table of such columns hasn't those that an action names, or if the action adds a row
/// without its key.
pub(crate) fn check_columns(shapes: &[Shape], action: Action) -> Result<(), Error>
    ensures { Reads (λ _. told shapes.now action) result (told_columns shapes.now action) }
{
    match action {
        Action::Add(count) => {
            let count = count as usize;
            if count > shapes.len() {
                return Err(invalid(reasons::COLUMNS_MANY));
            }
            if has_key(&shapes[count..]) {
                return Err(invalid(reasons::KEY_MISSING));
            }
            Ok(())
        }
        Action::Remove => Ok(()),
        Action::Change(mask) => {
            if has_bit_past(mask, shapes.len()) {
                return Err(invalid(reasons::BIT_UNKNOWN));
            }
            Ok(())
        }
    }
}
