//! In which columns two rows differ.

ghost use Rattle.std.specs.Prelude.{◌≡◌, ◌<◌, ◌^◌, IfOk, option_copied, true};
ghost use Rattle.msi_base.specs.Results.{OnlyMemory};
ghost use Rattle.msi_database_changes.specs.Views.{seen_row};
ghost use Rattle.msi_table_values.specs.Views.{seen_value};
ghost use Rattle.msi_transform_applying.specs.Applying.{same_stream as is_same_stream};
ghost use Rattle.msi_transform_making.specs.Making.{can_be_marked as all_have_bits, differing as columns_differing};
ghost use Rattle.msi_transform_making.specs.Making.{differing_values as values_differing, has_bit_for as is_bit};
ghost use Rattle.msi_transform_making.specs.Making.{mask_for as mask_of_columns, same_value as is_same_value};

use msi_base::errors::Error;
use msi_container_format::contents::Bytes;
use msi_table_values::parts::ValueView;
use msi_transform_pair::told::ToldRow;
use std::alloc::Global;
use std::cmp::Ordering;

fn same_stream(stream: Option<&Bytes>, other: Option<&Bytes>) -> bool
    ensures { result ≡ is_same_stream (option_copied stream.entry) (option_copied other.entry) }
{
    match stream {
        None => other.is_none(),
        Some(bytes) => match other {
            None => false,
            Some(others) => bytes.as_slice() == others.as_slice(),
        },
    }
}

/// Returns whether a value is told once more. Of two streams it is said whether they are the same.
fn same_value(same: bool, value: ValueView, other: ValueView) -> bool
    ensures { result ≡ is_same_value same (seen_value value.entry, seen_value other.entry) }
{
    match value {
        ValueView::Binary => match other {
            ValueView::Binary => same,
            ValueView::Null | ValueView::Int(_) | ValueView::Str(_) => false,
        },
        ValueView::Null | ValueView::Int(_) | ValueView::Str(_) => {
            value.compare(other) == Ordering::Equal
        }
    }
}

fn differing_values(
    alloc: Global,
    same: bool,
    old: &[ValueView],
    new: &[ValueView],
) -> Result<Vec<usize>, Error>
    ensures ok { IfOk result (λ columns.
        columns.items ≡ values_differing same (seen_row old.now) (seen_row new.now)) }
    ensures kind { OnlyMemory result }
{
    let mut columns = Vec::new(alloc);
    for i in 0..old.len().min(new.len()) {
        if same_value(same, old[i], new[i]) {
            continue;
        }
        columns.push(i)?;
    }
    Ok(columns)
}

/// Returns the indices of the columns in which two rows differ.
///
/// # Errors
/// Fails with `OutOfMemory`.
pub(crate) fn differing(alloc: Global, old: &ToldRow, new: &ToldRow) -> Result<Vec<usize>, Error>
    ensures ok { IfOk result (λ columns. columns.items ≡ columns_differing old.now new.now) }
    ensures kind { OnlyMemory result }
{
    let same = same_stream(old.stream(), new.stream());
    differing_values(
        alloc,
        same,
        old.values().as_slice(),
        new.values().as_slice(),
    )
}

/// Returns whether a mask has a bit for a column: those from 1 to 15 have one.
pub(crate) fn has_bit_for(column: usize) -> bool
    ensures { result ≡ is_bit column }
{
    0 < column && column < 16
}

/// Returns whether a mask has bits for all of these columns.
pub(crate) fn can_be_marked(columns: &[usize]) -> bool
    ensures { result ≡ all_have_bits columns.now }
{
    columns.iter().all(|column| has_bit_for(*column))
}

#[tactic(auto, using(std::proofs::lemmas::Nat::one_shl))]
fn bit_of(column: usize) -> u16
    requires { column < 16 }
    ensures { result ≡ 2 ^ column }
{
    1 << column
}

/// Returns the mask of a change of these columns.
#[tactic(auto, using(crate::proofs::MaskLemmas::bits_first))]
pub(crate) fn mask_for(columns: &[usize]) -> u16
    requires bits { all_have_bits columns.now ≡ true }
    requires small { mask_of_columns columns.now < 65536 }
    ensures { result ≡ mask_of_columns columns.now }
{
    let mut mask = 0;
    for column in columns {
        mask += bit_of(*column);
    }
    mask
}
