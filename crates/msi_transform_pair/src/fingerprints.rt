//! Fingerprints of keys, by which nearly all keys are told apart without being compared.

ghost use Rattle.std.specs.Prelude.{◌≡◌, IfOk, false, fold, map, nat_eq, true};
ghost use Rattle.std.specs.List.Sorted.{IsStrictlyIncreasing};
ghost use Rattle.msi_base.specs.Lists.{has_pair};
ghost use Rattle.msi_base.specs.Results.{OnlyMemory};
ghost use Rattle.msi_table_cells.specs.CellValues.{row_values};
ghost use Rattle.msi_table_cells.specs.KeyOrder.{key_of};
ghost use Rattle.msi_table_values.specs.Views.{seen_value};
ghost use Rattle.msi_transform_schema.specs.SchemaApplying.{have_own_keys as are_keys_apart};
ghost use Rattle.msi_transform_pair.specs.Fingerprints.{fingerprint, with_number as number_put};
ghost use Rattle.msi_transform_pair.specs.Fingerprints.{with_value as value_put};

use msi_base::errors::Error;
use msi_base::text::Items;
use msi_pool::stringpool::StringPool;
use msi_table_cells::cell::ValueRef;
use msi_table_cells::parts::view_of_cell;
use msi_table_values::column::Column;
use msi_table_values::parts::ValueView;
use std::alloc::Global;

/// An odd number that spreads small differences over all bits (D. E. Knuth, MMIX).
const FACTOR: u64 = 6364136223846793005;

#[tactic(auto, unfolding(crate::specs::Fingerprints::with_number))]
fn with_number(print: u64, number: u64) -> u64
    ensures { result ≡ number_put print number }
{
    print.wrapping_mul(FACTOR).wrapping_add(number)
}

fn with_text(print: u64, text: &str) -> u64
    ensures { result ≡ fold number_put print text.now }
{
    let mut print = print;
    for byte in text.as_bytes() {
        print = with_number(print, u64::from(*byte));
    }
    print
}

fn with_value(print: u64, value: ValueView) -> u64
    ensures { result ≡ value_put print (seen_value value.entry) }
{
    match value {
        ValueView::Null => with_number(print, 256),
        ValueView::Int(number) => {
            with_number(with_number(print, 257), u64::from(number.cast_unsigned()))
        }
        ValueView::Str(text) => with_text(with_number(print, 258), text),
        ValueView::Binary => with_number(print, 259),
    }
}

/// Returns the fingerprint of the key of a row of cells.
fn fingerprint_of_row(pool: &StringPool, columns: &[Column], row: &[ValueRef]) -> u64
    ensures { result ≡ fingerprint (key_of columns.now (row_values pool.now.places row.now)) }
{
    let mut print = 0;
    for i in 0..columns.len().min(row.len()) {
        if !columns[i].is_primary_key() {
            continue;
        }
        print = with_value(print, view_of_cell(pool, row[i]));
    }
    print
}

fn fingerprints_of_rows(
    alloc: Global,
    pool: &StringPool,
    columns: &[Column],
    rows: &[Items<ValueRef>],
) -> Result<Vec<u64>, Error>
    ensures ok { IfOk result (λ prints. prints.items
        ≡ map (λ row. fingerprint (key_of columns.now (row_values pool.now.places row))) rows.now) }
    ensures kind { OnlyMemory result }
{
    let mut prints = Vec::with_capacity(alloc, rows.len())?;
    for row in rows {
        prints.push(fingerprint_of_row(pool, columns, row.as_slice()))?;
    }
    Ok(prints)
}

/// Returns whether each number is below the next.
fn rise(numbers: &[u64]) -> bool
    ensures { result ≡ true → IsStrictlyIncreasing numbers.now }
{
    for i in 1..numbers.len() {
        if numbers[i - 1] >= numbers[i] {
            return false;
        }
    }
    true
}

/// Returns whether no two of the numbers are the same.
fn all_differ(mut numbers: Vec<u64>) -> bool
    ensures { result ≡ true → has_pair nat_eq numbers.items ≡ false }
{
    numbers.sort_unstable();
    rise(numbers.as_slice())
}

/// Returns whether the fingerprints of the rows' keys all differ. Then no two rows have one key. Otherwise it takes a
/// look at the keys themselves.
///
/// # Errors
/// Fails with `OutOfMemory`.
pub(crate) fn have_own_fingerprints(
    alloc: Global,
    pool: &StringPool,
    columns: &[Column],
    rows: &[Items<ValueRef>],
) -> Result<bool, Error>
    ensures ok { IfOk result (λ own. own ≡ true → are_keys_apart pool.now.places columns.now rows.now ≡ true) }
    ensures kind { OnlyMemory result }
{
    let prints = fingerprints_of_rows(alloc, pool, columns, rows)?;
    Ok(all_differ(prints))
}
