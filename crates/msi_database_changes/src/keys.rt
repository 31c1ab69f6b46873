//! Keys of rows: whether two rows share one.

ghost use Rattle.std.specs.Prelude.{◌≡◌, map, not, is_some, IfOk, IfErr, IfSome, OnOk, List, None, []};
ghost use Rattle.std.specs.Cmp.{po, partial_equiv_from_equiv, eq_by_cmp_equiv};
ghost use Rattle.std.specs.Cmp.Lexicographic.{slice_cmp, lists_total};
ghost use Rattle.std.specs.Ordering.{as_partial_cmp, eq_by_cmp};
ghost use Rattle.std.proofs.Common.{refl};
ghost use Rattle.msi_base.specs.Lists.{has_pair};
ghost use Rattle.msi_base.specs.Results.{OnlyMemory};
ghost use Rattle.msi_base.specs.Refusals.{IsRefusal, first_refusal, unless_refused};
ghost use Rattle.msi_table_values.specs.declared.value.Value.{Value as ValueOf};
ghost use Rattle.msi_table_values.specs.OrderLaws.{value_cmp-total};
ghost use Rattle.msi_table_values.specs.Values.{value_cmp};
ghost use Rattle.msi_table_cells.specs.KeyOrder.{key_of, same_key};
ghost use Rattle.msi_database_changes.specs.KeySets.{HasKeys, clash_refusals, key_refusals, keys_of_rows};
ghost use Rattle.msi_database_changes.specs.Views.{seen_row};

use crate::reasons;
use crate::views::{compare_views, views_of_cells, views_of_values};
use msi_base::errors::{Error, ErrorKind};
use msi_base::text::Items;
use msi_pool::stringpool::StringPool;
use msi_table_cells::cell::ValueRef;
use msi_table_values::column::Column;
use msi_table_values::parts::ValueView;
use msi_table_values::value::Value;
use std::alloc::Global;
use std::cmp::Ordering;
use std::collections::BTreeSet;
use std::marker::Model;

/// The key of a row: the values of its key columns, borrowed from where they lie. A contract sees the values.
#[derive(Drop)]
pub struct Key<'a> {
    values: Vec<ValueView<'a>>,
}

impl<'a> Model for Key<'a> {
    ghost use Rattle.std.specs.Prelude.{List};
    ghost use Rattle.msi_table_values.specs.declared.value.Value.{Value as ValueOf};

    ghost Value = { List ValueOf };

    ghost use Rattle.msi_database_changes.specs.Views.{seen_row};

    ghost view = { λ k. seen_row k.values.items };
}

impl<'a> Key<'a> {
    /// Returns the key of a row of the columns that is seen where it lies.
    ///
    /// # Errors
    /// Fails with `OutOfMemory`.
    pub fn of_row(
        alloc: Global,
        columns: &[Column],
        row: &[ValueView<'a>],
    ) -> Result<Key<'a>, Error>
        ensures ok { IfOk result (λ key. key ≡ key_of columns.now (seen_row row.now)) }
        ensures kind { OnlyMemory result }
    {
        let values = key_values(alloc, columns, row)?;
        Ok(Key { values })
    }

    /// Returns the key that has these values.
    pub fn of_values(values: Vec<ValueView<'a>>) -> Key<'a>
        ensures { result ≡ seen_row values.entry.items }
    {
        Key { values }
    }

    /// Returns the values of the key, borrowed from where they lie.
    pub fn values(&self) -> &[ValueView<'a>]
        ensures { seen_row result.now ≡ self.now }
    {
        self.values.as_slice()
    }
}

fn key_values<'a>(
    alloc: Global,
    columns: &[Column],
    row: &[ValueView<'a>],
) -> Result<Vec<ValueView<'a>>, Error>
    ensures ok { IfOk result (λ values. seen_row values.items ≡ key_of columns.now (seen_row row.now)) }
    ensures kind { OnlyMemory result }
{
    let mut values = Vec::new(alloc);
    for i in 0..columns.len().min(row.len()) {
        if !columns[i].is_primary_key() {
            continue;
        }
        values.push(row[i])?;
    }
    Ok(values)
}

/// The first value that differs decides, and else the lengths do.
impl Ord for Key<'_> {
    ghost cmp = { slice_cmp value_cmp };

    ghost total = { lists_total value_cmp-total };

    ghost matches_partial_cmp = { λ _ _. refl };

    ghost matches_eq = { λ _ _. refl };

    fn cmp(&self, other: &Self) -> Ordering {
        compare_views(self.values.as_slice(), other.values.as_slice())
    }
}

impl PartialOrd for Key<'_> {
    ghost partial_cmp = { as_partial_cmp (slice_cmp value_cmp) };

    ghost laws = { po (lists_total value_cmp-total) (λ _ _. refl) };

    fn partial_cmp(&self, other: &Self) -> Option<Ordering> {
        Some(self.cmp(other))
    }
}

impl PartialEq for Key<'_> {
    ghost eq = { eq_by_cmp (slice_cmp value_cmp) };

    ghost laws = { partial_equiv_from_equiv (eq_by_cmp_equiv (lists_total value_cmp-total)) };

    fn eq(&self, other: &Self) -> bool {
        self.cmp(other) == Ordering::Equal
    }
}

impl Eq for Key<'_> {
    ghost laws = { eq_by_cmp_equiv (lists_total value_cmp-total) };
}

fn key_of_values<'a>(alloc: Global, columns: &[Column], row: &'a [Value]) -> Result<Key<'a>, Error>
    ensures ok { IfOk result (λ key. key ≡ key_of columns.now row.now) }
    ensures kind { OnlyMemory result }
{
    let views = views_of_values(alloc, row)?;
    Key::of_row(alloc, columns, views.as_slice())
}

fn keys_of_cells<'a>(
    alloc: Global,
    pool: &'a StringPool,
    columns: &[Column],
    rows: &[Items<ValueRef>],
) -> Result<Vec<Key<'a>>, Error>
    ensures ok { IfOk result (λ keys. keys.items ≡ keys_of_rows pool.now.places columns.now rows.now) }
    ensures kind { OnlyMemory result }
{
    let mut keys = Vec::new(alloc);
    for row in rows {
        let views = views_of_cells(alloc, pool, row.as_slice())?;
        keys.push(Key::of_row(alloc, columns, views.as_slice())?)?;
    }
    Ok(keys)
}

/// Returns the set of the keys, unless two of them are the same. It takes the keys times a logarithm.
///
/// # Errors
/// Fails with `OutOfMemory`.
pub fn distinct_keys<'a>(
    alloc: Global,
    keys: Vec<Key<'a>>,
) -> Result<Option<BTreeSet<Key<'a>>>, Error>
    ensures distinct { IfOk result (λ set. is_some set ≡ not (has_pair same_key keys.entry.items)) }
    ensures keys { IfOk result (λ set. IfSome set (λ set. HasKeys set keys.entry.items)) }
    ensures kind { OnlyMemory result }
{
    let mut set = BTreeSet::new(alloc);
    let mut repeats = false;
    for key in keys {
        if !set.insert(key)? {
            repeats = true;
        }
    }
    Ok(if repeats { None } else { Some(set) })
}

/// Checks row by row: `AlreadyExists` where a row's key is held, `InvalidInput` where an earlier new row has it.
fn refuse_held<'a>(
    alloc: Global,
    columns: &[Column],
    held: &BTreeSet<Key<'a>>,
    new_rows: &'a [Items<Value>],
) -> Result<(), Error>
    ensures ok { OnOk result ((keys : List (List ValueOf)) → HasKeys held.now keys
        → first_refusal (key_refusals keys [] (map (key_of columns.now) new_rows.now)) ≡ None) }
    ensures kind { IfErr result (λ kind. (keys : List (List ValueOf)) → HasKeys held.now keys
        → let refusals = key_refusals keys [] (map (key_of columns.now) new_rows.now) in
        IsRefusal {A = Unit {0}} (unless_refused refusals tt) kind) }
{
    let mut earlier = BTreeSet::new(alloc);
    for row in new_rows {
        let key = key_of_values(alloc, columns, row.as_slice())?;
        if held.contains(&key) {
            return Err(Error::new(ErrorKind::AlreadyExists, reasons::KEY_HELD));
        }
        if !earlier.insert(key)? {
            return Err(Error::new(ErrorKind::InvalidInput, reasons::KEY_TWICE));
        }
    }
    Ok(())
}

/// Refuses new rows for their keys, beside a table's rows, whose texts stand in the pool. It takes the rows times a
/// logarithm.
///
/// # Errors
/// Fails with the first of these that applies: `InvalidData` if two of the table's rows share a key; then, row by row,
/// `AlreadyExists` if a row's key is that of one of the table's, and `InvalidInput` if it is that of an earlier new
/// one. It may fail with `OutOfMemory` in place of any of these.
pub fn refuse_clashes(
    alloc: Global,
    pool: &StringPool,
    columns: &[Column],
    rows: &[Items<ValueRef>],
    new_rows: &[Items<Value>],
) -> Result<(), Error>
    ensures ok { let held = keys_of_rows pool.now.places columns.now rows.now in
        OnOk result (first_refusal (clash_refusals held (map (key_of columns.now) new_rows.now)) ≡ None) }
    ensures kind { let held = keys_of_rows pool.now.places columns.now rows.now in
        let refusals = clash_refusals held (map (key_of columns.now) new_rows.now) in
        IfErr result (IsRefusal {A = Unit {0}} (unless_refused refusals tt)) }
{
    let keys = keys_of_cells(alloc, pool, columns, rows)?;
    match distinct_keys(alloc, keys)? {
        Some(held) => refuse_held(alloc, columns, &held, new_rows),
        None => Err(Error::new(ErrorKind::InvalidData, reasons::KEY_SHARED)),
    }
}
