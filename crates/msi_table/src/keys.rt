//! Keys of rows.

ghost use Rattle.std.specs.Prelude.{◌≡◌, IfOk};
ghost use Rattle.std.specs.Cmp.{po, partial_equiv_from_equiv, eq_by_cmp_equiv};
ghost use Rattle.std.specs.Cmp.Lexicographic.{slice_cmp, lists_total};
ghost use Rattle.std.specs.Ordering.{as_partial_cmp, eq_by_cmp};
ghost use Rattle.std.proofs.Common.{refl};
ghost use Rattle.msi_base.specs.Results.{OnlyMemory};
ghost use Rattle.msi_table_values.specs.OrderLaws.{value_cmp-total};
ghost use Rattle.msi_table_values.specs.Values.{value_cmp};
ghost use Rattle.msi_table_cells.specs.KeyOrder.{key_of};

use msi_base::errors::Error;
use msi_table_values::column::Column;
use msi_table_values::value::Value;
use std::alloc::Global;
use std::cmp::Ordering;
use std::marker::Model;

/// The key of a row: copies of the values of its key columns. A contract sees the values.
#[derive(Drop)]
pub(crate) struct Key {
    values: Vec<Value>,
}

impl Model for Key {
    ghost use Rattle.std.specs.Prelude.{List};
    ghost use Rattle.msi_table_values.specs.declared.value.Value.{Value as ValueOf};

    ghost Value = { List ValueOf };

    ghost view = { λ k. k.values.items };
}

impl Key {
    pub(crate) fn of_row(alloc: Global, columns: &[Column], row: &[Value]) -> Result<Key, Error>
        ensures ok { IfOk result (λ key. key ≡ key_of columns.now row.now) }
        ensures kind { OnlyMemory result }
    {
        let values = key_values(alloc, columns, row)?;
        Ok(Key { values })
    }
}

fn key_values(alloc: Global, columns: &[Column], row: &[Value]) -> Result<Vec<Value>, Error>
    ensures ok { IfOk result (λ values. values.items ≡ key_of columns.now row.now) }
    ensures kind { OnlyMemory result }
{
    let mut values = Vec::new(alloc);
    for i in 0..columns.len().min(row.len()) {
        if !columns[i].is_primary_key() {
            continue;
        }
        values.push(row[i].clone(alloc)?)?;
    }
    Ok(values)
}

/// The first value that differs decides, and else the lengths do.
impl Ord for Key {
    ghost cmp = { slice_cmp value_cmp };

    ghost total = { lists_total value_cmp-total };

    ghost matches_partial_cmp = { λ _ _. refl };

    ghost matches_eq = { λ _ _. refl };

    fn cmp(&self, other: &Self) -> Ordering {
        self.values.as_slice().cmp(other.values.as_slice())
    }
}

impl PartialOrd for Key {
    ghost partial_cmp = { as_partial_cmp (slice_cmp value_cmp) };

    ghost laws = { po (lists_total value_cmp-total) (λ _ _. refl) };

    fn partial_cmp(&self, other: &Self) -> Option<Ordering> {
        Some(self.cmp(other))
    }
}

impl PartialEq for Key {
    ghost eq = { eq_by_cmp (slice_cmp value_cmp) };

    ghost laws = { partial_equiv_from_equiv (eq_by_cmp_equiv (lists_total value_cmp-total)) };

    fn eq(&self, other: &Self) -> bool {
        self.cmp(other) == Ordering::Equal
    }
}

impl Eq for Key {
    ghost laws = { eq_by_cmp_equiv (lists_total value_cmp-total) };
}
