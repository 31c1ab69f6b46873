//! Where the rows of keys stand.

ghost use Rattle.std.specs.Prelude.{IfOk};
ghost use Rattle.msi_base.specs.Results.{OnlyMemory};
ghost use Rattle.msi_table.specs.Differences.{IsIndex};

use crate::keys::Key;
use msi_base::errors::Error;
use msi_base::text::Items;
use msi_table_values::column::Column;
use msi_table_values::value::Value;
use std::alloc::Global;
use std::collections::BTreeMap;

/// Maps each key to the place of the last row that has it.
pub(crate) fn index_of(
    alloc: Global,
    columns: &[Column],
    rows: &[Items<Value>],
) -> Result<BTreeMap<Key, usize>, Error>
    ensures ok { IfOk result (λ index. IsIndex columns.now rows.now index) }
    ensures kind { OnlyMemory result }
{
    let mut index = BTreeMap::new(alloc);
    for i in 0..rows.len() {
        let key = Key::of_row(alloc, columns, rows[i].as_slice())?;
        index.insert(key, i)?;
    }
    Ok(index)
}
