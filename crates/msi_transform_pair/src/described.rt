//! The rows of `_Columns` that describe the columns of tables.

ghost use Rattle.std.specs.Prelude.{◌≡◌, IfOk};
ghost use Rattle.std.specs.FinMap.{entries};
ghost use Rattle.std.specs.Ordering.{eq_by_cmp};
ghost use Rattle.msi_base.specs.Results.{OnlyMemory};
ghost use Rattle.msi_database_schema.specs.System.{columns_name};
ghost use Rattle.msi_table_values.specs.Values.{value_cmp};
ghost use Rattle.msi_table_values.specs.Views.{seen_value};
ghost use Rattle.msi_table_values.specs.declared.value.Value.TheVariants.{Str};
ghost use Rattle.msi_transform_pair.specs.Pair.{described_columns as rows_of_name, told_rows as rows_told};

use crate::base::Base;
use crate::seen::key_with;
use crate::told::ToldRows;
use msi_base::errors::Error;
use msi_database_changes::keys::Key;
use msi_table_values::parts::ValueView;
use std::cmp::Ordering;

/// The rows of `_Columns` of both databases.
#[derive(Drop)]
pub struct Described<'a> {
    /// Those of the old one.
    pub old: ToldRows<'a>,
    /// Those of the new one.
    pub new: ToldRows<'a>,
}

/// Returns the rows of `_Columns` that describe the columns of a table, in the order of their numbers.
///
/// # Errors
/// Fails with `OutOfMemory`.
pub fn described_columns<'a>(
    base: &Base<'a>,
    described: &ToldRows<'a>,
    name: &str,
) -> Result<Vec<Key<'a>>, Error>
    requires { entries described.now ≡ rows_told base.now.kept columns_name 0 }
    ensures ok { IfOk result (λ rows. rows.items ≡ rows_of_name base.now.kept name.now) }
    ensures kind { OnlyMemory result }
{
    let mut rows = Vec::new(base.alloc);
    for (_, row) in described.iter() {
        if !is_name(row.values().at(0), name) {
            continue;
        }
        rows.push(key_with(base.alloc, row.values().as_slice())?)?;
    }
    Ok(rows)
}

fn is_name(value: ValueView, name: &str) -> bool
    ensures { result ≡ eq_by_cmp value_cmp (seen_value value.entry) (Str name.now) }
{
    value.compare(ValueView::Str(name)) == Ordering::Equal
}
