//! The names in conditions.

ghost use Rattle.std.specs.Prelude.{◌≡◌, option_copied};
ghost use Rattle.msi_query.specs.Selection.{condition_names, has_columns};

use msi_query_expressions::expr::Expr;
use msi_query_expressions::parts::knows_names;
use msi_table_values::column::Column;

pub(crate) fn knows_condition(columns: &[Column], condition: Option<&Expr>) -> bool
    ensures { result ≡ has_columns columns.now (condition_names (option_copied condition.entry)) }
{
    match condition {
        Some(condition) => knows_names(condition, columns),
        None => true,
    }
}
