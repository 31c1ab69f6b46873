//! What gives the values of columns.

ghost use Rattle.std.specs.Prelude.{◌≡◌};
ghost use Rattle.msi_table_values.specs.declared.value.Value.{Value as ValueOf};
ghost use Rattle.msi_table_values.specs.Views.{seen_value};
ghost use Rattle.msi_query_expressions.specs.Evaluation.{value_at as value_in_row};

use msi_base::text::Text;
use msi_table_values::parts::{ValueView, value_named};
use msi_table_values::row::Row;

/// What gives the values of columns, however a tree names them.
pub(crate) trait ColumnValues<C> {
    /// The value of a column.
    ghost value_at: { Self → C → ValueOf };

    /// The value of a column.
    fn value(&self, column: &C) -> ValueView<'_>
        ensures { seen_value result ≡ value_at self.now column.now };
}

/// Null where there is no such column; of a repeated name the first.
impl ColumnValues<Text> for Row {
    ghost value_at = { value_in_row };

    fn value(&self, name: &Text) -> ValueView<'_> {
        match value_named(self, name.as_str()) {
            Some(value) => ValueView::of(value),
            None => ValueView::Null,
        }
    }
}
