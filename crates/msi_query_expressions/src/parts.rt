//! What the crates above need beyond the surface.

ghost use Rattle.std.specs.Prelude.{◌≡◌, List, IfOk, IfSome, IsTrue, Some};
ghost use Rattle.std.specs.List.{AllByRecursion};
ghost use Rattle.msi_base.specs.Results.{OnlyMemory};
ghost use Rattle.msi_table_values.specs.declared.value.Value.{Value};
ghost use Rattle.msi_query_expressions.specs.Conditions.{meets};
ghost use Rattle.msi_query_expressions.specs.Equated.{AreEqualAt, PassesWithEqual, equated};
ghost use Rattle.msi_query_expressions.specs.Equated.{equations as equations_of};
ghost use Rattle.msi_query_expressions.specs.Evaluation.{knows_names as knows_each};
ghost use Rattle.msi_query_expressions.specs.Meaning.{meant, renamed};

pub use crate::assignment::Assignment;
use crate::expr::Expr;
pub use crate::expr::filter::RowFilter;
use crate::meaning::Scope;
pub use crate::operands::Operand;
pub use crate::printing::{operator_level, operator_text, prefix_text, right_operand_level};
pub use crate::results::{binary_value, unary_value};
use msi_base::errors::Error;
use msi_table_values::column::Column;
use std::alloc::Global;

/// Returns whether each name in a condition is that of a column. It takes no memory.
pub fn knows_names(condition: &Expr, columns: &[Column]) -> bool
    ensures { result ≡ knows_each columns.now condition.now }
{
    condition.knows_names(columns)
}

/// Returns whether each name in a condition means a column, as `meant_name` has it. It takes no memory.
pub fn knows_meant_names(condition: &Expr, scope: Scope<'_>) -> bool
    ensures { result ≡ knows_each scope.entry.columns.now
        (renamed (meant scope.entry.table.now scope.entry.columns.now) condition.now) }
{
    condition.knows_meant_names(scope)
}

/// Returns the places, in two sides of which the left one has so many columns, of the first columns that a condition
/// on pairs wants to be equal: of one column of each side, alone or under `and`. It takes no memory.
pub fn equated_places(condition: &Expr, columns: &[Column], width: usize) -> Option<(usize, usize)>
    ensures places { result ≡ equated columns.now width condition.now }
    ensures equal { IfSome result (PassesWithEqual (meets columns.now (Some condition.now)) width) }
{
    condition.equated_places(columns, width)
}

/// Returns the places of the columns that a condition wants to be equal, two by two, alone or under `and`.
///
/// # Errors
/// Fails with `OutOfMemory`.
pub fn equations(
    alloc: Global,
    condition: &Expr,
    columns: &[Column],
) -> Result<Vec<(usize, usize)>, Error>
    ensures places { IfOk result (λ equations. equations.items ≡ equations_of columns.now condition.now) }
    ensures equal { IfOk result (λ equations. (row : List Value)
        → IsTrue (meets columns.now (Some condition.now) row) → AllByRecursion (AreEqualAt row) equations.items) }
    ensures kind { OnlyMemory result }
{
    condition.equations(alloc, columns)
}
