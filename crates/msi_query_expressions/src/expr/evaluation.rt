//! The value of a tree on a row.

ghost use Rattle.std.specs.Prelude.{◌≡◌, ◌||◌, IfOk, IfErr, IsErr, IsTrue};
ghost use Rattle.msi_base.specs.declared.errors.ErrorKind.TheVariants.{OutOfMemory};
ghost use Rattle.msi_table_values.specs.Values.{is_true};
ghost use Rattle.msi_query_expressions.specs.Operands.{operand_value};
ghost use Rattle.msi_query_expressions.specs.OperatorValues.{is_sum, binary_value as binary_value_of};
ghost use Rattle.msi_query_expressions.specs.Trees.{tree_has_sum, tree_value};

use super::column_values::ColumnValues;
use super::{BinaryOp, Tree};
use crate::parts::{Operand, binary_value, unary_value};
use msi_base::errors::Error;
use msi_table_values::parts::ValueView;
use msi_table_values::value::Value;
use std::alloc::Global;

/// No text of the row is copied, except where texts are joined.
#[cycle(evaluation)]
pub(crate) fn operand_of<'a, C, R: ColumnValues<C>>(
    alloc: Global,
    tree: &'a Tree<C>,
    row: &'a R,
) -> Result<Operand<'a>, Error>
    ensures ok { IfOk result (λ operand. operand_value operand ≡ tree_value (R.value_at row.now) tree.now) }
    ensures kind { IfErr result (λ kind. kind ≡ OutOfMemory) }
    ensures memory { IsErr result → IsTrue (tree_has_sum tree.now) }
{
    match tree {
        Tree::Literal(value) => Ok(Operand::Borrowed(ValueView::of(value))),
        Tree::Column(column) => Ok(Operand::Borrowed(row.value(column))),
        Tree::Unary(op, of) => {
            let operand = operand_of(alloc, of, row)?;
            Ok(Operand::Computed(unary_value(*op, operand.as_view())))
        }
        Tree::Binary(op, left, right) => {
            let left = operand_of(alloc, left, row)?;
            Ok(Operand::Computed(value_with(alloc, *op, left, right, row)?))
        }
        Tree::And(left, right) => {
            let both = holds(alloc, left, row)? && holds(alloc, right, row)?;
            Ok(Operand::Computed(Value::from(both)))
        }
        Tree::Or(left, right) => {
            let either = holds(alloc, left, row)? || holds(alloc, right, row)?;
            Ok(Operand::Computed(Value::from(either)))
        }
    }
}

#[cycle(evaluation)]
fn value_with<C, R: ColumnValues<C>>(
    alloc: Global,
    op: BinaryOp,
    left: Operand,
    right: &Tree<C>,
    row: &R,
) -> Result<Value, Error>
    ensures ok { IfOk result (λ value. value
        ≡ binary_value_of op (operand_value left.entry) (tree_value (R.value_at row.now) right.now)) }
    ensures kind { IfErr result (λ kind. kind ≡ OutOfMemory) }
    ensures memory { IsErr result → IsTrue (is_sum op || tree_has_sum right.now) }
{
    let right = operand_of(alloc, right, row)?;
    binary_value(alloc, op, left, right.as_view())
}

#[cycle(evaluation)]
pub(crate) fn holds<C, R: ColumnValues<C>>(
    alloc: Global,
    tree: &Tree<C>,
    row: &R,
) -> Result<bool, Error>
    ensures ok { IfOk result (λ holds. holds ≡ is_true (tree_value (R.value_at row.now) tree.now)) }
    ensures kind { IfErr result (λ kind. kind ≡ OutOfMemory) }
    ensures memory { IsErr result → IsTrue (tree_has_sum tree.now) }
{
    Ok(operand_of(alloc, tree, row)?.as_view().is_true())
}
