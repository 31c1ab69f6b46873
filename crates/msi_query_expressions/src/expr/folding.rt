//! Trees as they are built: operators over literals alone fold to a literal.

ghost use Rattle.std.specs.Prelude.{◌≡◌, IfOk, IfErr};
ghost use Rattle.msi_base.specs.declared.errors.ErrorKind.TheVariants.{OutOfMemory};
ghost use Rattle.msi_query_expressions.specs.Folding.{folded_unary, folded_binary};
ghost use Rattle.msi_query_expressions.specs.Trees.{expression_of};

use super::{BinaryOp, Tree, UnaryOp};
use crate::parts::{Operand, binary_value, unary_value};
use msi_base::errors::Error;
use msi_base::text::Text;
use msi_table_values::parts::ValueView;
use std::alloc::Global;

pub(crate) fn fold_unary(alloc: Global, op: UnaryOp, tree: Tree<Text>) -> Result<Tree<Text>, Error>
    ensures ok { IfOk result (λ folded. expression_of folded ≡ folded_unary op (expression_of tree)) }
    ensures kind { IfErr result (λ kind. kind ≡ OutOfMemory) }
{
    match tree {
        Tree::Literal(value) => Ok(Tree::Literal(unary_value(op, ValueView::of(&value)))),
        tree => Ok(Tree::Unary(op, Box::new(alloc, tree)?)),
    }
}

pub(crate) fn fold_binary(
    alloc: Global,
    op: BinaryOp,
    left: Tree<Text>,
    right: Tree<Text>,
) -> Result<Tree<Text>, Error>
    ensures ok { IfOk result (λ folded. expression_of folded
        ≡ folded_binary op (expression_of left) (expression_of right)) }
    ensures kind { IfErr result (λ kind. kind ≡ OutOfMemory) }
{
    match (left, right) {
        (Tree::Literal(value), Tree::Literal(other)) => Ok(Tree::Literal(binary_value(
            alloc,
            op,
            Operand::Computed(value),
            ValueView::of(&other),
        )?)),
        (left, right) => Ok(Tree::Binary(op, Box::new(alloc, left)?, Box::new(alloc, right)?)),
    }
}
