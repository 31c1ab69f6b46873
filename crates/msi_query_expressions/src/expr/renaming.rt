//! Trees with the names of the columns that their names mean.

ghost use Rattle.std.specs.Prelude.{◌≡◌, IfErr, IfOk};
ghost use Rattle.msi_base.specs.declared.errors.ErrorKind.TheVariants.{OutOfMemory};
ghost use Rattle.msi_query_expressions.specs.Meaning.{meant, renamed};
ghost use Rattle.msi_query_expressions.specs.Trees.{expression_of};

use super::Tree;
use crate::meaning::{Scope, meant_name};
use msi_base::errors::Error;
use msi_base::text::{IntoText, Text};
use std::alloc::Global;

#[cycle(meaning)]
pub(crate) fn renamed_tree(
    alloc: Global,
    scope: Scope<'_>,
    tree: &Tree<Text>,
) -> Result<Tree<Text>, Error>
    ensures ok { IfOk result (λ copy. expression_of copy
        ≡ renamed (meant scope.entry.table.now scope.entry.columns.now) (expression_of tree.now)) }
    ensures kind { IfErr result (λ kind. kind ≡ OutOfMemory) }
{
    Ok(match tree {
        Tree::Literal(value) => Tree::Literal(value.clone(alloc)?),
        Tree::Column(name) => { Tree::Column(meant_name(scope, name.as_str()).into_text(alloc)?) }
        Tree::Unary(op, of) => Tree::Unary(*op, renamed_in_box(alloc, scope, of)?),
        Tree::Binary(op, left, right) => {
            let left = renamed_in_box(alloc, scope, left)?;
            Tree::Binary(*op, left, renamed_in_box(alloc, scope, right)?)
        }
        Tree::And(left, right) => {
            let left = renamed_in_box(alloc, scope, left)?;
            Tree::And(left, renamed_in_box(alloc, scope, right)?)
        }
        Tree::Or(left, right) => {
            let left = renamed_in_box(alloc, scope, left)?;
            Tree::Or(left, renamed_in_box(alloc, scope, right)?)
        }
    })
}

#[cycle(meaning)]
fn renamed_in_box(
    alloc: Global,
    scope: Scope<'_>,
    tree: &Tree<Text>,
) -> Result<Box<Tree<Text>>, Error>
    ensures ok { IfOk result (λ copy. expression_of copy.value
        ≡ renamed (meant scope.entry.table.now scope.entry.columns.now) (expression_of tree.now)) }
    ensures kind { IfErr result (λ kind. kind ≡ OutOfMemory) }
{
    Ok(Box::new(alloc, renamed_tree(alloc, scope, tree)?)?)
}
