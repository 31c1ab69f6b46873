//! Copies of trees.

ghost use Rattle.std.specs.Prelude.{◌≡◌, IfErr, IfOk};
ghost use Rattle.msi_base.specs.declared.errors.ErrorKind.TheVariants.{OutOfMemory};
ghost use Rattle.msi_query_expressions.specs.Trees.{expression_of};

use super::Tree;
use msi_base::errors::Error;
use msi_base::text::Text;
use std::alloc::Global;

#[cycle(copying)]
pub(crate) fn copied(alloc: Global, tree: &Tree<Text>) -> Result<Tree<Text>, Error>
    ensures ok { IfOk result (λ copy. expression_of copy ≡ expression_of tree.now) }
    ensures kind { IfErr result (λ kind. kind ≡ OutOfMemory) }
{
    Ok(match tree {
        Tree::Literal(value) => Tree::Literal(value.clone(alloc)?),
        Tree::Column(name) => Tree::Column(name.clone(alloc)?),
        Tree::Unary(op, of) => Tree::Unary(*op, copied_in_box(alloc, of)?),
        Tree::Binary(op, left, right) => {
            let left = copied_in_box(alloc, left)?;
            Tree::Binary(*op, left, copied_in_box(alloc, right)?)
        }
        Tree::And(left, right) => {
            let left = copied_in_box(alloc, left)?;
            Tree::And(left, copied_in_box(alloc, right)?)
        }
        Tree::Or(left, right) => {
            let left = copied_in_box(alloc, left)?;
            Tree::Or(left, copied_in_box(alloc, right)?)
        }
    })
}

#[cycle(copying)]
fn copied_in_box(alloc: Global, tree: &Tree<Text>) -> Result<Box<Tree<Text>>, Error>
    ensures ok { IfOk result (λ copy. expression_of copy.value ≡ expression_of tree.now) }
    ensures kind { IfErr result (λ kind. kind ≡ OutOfMemory) }
{
    Ok(Box::new(alloc, copied(alloc, tree)?)?)
}
