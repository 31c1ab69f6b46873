//! The texts in a tree.

ghost use Rattle.msi_query_expressions.specs.Trees.{expression_of};
ghost use Rattle.msi_query_expressions.specs.Utf8Expressions.{IsUtf8Expression};

use super::{Expr, Tree};
use msi_base::laws::texts_are_utf8;
use msi_base::text::Text;
use msi_table_values::laws::value_texts_are_utf8;

/// Looks at each text in a tree, which is UTF-8.
fn look_at(tree: &Tree<Text>)
    ensures { IsUtf8Expression (expression_of tree.now) }
{
    match tree {
        Tree::Literal(value) => value_texts_are_utf8(value),
        Tree::Column(name) => texts_are_utf8(name),
        Tree::Unary(_, of) => look_at(of),
        Tree::Binary(_, left, right) | Tree::And(left, right) | Tree::Or(left, right) => {
            look_at(left);
            look_at(right);
        }
    }
}

impl Expr {
    pub(crate) fn look_at_texts(&self)
        ensures { IsUtf8Expression self.now }
    {
        look_at(&self.tree);
    }
}
