//! Laws of the definitions themselves: each is the contract of a function without a body, but for one, which looks at
//! its expression.

ghost use Rattle.msi_query_expressions.specs.Folding.{FoldingKeepsValues, ConstructorsFold};
ghost use Rattle.msi_query_expressions.specs.Utf8Expressions.{IsUtf8Expression};
ghost use Rattle.msi_query_expressions.specs.Vocabulary.{PrintedConditionsAreUnambiguous};

use crate::expr::Expr;

/// Folding changes the value of no expression on any row.
pub fn folding_keeps_values()
    ensures { FoldingKeepsValues }
{}

/// Of expressions in which no operator stands over literals alone, the constructors make such expressions again.
pub fn constructors_fold()
    ensures { ConstructorsFold }
{}

/// No two expressions that the constructors make print alike, where literal texts are ASCII.
#[tactic(auto, using(crate::proofs::UnambiguousLemmas::prints_alone))]
pub fn printed_conditions_are_unambiguous()
    ensures { PrintedConditionsAreUnambiguous }
{}

/// Each text of an expression is UTF-8: the names of its columns, and its literals.
pub fn expression_texts_are_utf8(expression: &Expr)
    ensures { IsUtf8Expression expression.now }
{
    expression.look_at_texts();
}
