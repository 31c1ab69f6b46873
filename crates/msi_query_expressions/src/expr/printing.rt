//! How expressions print: with the fewest brackets that the levels of the operators allow.

ghost use Rattle.std.specs.Prelude.{◌≡◌, Some};
ghost use Rattle.std.specs.Fmt.{DisplaysOnOk, ◌++?◌};
ghost use Rattle.msi_query_expressions.specs.Printing.{bracketed, expression_text, level};
ghost use Rattle.msi_query_expressions.specs.Trees.{expression_of};
ghost use Rattle.msi_query_expressions.specs.Vocabulary.{PrintsAlone};

use crate::expr::{Expr, Tree};
use crate::parts::{operator_level, operator_text, prefix_text, right_operand_level};
use msi_base::text::Text;
use msi_query_tokens::names::write_name;
use std::fmt;

/// The level of what needs no brackets.
const TIGHTEST: u8 = 10;

impl Tree<Text> {
    /// Returns how tightly the top of the tree binds.
    fn level(&self) -> u8
        ensures { result ≡ level (expression_of self.now) }
    {
        match self {
            Tree::Or(_, _) => 1,
            Tree::And(_, _) => 2,
            Tree::Binary(op, _, _) => operator_level(*op),
            Tree::Literal(_) | Tree::Column(_) | Tree::Unary(_, _) => TIGHTEST,
        }
    }
}

/// Equal levels group to the left, so the right operand of an operator needs a level more.
#[cycle(writing)]
fn write_tree<W: fmt::Write>(f: &mut fmt::Formatter<W>, tree: &Tree<Text>) -> fmt::Result
    ensures { DisplaysOnOk W.write_str_gives f.old result (expression_text (expression_of tree.now)) f.new }
{
    match tree {
        Tree::Literal(value) => write!(f, "{value}"),
        Tree::Column(name) => write_name(f, name.as_str()),
        Tree::Unary(op, operand) => {
            f.write_str(prefix_text(*op))?;
            write_operand(f, TIGHTEST, operand)
        }
        Tree::Binary(op, left, right) => {
            write_operand(f, operator_level(*op), left)?;
            f.write_str(operator_text(*op))?;
            write_operand(f, right_operand_level(*op), right)
        }
        Tree::And(left, right) => {
            write_operand(f, 2, left)?;
            f.write_str(" AND ")?;
            write_operand(f, 3, right)
        }
        Tree::Or(left, right) => {
            write_operand(f, 1, left)?;
            f.write_str(" OR ")?;
            write_operand(f, 2, right)
        }
    }
}

/// Writes an operand, in brackets where its level is below `needed`.
#[cycle(writing)]
fn write_operand<W: fmt::Write>(
    f: &mut fmt::Formatter<W>,
    needed: u8,
    operand: &Tree<Text>,
) -> fmt::Result
    ensures { DisplaysOnOk W.write_str_gives f.old result
        (bracketed needed (level (expression_of operand.now)) (expression_text (expression_of operand.now))) f.new }
{
    if operand.level() < needed {
        f.write_str("(")?;
        write_tree(f, operand)?;
        f.write_str(")")
    } else {
        write_tree(f, operand)
    }
}

/// Writes the condition as a query has it, as `Foo - (Bar - Baz)`. A column that is named as a key word, or by no
/// Identifier, stands in back quotes. Literal texts past ASCII, and formats with a width or other options, are promised
/// nothing. No other expression writes these bytes, where literal texts are ASCII.
impl fmt::Display for Expr {
    ghost output = { expression_text };

    #[tactic(auto, using(crate::proofs::UnambiguousLemmas::prints_alone))]
    fn fmt<W: fmt::Write>(&self, f: &mut fmt::Formatter<W>) -> fmt::Result
        ensures writes { DisplaysOnOk W.write_str_gives f.old result (expression_text self.now) f.new }
        ensures alone { PrintsAlone self.now }
    {
        write_tree(f, &self.tree)
    }
}
