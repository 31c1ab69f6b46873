//! The names of columns in a tree.

ghost use Rattle.std.specs.Prelude.{◌≡◌, ◌||◌, IfErr, OnOk, ℕ, List, bytes_eq};
ghost use Rattle.std.specs.List.{list_any};
ghost use Rattle.msi_base.specs.declared.errors.ErrorKind.TheVariants.{OutOfMemory};
ghost use Rattle.msi_query_expressions.specs.Evaluation.{knows_names as knows_each};
ghost use Rattle.msi_query_expressions.specs.Expressions.{names_in};
ghost use Rattle.msi_query_expressions.specs.Meaning.{meant, renamed};
ghost use Rattle.msi_query_expressions.specs.Names.{has_name};
ghost use Rattle.msi_query_expressions.specs.Trees.{expression_of};

use super::Tree;
use crate::meaning::{Scope, meant_name};
use msi_base::errors::Error;
use msi_base::text::Text;
use msi_table_values::column::Column;
use msi_table_values::parts::has_column;
use std::collections::HashSet;

pub(crate) fn collect_names<'a>(
    tree: &'a Tree<Text>,
    names: &mut HashSet<&'a str>,
) -> Result<(), Error>
    ensures ok { OnOk result ((name : List ℕ)
        → has_name names.new name
        ≡ (has_name names.old name || list_any (bytes_eq name) (names_in (expression_of tree.now)))) }
    ensures kind { IfErr result (λ kind. kind ≡ OutOfMemory) }
{
    match tree {
        Tree::Literal(_) => Ok(()),
        Tree::Column(name) => {
            names.insert(name.as_str())?;
            Ok(())
        }
        Tree::Unary(_, of) => collect_names(of, names),
        Tree::Binary(_, left, right) | Tree::And(left, right) | Tree::Or(left, right) => {
            collect_names(left, names)?;
            collect_names(right, names)
        }
    }
}

pub(crate) fn knows_names(tree: &Tree<Text>, columns: &[Column]) -> bool
    ensures { result ≡ knows_each columns.now (expression_of tree.now) }
{
    match tree {
        Tree::Literal(_) => true,
        Tree::Column(name) => has_column(columns, name.as_str()),
        Tree::Unary(_, of) => knows_names(of, columns),
        Tree::Binary(_, left, right) | Tree::And(left, right) | Tree::Or(left, right) => {
            knows_names(left, columns) && knows_names(right, columns)
        }
    }
}

/// Whether each name means a column.
pub(crate) fn knows_meant_names(tree: &Tree<Text>, scope: Scope<'_>) -> bool
    ensures { result ≡ knows_each scope.entry.columns.now
        (renamed (meant scope.entry.table.now scope.entry.columns.now) (expression_of tree.now)) }
{
    match tree {
        Tree::Literal(_) => true,
        Tree::Column(name) => has_column(scope.columns, meant_name(scope, name.as_str())),
        Tree::Unary(_, of) => knows_meant_names(of, scope),
        Tree::Binary(_, left, right) | Tree::And(left, right) | Tree::Or(left, right) => {
            knows_meant_names(left, scope) && knows_meant_names(right, scope)
        }
    }
}
