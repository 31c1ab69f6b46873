//! Equalities of columns.

ghost use Rattle.std.specs.Prelude.{◌≡◌, ◌++◌, OnOk};
ghost use Rattle.msi_base.specs.Results.{OnlyMemory};
ghost use Rattle.msi_query_expressions.specs.Equated.{column_place as place_of, equated, equations as equations_of};
ghost use Rattle.msi_query_expressions.specs.Equated.{one_of_each as one_each};
ghost use Rattle.msi_query_expressions.specs.Trees.{expression_of};

use super::{BinaryOp, Tree};
use msi_base::errors::Error;
use msi_base::text::Text;
use msi_table_values::column::Column;
use msi_table_values::parts::column_index;

fn column_place(tree: &Tree<Text>, columns: &[Column]) -> Option<usize>
    ensures { result ≡ place_of columns.now (expression_of tree.now) }
{
    match tree {
        Tree::Column(name) => column_index(columns, name.as_str()),
        _ => None,
    }
}

/// Returns the one of two places that is below the width, and the other, counted from there, where it isn't.
fn one_of_each(width: usize, place: usize, other: usize) -> Option<(usize, usize)>
    ensures { result ≡ one_each width place other }
{
    if place < width {
        if other < width {
            None
        } else {
            Some((place, other - width))
        }
    } else if other < width {
        Some((other, place - width))
    } else {
        None
    }
}

/// Returns the places of the first equality of one column of each side, alone or under `and`.
pub(crate) fn equated_places(
    tree: &Tree<Text>,
    columns: &[Column],
    width: usize,
) -> Option<(usize, usize)>
    ensures { result ≡ equated columns.now width (expression_of tree.now) }
{
    match tree {
        Tree::Binary(BinaryOp::Eq, left, right) => {
            let place = column_place(left, columns)?;
            let other = column_place(right, columns)?;
            one_of_each(width, place, other)
        }
        Tree::And(left, right) => match equated_places(left, columns, width) {
            Some(places) => Some(places),
            None => equated_places(right, columns, width),
        },
        _ => None,
    }
}

/// Adds the places of the columns of each equality of two columns, alone or under `and`.
pub(crate) fn add_equations(
    tree: &Tree<Text>,
    columns: &[Column],
    equations: &mut Vec<(usize, usize)>,
) -> Result<(), Error>
    ensures ok { OnOk result (equations.new.items
        ≡ equations.old.items ++ equations_of columns.now (expression_of tree.now)) }
    ensures kind { OnlyMemory result }
{
    match tree {
        Tree::Binary(BinaryOp::Eq, left, right) => {
            let Some(place) = column_place(left, columns) else {
                return Ok(());
            };
            let Some(other) = column_place(right, columns) else {
                return Ok(());
            };
            equations.push((place, other))?;
            Ok(())
        }
        Tree::And(left, right) => {
            add_equations(left, columns, equations)?;
            add_equations(right, columns, equations)
        }
        _ => Ok(()),
    }
}
