//! Conditions on rows of cells.

ghost use Rattle.std.specs.Prelude.{◌≡◌, ◌++◌, List, IfOk, IfErr, IsErr, IsTrue, false, unwrap_or, slice_get};
ghost use Rattle.std.specs.Prelude.{option_copied};
ghost use Rattle.std.specs.Option.{option_map_or};
ghost use Rattle.msi_base.specs.declared.errors.ErrorKind.TheVariants.{OutOfMemory};
ghost use Rattle.msi_table_values.specs.declared.value.Value.{Value as ValueOf};
ghost use Rattle.msi_table_cells.specs.declared.cell.ValueRef.TheVariants as cell;
ghost use Rattle.msi_table_cells.specs.CellValues.{row_values};
ghost use Rattle.msi_query_expressions.specs.Conditions.{has_sum, meets as meets_one, value_in, value_at_place};
ghost use Rattle.msi_query_expressions.specs.Evaluation.{value_of};
ghost use Rattle.msi_query_expressions.specs.RowFilters.{StandsFor};
ghost use Rattle.msi_query_expressions.specs.Trees.{expression_of, tree_has_sum, tree_value};

use super::column_values::ColumnValues;
use super::evaluation::holds;
use super::{Expr, Tree};
use msi_base::errors::Error;
use msi_base::text::Text;
use msi_pool::stringpool::StringPool;
use msi_table_cells::cell::ValueRef;
use msi_table_cells::parts::view_of_cell;
use msi_table_values::column::Column;
use msi_table_values::parts::{ValueView, column_index};
use msi_table_values::value::Value;
use std::alloc::Global;
use std::marker::Model;

/// A row of cells in two pieces, so that a pair of rows is tested before it is made.
#[derive(Drop)]
struct CellRow<'a> {
    pool: &'a StringPool,
    front: &'a [ValueRef],
    back: &'a [ValueRef],
}

/// Returns the cell at a place of two pieces, or null past their end.
fn cell_in_pieces(front: &[ValueRef], back: &[ValueRef], place: usize) -> ValueRef
    ensures { result ≡ unwrap_or (slice_get (front.now ++ back.now) place) cell.Null }
{
    if place < front.len() {
        return front[place];
    }
    let place = place - front.len();
    if place < back.len() {
        back[place]
    } else {
        ValueRef::Null
    }
}

/// Null past the end of the row.
impl ColumnValues<usize> for CellRow<'_> {
    ghost value_at = { λ r. value_at_place (row_values r.pool.now.places (r.front.now ++ r.back.now)) };

    fn value(&self, place: &usize) -> ValueView<'_> {
        view_of_cell(self.pool, cell_in_pieces(self.front, self.back, *place))
    }
}

/// Replaces the columns' names by their places, and a name of no column by Null.
#[cycle(placing)]
fn placed(alloc: Global, columns: &[Column], tree: &Tree<Text>) -> Result<Tree<usize>, Error>
    ensures values { IfOk result (λ placed. (row : List ValueOf)
        → tree_value (value_at_place row) placed ≡ value_of (value_in columns.now row) (expression_of tree.now)) }
    ensures sums { IfOk result (λ placed. tree_has_sum placed ≡ has_sum (expression_of tree.now)) }
    ensures kind { IfErr result (λ kind. kind ≡ OutOfMemory) }
{
    Ok(match tree {
        Tree::Literal(value) => Tree::Literal(value.clone(alloc)?),
        Tree::Column(name) => match column_index(columns, name.as_str()) {
            Some(place) => Tree::Column(place),
            None => Tree::Literal(Value::Null),
        },
        Tree::Unary(op, of) => Tree::Unary(*op, placed_in_box(alloc, columns, of)?),
        Tree::Binary(op, left, right) => {
            let left = placed_in_box(alloc, columns, left)?;
            Tree::Binary(*op, left, placed_in_box(alloc, columns, right)?)
        }
        Tree::And(left, right) => {
            let left = placed_in_box(alloc, columns, left)?;
            Tree::And(left, placed_in_box(alloc, columns, right)?)
        }
        Tree::Or(left, right) => {
            let left = placed_in_box(alloc, columns, left)?;
            Tree::Or(left, placed_in_box(alloc, columns, right)?)
        }
    })
}

#[cycle(placing)]
fn placed_in_box(
    alloc: Global,
    columns: &[Column],
    tree: &Tree<Text>,
) -> Result<Box<Tree<usize>>, Error>
    ensures values { IfOk result (λ placed. (row : List ValueOf)
        → tree_value (value_at_place row) placed.value ≡ value_of (value_in columns.now row) (expression_of tree.now)) }
    ensures sums { IfOk result (λ placed. tree_has_sum placed.value ≡ has_sum (expression_of tree.now)) }
    ensures kind { IfErr result (λ kind. kind ≡ OutOfMemory) }
{
    Ok(Box::new(alloc, placed(alloc, columns, tree)?)?)
}

/// Without a condition the tree is one that is always true.
fn placed_condition(
    alloc: Global,
    columns: &[Column],
    condition: Option<&Expr>,
) -> Result<Tree<usize>, Error>
    ensures ok { IfOk result (StandsFor columns.now (option_copied condition.entry)) }
    ensures kind { IfErr result (λ kind. kind ≡ OutOfMemory) }
{
    match condition {
        Some(condition) => placed(alloc, columns, &condition.tree),
        None => Ok(Tree::Literal(Value::from(true))),
    }
}

/// A condition on rows of cells, or none, which each row meets. The indices of the columns are looked up once, and no
/// text of a row is copied unless texts are joined. A contract sees the columns and the condition.
#[derive(Drop)]
pub struct RowFilter<'a> {
    columns: &'a [Column],
    condition: Option<&'a Expr>,
    tree: Tree<usize>,
}

impl<'a> Model for RowFilter<'a> {
    ghost use Rattle.std.specs.Prelude.{option_copied};
    ghost use Rattle.std.specs.Coded.{codes};
    ghost use Rattle.msi_query_expressions.specs.Conditions.{RowFilterDef};
    ghost use Rattle.msi_query_expressions.specs.ExpressionCode.{expression_code};

    ghost Value = { RowFilterDef };

    ghost coded = { Prim.hlevel (codes, expression_code (Prim.hlevel codes)) };

    ghost use Rattle.msi_query_expressions.specs.RowFilters.{StandsFor};

    ghost view = { λ f. record { columns = f.columns.now; condition = option_copied f.condition } };

    ghost invariant = { λ f. StandsFor f.columns.now (option_copied f.condition) f.tree };
}

impl<'a> RowFilter<'a> {
    /// Returns a filter for the rows of these columns that meet a condition. A name in it that is none of a column
    /// stands for Null.
    ///
    /// # Errors
    /// Fails with `OutOfMemory`.
    pub fn new(
        alloc: Global,
        columns: &'a [Column],
        condition: Option<&'a Expr>,
    ) -> Result<RowFilter<'a>, Error>
        ensures ok { IfOk result (λ filter. filter
            ≡ record { columns = columns.now; condition = option_copied condition.entry }) }
        ensures kind { IfErr result (λ kind. kind ≡ OutOfMemory) }
    {
        let tree = placed_condition(alloc, columns, condition)?;
        Ok(RowFilter {
            columns,
            condition,
            tree,
        })
    }

    /// Returns whether a row meets the condition. Its cells' texts stand in the pool.
    ///
    /// # Errors
    /// Fails with `OutOfMemory`, and only if the condition has a sum.
    pub fn meets(&self, alloc: Global, pool: &StringPool, row: &[ValueRef]) -> Result<bool, Error>
        ensures ok { IfOk result (λ met. met
            ≡ meets_one self.now.columns self.now.condition (row_values pool.now.places row.now)) }
        ensures kind { IfErr result (λ kind. kind ≡ OutOfMemory) }
        ensures memory { IsErr result → IsTrue (option_map_or has_sum self.now.condition false) }
    {
        self.meets_pair(alloc, pool, row, &[])
    }

    /// Returns whether a row with another behind it meets the condition. Their cells' texts stand in the pool.
    ///
    /// # Errors
    /// Fails with `OutOfMemory`, and only if the condition has a sum.
    pub fn meets_pair(
        &self,
        alloc: Global,
        pool: &StringPool,
        row: &[ValueRef],
        other: &[ValueRef],
    ) -> Result<bool, Error>
        ensures ok { IfOk result (λ met. met
            ≡ meets_one self.now.columns self.now.condition (row_values pool.now.places (row.now ++ other.now))) }
        ensures kind { IfErr result (λ kind. kind ≡ OutOfMemory) }
        ensures memory { IsErr result → IsTrue (option_map_or has_sum self.now.condition false) }
    {
        let cells = CellRow {
            pool,
            front: row,
            back: other,
        };
        holds(alloc, &self.tree, &cells)
    }
}
