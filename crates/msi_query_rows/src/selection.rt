//! Carries out queries for rows over tables.

ghost use Rattle.std.specs.Prelude.{◌≡◌, IfOk, IfErr, IsTrue, Ok};
ghost use Rattle.msi_table.specs.Rows.{AreAsWide};
ghost use Rattle.msi_query.specs.QueryTrees.{query_of};
ghost use Rattle.msi_base.specs.Refusals.{AnswersWith, IsRefusal, unless};
ghost use Rattle.msi_query.specs.Queries.{product, table};
ghost use Rattle.msi_query.specs.Rows.{columns_read, relation_values, tables_values, whole_table};
ghost use Rattle.msi_query.specs.Selection.{early_refusal, is_table as is_one_table, joined_narrowed};
ghost use Rattle.msi_query.specs.Selection.{kept_of_join as kept_by_join, relation_of};
ghost use Rattle.msi_query.specs.Selected.{Selects};
ghost use Rattle.msi_query_rows.specs.Picking.{keep_order as stay_in_order};

use crate::columns::joined_columns;
use crate::joining::joined_rows;
use crate::narrowing::{kept_of, refuse_meaningless, refuse_unknown, selected};
use crate::picking::{keep_order, narrowed_rows};
use crate::reasons;
use crate::relation::Relation;
use crate::sides::{kept_of_product, refuse_repeated, refuse_unread, relations_of};
use msi_base::errors::{Error, ErrorKind};
use msi_base::text::{IntoText, Text};
use msi_pool::stringpool::StringPool;
use msi_query::parts::{Clauses, SelectTree, Side, select_tree};
use msi_query::query::{JoinKind, Select};
use msi_query_expressions::expr::Expr;
use msi_query_expressions::meaning::Scope;
use msi_query_expressions::parts::knows_names;
use msi_table::parts::StoredRows;
use msi_table::row::Rows;
use msi_table_values::column::Column;
use msi_table_values::parts::copied_columns;
use std::alloc::Global;

/// Provides tables by name.
pub trait Tables {
    ghost use Rattle.std.specs.Prelude.{ℕ, List, Option};
    ghost use Rattle.msi_table_cells.specs.TableCells.{TableCells};
    ghost use Rattle.msi_query.specs.Rows.{cells_of, whole_table};

    /// The columns and the rows of the table of a name.
    ghost table: { Self → List ℕ → Option TableCells };

    /// Returns the columns and the rows of the table of a name. It takes no memory.
    ///
    /// # Errors
    /// Fails with `NotFound` if there is none, or with `InvalidData` if it can't be read.
    fn stored(&self, name: &str) -> Result<StoredRows<'_>, Error>
        ensures ok { IfOk result (λ stored. whole_table (table self.now) name.now ≡ Ok (cells_of name.now stored)) }
        ensures kind { IfErr result (λ kind. whole_table (table self.now) name.now ≡ Err kind) };
}

pub(crate) fn columns_of<'a, T: Tables>(tables: &'a T, name: &str) -> Result<&'a [Column], Error>
    ensures ok { IfOk result (λ columns. columns_read (T.table tables.now) name.now ≡ Ok columns.now) }
    ensures kind { IfErr result (λ kind. columns_read (T.table tables.now) name.now ≡ Err kind) }
{
    let stored = tables.stored(name)?;
    Ok(stored.columns())
}

pub(crate) fn whole<T: Tables>(alloc: Global, tables: &T, name: &str) -> Result<Relation, Error>
    ensures ok { IfOk result (λ relation. whole_table (T.table tables.now) name.now ≡ Ok relation) }
    ensures wide { IfOk result (λ relation. AreAsWide relation.columns relation.rows) }
    ensures kind { IfErr result (IsRefusal (whole_table (T.table tables.now) name.now)) }
{
    let stored = tables.stored(name)?;
    let rows = stored.all(alloc)?;
    let columns = copied_columns(alloc, stored.columns())?;
    Ok(Relation::new(name.into_text(alloc)?, columns, rows))
}

fn joined(
    alloc: Global,
    pool: &StringPool,
    kind: JoinKind,
    on: &Expr,
    clauses: &Clauses,
    left: Relation,
    right: Relation,
) -> Result<Relation, Error>
    ensures ok { let values = relation_values pool.now.places in
        IfOk result (λ kept. joined_narrowed kind on.now clauses.now (values left) (values right) ≡ Ok (values kept)) }
    ensures kind { let values = relation_values pool.now.places in
        IfErr result (IsRefusal (joined_narrowed kind on.now clauses.now (values left) (values right))) }
{
    let columns = joined_columns(alloc, kind, &left, &right)?;
    if !knows_names(on, columns.as_slice()) {
        return Err(Error::new(ErrorKind::InvalidInput, reasons::JOIN_COLUMN));
    }
    refuse_unknown(columns.as_slice(), clauses)?;
    let rows = joined_rows(alloc, pool, kind, columns.as_slice(), on, &left, right)?;
    let name = Text::from_string(String::new(alloc));
    let whole = Relation::new(name, columns, rows);
    selected(alloc, pool, clauses, whole)
}

/// The names in the condition and the clauses are those of the join's columns, or short for them.
fn kept_of_join(
    alloc: Global,
    pool: &StringPool,
    kind: JoinKind,
    on: &Expr,
    clauses: &Clauses,
    left: Relation,
    right: Relation,
) -> Result<Relation, Error>
    ensures ok { let values = relation_values pool.now.places in
        IfOk result (λ kept. kept_by_join kind on.now clauses.now (values left) (values right) ≡ Ok (values kept)) }
    ensures kind { let values = relation_values pool.now.places in
        IfErr result (IsRefusal (kept_by_join kind on.now clauses.now (values left) (values right))) }
{
    let columns = joined_columns(alloc, kind, &left, &right)?;
    let scope = Scope {
        table: "",
        columns: columns.as_slice(),
    };
    let on = on.with_meant_names(alloc, scope)?;
    let clauses = clauses.with_meant_names(alloc, scope)?;
    joined(alloc, pool, kind, &on, &clauses, left, right)
}

fn is_table(tree: &SelectTree) -> bool
    ensures { result ≡ is_one_table (query_of tree.now) }
{
    matches!(tree, SelectTree::Table { .. })
}

/// Refuses a query for its tables and their columns, before any row is read. Those of a join and a product have
/// other names, so what is refused there is left for when they are made.
fn refuse_early<T: Tables>(tables: &T, tree: &SelectTree) -> Result<(), Error>
    ensures { result ≡ unless (early_refusal (columns_read (T.table tables.now)) (query_of tree.now)) tt }
{
    match tree {
        SelectTree::Table { name, clauses } => {
            let table = name.as_str();
            let columns = columns_of(tables, table)?;
            refuse_meaningless(Scope { table, columns }, clauses)
        }
        SelectTree::Join { left, right, .. } => {
            refuse_early(tables, left)?;
            if !is_table(left) {
                return Ok(());
            }
            refuse_early(tables, right)
        }
        SelectTree::Product { sides, .. } => {
            refuse_unread(tables, sides.as_slice())?;
            refuse_repeated(sides.as_slice())
        }
    }
}

fn product_of_sides<T: Tables>(
    alloc: Global,
    pool: &StringPool,
    tables: &T,
    sides: &[Side],
    clauses: &Clauses,
) -> Result<Relation, Error>
    ensures ok { let values = tables_values pool.now.places (T.table tables.now) in
        IfOk result (λ kept. relation_of values (product sides.now clauses.now)
        ≡ Ok (relation_values pool.now.places kept)) }
    ensures wide { IfOk result (λ kept. AreAsWide kept.columns kept.rows) }
    ensures kind { let values = tables_values pool.now.places (T.table tables.now) in
        IfErr result (IsRefusal (relation_of values (product sides.now clauses.now))) }
{
    let relations = relations_of(alloc, tables, sides)?;
    refuse_repeated(sides)?;
    kept_of_product(alloc, pool, clauses, relations.as_slice())
}

fn relation_of_tree<T: Tables>(
    alloc: Global,
    pool: &StringPool,
    tables: &T,
    tree: &SelectTree,
) -> Result<Relation, Error>
    ensures ok { let values = tables_values pool.now.places (T.table tables.now) in
        IfOk result (λ relation. relation_of values (query_of tree.now)
        ≡ Ok (relation_values pool.now.places relation)) }
    ensures wide { IfOk result (λ relation. AreAsWide relation.columns relation.rows) }
    ensures kind { let values = tables_values pool.now.places (T.table tables.now) in
        IfErr result (IsRefusal (relation_of values (query_of tree.now))) }
{
    match tree {
        SelectTree::Table { name, clauses } => {
            let relation = whole(alloc, tables, name.as_str())?;
            kept_of(alloc, pool, clauses, relation)
        }
        SelectTree::Join {
            kind,
            left,
            right,
            on,
            clauses,
        } => {
            let left = relation_of_tree(alloc, pool, tables, left)?;
            let right = relation_of_tree(alloc, pool, tables, right)?;
            kept_of_join(alloc, pool, *kind, on, clauses, left, right)
        }
        SelectTree::Product { sides, clauses } => {
            product_of_sides(alloc, pool, tables, sides.as_slice(), clauses)
        }
    }
}

/// The rows stay in the table's stream, in which the table is looked up once.
fn table_rows<'a, T: Tables>(
    alloc: Global,
    pool: &'a StringPool,
    tables: &'a T,
    name: &str,
    clauses: &Clauses,
) -> Result<Rows<'a>, Error>
    requires { IsTrue (stay_in_order clauses.now) }
    ensures ok { let values = tables_values pool.now.places (T.table tables.now) in
        IfOk result (Selects (relation_of values (table name.now clauses.now))) }
    ensures kind { let values = tables_values pool.now.places (T.table tables.now) in
        IfErr result (IsRefusal (relation_of values (table name.now clauses.now))) }
    ensures early { let columns = columns_read (T.table tables.now) in
        AnswersWith (early_refusal columns (table name.now clauses.now)) result }
{
    let stored = tables.stored(name)?;
    let scope = Scope {
        table: name,
        columns: stored.columns(),
    };
    refuse_meaningless(scope, clauses)?;
    let clauses = clauses.with_meant_names(alloc, scope)?;
    narrowed_rows(alloc, pool, &clauses, stored)
}

fn tree_rows<'a, T: Tables>(
    alloc: Global,
    pool: &'a StringPool,
    tables: &T,
    tree: &SelectTree,
) -> Result<Rows<'a>, Error>
    ensures ok { let values = tables_values pool.now.places (T.table tables.now) in
        IfOk result (Selects (relation_of values (query_of tree.now))) }
    ensures kind { let values = tables_values pool.now.places (T.table tables.now) in
        IfErr result (IsRefusal (relation_of values (query_of tree.now))) }
    ensures early { AnswersWith (early_refusal (columns_read (T.table tables.now)) (query_of tree.now)) result }
{
    refuse_early(tables, tree)?;
    let relation = relation_of_tree(alloc, pool, tables, tree)?;
    relation.into_rows(alloc, pool)
}

/// Returns the rows that a query selects from tables, whose texts are in a pool. Those of a query for one table are
/// decoded as they are asked for; those of a join or a product, and those that are ordered or distinct, are made
/// first. Joins go down by recursion, so how deep they may nest is bounded by the stack alone.
///
/// A name that no column has means the only column that has it with the table's name in front, or behind that of a
/// joined table: `Item.Id` of a query for `Item` means `Id`, and `Id` in a join means `Item.Id` if no other table of
/// the join has such a column.
///
/// # Errors
/// Fails with the first of these that applies, for a join those of the left query, then those of the right, for a
/// product those of its tables in order: `NotFound` if a table isn't there, `InvalidData` if it can't be read; then
/// `InvalidInput` if two tables of a product go by one name, or if a name means no column: in a join's condition, then
/// one that is selected, then in the condition, then in the order. If none applies, it fails with `OutOfMemory`, which
/// may also come in place of what is refused from the first join's or product's own columns on.
pub fn select_rows<'a, T: Tables>(
    alloc: Global,
    pool: &'a StringPool,
    tables: &'a T,
    query: &Select,
) -> Result<Rows<'a>, Error>
    ensures ok { let values = tables_values pool.now.places (T.table tables.now) in
        IfOk result (Selects (relation_of values query.now)) }
    ensures kind { let values = tables_values pool.now.places (T.table tables.now) in
        IfErr result (IsRefusal (relation_of values query.now)) }
    ensures early { AnswersWith (early_refusal (columns_read (T.table tables.now)) query.now) result }
{
    let tree = select_tree(query);
    match tree {
        SelectTree::Table { name, clauses } if keep_order(clauses) => {
            table_rows(alloc, pool, tables, name.as_str(), clauses)
        }
        SelectTree::Table { .. } | SelectTree::Join { .. } | SelectTree::Product { .. } => {
            tree_rows(alloc, pool, tables, tree)
        }
    }
}
