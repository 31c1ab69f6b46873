//! Queries for rows.

ghost use Rattle.std.specs.Prelude.{◌≡◌, ◌++◌, IfOk, IfErr, List, ℕ, Some, codes, map, option_copied};
ghost use Rattle.std.specs.Fmt.{DisplaysOnOk, ◌++?◌};
ghost use Rattle.msi_base.specs.declared.errors.ErrorKind.TheVariants.{OutOfMemory};
ghost use Rattle.msi_query.specs.Queries.{table, join, product, no_clauses, distinct_query, narrowed_query};
ghost use Rattle.msi_query.specs.Queries.{ordered_query};
ghost use Rattle.msi_query.specs.Queries.{projected_query};
ghost use Rattle.msi_query.specs.QueryTexts.{bare_name, columns_text, join_word, order_text, query_text, select_word};
ghost use Rattle.msi_query.specs.QueryTexts.{side_text, sides_text, where_text};
ghost use Rattle.msi_query.specs.QueryTrees.{query_of};
ghost use Rattle.msi_query.specs.Utf8Queries.{IsUtf8Query};

use super::JoinKind;
use super::clauses::{Clauses, copied_condition};
use super::printing::{write_condition, write_list, write_name_list};
use super::product::{Side, copied_sides};
use super::texts::look_at_tree;
use msi_base::errors::Error;
use msi_base::text::{IntoText, Items, Text};
use msi_query_expressions::Expr;
use msi_query_tokens::names::write_name;
use msi_table::parts::copied_list;
use std::alloc::Global;
use std::fmt;
use std::marker::Model;

/// The tree of a query for rows.
#[derive(Drop)]
pub enum SelectTree {
    /// The rows of a table.
    Table {
        name: Text,
        clauses: Clauses,
    },
    /// The pairs of the rows of two queries for which a condition holds.
    Join {
        kind: JoinKind,
        left: Box<SelectTree>,
        right: Box<SelectTree>,
        on: Expr,
        clauses: Clauses,
    },
    /// The rows of the tables, each with each.
    Product {
        sides: Items<Side>,
        clauses: Clauses,
    },
}

/// A query for rows. A contract sees its tree.
///
/// Printing, `clone` and the drop go down the joins by recursion, so how deep they may nest is bounded by the stack
/// alone.
pub struct Select {
    alloc: Global,
    tree: SelectTree,
}

/// Written out, so that a function that owns one calls one drop, and its proof doesn't go through those of the parts.
impl Drop for Select {
    fn drop(self) {
        let Select { alloc: _, tree: _ } = self;
    }
}

impl Model for Select {
    ghost use Rattle.std.specs.Coded.{codes};
    ghost use Rattle.msi_query_expressions.specs.ExpressionCode.{expression_code};
    ghost use Rattle.msi_query.specs.Queries.{Query};
    ghost use Rattle.msi_query.specs.QueryCode.{query_code};

    ghost Value = { Query };

    ghost coded = { query_code (Prim.hlevel (codes, expression_code (Prim.hlevel codes))) };

    ghost use Rattle.msi_query.specs.QueryTrees.{query_of};

    ghost view = { λ s. query_of s.tree };
}

impl Select {
    /// Starts a query for all rows of the table of this name, with all columns.
    ///
    /// # Errors
    /// Fails with `OutOfMemory`.
    pub fn table<S: IntoText>(alloc: Global, name: S) -> Result<Select, Error>
        ensures ok { IfOk result (λ query. query ≡ table (S.text name) no_clauses) }
        ensures kind { IfErr result (λ kind. kind ≡ OutOfMemory) }
    {
        let name = name.into_text(alloc)?;
        let clauses = Clauses::new(alloc);
        Ok(Select {
            alloc,
            tree: SelectTree::Table { name, clauses },
        })
    }

    /// Starts a query for the product of tables: each row of each with each row of the others, and the columns of all
    /// of them. The rows of the last table vary slowest. Each table is given with the name that its columns go by, `C`
    /// of a table that goes by `T` as `T.C`, so that a table can be there twice. Equations of columns in the condition
    /// choose how rows are found, so no product is built that they exclude.
    ///
    /// # Errors
    /// Fails with `OutOfMemory`.
    pub fn from_tables(alloc: Global, tables: &[(&str, &str)]) -> Result<Select, Error>
        ensures ok { IfOk result (λ query. query
            ≡ product (map (λ side. record { table = side.0.now; name = side.1.now }) tables.now) no_clauses) }
        ensures kind { IfErr result (λ kind. kind ≡ OutOfMemory) }
    {
        let mut sides = Vec::with_capacity(alloc, tables.len())?;
        for (table, name) in tables {
            let table = (*table).into_text(alloc)?;
            let name = (*name).into_text(alloc)?;
            sides.push(Side::new(table, name))?;
        }
        let clauses = Clauses::new(alloc);
        let sides = Items::from_vec(sides);
        Ok(Select {
            alloc,
            tree: SelectTree::Product { sides, clauses },
        })
    }

    /// Starts a query for the rows of a table for which a condition holds, with all columns.
    pub(crate) fn of_rows(
        alloc: Global,
        name: &Text,
        condition: Option<&Expr>,
    ) -> Result<Select, Error>
        ensures ok { IfOk result (λ query. query
            ≡ table name.now (record no_clauses { condition = option_copied condition.entry })) }
        ensures kind { IfErr result (λ kind. kind ≡ OutOfMemory) }
    {
        let name = name.clone(alloc)?;
        let clauses = Clauses::of_condition(alloc, copied_condition(alloc, condition)?);
        Ok(Select {
            alloc,
            tree: SelectTree::Table { name, clauses },
        })
    }

    /// Returns a query for the pairs of this query's rows and the other's for which the condition holds, with the
    /// columns of both.
    ///
    /// # Errors
    /// Fails with `OutOfMemory`.
    pub fn inner_join(self, rhs: Select, on: Expr) -> Result<Select, Error>
        ensures ok { IfOk result (λ query. query ≡ join JoinKind.Inner self rhs on no_clauses) }
        ensures kind { IfErr result (λ kind. kind ≡ OutOfMemory) }
    {
        self.joined(JoinKind::Inner, rhs, on)
    }

    /// Returns a query for the same pairs as an inner join, and for each row of this query without a pair, with nulls
    /// for the other's columns.
    ///
    /// # Errors
    /// Fails with `OutOfMemory`.
    pub fn left_join(self, rhs: Select, on: Expr) -> Result<Select, Error>
        ensures ok { IfOk result (λ query. query ≡ join JoinKind.Left self rhs on no_clauses) }
        ensures kind { IfErr result (λ kind. kind ≡ OutOfMemory) }
    {
        self.joined(JoinKind::Left, rhs, on)
    }

    fn joined(self, kind: JoinKind, rhs: Select, on: Expr) -> Result<Select, Error>
        ensures ok { IfOk result (λ query. query ≡ join kind self rhs on no_clauses) }
        ensures kind { IfErr result (λ kind. kind ≡ OutOfMemory) }
    {
        let Select { alloc, tree: left } = self;
        let Select {
            alloc: _,
            tree: right,
        } = rhs;
        let left = Box::new(alloc, left)?;
        let right = Box::new(alloc, right)?;
        let clauses = Clauses::new(alloc);
        Ok(Select {
            alloc,
            tree: SelectTree::Join {
                kind,
                left,
                right,
                on,
                clauses,
            },
        })
    }

    /// Selects these columns, in this order, in place of those that were named before; an empty list selects all.
    ///
    /// # Errors
    /// Fails with `OutOfMemory`.
    pub fn columns(self, names: &[&str]) -> Result<Select, Error>
        ensures ok { IfOk result (λ query. query ≡ projected_query self (map (λ name. name.now) names.now)) }
        ensures kind { IfErr result (λ kind. kind ≡ OutOfMemory) }
    {
        let Select { alloc, tree } = self;
        let columns = copied_list(alloc, names)?;
        let tree = match tree {
            SelectTree::Table { name, clauses } => SelectTree::Table {
                name,
                clauses: clauses.projected(columns),
            },
            SelectTree::Join {
                kind,
                left,
                right,
                on,
                clauses,
            } => SelectTree::Join {
                kind,
                left,
                right,
                on,
                clauses: clauses.projected(columns),
            },
            SelectTree::Product { sides, clauses } => SelectTree::Product {
                sides,
                clauses: clauses.projected(columns),
            },
        };
        Ok(Select { alloc, tree })
    }

    /// Orders the rows by the values of these columns, in place of those that were named before: by the first column,
    /// rows that are equal in it by the second, and so on. Null comes first, then numbers, then texts by their bytes.
    /// Rows that are equal in all of them stay in their order; so do all rows under an empty list. The order is taken
    /// before columns are left out, so it may name columns that aren't selected.
    ///
    /// # Errors
    /// Fails with `OutOfMemory`.
    pub fn order_by(self, names: &[&str]) -> Result<Select, Error>
        ensures ok { IfOk result (λ query. query ≡ ordered_query self (map (λ name. name.now) names.now)) }
        ensures kind { IfErr result (λ kind. kind ≡ OutOfMemory) }
    {
        let Select { alloc, tree } = self;
        let order = copied_list(alloc, names)?;
        let tree = match tree {
            SelectTree::Table { name, clauses } => SelectTree::Table {
                name,
                clauses: clauses.ordered(order),
            },
            SelectTree::Join {
                kind,
                left,
                right,
                on,
                clauses,
            } => SelectTree::Join {
                kind,
                left,
                right,
                on,
                clauses: clauses.ordered(order),
            },
            SelectTree::Product { sides, clauses } => SelectTree::Product {
                sides,
                clauses: clauses.ordered(order),
            },
        };
        Ok(Select { alloc, tree })
    }

    /// Keeps of rows that are equal in the selected columns the first one only.
    pub fn distinct(self) -> Select
        ensures { result ≡ distinct_query self }
    {
        let Select { alloc, tree } = self;
        let tree = match tree {
            SelectTree::Table { name, clauses } => SelectTree::Table {
                name,
                clauses: clauses.distinct(),
            },
            SelectTree::Join {
                kind,
                left,
                right,
                on,
                clauses,
            } => SelectTree::Join {
                kind,
                left,
                right,
                on,
                clauses: clauses.distinct(),
            },
            SelectTree::Product { sides, clauses } => SelectTree::Product {
                sides,
                clauses: clauses.distinct(),
            },
        };
        Select { alloc, tree }
    }

    /// Restricts the query to the rows for which the condition holds too. The condition is evaluated before columns
    /// are left out.
    ///
    /// # Errors
    /// Fails with `OutOfMemory`.
    pub fn with(self, condition: Expr) -> Result<Select, Error>
        ensures ok { IfOk result (λ query. query ≡ narrowed_query self condition) }
        ensures kind { IfErr result (λ kind. kind ≡ OutOfMemory) }
    {
        let Select { alloc, tree } = self;
        let tree = match tree {
            SelectTree::Table { name, clauses } => SelectTree::Table {
                name,
                clauses: clauses.narrowed(alloc, condition)?,
            },
            SelectTree::Join {
                kind,
                left,
                right,
                on,
                clauses,
            } => SelectTree::Join {
                kind,
                left,
                right,
                on,
                clauses: clauses.narrowed(alloc, condition)?,
            },
            SelectTree::Product { sides, clauses } => SelectTree::Product {
                sides,
                clauses: clauses.narrowed(alloc, condition)?,
            },
        };
        Ok(Select { alloc, tree })
    }

    /// Returns a copy of the query.
    ///
    /// # Errors
    /// Fails with `OutOfMemory`.
    pub fn clone(&self, alloc: Global) -> Result<Select, Error>
        ensures ok { IfOk result (λ query. query ≡ self.now) }
        ensures kind { IfErr result (λ kind. kind ≡ OutOfMemory) }
    {
        let tree = copied(alloc, &self.tree)?;
        Ok(Select { alloc, tree })
    }

    pub(crate) fn look_at_texts(&self)
        ensures { IsUtf8Query self.now }
    {
        look_at_tree(&self.tree);
    }

    pub(crate) fn tree(&self) -> &SelectTree
        ensures { query_of result.now ≡ self.now }
    {
        &self.tree
    }
}

impl SelectTree {
    fn bare_name(&self) -> Option<&str>
        ensures { option_copied result ≡ bare_name (query_of self.now) }
    {
        match self {
            SelectTree::Table { name, clauses } if clauses.keep_all() => Some(name.as_str()),
            SelectTree::Table { .. } | SelectTree::Join { .. } | SelectTree::Product { .. } => None,
        }
    }
}

#[cycle(copying)]
fn copied(alloc: Global, tree: &SelectTree) -> Result<SelectTree, Error>
    ensures ok { IfOk result (λ copy. query_of copy ≡ query_of tree.now) }
    ensures kind { IfErr result (λ kind. kind ≡ OutOfMemory) }
{
    Ok(match tree {
        SelectTree::Table { name, clauses } => SelectTree::Table {
            name: name.clone(alloc)?,
            clauses: clauses.clone(alloc)?,
        },
        SelectTree::Join {
            kind,
            left,
            right,
            on,
            clauses,
        } => SelectTree::Join {
            kind: *kind,
            left: copied_in_box(alloc, left)?,
            right: copied_in_box(alloc, right)?,
            on: on.clone(alloc)?,
            clauses: clauses.clone(alloc)?,
        },
        SelectTree::Product { sides, clauses } => SelectTree::Product {
            sides: copied_sides(alloc, sides.as_slice())?,
            clauses: clauses.clone(alloc)?,
        },
    })
}

#[cycle(copying)]
fn copied_in_box(alloc: Global, tree: &SelectTree) -> Result<Box<SelectTree>, Error>
    ensures ok { IfOk result (λ copy. query_of copy.value ≡ query_of tree.now) }
    ensures kind { IfErr result (λ kind. kind ≡ OutOfMemory) }
{
    Ok(Box::new(alloc, copied(alloc, tree)?)?)
}

fn join_words(kind: JoinKind) -> &'static str
    ensures { result.now ≡ join_word kind }
{
    match kind {
        JoinKind::Inner => " INNER JOIN ",
        JoinKind::Left => " LEFT JOIN ",
    }
}

fn write_names<W: fmt::Write>(f: &mut fmt::Formatter<W>, columns: &[Text]) -> fmt::Result
    ensures { DisplaysOnOk W.write_str_gives f.old result (Some (columns_text columns.now)) f.new }
{
    if columns.is_empty() {
        f.write_str("*")
    } else {
        write_name_list(f, columns)
    }
}

fn select_words(clauses: &Clauses) -> &'static str
    ensures { result.now ≡ select_word clauses.now }
{
    if clauses.is_distinct() {
        "SELECT DISTINCT "
    } else {
        "SELECT "
    }
}

fn write_columns<W: fmt::Write>(f: &mut fmt::Formatter<W>, clauses: &Clauses) -> fmt::Result
    ensures { DisplaysOnOk W.write_str_gives f.old result
        (Some (select_word clauses.now ++ columns_text clauses.now.columns ++ codes " FROM ")) f.new }
{
    f.write_str(select_words(clauses))?;
    write_names(f, clauses.columns())?;
    f.write_str(" FROM ")
}

fn write_order<W: fmt::Write>(f: &mut fmt::Formatter<W>, names: &[Text]) -> fmt::Result
    ensures { DisplaysOnOk W.write_str_gives f.old result (Some (order_text names.now)) f.new }
{
    if names.is_empty() {
        return Ok(());
    }
    f.write_str(" ORDER BY ")?;
    write_name_list(f, names)
}

/// Writes what stands behind the place that rows come from.
fn write_rest<W: fmt::Write>(f: &mut fmt::Formatter<W>, clauses: &Clauses) -> fmt::Result
    ensures { DisplaysOnOk W.write_str_gives f.old result
        (where_text clauses.now.condition ++? Some (order_text clauses.now.order)) f.new }
{
    write_condition(f, clauses.condition())?;
    write_order(f, clauses.order())
}

fn write_sides<W: fmt::Write>(f: &mut fmt::Formatter<W>, sides: &[Side]) -> fmt::Result
    ensures { DisplaysOnOk W.write_str_gives f.old result (Some (sides_text sides.now)) f.new }
{
    write_list(f, sides)
}

#[cycle(writing)]
fn write_query<W: fmt::Write>(f: &mut fmt::Formatter<W>, tree: &SelectTree) -> fmt::Result
    ensures { DisplaysOnOk W.write_str_gives f.old result (query_text (query_of tree.now)) f.new }
{
    match tree {
        SelectTree::Table { name, clauses } => {
            write_columns(f, clauses)?;
            write_name(f, name.as_str())?;
            write_rest(f, clauses)
        }
        SelectTree::Join {
            kind,
            left,
            right,
            on,
            clauses,
        } => {
            write_columns(f, clauses)?;
            write_side(f, left)?;
            f.write_str(join_words(*kind))?;
            write_side(f, right)?;
            write!(f, " ON {on}")?;
            write_rest(f, clauses)
        }
        SelectTree::Product { sides, clauses } => {
            write_columns(f, clauses)?;
            write_sides(f, sides.as_slice())?;
            write_rest(f, clauses)
        }
    }
}

/// Writes a side of a join: a table of which all is wanted by its name, all else in brackets.
#[cycle(writing)]
fn write_side<W: fmt::Write>(f: &mut fmt::Formatter<W>, tree: &SelectTree) -> fmt::Result
    ensures { DisplaysOnOk W.write_str_gives f.old result
        (side_text (query_of tree.now) (query_text (query_of tree.now))) f.new }
{
    match tree.bare_name() {
        Some(name) => write_name(f, name),
        None => {
            f.write_str("(")?;
            write_query(f, tree)?;
            f.write_str(")")
        }
    }
}

/// Writes the query as SQL, as `SELECT DISTINCT Foo, Bar FROM Quux WHERE Foo > 42 ORDER BY Bar`. Literal texts past
/// ASCII, and formats with a width or other options, are promised nothing.
impl fmt::Display for Select {
    ghost output = { query_text };

    fn fmt<W: fmt::Write>(&self, f: &mut fmt::Formatter<W>) -> fmt::Result {
        write_query(f, &self.tree)
    }
}
