//! The clauses of a query for rows: its columns, its condition, its order, and whether its rows are distinct.

ghost use Rattle.std.specs.Prelude.{◌≡◌, IfOk, IfErr, None, map, option_copied, option_map, true};
ghost use Rattle.msi_base.specs.declared.errors.ErrorKind.TheVariants.{OutOfMemory};
ghost use Rattle.msi_query.specs.Queries.{narrowed as narrowed_by, no_clauses};
ghost use Rattle.msi_query.specs.QueryTexts.{keep_all as leave_rows};
ghost use Rattle.msi_query_expressions.specs.Meaning.{meant, renamed};
ghost use Rattle.msi_query.specs.Selection.{meant_clauses};

use super::narrowed;
use msi_base::errors::Error;
use msi_base::text::{IntoText, Items, Text};
use msi_query_expressions::Expr;
use msi_query_expressions::meaning::{Scope, meant_name};
use std::alloc::Global;
use std::marker::Model;

/// The columns that are selected, where an empty list selects all, the condition on rows, if any, the columns by which
/// the rows are ordered, where an empty list leaves them in their order, and whether equal rows are returned once. The
/// condition and the order are evaluated before columns are left out, and rows are compared for equality after that.
pub struct Clauses {
    columns: Items<Text>,
    condition: Option<Expr>,
    order: Items<Text>,
    is_distinct: bool,
}

/// Written out, so that a function that owns them calls one drop, and its proof doesn't go through those of the parts.
impl Drop for Clauses {
    fn drop(self) {
        let Clauses {
            columns: _,
            condition: _,
            order: _,
            is_distinct: _,
        } = self;
    }
}

impl Model for Clauses {
    ghost use Rattle.std.specs.Coded.{codes};
    ghost use Rattle.msi_query_expressions.specs.ExpressionCode.{expression_code};
    ghost use Rattle.msi_query.specs.Queries.{Clauses as Kept};

    ghost Value = { Kept };

    ghost coded = { Prim.hlevel (codes, expression_code (Prim.hlevel codes)) };

    ghost view = { λ c. record {
      columns = c.columns;
      condition = c.condition;
      order = c.order;
      is_distinct = c.is_distinct;
    } };
}

impl Clauses {
    /// Selects all columns of all rows, in their order.
    pub(crate) fn new(alloc: Global) -> Clauses
        ensures { result ≡ no_clauses }
    {
        Clauses::of_condition(alloc, None)
    }

    /// Selects all columns of the rows that meet a condition, if there is one.
    pub(crate) fn of_condition(alloc: Global, condition: Option<Expr>) -> Clauses
        ensures { result ≡ record no_clauses { condition = condition } }
    {
        Clauses {
            columns: Items::from_vec(Vec::new(alloc)),
            condition,
            order: Items::from_vec(Vec::new(alloc)),
            is_distinct: false,
        }
    }

    /// Returns the columns that are selected; if there is none, all are.
    pub fn columns(&self) -> &[Text]
        ensures { result.now ≡ self.now.columns }
    {
        self.columns.as_slice()
    }

    /// Returns the condition on rows.
    pub fn condition(&self) -> Option<&Expr>
        ensures { option_copied result ≡ self.now.condition }
    {
        self.condition.as_ref()
    }

    /// Returns the columns by which the rows are ordered, the first of them foremost; if there is none, the rows stay
    /// in their order.
    pub fn order(&self) -> &[Text]
        ensures { result.now ≡ self.now.order }
    {
        self.order.as_slice()
    }

    /// Returns whether of rows that are equal in the selected columns only the first is returned.
    pub fn is_distinct(&self) -> bool
        ensures { result ≡ self.now.is_distinct }
    {
        self.is_distinct
    }

    pub(crate) fn clone(&self, alloc: Global) -> Result<Clauses, Error>
        ensures ok { IfOk result (λ clauses. clauses ≡ self.now) }
        ensures kind { IfErr result (λ kind. kind ≡ OutOfMemory) }
    {
        let columns = copied_names(alloc, self.columns())?;
        let condition = copied_condition(alloc, self.condition())?;
        let order = copied_names(alloc, self.order())?;
        Ok(Clauses {
            columns,
            condition,
            order,
            is_distinct: self.is_distinct,
        })
    }

    /// Returns a copy with the names of the columns that the names mean in a relation.
    ///
    /// # Errors
    /// Fails with `OutOfMemory`.
    pub fn with_meant_names(&self, alloc: Global, scope: Scope<'_>) -> Result<Clauses, Error>
        ensures ok { IfOk result (λ clauses. clauses
            ≡ meant_clauses scope.entry.table.now scope.entry.columns.now self.now) }
        ensures kind { IfErr result (λ kind. kind ≡ OutOfMemory) }
    {
        let columns = meant_names(alloc, scope, self.columns())?;
        let condition = meant_condition(alloc, scope, self.condition())?;
        let order = meant_names(alloc, scope, self.order())?;
        Ok(Clauses {
            columns,
            condition,
            order,
            is_distinct: self.is_distinct,
        })
    }

    /// Returns the condition, moved out, and the clauses without one.
    pub fn split_condition(self) -> (Option<Expr>, Clauses)
        ensures condition { result.0 ≡ self.condition }
        ensures others { result.1 ≡ record self { condition = None } }
    {
        let Clauses {
            columns,
            condition,
            order,
            is_distinct,
        } = self;
        let others = Clauses {
            columns,
            condition: None,
            order,
            is_distinct,
        };
        (condition, others)
    }

    pub(crate) fn keep_all(&self) -> bool
        ensures { result ≡ leave_rows self.now }
    {
        self.columns.is_empty()
            && self.condition.is_none()
            && self.order.is_empty()
            && !self.is_distinct
    }

    pub(crate) fn projected(self, columns: Items<Text>) -> Clauses
        ensures { result ≡ record self { columns = columns } }
    {
        let Clauses {
            columns: _before,
            condition,
            order,
            is_distinct,
        } = self;
        Clauses {
            columns,
            condition,
            order,
            is_distinct,
        }
    }

    pub(crate) fn ordered(self, order: Items<Text>) -> Clauses
        ensures { result ≡ record self { order = order } }
    {
        let Clauses {
            columns,
            condition,
            order: _before,
            is_distinct,
        } = self;
        Clauses {
            columns,
            condition,
            order,
            is_distinct,
        }
    }

    pub(crate) fn distinct(self) -> Clauses
        ensures { result ≡ record self { is_distinct = true } }
    {
        let Clauses {
            columns,
            condition,
            order,
            is_distinct: _,
        } = self;
        Clauses {
            columns,
            condition,
            order,
            is_distinct: true,
        }
    }

    pub(crate) fn narrowed(self, alloc: Global, condition: Expr) -> Result<Clauses, Error>
        ensures ok { IfOk result (λ clauses. clauses
            ≡ record self { condition = narrowed_by self.condition condition }) }
        ensures kind { IfErr result (λ kind. kind ≡ OutOfMemory) }
    {
        let Clauses {
            columns,
            condition: first,
            order,
            is_distinct,
        } = self;
        let both = narrowed(alloc, first, condition)?;
        Ok(Clauses {
            columns,
            condition: Some(both),
            order,
            is_distinct,
        })
    }
}

fn copied_names(alloc: Global, names: &[Text]) -> Result<Items<Text>, Error>
    ensures ok { IfOk result (λ copies. copies ≡ names.now) }
    ensures kind { IfErr result (λ kind. kind ≡ OutOfMemory) }
{
    let mut copies = Vec::with_capacity(alloc, names.len())?;
    for name in names {
        copies.push(name.clone(alloc)?)?;
    }
    Ok(Items::from_vec(copies))
}

pub(crate) fn copied_condition(
    alloc: Global,
    condition: Option<&Expr>,
) -> Result<Option<Expr>, Error>
    ensures ok { IfOk result (λ copy. copy ≡ option_copied condition.entry) }
    ensures kind { IfErr result (λ kind. kind ≡ OutOfMemory) }
{
    match condition {
        Some(condition) => Ok(Some(condition.clone(alloc)?)),
        None => Ok(None),
    }
}

fn meant_names(alloc: Global, scope: Scope<'_>, names: &[Text]) -> Result<Items<Text>, Error>
    ensures ok { IfOk result (λ copies. copies
        ≡ map (meant scope.entry.table.now scope.entry.columns.now) names.now) }
    ensures kind { IfErr result (λ kind. kind ≡ OutOfMemory) }
{
    let mut copies = Vec::with_capacity(alloc, names.len())?;
    for name in names {
        copies.push(meant_name(scope, name.as_str()).into_text(alloc)?)?;
    }
    Ok(Items::from_vec(copies))
}

fn meant_condition(
    alloc: Global,
    scope: Scope<'_>,
    condition: Option<&Expr>,
) -> Result<Option<Expr>, Error>
    ensures ok { IfOk result (λ copy. copy
        ≡ option_map (renamed (meant scope.entry.table.now scope.entry.columns.now)) (option_copied condition.entry)) }
    ensures kind { IfErr result (λ kind. kind ≡ OutOfMemory) }
{
    match condition {
        Some(condition) => Ok(Some(condition.with_meant_names(alloc, scope)?)),
        None => Ok(None),
    }
}
