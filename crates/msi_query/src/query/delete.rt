//! Queries that take rows out.

ghost use Rattle.std.specs.Prelude.{◌≡◌, IfOk, IfErr, None};
ghost use Rattle.msi_base.specs.declared.errors.ErrorKind.TheVariants.{OutOfMemory};
ghost use Rattle.msi_query.specs.Queries.{narrowed as narrowed_by, no_clauses, table};
ghost use Rattle.msi_query.specs.QueryTexts.{delete_text};
ghost use Rattle.msi_query.specs.Utf8Queries.{IsUtf8Delete};

use super::narrowed;
use super::printing::{write_condition, write_named};
use super::select::Select;
use super::texts::look_at_condition;
use msi_base::errors::Error;
use msi_base::laws::texts_are_utf8;
use msi_base::text::{IntoText, Text};
use msi_query_expressions::Expr;
use std::alloc::Global;
use std::fmt;
use std::marker::Model;

/// A query that deletes rows of a table. A contract sees the table's name and the condition.
pub struct Delete {
    alloc: Global,
    table: Text,
    condition: Option<Expr>,
}

/// Written out, so that a function that owns one calls one drop, and its proof doesn't go through those of the parts.
impl Drop for Delete {
    fn drop(self) {
        let Delete {
            alloc: _,
            table: _,
            condition: _,
        } = self;
    }
}

impl Model for Delete {
    ghost use Rattle.std.specs.Coded.{codes};
    ghost use Rattle.msi_query_expressions.specs.ExpressionCode.{expression_code};
    ghost use Rattle.msi_query.specs.Queries.{DeleteQuery};

    ghost Value = { DeleteQuery };

    ghost coded = { Prim.hlevel (codes, expression_code (Prim.hlevel codes)) };

    ghost view = { λ q. record { table = q.table; condition = q.condition } };
}

/// What a delete is made of: the table's name, and the condition on the rows to be taken out, if any.
#[derive(Drop)]
pub struct DeleteParts {
    pub table: Text,
    pub condition: Option<Expr>,
}

impl Delete {
    /// Starts a query that deletes all rows of the table of this name.
    ///
    /// # Errors
    /// Fails with `OutOfMemory`.
    pub fn from<S: IntoText>(alloc: Global, table: S) -> Result<Delete, Error>
        ensures ok { IfOk result (λ query. query ≡ record { table = S.text table; condition = None }) }
        ensures kind { IfErr result (λ kind. kind ≡ OutOfMemory) }
    {
        let table = table.into_text(alloc)?;
        Ok(Delete {
            alloc,
            table,
            condition: None,
        })
    }

    /// Restricts the query to rows for which the condition holds too.
    ///
    /// # Errors
    /// Fails with `OutOfMemory`.
    pub fn with(self, condition: Expr) -> Result<Delete, Error>
        ensures ok { IfOk result (λ query. query ≡ record self { condition = narrowed_by self.condition condition }) }
        ensures kind { IfErr result (λ kind. kind ≡ OutOfMemory) }
    {
        let Delete {
            alloc,
            table,
            condition: first,
        } = self;
        let both = narrowed(alloc, first, condition)?;
        Ok(Delete {
            alloc,
            table,
            condition: Some(both),
        })
    }

    pub(crate) fn rows_met(&self) -> Result<Select, Error>
        ensures ok { IfOk result (λ query. query
            ≡ table self.now.table (record no_clauses { condition = self.now.condition })) }
        ensures kind { IfErr result (λ kind. kind ≡ OutOfMemory) }
    {
        Select::of_rows(self.alloc, &self.table, self.condition.as_ref())
    }

    pub(crate) fn look_at_texts(&self)
        ensures { IsUtf8Delete self.now }
    {
        texts_are_utf8(&self.table);
        look_at_condition(self.condition.as_ref());
    }

    pub(crate) fn into_parts(self) -> DeleteParts
        ensures table { result.table ≡ self.table }
        ensures condition { result.condition ≡ self.condition }
    {
        let Delete {
            alloc: _,
            table,
            condition,
        } = self;
        DeleteParts { table, condition }
    }
}

/// Writes the query as SQL, as `DELETE FROM Quux WHERE Foo > 42`. Literal texts past ASCII, and formats with a width
/// or other options, are promised nothing.
impl fmt::Display for Delete {
    ghost output = { delete_text };

    fn fmt<W: fmt::Write>(&self, f: &mut fmt::Formatter<W>) -> fmt::Result {
        write_named(f, "DELETE FROM ", &self.table)?;
        write_condition(f, self.condition.as_ref())
    }
}
