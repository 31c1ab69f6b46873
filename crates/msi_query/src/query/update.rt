//! Queries that change rows.

ghost use Rattle.std.specs.Prelude.{◌≡◌, ◌++◌, ◌∷◌, [], IfOk, IfErr, None};
ghost use Rattle.std.specs.Fmt.{DisplaysOnOk};
ghost use Rattle.msi_base.specs.declared.errors.ErrorKind.TheVariants.{OutOfMemory};
ghost use Rattle.msi_query.specs.Queries.{narrowed as narrowed_by, no_clauses, table};
ghost use Rattle.msi_query.specs.QueryTexts.{sets_text, update_text};
ghost use Rattle.msi_query.specs.Utf8Queries.{IsUtf8Update};

use super::narrowed;
use super::printing::{write_condition, write_list, write_named};
use super::select::Select;
use super::texts::{look_at_condition, look_at_sets};
use msi_base::errors::Error;
use msi_base::laws::texts_are_utf8;
use msi_base::text::{IntoText, Items, Text};
use msi_query_expressions::Expr;
use msi_query_expressions::parts::Assignment;
use msi_table::Value;
use std::alloc::Global;
use std::fmt;
use std::marker::Model;

/// A query that sets columns in rows of a table. A contract sees the table's name, the columns with their values, and
/// the condition.
pub struct Update {
    alloc: Global,
    table: Text,
    sets: Items<Assignment>,
    condition: Option<Expr>,
}

/// Written out, so that a function that owns one calls one drop, and its proof doesn't go through those of the parts.
impl Drop for Update {
    fn drop(self) {
        let Update {
            alloc: _,
            table: _,
            sets: _,
            condition: _,
        } = self;
    }
}

impl Model for Update {
    ghost use Rattle.std.specs.Coded.{codes};
    ghost use Rattle.msi_query_expressions.specs.ExpressionCode.{expression_code};
    ghost use Rattle.msi_query.specs.Queries.{UpdateQuery};

    ghost Value = { UpdateQuery };

    ghost coded = { Prim.hlevel (codes, expression_code (Prim.hlevel codes)) };

    ghost view = { λ q. record { table = q.table; sets = q.sets; condition = q.condition } };
}

/// What an update is made of: the table's name, the columns with their new values in the order in which they were
/// set, and the condition on the rows to be changed, if any.
#[derive(Drop)]
pub struct UpdateParts {
    pub table: Text,
    pub sets: Items<Assignment>,
    pub condition: Option<Expr>,
}

impl Update {
    /// Starts a query that changes all rows of the table of this name. It sets no column yet.
    ///
    /// # Errors
    /// Fails with `OutOfMemory`.
    pub fn table<S: IntoText>(alloc: Global, name: S) -> Result<Update, Error>
        ensures ok { IfOk result (λ query. query ≡ record { table = S.text name; sets = []; condition = None }) }
        ensures kind { IfErr result (λ kind. kind ≡ OutOfMemory) }
    {
        let table = name.into_text(alloc)?;
        Ok(Update {
            alloc,
            table,
            sets: Items::from_vec(Vec::new(alloc)),
            condition: None,
        })
    }

    /// Sets one more column to a new value. If a column is named more than once, its last value counts.
    ///
    /// # Errors
    /// Fails with `OutOfMemory`.
    pub fn set<S: IntoText>(self, column: S, value: Value) -> Result<Update, Error>
        ensures ok { IfOk result (λ query. query ≡ record self { sets = self.sets ++ ((S.text column, value) ∷ []) }) }
        ensures kind { IfErr result (λ kind. kind ≡ OutOfMemory) }
    {
        let Update {
            alloc,
            table,
            sets,
            condition,
        } = self;
        let column = column.into_text(alloc)?;
        let mut sets = sets.into_vec();
        sets.push(Assignment::new(column, value))?;
        Ok(Update {
            alloc,
            table,
            sets: Items::from_vec(sets),
            condition,
        })
    }

    /// Restricts the query to rows for which the condition holds too.
    ///
    /// # Errors
    /// Fails with `OutOfMemory`.
    pub fn with(self, condition: Expr) -> Result<Update, Error>
        ensures ok { IfOk result (λ query. query ≡ record self { condition = narrowed_by self.condition condition }) }
        ensures kind { IfErr result (λ kind. kind ≡ OutOfMemory) }
    {
        let Update {
            alloc,
            table,
            sets,
            condition: first,
        } = self;
        let both = narrowed(alloc, first, condition)?;
        Ok(Update {
            alloc,
            table,
            sets,
            condition: Some(both),
        })
    }

    pub(crate) fn rows_met(&self) -> Result<Select, Error>
        ensures ok { IfOk result (λ query. query
            ≡ table self.now.table (record no_clauses { condition = self.now.condition })) }
        ensures kind { IfErr result (λ kind. kind ≡ OutOfMemory) }
    {
        Select::of_rows(self.alloc, &self.table, self.condition.as_ref())
    }

    pub(crate) fn look_at_texts(&self)
        ensures { IsUtf8Update self.now }
    {
        texts_are_utf8(&self.table);
        look_at_sets(self.sets.as_slice());
        look_at_condition(self.condition.as_ref());
    }

    pub(crate) fn into_parts(self) -> UpdateParts
        ensures table { result.table ≡ self.table }
        ensures sets { result.sets ≡ self.sets }
        ensures condition { result.condition ≡ self.condition }
    {
        let Update {
            alloc: _,
            table,
            sets,
            condition,
        } = self;
        UpdateParts {
            table,
            sets,
            condition,
        }
    }
}

fn write_sets<W: fmt::Write>(f: &mut fmt::Formatter<W>, sets: &[Assignment]) -> fmt::Result
    ensures { DisplaysOnOk W.write_str_gives f.old result (sets_text sets.now) f.new }
{
    if sets.is_empty() {
        return Ok(());
    }
    f.write_str(" SET ")?;
    write_list(f, sets)
}

/// Writes the query as SQL, as `UPDATE Quux SET Foo = 1 WHERE Bar > 42`. Literal texts past ASCII, and formats with a
/// width or other options, are promised nothing.
impl fmt::Display for Update {
    ghost output = { update_text };

    fn fmt<W: fmt::Write>(&self, f: &mut fmt::Formatter<W>) -> fmt::Result {
        write_named(f, "UPDATE ", &self.table)?;
        write_sets(f, self.sets.as_slice())?;
        write_condition(f, self.condition.as_ref())
    }
}
