//! Queries that add rows.

ghost use Rattle.std.specs.Prelude.{◌≡◌, ◌++◌, ◌∷◌, [], IfOk, IfErr, OnOk, Some, length, map};
ghost use Rattle.std.specs.Fmt.{DisplaysOnOk};
ghost use Rattle.msi_base.specs.declared.errors.ErrorKind.TheVariants.{OutOfMemory};
ghost use Rattle.msi_query.specs.QueryTexts.{insert_text, named_columns_text, row_text, rows_text};
ghost use Rattle.msi_query.specs.Utf8Queries.{IsUtf8Insert};

use super::printing::{write_list, write_name_list, write_named};
use super::texts::look_at_rows;
use msi_base::errors::Error;
use msi_base::laws::texts_are_utf8;
use msi_base::text::{IntoText, Items, Text};
use msi_table::Value;
use msi_table::laws::listed_texts_are_utf8;
use msi_table::parts::copied_list;
use std::alloc::Global;
use std::fmt;
use std::marker::Model;

/// The values of a row to be added. A contract sees their list.
#[derive(Drop)]
pub struct NewRow {
    values: Vec<Value>,
}

impl Model for NewRow {
    ghost use Rattle.std.specs.Prelude.{List};
    ghost use Rattle.msi_table.specs.Value.{Value as ValueOf};

    ghost Value = { List ValueOf };

    ghost view = { λ r. r.values.items };
}

impl NewRow {
    /// Returns the values, in order.
    pub fn values(&self) -> &[Value]
        ensures { result.now ≡ self.now }
    {
        self.values.as_slice()
    }

    /// Returns the values, moved out.
    pub fn into_values(self) -> Vec<Value>
        ensures { result.items ≡ self }
    {
        let NewRow { values } = self;
        values
    }
}

impl fmt::Display for NewRow {
    ghost output = { row_text };

    fn fmt<W: fmt::Write>(&self, f: &mut fmt::Formatter<W>) -> fmt::Result {
        f.write_str("(")?;
        write_list(f, self.values.as_slice())?;
        f.write_str(")")
    }
}

/// A query that inserts rows into a table. A contract sees the names of the table and of the columns that the values
/// are of, and the lists of values.
pub struct Insert {
    alloc: Global,
    table: Text,
    columns: Items<Text>,
    rows: Items<NewRow>,
}

/// Written out, so that a function that owns one calls one drop, and its proof doesn't go through those of the parts.
impl Drop for Insert {
    fn drop(self) {
        let Insert {
            alloc: _,
            table: _,
            columns: _,
            rows: _,
        } = self;
    }
}

impl Model for Insert {
    ghost use Rattle.msi_query.specs.Queries.{InsertQuery};

    ghost Value = { InsertQuery };

    ghost view = { λ q. record { table = q.table; columns = q.columns; rows = q.rows } };
}

/// What an insert is made of: the table's name, the columns that the values are of, where none stands for all in their
/// order, and the rows to be added, in order.
#[derive(Drop)]
pub struct InsertParts {
    pub table: Text,
    pub columns: Items<Text>,
    pub rows: Items<NewRow>,
}

impl Insert {
    /// Starts a query that inserts rows into the table of this name, with a value for each of its columns. It has no
    /// row yet.
    ///
    /// # Errors
    /// Fails with `OutOfMemory`.
    pub fn into<S: IntoText>(alloc: Global, table: S) -> Result<Insert, Error>
        ensures ok { IfOk result (λ query. query
            ≡ record { table = S.text table; columns = []; rows = [] }) }
        ensures kind { IfErr result (λ kind. kind ≡ OutOfMemory) }
    {
        let table = table.into_text(alloc)?;
        Ok(Insert {
            alloc,
            table,
            columns: Items::from_vec(Vec::new(alloc)),
            rows: Items::from_vec(Vec::new(alloc)),
        })
    }

    /// Names the columns that the values of each row are of, in place of those that were named before. Columns that
    /// aren't named get null. An empty list stands for all columns in their order.
    ///
    /// # Errors
    /// Fails with `OutOfMemory`.
    pub fn columns(self, names: &[&str]) -> Result<Insert, Error>
        ensures ok { IfOk result (λ query. query ≡ record self { columns = map (λ name. name.now) names.now }) }
        ensures kind { IfErr result (λ kind. kind ≡ OutOfMemory) }
    {
        let Insert {
            alloc,
            table,
            columns: _before,
            rows,
        } = self;
        let columns = copied_list(alloc, names)?;
        Ok(Insert {
            alloc,
            table,
            columns,
            rows,
        })
    }

    /// Adds a row.
    ///
    /// # Errors
    /// Fails with `OutOfMemory`.
    pub fn row(self, values: Vec<Value>) -> Result<Insert, Error>
        ensures ok { IfOk result (λ query. query ≡ record self { rows = self.rows ++ (values.items ∷ []) }) }
        ensures kind { IfErr result (λ kind. kind ≡ OutOfMemory) }
    {
        let Insert {
            alloc,
            table,
            columns,
            rows,
        } = self;
        let mut rows = rows.into_vec();
        rows.push(NewRow { values })?;
        Ok(Insert {
            alloc,
            table,
            columns,
            rows: Items::from_vec(rows),
        })
    }

    /// Adds rows, in order.
    ///
    /// # Errors
    /// Fails with `OutOfMemory`.
    pub fn rows(self, rows: Vec<Vec<Value>>) -> Result<Insert, Error>
        ensures ok { IfOk result (λ query. query
            ≡ record self { rows = self.rows ++ map (λ row. row.items) rows.items }) }
        ensures kind { IfErr result (λ kind. kind ≡ OutOfMemory) }
    {
        let Insert {
            alloc,
            table,
            columns,
            rows: before,
        } = self;
        let mut all = before.into_vec();
        for values in rows {
            all.push(NewRow { values })?;
        }
        Ok(Insert {
            alloc,
            table,
            columns,
            rows: Items::from_vec(all),
        })
    }

    pub(crate) fn row_count(&self) -> usize
        ensures { result ≡ length self.now.rows }
    {
        self.rows.len()
    }

    pub(crate) fn look_at_texts(&self)
        ensures { IsUtf8Insert self.now }
    {
        texts_are_utf8(&self.table);
        listed_texts_are_utf8(self.columns.as_slice());
        look_at_rows(self.rows.as_slice());
    }

    pub(crate) fn into_parts(self) -> InsertParts
        ensures table { result.table ≡ self.table }
        ensures columns { result.columns ≡ self.columns }
        ensures rows { result.rows ≡ self.rows }
    {
        let Insert {
            alloc: _,
            table,
            columns,
            rows,
        } = self;
        InsertParts {
            table,
            columns,
            rows,
        }
    }
}

fn write_columns<W: fmt::Write>(f: &mut fmt::Formatter<W>, columns: &[Text]) -> fmt::Result
    ensures { DisplaysOnOk W.write_str_gives f.old result (Some (named_columns_text columns.now)) f.new }
{
    if columns.is_empty() {
        return Ok(());
    }
    f.write_str(" (")?;
    write_name_list(f, columns)?;
    f.write_str(")")
}

fn write_rows<W: fmt::Write>(f: &mut fmt::Formatter<W>, rows: &[NewRow]) -> fmt::Result
    ensures { DisplaysOnOk W.write_str_gives f.old result (rows_text rows.now) f.new }
{
    if rows.is_empty() {
        return Ok(());
    }
    f.write_str(" VALUES ")?;
    write_list(f, rows)
}

/// Writes the query as SQL, as `INSERT INTO Quux VALUES (1, "a"), (NULL, "b")`, or with its columns as
/// `INSERT INTO Quux (Foo, Bar) VALUES (1, "a")`. Literal texts past ASCII, and formats with a width or other options,
/// are promised nothing.
impl fmt::Display for Insert {
    ghost output = { insert_text };

    fn fmt<W: fmt::Write>(&self, f: &mut fmt::Formatter<W>) -> fmt::Result {
        write_named(f, "INSERT INTO ", &self.table)?;
        write_columns(f, self.columns.as_slice())?;
        write_rows(f, self.rows.as_slice())
    }
}
