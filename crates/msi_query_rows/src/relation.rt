//! The result of a query: a relation.

ghost use Rattle.std.specs.Prelude.{◌≡◌, IfOk};
ghost use Rattle.msi_base.specs.Results.{OnlyMemory};
ghost use Rattle.msi_table.specs.Rows.{AreAsWide, rows_from};

use msi_base::errors::Error;
use msi_base::text::{Items, Text};
use msi_pool::stringpool::StringPool;
use msi_table::parts;
use msi_table::row::Rows;
use msi_table_cells::cell::ValueRef;
use msi_table_values::column::Column;
use std::alloc::Global;
use std::marker::Model;

/// A name, columns, and rows of cells, whose texts are in a pool. Contracts see the cells.
pub(crate) struct Relation {
    name: Text,
    columns: Items<Column>,
    rows: Vec<Items<ValueRef>>,
}

/// Written out, so that a function that owns one calls one drop, and its proof doesn't go through those of the parts.
impl Drop for Relation {
    fn drop(self) {
        let Relation {
            name: _,
            columns: _,
            rows: _,
        } = self;
    }
}

impl Model for Relation {
    ghost use Rattle.msi_query.specs.Rows.{RelationCells};

    ghost Value = { RelationCells };

    ghost view = { λ r. record { name = r.name; columns = r.columns; rows = r.rows.items } };
}

impl Relation {
    /// The name is empty unless the relation is a whole table.
    pub(crate) fn new(name: Text, columns: Items<Column>, rows: Vec<Items<ValueRef>>) -> Relation
        ensures { result ≡ record { name = name; columns = columns; rows = rows.items } }
    {
        Relation {
            name,
            columns,
            rows,
        }
    }

    /// Returns the relation with another name.
    pub(crate) fn under(self, name: Text) -> Relation
        ensures { result ≡ record self { name = name } }
    {
        let Relation {
            name: _before,
            columns,
            rows,
        } = self;
        Relation {
            name,
            columns,
            rows,
        }
    }

    pub(crate) fn name(&self) -> &str
        ensures { result.now ≡ self.now.name }
    {
        self.name.as_str()
    }

    pub(crate) fn columns(&self) -> &[Column]
        ensures { result.now ≡ self.now.columns }
    {
        self.columns.as_slice()
    }

    pub(crate) fn rows(&self) -> &[Items<ValueRef>]
        ensures { result.now ≡ self.now.rows }
    {
        self.rows.as_slice()
    }

    pub(crate) fn into_parts(self) -> (Text, Items<Column>, Vec<Items<ValueRef>>)
        ensures name { result.0 ≡ self.name }
        ensures columns { result.1 ≡ self.columns }
        ensures rows { result.2.items ≡ self.rows }
    {
        let Relation {
            name,
            columns,
            rows,
        } = self;
        (name, columns, rows)
    }

    pub(crate) fn into_rows<'a>(
        self,
        alloc: Global,
        pool: &'a StringPool,
    ) -> Result<Rows<'a>, Error>
        requires { AreAsWide self.columns self.rows }
        ensures ok { IfOk result (λ rows. rows ≡ rows_from self.columns pool.now.places self.rows) }
        ensures kind { OnlyMemory result }
    {
        let Relation {
            name: _name,
            columns,
            rows,
        } = self;
        parts::rows(alloc, pool, columns, rows)
    }
}
