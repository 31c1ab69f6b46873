//! Tables.

ghost use Rattle.std.specs.Prelude.{◌≡◌, ◌≤◌, IfOk, length, option_copied};
ghost use Rattle.msi_base.specs.Results.{OnlyMemory};
ghost use Rattle.msi_table_values.specs.Columns.{column_named, has_column as has_one, key_places, most_columns};
ghost use Rattle.msi_table.specs.Tables.{long_table_of, table_of};

use msi_base::errors::Error;
use msi_base::text::{Items, Text};
use msi_table_values::column::Column;
use msi_table_values::parts::{column_index, copied_columns, has_column};
use std::alloc::Global;
use std::marker::Model;

/// The most columns of a table: their numbers are stored in 16 bits.
pub const MAX_COLUMNS: usize = 32_767;

/// A table's name and columns, and whether its references to texts are long.
pub struct Table {
    name: Text,
    columns: Items<Column>,
    long: bool,
}

/// Written out, so that a function that owns one calls one drop, and its proof doesn't go through those of the parts.
impl Drop for Table {
    fn drop(self) {
        let Table {
            name: _,
            columns: _,
            long: _,
        } = self;
    }
}

impl Model for Table {
    ghost use Rattle.std.specs.Prelude.{◌≤◌, length};
    ghost use Rattle.msi_table.specs.Tables.{TableDef};
    ghost use Rattle.msi_table_values.specs.Columns.{most_columns};

    ghost Value = { TableDef };

    ghost view = { λ t. record { name = t.name; columns = t.columns; long = t.long } };

    ghost invariant = { λ t. length t.columns ≤ most_columns };
}

impl Table {
    /// Returns None where there are too many columns.
    pub(crate) fn of_parts(name: Text, columns: Items<Column>, long: bool) -> Option<Table>
        ensures { result ≡ table_of name columns long }
    {
        if columns.len() > MAX_COLUMNS {
            return None;
        }
        Some(Table {
            name,
            columns,
            long,
        })
    }

    /// Returns the table's name.
    pub fn name(&self) -> &str
        ensures { result.now ≡ self.now.name }
    {
        self.name.as_str()
    }

    /// Returns the table's columns, in order.
    pub fn columns(&self) -> &[Column]
        ensures columns { result.now ≡ self.now.columns }
        ensures few { length self.now.columns ≤ most_columns }
    {
        self.columns.as_slice()
    }

    /// Whether references to texts take three bytes in place of two.
    pub(crate) fn is_long(&self) -> bool
        ensures { result ≡ self.now.long }
    {
        self.long
    }

    /// Returns whether the table has a column of this name.
    pub fn has_column(&self, name: &str) -> bool
        ensures { result ≡ has_one name.now self.now.columns }
    {
        has_column(self.columns(), name)
    }

    /// Returns the column of this name, if there is one; of a repeated name the first.
    pub fn get_column(&self, name: &str) -> Option<&Column>
        ensures { option_copied result ≡ column_named name.now self.now.columns }
    {
        let columns = self.columns();
        match column_index(columns, name) {
            Some(index) => columns.get(index),
            None => None,
        }
    }

    /// Returns the indices of the key columns, from 0 on.
    ///
    /// # Errors
    /// Fails with `OutOfMemory`.
    pub fn primary_key_indices(&self, alloc: Global) -> Result<Vec<usize>, Error>
        ensures ok { IfOk result (λ places. places.items ≡ key_places self.now.columns) }
        ensures kind { OnlyMemory result }
    {
        let columns = self.columns.as_slice();
        let mut places = Vec::new(alloc);
        for i in 0..columns.len() {
            if columns[i].is_primary_key() {
                places.push(i)?;
            }
        }
        Ok(places)
    }

    /// Returns a copy of the table.
    ///
    /// # Errors
    /// Fails with `OutOfMemory`.
    pub fn clone(&self, alloc: Global) -> Result<Table, Error>
        ensures ok { IfOk result (λ table. table ≡ self.now) }
        ensures kind { OnlyMemory result }
    {
        Ok(Table {
            name: self.name.clone(alloc)?,
            columns: copied_columns(alloc, self.columns.as_slice())?,
            long: self.long,
        })
    }

    pub(crate) fn with_long_references(&self, alloc: Global) -> Result<Table, Error>
        ensures ok { IfOk result (λ table. table ≡ long_table_of self.now) }
        ensures kind { OnlyMemory result }
    {
        Ok(Table {
            name: self.name.clone(alloc)?,
            columns: copied_columns(alloc, self.columns.as_slice())?,
            long: true,
        })
    }
}
