//! A row: values, each in its column.

ghost use Rattle.std.specs.Prelude.{◌≡◌, ◌<◌, ◌==◌, IsTrue, IfOk, Some, is_some, length, slice_get, option_copied};
ghost use Rattle.msi_base.specs.Results.{OnlyMemory};
ghost use Rattle.msi_table_values.specs.Columns.{has_column as has_one};
ghost use Rattle.msi_table_values.specs.Row.{value_named};

use crate::column::Column;
use crate::parts::{column_index, has_column};
use crate::value::Value;
use msi_base::errors::Error;
use msi_base::text::Items;
use std::alloc::Global;
use std::marker::Model;
use std::ops::Index;
use std::rc::Rc;

/// A row: a value for each column.
pub struct Row {
    columns: Rc<Items<Column>>,
    values: Items<Value>,
}

/// Written out, so that a function that owns one calls one drop, and its proof doesn't go through those of the parts.
impl Drop for Row {
    fn drop(self) {
        let Row {
            columns: _,
            values: _,
        } = self;
    }
}

impl Model for Row {
    ghost use Rattle.std.specs.Prelude.{◌≡◌, length};
    ghost use Rattle.msi_table_values.specs.Row.{RowDef};

    ghost Value = { RowDef };

    ghost view = { λ r. record { columns = r.columns.value; values = r.values } };

    ghost invariant = { λ r. length r.values ≡ length r.columns.value };
}

impl Row {
    pub(crate) fn new(columns: Rc<Items<Column>>, values: Items<Value>) -> Row
        requires { length values ≡ length columns.value }
        ensures { result ≡ record { columns = columns.value; values = values } }
    {
        Row { columns, values }
    }

    /// Returns how many values the row has.
    pub fn len(&self) -> usize
        ensures { result ≡ length self.now.values }
    {
        self.values.as_slice().len()
    }

    /// Returns whether the row has no value.
    pub fn is_empty(&self) -> bool
        ensures { result ≡ (length self.now.values == 0) }
    {
        self.len() == 0
    }

    /// Returns the columns of the row's values.
    pub fn columns(&self) -> &[Column]
        ensures columns { result.now ≡ self.now.columns }
        ensures len { length self.now.columns ≡ length self.now.values }
    {
        self.columns.as_slice()
    }

    pub(crate) fn values(&self) -> &[Value]
        ensures { result.now ≡ self.now.values }
    {
        self.values.as_slice()
    }

    /// Returns a copy of the row.
    ///
    /// # Errors
    /// Fails with `OutOfMemory`.
    pub fn clone(&self, alloc: Global) -> Result<Row, Error>
        ensures ok { IfOk result (λ row. row ≡ self.now) }
        ensures kind { OnlyMemory result }
    {
        let values = copied_values(alloc, self.values.as_slice())?;
        Ok(Row {
            columns: self.columns.clone()?,
            values,
        })
    }

    /// Returns whether the row has a column of this name.
    pub fn has_column(&self, name: &str) -> bool
        ensures { result ≡ has_one name.now self.now.columns }
    {
        has_column(self.columns(), name)
    }

    /// Returns the value of the column of a name; of a repeated name the first.
    pub(crate) fn value_named(&self, name: &str) -> Option<&Value>
        ensures value { option_copied result ≡ value_named name.now self.now }
        ensures found { is_some result ≡ has_one name.now self.now.columns }
    {
        match column_index(self.columns.as_slice(), name) {
            Some(index) => self.values.as_slice().get(index),
            None => None,
        }
    }
}

/// The value of the column at a place, from 0 on, which has to be below `len`.
impl Index<usize> for Row {
    type Output = Value;

    ghost can_index = { λ row index. index < length row.values };

    ghost index_gives = { λ row index value. slice_get row.values index ≡ Some value };

    fn index(&self, index: usize) -> &Value {
        &self.values.as_slice()[index]
    }
}

/// The value of the column of a name, which has to be there (`has_column`); of a repeated name the first.
impl<'a> Index<&'a str> for Row {
    type Output = Value;

    ghost can_index = { λ row name. IsTrue (has_one name.now row.columns) };

    ghost index_gives = { λ row name value. value_named name.now row ≡ Some value };

    fn index(&self, name: &'a str) -> &Value {
        match self.value_named(name) {
            Some(value) => value,
            None => unreachable!(),
        }
    }
}

fn copied_values(alloc: Global, values: &[Value]) -> Result<Items<Value>, Error>
    ensures ok { IfOk result (λ copies. copies ≡ values.now) }
    ensures kind { OnlyMemory result }
{
    let mut copies = Vec::with_capacity(alloc, values.len())?;
    for value in values {
        copies.push(value.clone(alloc)?)?;
    }
    Ok(Items::from_vec(copies))
}
