//! The pool during a change: cells take texts from it and give them back.

ghost use Rattle.std.specs.Prelude.{◌≡◌, false, Some, IfOk, IfErr, OnOk, length, true, unwrap_or};
ghost use Rattle.std.specs.List.{fold};
ghost use Rattle.msi_pool.specs.FirstFit.{given_back};
ghost use Rattle.msi_base.specs.Results.{OnlyMemory};
ghost use Rattle.msi_base.specs.declared.errors.ErrorKind.TheVariants.{InvalidInput};
ghost use Rattle.msi_base.specs.Refusals.{IsRefusal, or_refused};
ghost use Rattle.msi_table_values.specs.Refusals.{FailsWith};
ghost use Rattle.msi_database_changes.specs.Texts.{cell_put, cell_released, in_turn, in_use, rows_put, rows_released};
ghost use Rattle.msi_database_changes.specs.Texts.{settled, widens};

use msi_base::errors::{Error, ErrorKind};
use msi_base::text::Items;
use msi_pool::parts::{incref_widening, most_places};
use msi_pool::stringpool::{StringPool, StringRef};
use msi_table_cells::cell::ValueRef;
use msi_table_values::value::Value;
use std::alloc::Global;
use std::marker::Model;

/// The string pool during a change, and whether the change took a text from it or gave one back. It is a clone of the
/// pool that the change began with, so a call that fails may leave it in any state. Its references widen where a text
/// needs a place past 65535; contracts see the width that the change began with until the pool is moved out.
#[derive(Drop)]
pub struct PoolInUse {
    pool: StringPool,
    was_long: bool,
    is_used: bool,
}

impl Model for PoolInUse {
    ghost use Rattle.std.specs.Prelude.{◌≡◌};
    ghost use Rattle.msi_database_changes.specs.Texts.{UsedPool};
    ghost use Rattle.msi_pool.specs.FirstFit.{is_long_with};

    ghost Value = { UsedPool };

    ghost view = { λ p. record {
      pool = record { page = p.pool.page; long = p.was_long; places = p.pool.places };
      is_used = p.is_used;
    } };

    ghost invariant = { λ p. p.pool.long ≡ is_long_with p.was_long p.pool.places };
}

impl PoolInUse {
    /// Returns a pool that the change has not used yet.
    pub fn new(pool: StringPool) -> PoolInUse
        ensures { result ≡ record { pool = pool; is_used = false } }
    {
        let was_long = pool.long_string_refs();
        let mut pool = pool;
        if pool.num_strings() as usize > most_places(false) {
            pool.widen();
        }
        PoolInUse {
            pool,
            was_long,
            is_used: false,
        }
    }

    /// Returns the pool.
    pub fn pool(&self) -> &StringPool
        ensures page { result.now.page ≡ self.now.pool.page }
        ensures places { result.now.places ≡ self.now.pool.places }
    {
        &self.pool
    }

    /// Returns whether the references of the pool have widened: the change needs three bytes for them, and began with
    /// two.
    pub fn is_widened(&self) -> bool
        ensures { result ≡ widens self.now.pool }
    {
        self.pool.long_string_refs() && !self.was_long
    }

    /// Returns whether a text was taken or given back.
    pub fn is_used(&self) -> bool
        ensures { result ≡ self.now.is_used }
    {
        self.is_used
    }

    /// Returns the pool, moved out. Its references have the width that it needs.
    pub fn into_pool(self) -> StringPool
        ensures { result ≡ settled self.pool }
    {
        let PoolInUse {
            pool,
            was_long: _was_long,
            is_used: _is_used,
        } = self;
        pool
    }

    /// Returns the cell of a value, whose text the pool takes: it is moved in, and not copied.
    ///
    /// # Errors
    /// Fails with `InvalidInput` if the pool is full: it has 16777215 places, and none takes the text. Otherwise it
    /// fails with `OutOfMemory`.
    pub fn put(&mut self, value: Value) -> Result<ValueRef, Error>
        ensures ok { IfOk result (λ cell.
            cell_put true (in_use self.old) value ≡ Some (cell, in_use self.new)) }
        ensures kind { FailsWith InvalidInput result (cell_put true (in_use self.old) value) }
        ensures page { self.new.pool.page ≡ self.old.pool.page }
        ensures long { self.new.pool.long ≡ self.old.pool.long }
    {
        match value {
            Value::Null => Ok(ValueRef::Null),
            Value::Int(number) => Ok(ValueRef::Int(number)),
            Value::Str(text) => {
                self.is_used = true;
                Ok(ValueRef::Str(incref_widening(&mut self.pool, text.into_string())?))
            }
            Value::Binary => Ok(ValueRef::Binary),
        }
    }

    /// Returns the cells of a row of values, whose texts the pool takes in order.
    ///
    /// # Errors
    /// Fails with `InvalidInput` if the pool is full, or with `OutOfMemory`, which may come before.
    pub fn put_row(&mut self, alloc: Global, row: Items<Value>) -> Result<Items<ValueRef>, Error>
        ensures ok { IfOk result (λ cells.
            in_turn (cell_put true) (in_use self.old) row ≡ Some (cells, in_use self.new)) }
        ensures kind { let cells = in_turn (cell_put true) (in_use self.old) row in
            IfErr result (IsRefusal (or_refused InvalidInput cells)) }
        ensures page { self.new.pool.page ≡ self.old.pool.page }
        ensures long { self.new.pool.long ≡ self.old.pool.long }
    {
        let mut cells = Vec::new(alloc);
        for value in row.into_vec() {
            cells.push(self.put(value)?)?;
        }
        Ok(Items::from_vec(cells))
    }

    /// Returns the cells of rows of values, whose texts the pool takes row by row.
    ///
    /// # Errors
    /// Fails with `InvalidInput` if the pool is full, or with `OutOfMemory`, which may come before.
    pub fn put_rows(
        &mut self,
        alloc: Global,
        rows: Vec<Items<Value>>,
    ) -> Result<Vec<Items<ValueRef>>, Error>
        ensures ok { IfOk result (λ cells.
            rows_put true (in_use self.old) rows.items ≡ Some (cells.items, in_use self.new)) }
        ensures kind { let cells = rows_put true (in_use self.old) rows.items in
            IfErr result (IsRefusal (or_refused InvalidInput cells)) }
        ensures page { self.new.pool.page ≡ self.old.pool.page }
        ensures long { self.new.pool.long ≡ self.old.pool.long }
    {
        let mut cells = Vec::new(alloc);
        for row in rows {
            cells.push(self.put_row(alloc, row)?)?;
        }
        Ok(cells)
    }

    /// Gives the text of a cell back, if it has one and the pool has it.
    ///
    /// # Errors
    /// Fails with `OutOfMemory`.
    pub fn release(&mut self, cell: ValueRef) -> Result<(), Error>
        ensures ok { OnOk result (in_use self.new ≡ cell_released (in_use self.old) cell) }
        ensures kind { OnlyMemory result }
        ensures page { self.new.pool.page ≡ self.old.pool.page }
        ensures long { self.new.pool.long ≡ self.old.pool.long }
    {
        match cell {
            ValueRef::Str(reference) => {
                self.is_used = true;
                give_back(&mut self.pool, reference)
            }
            _ => Ok(()),
        }
    }

    /// Gives the texts of a row's cells back.
    ///
    /// # Errors
    /// Fails with `OutOfMemory`.
    pub fn release_row(&mut self, row: &[ValueRef]) -> Result<(), Error>
        ensures ok { OnOk result (in_use self.new ≡ fold cell_released (in_use self.old) row.now) }
        ensures kind { OnlyMemory result }
        ensures page { self.new.pool.page ≡ self.old.pool.page }
        ensures long { self.new.pool.long ≡ self.old.pool.long }
    {
        for cell in row {
            self.release(*cell)?;
        }
        Ok(())
    }

    /// Gives the texts of the cells of rows back, row by row.
    ///
    /// # Errors
    /// Fails with `OutOfMemory`.
    pub fn release_rows(&mut self, rows: &[Items<ValueRef>]) -> Result<(), Error>
        ensures ok { OnOk result (in_use self.new ≡ rows_released (in_use self.old) rows.now) }
        ensures kind { OnlyMemory result }
        ensures page { self.new.pool.page ≡ self.old.pool.page }
        ensures long { self.new.pool.long ≡ self.old.pool.long }
    {
        for row in rows {
            self.release_row(row.as_slice())?;
        }
        Ok(())
    }
}

fn give_back(pool: &mut StringPool, reference: StringRef) -> Result<(), Error>
    ensures ok { OnOk result (pool.new.places ≡ unwrap_or (given_back pool.old.places reference) pool.old.places) }
    ensures kind { OnlyMemory result }
    ensures page { pool.new.page ≡ pool.old.page }
    ensures long { pool.new.long ≡ pool.old.long }
    ensures many { length pool.new.places ≡ length pool.old.places }
{
    match pool.decref(reference) {
        Ok(()) => Ok(()),
        Err(error) => match error.kind() {
            ErrorKind::InvalidData => Ok(()),
            _ => Err(error),
        },
    }
}
