//! The cells that stand for values, with their texts in the string pool.

ghost use Rattle.std.specs.Prelude.{◌≡◌, IfOk, OnOk, OnErr, IsSome, Some};
ghost use Rattle.std.specs.Cmp.{po, partial_equiv_from_equiv, eq_by_cmp_equiv};
ghost use Rattle.std.specs.Ordering.{as_partial_cmp, eq_by_cmp};
ghost use Rattle.std.proofs.Common.{refl};
ghost use Rattle.msi_base.specs.Results.{OnlyMemory};
ghost use Rattle.msi_base.specs.declared.errors.ErrorKind.TheVariants.{InvalidData, InvalidInput};
ghost use Rattle.msi_table_values.specs.Refusals.{FailsWith};
ghost use Rattle.msi_table_values.specs.Values.{text_of};
ghost use Rattle.msi_table_cells.specs.CellOrder.{cell_cmp};
ghost use Rattle.msi_table_cells.specs.CellOrderLaws.{cell_cmp-total};
ghost use Rattle.msi_table_cells.specs.CellValues.{value_of_cell, cell_of_value, places_without};

use msi_base::errors::Error;
use msi_base::text::IntoText;
use msi_pool::parts::place_number;
use msi_pool::stringpool::{StringPool, StringRef};
use msi_table_values::value::Value;
use std::alloc::Global;
use std::cmp::Ordering;
use std::fmt;

/// A cell of a table: a value whose text is in the string pool.
#[derive(Clone, Copy, Drop)]
pub enum ValueRef {
    /// No value.
    Null,
    /// A number.
    Int(i32),
    /// The place of a text.
    Str(StringRef),
    /// A stream, whose bytes stand outside the table.
    Binary,
}

impl ValueRef {
    /// Returns the cell of a value, whose text the pool takes. If it fails, the pool is as before; only a text can be
    /// refused, as nothing else takes memory.
    ///
    /// # Errors
    /// Fails with `InvalidInput` if the pool is full, or with `OutOfMemory`.
    pub fn create(value: Value, pool: &mut StringPool) -> Result<ValueRef, Error>
        ensures ok { IfOk result (λ cell.
            cell_of_value pool.old.long pool.old.places value ≡ Some (cell, pool.new.places)) }
        ensures kind { FailsWith InvalidInput result (cell_of_value pool.old.long pool.old.places value) }
        ensures only_texts { OnErr result (IsSome (text_of value)) }
        ensures err { OnErr result (pool.new ≡ pool.old) }
        ensures page { pool.new.page ≡ pool.old.page }
        ensures long { pool.new.long ≡ pool.old.long }
    {
        match value {
            Value::Null => Ok(ValueRef::Null),
            Value::Int(number) => Ok(ValueRef::Int(number)),
            Value::Str(text) => Ok(ValueRef::Str(pool.incref(text.into_string())?)),
            Value::Binary => Ok(ValueRef::Binary),
        }
    }

    /// Gives back the place of the cell's text, if it has one. If it fails, the pool is as before.
    ///
    /// # Errors
    /// Fails with `InvalidData` if that place is free or past the end, and otherwise with `OutOfMemory`.
    pub fn remove(self, pool: &mut StringPool) -> Result<(), Error>
        ensures ok { OnOk result (places_without pool.old.places self ≡ Some pool.new.places) }
        ensures kind { FailsWith InvalidData result (places_without pool.old.places self) }
        ensures err { OnErr result (pool.new ≡ pool.old) }
        ensures page { pool.new.page ≡ pool.old.page }
        ensures long { pool.new.long ≡ pool.old.long }
    {
        match self {
            ValueRef::Str(reference) => pool.decref(reference),
            _ => Ok(()),
        }
    }

    /// Returns the value that the cell stands for. A place past the pool's end stands for the empty text.
    ///
    /// # Errors
    /// Fails with `OutOfMemory`.
    pub fn to_value(self, alloc: Global, pool: &StringPool) -> Result<Value, Error>
        ensures ok { IfOk result (λ value. value ≡ value_of_cell pool.now.places self) }
        ensures kind { OnlyMemory result }
    {
        Ok(match self {
            ValueRef::Null => Value::Null,
            ValueRef::Int(number) => Value::Int(number),
            ValueRef::Str(reference) => Value::Str(pool.get(reference).into_text(alloc)?),
            ValueRef::Binary => Value::Binary,
        })
    }
}

/// Null comes first, then numbers, then texts by the numbers of their places, and Binary last.
impl Ord for ValueRef {
    ghost cmp = { cell_cmp };

    ghost total = { cell_cmp-total };

    ghost matches_partial_cmp = { λ _ _. refl };

    ghost matches_eq = { λ _ _. refl };

    fn cmp(&self, other: &ValueRef) -> Ordering {
        match *self {
            ValueRef::Null => match *other {
                ValueRef::Null => Ordering::Equal,
                _ => Ordering::Less,
            },
            ValueRef::Int(m) => match *other {
                ValueRef::Null => Ordering::Greater,
                ValueRef::Int(n) => m.cmp(&n),
                _ => Ordering::Less,
            },
            ValueRef::Str(s) => match *other {
                ValueRef::Null | ValueRef::Int(_) => Ordering::Greater,
                ValueRef::Str(t) => place_number(s).cmp(&place_number(t)),
                ValueRef::Binary => Ordering::Less,
            },
            ValueRef::Binary => match *other {
                ValueRef::Binary => Ordering::Equal,
                _ => Ordering::Greater,
            },
        }
    }
}

impl PartialOrd for ValueRef {
    ghost partial_cmp = { as_partial_cmp cell_cmp };

    ghost laws = { po cell_cmp-total (λ _ _. refl) };

    fn partial_cmp(&self, other: &ValueRef) -> Option<Ordering> {
        Some(self.cmp(other))
    }
}

impl PartialEq for ValueRef {
    ghost eq = { eq_by_cmp cell_cmp };

    ghost laws = { partial_equiv_from_equiv (eq_by_cmp_equiv cell_cmp-total) };

    fn eq(&self, other: &ValueRef) -> bool {
        self.cmp(other) == Ordering::Equal
    }
}

impl Eq for ValueRef {
    ghost laws = { eq_by_cmp_equiv cell_cmp-total };
}

impl fmt::Debug for ValueRef {
    fn fmt<W: fmt::Write>(&self, f: &mut fmt::Formatter<W>) -> fmt::Result {
        match self {
            ValueRef::Null => f.write_str("Null"),
            ValueRef::Int(number) => write!(f, "Int({number:?})"),
            ValueRef::Str(reference) => write!(f, "Str({:?})", place_number(*reference)),
            ValueRef::Binary => f.write_str("Binary"),
        }
    }
}
