//! Values of rows.

ghost use Rattle.std.specs.Prelude.{◌≡◌, IfOk, is_some, option_copied};
ghost use Rattle.std.specs.Cmp.{po, partial_equiv_from_equiv, eq_by_cmp_equiv};
ghost use Rattle.std.specs.Hash.{same_Alike};
ghost use Rattle.std.specs.Ordering.{as_partial_cmp, eq_by_cmp};
ghost use Rattle.std.proofs.Common.{refl};
ghost use Rattle.msi_base.specs.Results.{OnlyMemory};
ghost use Rattle.msi_table_values.specs.Values.{value_cmp, is_null, int_of, text_of, value_hash_input};
ghost use Rattle.msi_table_values.specs.OrderLaws.{value_cmp-total, value_eq-Decides};

use msi_base::errors::Error;
use msi_base::text::Text;
use std::alloc::Global;
use std::cmp::Ordering;
use std::fmt;
use std::hash::{Hash, Hasher};

/// A value of a row.
#[derive(Drop)]
pub enum Value {
    /// No value.
    Null,
    /// A number.
    Int(i32),
    /// A text.
    Str(Text),
    /// A stream, whose bytes stand outside the table.
    Binary,
}

impl Value {
    /// Returns whether the value is null.
    pub fn is_null(&self) -> bool
        ensures { result ≡ is_null self.now }
    {
        matches!(self, Value::Null)
    }

    /// Returns whether the value is a number.
    pub fn is_int(&self) -> bool
        ensures { result ≡ is_some (int_of self.now) }
    {
        matches!(self, Value::Int(_))
    }

    /// Returns the number, if the value is one.
    pub fn as_int(&self) -> Option<i32>
        ensures { result ≡ int_of self.now }
    {
        match self {
            Value::Int(number) => Some(*number),
            _ => None,
        }
    }

    /// Returns whether the value is a text.
    pub fn is_str(&self) -> bool
        ensures { result ≡ is_some (text_of self.now) }
    {
        matches!(self, Value::Str(_))
    }

    /// Returns the text, if the value is one.
    pub fn as_str(&self) -> Option<&str>
        ensures { option_copied result ≡ text_of self.now }
    {
        match self {
            Value::Str(text) => Some(text.as_str()),
            _ => None,
        }
    }

    /// Returns a copy of the value.
    ///
    /// # Errors
    /// Fails with `OutOfMemory`.
    pub fn clone(&self, alloc: Global) -> Result<Value, Error>
        ensures ok { IfOk result (λ value. value ≡ self.now) }
        ensures kind { OnlyMemory result }
    {
        Ok(match self {
            Value::Null => Value::Null,
            Value::Int(number) => Value::Int(*number),
            Value::Str(text) => Value::Str(text.clone(alloc)?),
            Value::Binary => Value::Binary,
        })
    }
}

/// Null comes first, then numbers, then texts by their bytes, and Binary last.
impl Ord for Value {
    ghost cmp = { value_cmp };

    ghost total = { value_cmp-total };

    ghost matches_partial_cmp = { λ _ _. refl };

    ghost matches_eq = { λ _ _. refl };

    fn cmp(&self, other: &Value) -> Ordering {
        match self {
            Value::Null => match other {
                Value::Null => Ordering::Equal,
                _ => Ordering::Less,
            },
            Value::Int(m) => match other {
                Value::Null => Ordering::Greater,
                Value::Int(n) => m.cmp(n),
                _ => Ordering::Less,
            },
            Value::Str(s) => match other {
                Value::Null | Value::Int(_) => Ordering::Greater,
                Value::Str(t) => s.as_str().cmp(t.as_str()),
                Value::Binary => Ordering::Less,
            },
            Value::Binary => match other {
                Value::Binary => Ordering::Equal,
                _ => Ordering::Greater,
            },
        }
    }
}

impl PartialOrd for Value {
    ghost partial_cmp = { as_partial_cmp value_cmp };

    ghost laws = { po value_cmp-total (λ _ _. refl) };

    fn partial_cmp(&self, other: &Value) -> Option<Ordering> {
        Some(self.cmp(other))
    }
}

impl PartialEq for Value {
    ghost eq = { eq_by_cmp value_cmp };

    ghost laws = { partial_equiv_from_equiv (eq_by_cmp_equiv value_cmp-total) };

    fn eq(&self, other: &Value) -> bool {
        self.cmp(other) == Ordering::Equal
    }
}

impl Eq for Value {
    ghost laws = { eq_by_cmp_equiv value_cmp-total };
}

impl Hash for Value {
    ghost hash_input = { value_hash_input };

    ghost respects_eq = { (same_Alike value_hash_input value_eq-Decides).fed };

    fn hash<H: Hasher>(&self, state: &mut H) {
        match self {
            Value::Null => state.write_u8(0),
            Value::Int(number) => {
                state.write_u8(1);
                number.hash(state);
            }
            Value::Str(text) => {
                state.write_u8(2);
                text.as_str().hash(state);
            }
            Value::Binary => state.write_u8(3),
        }
    }
}

impl fmt::Debug for Value {
    fn fmt<W: fmt::Write>(&self, f: &mut fmt::Formatter<W>) -> fmt::Result {
        match self {
            Value::Null => f.write_str("Null"),
            Value::Int(number) => write!(f, "Int({number:?})"),
            Value::Str(text) => write!(f, "Str({:?})", text.as_str()),
            Value::Binary => f.write_str("Binary"),
        }
    }
}
