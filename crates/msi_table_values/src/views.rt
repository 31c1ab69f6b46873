//! Values borrowed from where they lie, so that no text is copied, and their order.

ghost use Rattle.std.specs.Prelude.{◌≡◌, IfOk, IfErr, IsErr, IsTrue};
ghost use Rattle.msi_base.specs.declared.errors.ErrorKind.TheVariants.{OutOfMemory};
ghost use Rattle.msi_table_values.specs.Values.{value_cmp, is_text, is_true as counts};
ghost use Rattle.msi_table_values.specs.Views.{seen_value};

use crate::value::Value;
use msi_base::errors::Error;
use msi_base::text::IntoText;
use std::alloc::Global;
use std::cmp::Ordering;

/// A value, borrowed from where it lies.
#[derive(Clone, Copy, Drop)]
pub enum ValueView<'a> {
    /// `Value::Null`.
    Null,
    /// `Value::Int`.
    Int(i32),
    /// `Value::Str`.
    Str(&'a str),
    /// `Value::Binary`.
    Binary,
}

impl<'a> ValueView<'a> {
    /// Returns the value of a row or a tree.
    pub fn of(value: &'a Value) -> ValueView<'a>
        ensures { seen_value result ≡ value.now }
    {
        match value {
            Value::Null => ValueView::Null,
            Value::Int(number) => ValueView::Int(*number),
            Value::Str(text) => ValueView::Str(text.as_str()),
            Value::Binary => ValueView::Binary,
        }
    }

    /// Returns a copy of the value.
    ///
    /// # Errors
    /// Fails with `OutOfMemory`, and only for a text.
    pub fn into_value(self, alloc: Global) -> Result<Value, Error>
        ensures ok { IfOk result (λ value. value ≡ seen_value self.entry) }
        ensures kind { IfErr result (λ kind. kind ≡ OutOfMemory) }
        ensures memory { IsErr result → IsTrue (is_text (seen_value self.entry)) }
    {
        Ok(match self {
            ValueView::Null => Value::Null,
            ValueView::Int(number) => Value::Int(number),
            ValueView::Str(text) => Value::Str(text.into_text(alloc)?),
            ValueView::Binary => Value::Binary,
        })
    }

    /// Returns whether the value counts as true: Null, 0 and the empty text don't.
    pub fn is_true(self) -> bool
        ensures { result ≡ counts (seen_value self.entry) }
    {
        match self {
            ValueView::Null => false,
            ValueView::Int(number) => number != 0,
            ValueView::Str(text) => !text.is_empty(),
            ValueView::Binary => true,
        }
    }

    /// Compares the value with another, in the order of values.
    pub fn compare(self, other: ValueView) -> Ordering
        ensures { result ≡ value_cmp (seen_value self.entry) (seen_value other.entry) }
    {
        match self {
            ValueView::Null => match other {
                ValueView::Null => Ordering::Equal,
                _ => Ordering::Less,
            },
            ValueView::Int(m) => match other {
                ValueView::Null => Ordering::Greater,
                ValueView::Int(n) => m.cmp(&n),
                _ => Ordering::Less,
            },
            ValueView::Str(s) => match other {
                ValueView::Null | ValueView::Int(_) => Ordering::Greater,
                ValueView::Str(t) => s.cmp(t),
                ValueView::Binary => Ordering::Less,
            },
            ValueView::Binary => match other {
                ValueView::Binary => Ordering::Equal,
                _ => Ordering::Greater,
            },
        }
    }
}
