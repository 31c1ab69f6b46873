//! References to places of the pool.

ghost use Rattle.std.specs.Prelude.{◌≡◌, ◌≤◌, pos};

use std::marker::Model;

/// A place of the pool. Contracts see its number, from 1 to 16777215.
#[derive(Clone, Copy, PartialEq, Eq, PartialOrd, Ord, Hash, Debug, Drop)]
pub struct StringRef {
    number: u32,
}

impl Model for StringRef {
    ghost use Rattle.std.specs.Prelude.{ℕ, ◌≤◌, ◌^◌, ◌-◌};

    ghost Value = { ℕ };

    ghost view = { λ r. r.number };

    ghost invariant = { λ r. (1 ≤ r.number) × (r.number ≤ 16777215) };

    ghost inverse = { λ n. record { number = n } };
}

impl StringRef {
    pub(crate) fn from_number(number: u32) -> StringRef
        requires least { 1 ≤ number }
        requires most { number ≤ 16777215 }
        ensures { result ≡ number }
    {
        StringRef { number }
    }

    pub(crate) fn to_number(self) -> u32
        ensures { result ≡ self }
    {
        self.number
    }

    /// Returns the number, from 1 to 16777215.
    pub fn number(self) -> i32
        ensures { result ≡ pos self }
    {
        self.number as i32
    }
}
