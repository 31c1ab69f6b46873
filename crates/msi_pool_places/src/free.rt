//! The index of the free places.

ghost use Rattle.std.specs.Prelude.{◌≡◌, ℕ, ◌+◌, ◌<◌, ◌^◌, ◌==◌, ◌&&◌, ◌||◌, not, [], OnOk, OnErr, IfOk};
ghost use Rattle.msi_base.specs.Results.{OnlyMemory};
ghost use Rattle.msi_pool_places.specs.PoolIndexes.{IsLeast, is_among};

use crate::operations::Operations;
use msi_base::errors::Error;
use std::alloc::Global;
use std::collections::BTreeSet;
use std::marker::Model;

/// The free places, counted from 0. Contracts see their numbers in order.
#[derive(Drop)]
pub struct FreePlaces {
    numbers: BTreeSet<u32>,
}

impl Model for FreePlaces {
    ghost use Rattle.std.specs.Prelude.{List, ℕ};

    ghost Value = { List ℕ };

    ghost view = { λ f. f.numbers.keys };
}

impl FreePlaces {
    /// No place is free.
    pub fn new(alloc: Global) -> FreePlaces
        ensures { result ≡ [] }
    {
        FreePlaces {
            numbers: BTreeSet::new(alloc),
        }
    }

    /// The same places once more. The only error is `OutOfMemory`.
    pub fn clone(&self) -> Result<FreePlaces, Error>
        ensures ok { IfOk result (λ places. places ≡ self.now) }
        ensures kind { OnlyMemory result }
    {
        Ok(FreePlaces {
            numbers: self.numbers.clone()?,
        })
    }

    /// The least free place.
    pub fn least(&self, operations: &mut Operations) -> Option<u32>
        requires { operations.old + 1 < 2 ^ 32 }
        ensures least { IsLeast (is_among self.now) result }
        ensures operation { operations.new ≡ operations.old + 1 }
    {
        operations.add_one();
        self.numbers.first().copied()
    }

    /// A place is free from now on. The only error is `OutOfMemory`.
    pub fn insert(&mut self, at: u32, operations: &mut Operations) -> Result<(), Error>
        requires { operations.old + 1 < 2 ^ 32 }
        ensures ok { OnOk result ((i : ℕ) → is_among self.new i ≡ ((i == at) || is_among self.old i)) }
        ensures err { OnErr result (self.new ≡ self.old) }
        ensures kind { OnlyMemory result }
        ensures operation { operations.new ≡ operations.old + 1 }
    {
        operations.add_one();
        self.numbers.insert(at)?;
        Ok(())
    }

    /// A place isn't free any more.
    pub fn remove(&mut self, at: u32, operations: &mut Operations)
        requires { operations.old + 1 < 2 ^ 32 }
        ensures removed { (i : ℕ) → is_among self.new i ≡ (not (i == at) && is_among self.old i) }
        ensures operation { operations.new ≡ operations.old + 1 }
    {
        operations.add_one();
        self.numbers.remove(&at);
    }
}
