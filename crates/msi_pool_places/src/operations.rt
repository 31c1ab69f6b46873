//! How many operations a call makes on the places of a pool and on their indexes.

ghost use Rattle.std.specs.Prelude.{◌≡◌, ◌+◌, ◌<◌, ◌^◌};

use std::marker::Model;

/// A number of operations: reads, writes and pushes of a place, and look-ups, insertions and removals in an index.
#[derive(Drop)]
pub struct Operations {
    count: u32,
}

impl Model for Operations {
    ghost use Rattle.std.specs.Prelude.{ℕ};

    ghost Value = { ℕ };

    ghost view = { λ o. o.count };
}

impl Operations {
    /// None was made yet.
    pub fn new() -> Operations
        ensures { result ≡ 0 }
    {
        Operations { count: 0 }
    }

    /// How many were made.
    pub fn count(&self) -> u32
        ensures { result ≡ self.now }
    {
        self.count
    }

    /// One more is made.
    pub fn add_one(&mut self)
        requires { self.old + 1 < 2 ^ 32 }
        ensures { self.new ≡ self.old + 1 }
    {
        self.count += 1;
    }
}
