//! The tables of a package, one by one.

ghost use Rattle.std.specs.Prelude.{◌≡◌, length};
ghost use Rattle.std.specs.Iterator.{YieldsFirstRef, item_count};

use msi_table::Table;
use std::marker::Model;

/// An iterator over a package's tables, by name in the order of their bytes. Contracts see the tables that are left.
#[derive(Drop)]
pub struct Tables<'a> {
    left: &'a [Table],
}

impl<'a> Model for Tables<'a> {
    ghost use Rattle.std.specs.Prelude.{List};
    ghost use Rattle.msi_table.specs.Tables.{TableDef};

    ghost Value = { List TableDef };

    ghost view = { λ t. t.left.now };
}

impl<'a> Tables<'a> {
    pub(crate) fn new(tables: &'a [Table]) -> Tables<'a>
        ensures { result ≡ tables.now }
    {
        Tables { left: tables }
    }

    /// Returns how many tables are left.
    pub fn len(&self) -> usize
        ensures { result ≡ length self.now }
    {
        self.left.len()
    }

    /// Returns the tables that are left, and takes none.
    pub fn as_slice(&self) -> &'a [Table]
        ensures { result.now ≡ self.now }
    {
        self.left
    }
}

/// Gives the tables in order.
impl<'a> Iterator for Tables<'a> {
    type Item = &'a Table;

    ghost next_gives = { YieldsFirstRef (λ tables. tables) };

    ghost remaining = { item_count (λ tables. tables) };

    fn next(&mut self) -> Option<&'a Table> {
        let (first, others) = self.left.split_first()?;
        self.left = others;
        Some(first)
    }
}
