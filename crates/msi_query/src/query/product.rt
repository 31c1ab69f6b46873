//! The tables of a product.

ghost use Rattle.std.specs.Prelude.{◌≡◌, IfErr, IfOk, Some};
ghost use Rattle.std.specs.Fmt.{DisplaysOnOk};
ghost use Rattle.msi_base.specs.declared.errors.ErrorKind.TheVariants.{OutOfMemory};
ghost use Rattle.msi_query.specs.QueryTexts.{named_table};

use msi_base::errors::Error;
use msi_base::text::{Items, Text};
use msi_query_tokens::names::write_name;
use std::alloc::Global;
use std::fmt;
use std::marker::Model;

/// A table of a product, and the name that its columns go by there.
#[derive(Drop)]
pub struct Side {
    table: Text,
    name: Text,
}

impl Model for Side {
    ghost use Rattle.msi_query.specs.Queries.{Side as SideOf};

    ghost Value = { SideOf };

    ghost view = { λ s. record { table = s.table; name = s.name } };
}

impl Side {
    pub(crate) fn new(table: Text, name: Text) -> Side
        ensures { result ≡ record { table = table; name = name } }
    {
        Side { table, name }
    }

    /// Returns the table's name.
    pub fn table(&self) -> &Text
        ensures { result.now ≡ self.now.table }
    {
        &self.table
    }

    /// Returns the name that the table's columns go by.
    pub fn name(&self) -> &Text
        ensures { result.now ≡ self.now.name }
    {
        &self.name
    }

    fn clone(&self, alloc: Global) -> Result<Side, Error>
        ensures ok { IfOk result (λ copy. copy ≡ self.now) }
        ensures kind { IfErr result (λ kind. kind ≡ OutOfMemory) }
    {
        let table = self.table.clone(alloc)?;
        let name = self.name.clone(alloc)?;
        Ok(Side { table, name })
    }
}

fn write_named_table<W: fmt::Write>(f: &mut fmt::Formatter<W>, side: &Side) -> fmt::Result
    ensures { DisplaysOnOk W.write_str_gives f.old result (Some (named_table side.now)) f.new }
{
    if side.table == side.name {
        return write_name(f, side.table.as_str());
    }
    write_name(f, side.table.as_str())?;
    f.write_str(" ")?;
    write_name(f, side.name.as_str())
}

/// Writes the table's name, and behind it the one that its columns go by if that is another.
impl fmt::Display for Side {
    ghost output = { λ side. Some (named_table side) };

    fn fmt<W: fmt::Write>(&self, f: &mut fmt::Formatter<W>) -> fmt::Result {
        write_named_table(f, self)
    }
}

pub(crate) fn copied_sides(alloc: Global, sides: &[Side]) -> Result<Items<Side>, Error>
    ensures ok { IfOk result (λ copies. copies ≡ sides.now) }
    ensures kind { IfErr result (λ kind. kind ≡ OutOfMemory) }
{
    let mut copies = Vec::with_capacity(alloc, sides.len())?;
    for side in sides {
        copies.push(side.clone(alloc)?)?;
    }
    Ok(Items::from_vec(copies))
}
