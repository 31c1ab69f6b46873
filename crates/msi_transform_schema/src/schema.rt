//! Tables while a transform is applied.

ghost use Rattle.std.specs.Prelude.{◌≡◌, ◌≤◌, IfOk, length};
ghost use Rattle.msi_base.specs.Results.{OnlyMemory};
ghost use Rattle.msi_transform_schema.specs.SchemaChanges.{as_found, is_added as is_of_transform, is_gone as is_away};
ghost use Rattle.msi_transform_schema.specs.TablesInHand.{HasSmallNumber, IsSmall, most_added};

use crate::tables_by_name::TablesByName;
use msi_base::errors::Error;
use msi_base::text::Items;
use msi_database_changes::Stored;
use msi_database_changes::texts::PoolInUse;
use msi_table_values::column::Column;
use msi_table_values::parts::copied_columns;
use msi_transform_rows::keyed::KeyedRows;
use std::alloc::Global;
use std::marker::Model;

/// How a table stands while a transform is applied.
#[derive(Clone, Copy, PartialEq, Eq, Debug, Drop)]
pub enum Standing {
    /// The package has it.
    Kept,
    /// The package has it, and the transform was to add it: columns that are told without a number have the numbers
    /// from 1 on, of which this is the next.
    Found(u32),
    /// The transform adds it.
    Added,
    /// There is no such table.
    Gone,
}

impl Standing {
    /// Returns whether there is no such table.
    pub fn is_gone(self) -> bool
        ensures { result ≡ is_away self }
    {
        match self {
            Standing::Gone => true,
            Standing::Kept | Standing::Found(_) | Standing::Added => false,
        }
    }

    /// Returns whether the transform adds the table.
    pub fn is_added(self) -> bool
        ensures { result ≡ is_of_transform self }
    {
        match self {
            Standing::Added => true,
            Standing::Kept | Standing::Found(_) | Standing::Gone => false,
        }
    }

    /// How a table stands that the transform was to add, and that is there.
    pub(crate) fn found(self) -> Standing
        ensures value { result ≡ as_found self }
        ensures small { HasSmallNumber result }
    {
        match self {
            Standing::Kept | Standing::Found(_) => Standing::Found(1),
            Standing::Added => Standing::Added,
            Standing::Gone => Standing::Gone,
        }
    }
}

/// What a transform does to a table: how it stands, and the columns that are added to it. Their numbers fit a cell.
#[derive(Drop)]
pub struct TableInHand {
    standing: Standing,
    added: Items<Column>,
}

impl Model for TableInHand {
    ghost use Rattle.msi_transform_schema.specs.TablesInHand.{IsSmall, TableInHand as TableOf};

    ghost Value = { TableOf };

    ghost view = { λ t. record { standing = t.standing; added = t.added } };

    ghost invariant = { λ t. IsSmall (record { standing = t.standing; added = t.added }) };
}

impl TableInHand {
    pub(crate) fn new(standing: Standing, added: Items<Column>) -> TableInHand
        requires number { HasSmallNumber standing }
        requires few { length added ≤ most_added }
        ensures { result ≡ record { standing = standing; added = added } }
    {
        TableInHand { standing, added }
    }

    /// Returns how the table stands.
    pub fn standing(&self) -> Standing
        ensures value { result ≡ self.now.standing }
        ensures small { HasSmallNumber result }
    {
        self.standing
    }

    /// Returns the columns that are added to it.
    pub fn added(&self) -> &[Column]
        ensures value { result.now ≡ self.now.added }
        ensures few { length self.now.added ≤ most_added }
    {
        self.added.as_slice()
    }

    pub(crate) fn with_standing(self, standing: Standing) -> TableInHand
        requires { HasSmallNumber standing }
        ensures { result ≡ record { standing = standing; added = self.added } }
    {
        let TableInHand { standing: _, added } = self;
        TableInHand { standing, added }
    }

    pub(crate) fn into_added(self) -> Items<Column>
        ensures value { result ≡ self.added }
        ensures few { length result ≤ most_added }
    {
        let TableInHand { standing: _, added } = self;
        added
    }

    pub(crate) fn clone(&self, alloc: Global) -> Result<TableInHand, Error>
        ensures ok { IfOk result (λ copy. copy ≡ self.now) }
        ensures kind { OnlyMemory result }
    {
        Ok(TableInHand {
            standing: self.standing,
            added: copied_columns(alloc, self.added.as_slice())?,
        })
    }
}

/// The tables that records tell of, the rows of `_Tables` and of `_Columns`, the pool, and what becomes of streams,
/// while a transform is applied. After a call that fails they may be in any state.
#[derive(Drop)]
pub struct SchemaInHand<'a> {
    /// The tables that records tell of.
    pub tables: TablesByName<'a>,
    /// The rows of `_Tables`.
    pub listed: KeyedRows<'a>,
    /// The rows of `_Columns`.
    pub described: KeyedRows<'a>,
    /// The package's pool.
    pub pool: PoolInUse,
    /// What becomes of the streams of tables that go, and of those of their rows.
    pub streams: Vec<Stored>,
}
