//! Tables that are stored anew, while a transform is applied.

use msi_base::text::Items;
use msi_database_changes::Stored;
use msi_database_changes::keys::Key;
use msi_database_changes::texts::PoolInUse;
use msi_table_values::column::Column;
use msi_transform_rows::row::RowInHand;
use msi_transform_schema::tables_by_name::TablesByName;
use std::marker::Model;

/// A table that is stored anew: its name, its columns, and its rows.
#[derive(Drop)]
pub struct TableAnew<'a> {
    /// Its name.
    pub name: &'a str,
    /// Its columns, in order.
    pub columns: Items<Column>,
    /// Its rows, each behind its key.
    pub rows: Vec<(Key<'a>, RowInHand)>,
}

impl<'a> Model for TableAnew<'a> {
    ghost use Rattle.msi_transform_applying.specs.Applying.{TableAnew as TableAnewOf};

    ghost Value = { TableAnewOf };

    ghost view = { λ t. record { name = t.name.now; columns = t.columns; rows = t.rows.items } };
}

/// The tables that are stored anew so far, the pool, and what becomes of other streams. Of two streams with one name
/// the later counts.
#[derive(Drop)]
pub struct TablesInHand<'a> {
    /// The tables.
    pub tables: Vec<TableAnew<'a>>,
    /// The pool to which the cells of their rows refer.
    pub pool: PoolInUse,
    /// What becomes of streams that aren't tables'.
    pub streams: Vec<Stored>,
}

/// What is in hand once the tables are changed, before they are stored: the tables that records of `_Tables` and of
/// `_Columns` tell of, and those that are stored anew.
#[derive(Drop)]
pub struct TablesChanged<'a> {
    pub(crate) told: TablesByName<'a>,
    pub(crate) tables: TablesInHand<'a>,
}
