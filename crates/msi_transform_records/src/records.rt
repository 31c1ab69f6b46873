//! Records.

use crate::action::Action;
use msi_base::text::Items;
use msi_table_cells::cell::ValueRef;

/// A record of a transform: what it does with a row, and the cells that are told of that, in the order of the table's
/// columns. The texts of the cells are in the transform's own pool.
#[derive(Drop)]
pub struct Record {
    /// What the record does.
    pub action: Action,
    /// The cells of the told columns.
    pub cells: Items<ValueRef>,
}
