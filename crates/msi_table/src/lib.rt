//! Tables: reads and writes the rows of a table's stream, and shows them to callers as values.
#![tactic(auto)]

mod cells;
mod census;
mod comparing;
mod index;
mod keys;
pub mod laws;
pub mod parts;
mod picked;
mod reasons;
pub mod row;
mod rows;
mod stored;
pub mod table;
mod writing;

pub use comparing::{Difference, differences};
pub use msi_table_cells::cell;
pub use msi_table_cells::cell::ValueRef;
pub use msi_table_values::column::{Column, ColumnBuilder, ColumnType};
pub use msi_table_values::parts::ValueView;
pub use msi_table_values::row::Row;
pub use msi_table_values::value::Value;
pub use msi_table_values::{column, value};
pub use row::Rows;
pub use table::Table;
