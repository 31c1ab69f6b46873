//! The records of a transform that change which tables and columns a package has: those of `_Tables` and `_Columns`.
#![tactic(auto)]

mod describing;
mod dropping;
mod listing;
pub mod page;
mod reasons;
pub mod schema;
mod schema_applying;
pub mod schema_change;
mod schema_records;
pub mod tables_by_name;

pub use schema_change::SchemaChange;
