//! The schema of a database: reads the tables that the rows of the system tables describe.
#![tactic(auto)]

mod columns;
mod copies;
pub mod description;
mod faults;
pub mod names;
mod orders;
mod reasons;
mod rows;
pub mod schema;
pub mod system;

pub use description::{column_row, column_rows};
pub use names::short_table_key;
pub use schema::named_table;
