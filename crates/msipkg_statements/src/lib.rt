//! Statements and queries that are asked of a package: values as its columns take them, definitions of tables, the
//! streams of rows, the installer's lists of streams, and which table, column or value is at fault in a refusal.
#![tactic(auto)]

pub mod definition;
pub mod fitting;
mod inserting;
mod naming;
pub mod reasons;
pub mod row_streams;
pub mod stream_changes;
pub mod stream_lists;
mod tokens;
mod values;

pub use fitting::{Fitted, fitted_statement, moved_statement};
pub use reasons::explained;
pub use row_streams::{RowStream, StatementStreams, UpdatedStreams};
pub use stream_lists::{STORAGES, STREAMS, listed_names, lists_for, with_stream_lists};
