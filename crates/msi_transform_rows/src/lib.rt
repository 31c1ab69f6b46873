//! The records of a transform, applied to the rows of one table.
#![tactic(auto)]

pub mod keyed;
mod reasons;
pub mod refusal;
pub mod row;
pub mod row_bytes;
pub mod row_changes;
pub mod row_streams;
pub mod rows_in_hand;
pub mod table_change;
pub mod table_records;

pub use refusal::{RecordPlace, Refusal};
