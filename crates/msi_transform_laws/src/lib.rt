//! Laws of transforms: applying the transform that was made of two databases to the first gives the second.
//!
//! Each law is the contract of a function that does nothing.
#![tactic(auto)]

pub mod can_follow;
pub mod carried_out;
pub mod counts_left;
pub mod described_packages;
pub mod made_applied;
pub mod more_conditions;
pub mod new_tables;
pub mod premises_met;
pub mod records_read;
pub mod rows_applied;
pub mod rows_begun;
pub mod same_columns;
pub mod same_packages;
pub mod schema_applied;
pub mod schema_made;
pub mod streams_agree;
pub mod streams_brought;
pub mod table_applied;
pub mod table_changed;
pub mod tables_changed;
pub mod tables_removed;
pub mod tables_without_records;
pub mod texts_left;
pub mod transforms_applied;
