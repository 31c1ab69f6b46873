//! Making a transform of two databases.
#![tactic(auto)]

mod differences;
mod differing;
mod left_out;
mod making;
mod reasons;
mod record;
mod same_texts;
mod schema_records;
mod storing;
mod tables;
mod telling;

pub use making::make;
