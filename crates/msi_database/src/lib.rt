//! The database of a package: looks up, queries and changes tables that are stored in the streams of a container.
#![tactic(auto)]

mod applying;
mod changing;
mod columns;
mod creating;
pub mod database;
mod dropping;
mod fresh;
pub mod laws;
mod making;
mod others;
mod reading;
pub mod reasons;
mod recounting;
mod rows;
mod widening;

pub use database::Database;
