//! The records of transforms, each of which adds, removes or changes a row of a table.
#![tactic(auto)]

pub mod action;
mod cells;
pub mod laws;
pub mod parts;
pub mod reading;
mod reasons;
pub mod records;
mod row_cells;
pub mod shape;
mod telling;
mod writing;

pub use action::Action;
pub use reading::{Fault, read_records};
pub use records::Record;
pub use shape::Shape;
