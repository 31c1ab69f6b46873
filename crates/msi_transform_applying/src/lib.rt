//! Applying a transform to the tables of a package: what is left, or why it is refused.
#![tactic(auto)]

mod agreeing;
mod applying;
pub mod leaving;
mod lengthening;
mod reasons;
mod table_applying;
pub mod tables_in_hand;

pub use applying::transform_tables;
pub use leaving::leave;
