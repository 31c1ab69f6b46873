//! Transforms, which describe how one package becomes another: their files, read and written, and the conditions under
//! which they apply.
#![tactic(auto)]

pub mod conditions;
pub mod kept_texts;
pub mod laws;
mod reasons;
pub mod records_by_table;
pub mod stored_pool;
pub mod table_streams;
pub mod transform;
pub mod written;

pub use conditions::{ErrorConditions, Fault};
pub use transform::Transform;
