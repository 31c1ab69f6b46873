//! Transforms on the command line: made of packages, read from files and storages, and printed; the words for errors
//! that are ignored and for what is validated.
#![tactic(auto)]

mod base_rows;
pub mod conditions;
pub mod file;
mod holdings;
mod left_out;
pub mod making;
pub mod miscounting;
mod records;
pub mod showing;
mod summary;
mod transform_bytes;
pub mod validation;

pub use conditions::{conditions_of, words_of};
pub use file::{TransformFile, read_transform};
pub use making::{Making, make_transform};
pub use miscounting::is_miscounted;
pub use msi_transform::ErrorConditions;
pub use records::key_at;
pub use showing::show_transform;
pub use validation::{validation_of, validation_words};
