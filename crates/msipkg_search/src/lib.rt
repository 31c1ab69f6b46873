//! What `msipkg` searches packages for: values, and what refers to a row.
#![tactic(auto)]

pub mod cells;
pub mod find;
mod known_keys;
pub mod matching;
pub mod references;
mod target;

pub use cells::Found;
pub use find::{Search, find_values};
pub use matching::{Wanted, Way};
pub use references::{Referred, find_references};
