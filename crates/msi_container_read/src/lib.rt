//! Reads a compound file (MS-CFB): every file that the grammar accepts, and no other.
#![tactic(auto)]

pub mod laws;
mod listing;
mod names;
mod reading;
mod reasons;
mod runs;
mod sizes;
mod storages;
mod streams;

pub use listing::list;
pub use msi_container_tables::Steps;
pub use reading::{read, read_counted, read_shared, read_storage};
pub use sizes::{Listing, Sizes};
pub use storages::{Storage, list_storages};
