//! What `msipkg` prints of packages without changing them.
#![tactic(auto)]

mod aligned;
mod columns;
mod extract;
mod facts;
pub mod info;
mod listing;
pub mod look;
mod nulls;
mod product;
pub mod query;
pub mod schema;
mod schema_json;
mod selected;
pub mod storages;
mod streams;
mod summary;
mod tables;
mod transform_info;

pub use info::show_info;
pub use look::{Look, show};
pub use query::{Format, LastNames, Query, print_query, read_query};
pub use schema::Form;
pub use storages::{extract_storage, show_storages};
