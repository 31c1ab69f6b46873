//! The files that `import` reads: JSON, CSV and the text archives of the installer (IDT files), as tables, streams and
//! properties. It knows no package.
#![tactic(auto)]

mod archive_streams;
mod archives;
mod csv_tables;
pub mod given;
mod json_packages;
mod json_tables;
mod places;
pub mod reading;

pub use given::{Given, GivenColumn, GivenProperty, GivenStream, GivenTable};
pub use reading::read_files;
