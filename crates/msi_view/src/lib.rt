//! Looks at a Windows Installer package over a source that can be read from any place on: each part is read when it is
//! asked for, so that looking costs what is looked at.
#![tactic(auto)]

mod catalog;
pub mod database;
pub mod files;
pub mod laws;
mod loading;
pub mod readable;
pub mod view;

pub use files::open;
pub use msi_container_view::{Extent, Located, byte_count};
pub use msi_database::Database;
pub use readable::Readable;
pub use view::View;
