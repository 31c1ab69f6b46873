//! Packages that are looked at, in any code page: their tables are read at once, each stream when it is asked for.
#![tactic(auto)]

pub mod held_tables;
pub mod opening;
pub mod package_view;
pub mod stored;
pub mod stream_files;
mod writing;

pub use held_tables::stored_tables;
pub use opening::{look_at, open_to_look};
pub use package_view::PackageView;
pub use stored::StoredNames;
pub use stream_files::write_stream;
