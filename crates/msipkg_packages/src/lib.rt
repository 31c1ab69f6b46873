//! Packages as `msipkg` opens them, in any code page; their tables, their streams, and the properties of their summary
//! as texts.
#![tactic(auto)]

pub mod claim;
pub mod file_bytes;
pub mod folder;
mod installer_times;
pub mod kinds;
pub mod making;
mod named_pages;
pub mod null_streams;
pub mod opening;
pub mod properties;
mod reasons;
pub mod recoding;
pub mod replacing;
pub mod streams;
pub mod summary_texts;
pub mod tables;
pub mod unlisted;
pub mod unread_summary;

pub use claim::Claim;
pub use file_bytes::{
    FileBytes, bytes_to_write, named_page, replace_package, verified, write_package,
};
pub use folder::Folder;
pub use kinds::{check_kind, check_way};
pub use making::{NewFile, open_new, open_output, write_file};
pub use msi;
pub use msipkg_format as output;
pub use named_pages::pool_page;
pub use null_streams::{StreamColumn, has_null_streams, null_cells_in, null_cells_of};
pub use opening::{FileState, kind_name, new_package, open_package, open_to_change};
pub use properties::{page_of, set_properties, set_property};
pub use recoding::{
    PackageFile, Purpose, Recoded, file_page, page_in, read_file, recoded_by_page, recoded_instead,
};
pub use replacing::replace_file;
pub use streams::fill_stream;
pub use summary_texts::{property_text, set_property_text, uuid_text};
pub use tables::{
    PackageTables, cell_text, check_reserved, chosen_tables, is_list, rows_of, table_named,
};
pub use unlisted::TableNames;
pub use unread_summary::{note_summary, without_summary};
