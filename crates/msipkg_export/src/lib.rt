//! `export FILE [TABLE..]`: tables, or a whole package, as files that other programs read: JSON, CSV, and the text
//! archives of the installer (IDT files).
#![tactic(auto)]

mod archive_pages;
mod archive_parts;
mod archive_texts;
mod archives;
mod base64_texts;
mod csv_tables;
pub mod exporting;
mod folders;
mod json_packages;
mod losses;
mod other_archives;
mod table_archives;

pub use exporting::{FileFormat, Target, export, export_line};
