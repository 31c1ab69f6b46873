//! Writes a compound file (MS-CFB) in one layout, a function of its contents and of the length of the file that it
//! replaces.
#![tactic(auto)]

mod balance;
mod content;
mod directory;
mod entries;
mod extents;
mod index;
pub mod laws;
mod layout;
pub mod parts;
mod reasons;
mod regions;
mod tables;
mod totals;
mod writing;

pub use writing::{is_writable, write, write_to};
