//! `diff A B`: what differs between two packages, and how differences are printed.
#![tactic(auto)]

pub mod columns;
pub mod diff;
pub mod difference;
mod facts;
mod matching;
mod numbering;
mod report;
mod rows;
mod streams;
mod tables;

pub use columns::report_added_column;
pub use diff::compare_files;
pub use difference::{Change, Content, Difference, Member};
pub use report::Report;
