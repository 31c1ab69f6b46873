//! The errors and warnings of packages, as `msipkg check` finds them.
#![tactic(auto)]

pub mod check;
mod counts;
mod keys;
mod reading;
mod reasons;
mod references;
mod report;
mod shown;
mod streams;
mod unlisted;
mod validation;
mod values;

pub use check::{CheckOptions, Checked, check_file};
