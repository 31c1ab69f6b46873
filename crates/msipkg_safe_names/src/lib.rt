//! Names of the files that streams and tables are written to, whatever their own names are. It knows no package.
#![tactic(auto)]

pub mod laws;
pub mod safe_names;

pub use safe_names::{Ending, SafeName, SafeNames, safe_name};
