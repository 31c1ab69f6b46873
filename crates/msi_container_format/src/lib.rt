//! The format of compound files: what they hold, the constants of the format, and the packed names of streams.
#![tactic(auto)]

mod bytes;
pub mod contents;
pub mod format;
pub mod laws;
pub mod name;
mod packing;
pub mod parts;
mod reasons;
pub mod streamname;
mod units;
