//! The words of `msipkg`'s command line: its commands with their arguments, and the words of a line of a batch.
#![tactic(auto)]

pub mod lines;
pub mod tables;
pub mod words;

pub use lines::words_of;
pub use tables::{QUERY_USAGE, Verb};
pub use words::{given_verb, matches_of};
