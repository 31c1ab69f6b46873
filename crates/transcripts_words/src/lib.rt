//! The language of transcripts: their lines, the tokens of a call, bytes that are kept by name, devices that behave as
//! a call says, and reports of answers.
#![tactic(auto)]

pub mod answers;
pub mod calls;
pub mod columns;
pub mod containers;
pub mod contents;
pub mod counting;
pub mod failure;
pub mod files;
pub mod kept;
pub mod lines;
pub mod parsing;
pub mod reports;
pub mod rows;
pub mod texts;
pub mod tokens;
pub mod values;
pub mod words;
