//! Reads queries and expressions from text: what they print, and what people write.
//!
//! `Select::parse(alloc, "SELECT Name FROM Users WHERE Age >= 18")` returns the query for these rows. A text that
//! spells no query is refused with the byte of the token at which reading stops, and with what was expected there.
#![tactic(auto)]

mod expressions;
mod grammar;
pub mod laws;
mod names;
mod operators;
mod parse;
mod queries;
mod sources;
mod statement;
mod tables;
mod values;

pub use msi_query_tokens::{Expected, ParseError, Refused, refusal};
pub use parse::Parse;
pub use statement::Statement;
