//! Cuts the text of a query into tokens, and says where a text is refused.
//!
//! `tokens::Tokens` goes over a text from token to token; `texts` reads what names, quotes and digits stand for, and
//! `names` writes names so that they are read back.
#![tactic(auto)]

pub mod laws;
mod lex;
pub mod names;
pub mod refusal;
pub mod texts;
pub mod token;
pub mod tokens;

pub use refusal::{Expected, ParseError, Refused};
