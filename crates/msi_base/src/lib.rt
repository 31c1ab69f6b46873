//! The lowest layer: errors, texts, numbers as bytes, and code pages, which every other crate uses.
#![tactic(auto)]

mod buffer;
pub mod codepage;
pub mod errors;
mod faults;
pub mod fields;
pub mod laws;
mod part;
pub mod parts;
pub mod reasons;
pub mod shared_text;
pub mod text;

pub use codepage::CodePage;
pub use errors::{Error, ErrorKind, Reason};
pub use text::{IntoText, Items, Text};
