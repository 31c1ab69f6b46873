//! Packages whose texts are in any page, written with their texts in UTF-8: the string pool and the summary.
#![tactic(auto)]

mod counting;
mod errors;
mod head;
pub mod laws;
mod package;
mod page;
mod pool;
mod reader;
mod reasons;
mod summary;

pub use errors::RecodeError;
pub use package::{recode, recode_contents};
pub use page::TextPage;
pub use pool::{RecodedPool, recode_pool};
pub use reader::TextReader;
pub use summary::recode_summary;
