//! Categories of columns and the texts that they accept; languages, UUIDs and times of a package.
#![tactic(auto)]

pub mod category;
mod category_rules;
pub mod language;
pub mod laws;
pub mod parts;
pub mod reasons;
mod spellings;
pub mod timestamp;

pub use category::Category;
pub use language::LanguageId;
pub use timestamp::Timestamp;
