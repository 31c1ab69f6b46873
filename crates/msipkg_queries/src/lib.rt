//! Queries and statements as users write them: the values for their marks, what is refused of texts that the library
//! reads, and where, and the empty text as null. It knows no package.
#![tactic(auto)]

pub mod caret;
mod comparing;
pub mod literals;
pub mod marks;
pub mod mistakes;
pub mod pieces;
pub mod reading;
mod rules;
pub mod spelled_values;
pub mod written;

pub use caret::refused_at;
pub use literals::SelectedLiteral;
pub use marks::{MarkValue, check_marks, mark_values};
pub use mistakes::session_sentence;
pub use reading::{Selection, read_select, read_statement};
pub use written::{Written, changes_table, mark_count, sets_only, stream_files};
