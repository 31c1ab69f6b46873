//! What the crates above need beyond the surface.

pub use crate::spellings::{braced_uuid, language_list, language_text};
