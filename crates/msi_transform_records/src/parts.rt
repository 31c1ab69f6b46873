//! What the crates above need beyond the surface.

pub use crate::row_cells::{added_cells, changed_cells, key_cells};
pub use crate::writing::push_record;
