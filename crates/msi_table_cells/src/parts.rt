//! What the crates above need beyond the surface.

pub use crate::fitting::{MAX_ROWS, fits_table};
pub use crate::views::{compare_values, view_of_cell};
