//! What the crates above need beyond the surface.

pub use crate::faults::fault;
pub use crate::overwriting::{go_to_start, hand_on};
pub use crate::reading::read_all;
pub use crate::writing::write_all;
