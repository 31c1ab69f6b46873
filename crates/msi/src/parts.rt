//! What the crates above need beyond the surface.

pub use crate::renewing::{contents_under, put_all, renewed_streams, settled_copy};
pub use msi_container_device::parts::{fault, read_all, write_all};
pub use msi_query::parts::{deleted_rows, row_count, updated_rows};
pub use msi_streams::keys::{accepted_key, checked_key};
