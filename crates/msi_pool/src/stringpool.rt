//! The string pool: the texts that a package's tables refer to by number (`_StringPool` and `_StringData`).

mod indexed;
mod pool;
pub(crate) mod reading;
mod reference;
mod writable;
pub(crate) mod writing;

pub use indexed::IndexedPool;
pub use msi_pool_places::{MAX_CELLS, MAX_PLACES, MAX_SHORT_PLACES, Operations};
pub use pool::StringPool;
pub use reading::StringPoolBuilder;
pub use reference::StringRef;
