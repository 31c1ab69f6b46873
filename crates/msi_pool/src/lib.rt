//! The string pool, the texts that cells of a database refer to: reads and writes its streams, and counts references.
#![tactic(auto)]

pub mod laws;
pub mod parts;
pub mod pool_streams;
pub mod reasons;
pub mod stringpool;

pub use msi_pool_places::encoded_len;
pub use stringpool::{IndexedPool, Operations, StringPool, StringPoolBuilder, StringRef};
