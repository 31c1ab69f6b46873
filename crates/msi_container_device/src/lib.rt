//! Readers and devices for packages and compound files, whose contracts speak of the bytes that they hold.
#![tactic(auto)]

pub mod buffered;
pub mod device;
pub mod faults;
pub mod laws;
pub mod memory;
pub mod metered;
mod overwriting;
pub mod parts;
mod reading;
pub mod reasons;
pub mod seekable;
pub mod source;
mod writing;

pub use buffered::Buffered;
pub use device::Device;
pub use memory::Memory;
pub use metered::Metered;
pub use seekable::Seekable;
pub use source::Source;
