//! The compound file: named streams in one file (MS-CFB).

pub use msi_container_device::{Buffered, Device, Memory, Metered, Source};
pub use msi_container_format::contents::{Bytes, Contents, StreamMap};
pub use msi_container_format::name::Name;
pub use msi_container_read::{
    Listing, Sizes, Steps, Storage, list, list_storages, read, read_counted, read_shared,
    read_storage,
};
pub use msi_container_write::{is_writable, write, write_to};
