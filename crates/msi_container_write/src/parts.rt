//! What a package needs beside the public calls: contents whose streams lie in a map of its own.

pub use crate::writing::{image_of, image_to};
use msi_container_format::contents::StreamMap;

/// Contents whose streams are borrowed.
#[derive(Drop)]
pub struct BorrowedContents<'a> {
    /// The CLSID of the root, as `Contents` has it.
    pub clsid: [u8; 16],
    /// The streams of the root.
    pub streams: &'a StreamMap,
    /// Whether storages lie below the root.
    pub has_storages: bool,
}
