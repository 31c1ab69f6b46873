//! Copies of streams.

ghost use Rattle.std.specs.Prelude.{◌≡◌, IfOk};
ghost use Rattle.msi_base.specs.Results.{OnlyMemory};

use msi_base::errors::Error;
use msi_container_format::contents::{Bytes, StreamMap};
use std::alloc::{AllocError, Global};

/// Returns a copy of bytes. The only error is that memory was refused.
pub fn copied_bytes(alloc: Global, bytes: &[u8]) -> Result<Bytes, AllocError>
    ensures { IfOk result (λ copy. copy ≡ bytes.now) }
{
    let mut held = Vec::new(alloc);
    held.extend_from_slice(bytes)?;
    Ok(Bytes::from_vec(held))
}

/// Returns a copy of streams. Those that share a file's bytes share them on.
///
/// # Errors
/// Fails with `OutOfMemory`.
pub fn copied_streams(alloc: Global, streams: &StreamMap) -> Result<StreamMap, Error>
    ensures ok { IfOk result (λ copy. copy ≡ streams.now) }
    ensures kind { OnlyMemory result }
{
    let mut copy = StreamMap::new(alloc);
    for (name, bytes) in streams.iter() {
        copy.insert(name.duplicate(), bytes.clone()?)?;
    }
    Ok(copy)
}
