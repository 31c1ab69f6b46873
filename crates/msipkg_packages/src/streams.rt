//! Writing streams.

use crate::output::{Failure, Opened};
use msi::Package;
use std::io::Write;

/// Stores bytes as the stream of a name, in the place of the one that has it.
///
/// # Errors
/// Fails as `Package::write_stream` does, and with `OutOfMemory`.
pub fn fill_stream(package: &mut Package<Opened>, name: &str, bytes: &[u8]) -> Result<(), Failure> {
    Ok(package.write_stream(name)?.write_all(bytes)?)
}
