//! Calls on files.

use crate::answers::Answer;
use crate::failure::Failure;
use crate::kept::Kept;
use crate::words::Words;
use std::fs;

/// Writes bytes that are kept to a file, whose path comes last, or keeps those of a file for `load`, and prints that it
/// was done. Fails if no bytes have the name, and if the file can't be written or read.
pub fn make(
    rt: &HostRuntime,
    kept: &mut Kept,
    verb: &str,
    words: &mut Words,
    answer: &mut Answer,
) -> Result<(), Failure> {
    let (name, path) = (words.name(), words.name());
    words.end()?;
    if verb == "load" {
        kept.reserve(rt.alloc(), name)?;
        kept.keep(name, fs::read(rt, path)?);
    } else {
        fs::write(rt, path, kept.bytes(name)?)?;
    }
    answer.push_str("ok");
    Ok(())
}
