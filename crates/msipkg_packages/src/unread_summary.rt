//! Packages whose summary can't be read: the rest of them, with an empty summary in its place.

use crate::recoding::{PackageFile, Recoded, read_file, recoded_or_plain};
use msi::compound::{self, Bytes, Name, StreamMap};
use msi::{Error, streamname};
use msipkg_format::{Failure, Output, Shown, System};
use std::alloc::Global;

/// The stream of a summary without properties: the header of its form, and a section of eight bytes that lists none.
static EMPTY: [u8; 56] = [
    0xFE, 0xFF, 0, 0, 0x0A, 0, 0x02, 0, 0, 0, 0, 0, 0, 0, 0, 0, 0, 0, 0, 0, 0, 0, 0, 0, 0x01, 0, 0,
    0, 0xE0, 0x85, 0x9F, 0xF2, 0xF9, 0x4F, 0x68, 0x10, 0xAB, 0x91, 0x08, 0, 0x2B, 0x27, 0xB3, 0xD9,
    0x30, 0, 0, 0, 0x08, 0, 0, 0, 0, 0, 0, 0,
];

/// Returns the bytes of a file's package with an empty summary, and with its texts in UTF-8 where they have to be
/// recoded.
///
/// # Errors
/// Fails if the file can't be read or is no container, and at a text that its page doesn't read.
pub fn without_summary(rt: &System, file: &PackageFile<'_>) -> Result<Recoded, Failure> {
    let mut contents = compound::read_shared(rt.alloc(), read_file(rt, file.path)?)?;
    empty_summary(rt.alloc(), &mut contents.streams)?;
    recoded_or_plain(rt.alloc(), contents, file)
}

/// Writes a line that says why the summary of a file can't be read.
pub fn note_summary(file: &PackageFile<'_>, failure: &Failure, notes: &mut Output) {
    let path = Shown::escaped(file.path);
    writeln!(
        notes,
        "msipkg: {path}: the summary can't be read: {failure}"
    );
}

fn empty_summary(alloc: Global, streams: &mut StreamMap) -> Result<(), Error> {
    let mut bytes = Vec::new(alloc);
    bytes.extend_from_slice(EMPTY.as_slice())?;
    let name = Name::new(streamname::SUMMARY_INFO_STREAM_NAME)?;
    streams.insert(name, Bytes::from_vec(bytes))?;
    Ok(())
}
