//! `streams FILE`: the names of a package's streams, and how many bytes they have.

use crate::listing::{Listing, Subject};
use crate::tables::note_unread;
use msipkg_format::Style;
use msipkg_looking::{PackageView, StoredNames};
use msipkg_packages::output::{Failure, Output};
use std::alloc::Global;

/// What is printed of streams.
static STREAMS: Subject = Subject {
    heads: ["Stream", "Bytes"],
    list: "streams",
    members: ["stream", "bytes"],
};

/// Prints the name and the length of each stream, and returns whether all streams can be found. One that can't be has
/// no number, and a line in `notes`.
pub(crate) fn print_streams(
    alloc: Global,
    style: Style,
    file: &str,
    package: &mut PackageView,
    is_json: bool,
    output: &mut Output,
    notes: &mut Output,
) -> Result<bool, Failure> {
    let stored = package.stored_names()?;
    let mut listing = Listing::new(alloc, style, file, is_json, &STREAMS);
    let mut is_read = true;
    for name in &package.stream_names()? {
        let name = name.as_str();
        let count = count_or_note(alloc, file, package, stored.as_ref(), name, notes);
        is_read &= count.is_some();
        listing.put(name, count);
    }
    listing.print(output);
    Ok(is_read)
}

fn count_or_note(
    alloc: Global,
    file: &str,
    package: &mut PackageView,
    stored: Option<&StoredNames>,
    name: &str,
    notes: &mut Output,
) -> Option<u64> {
    match package.stream_length(stored, name) {
        Ok(length) => Some(length),
        Err(error) => {
            let failure = Failure::from(error).at(alloc, "stream", name);
            note_unread(file, &failure, notes);
            None
        }
    }
}
