//! Places in files, for people.

use msipkg_format::Failure;
use std::alloc::{AllocError, Global};

pub(crate) fn part_of(
    alloc: Global,
    place: &str,
    kind: &str,
    name: &str,
) -> Result<String, AllocError> {
    format!(in alloc; "{place}: {kind} {name}")
}

/// Returns a failure at a part of a place in a file. If memory for its text is refused, the failure has no place.
pub(crate) fn at_part(
    alloc: Global,
    failure: Failure,
    place: &str,
    kind: &str,
    name: &str,
) -> Failure {
    match part_of(alloc, place, kind, name) {
        Ok(place) => failure.at(alloc, "file", place.as_str()),
        Err(_) => failure,
    }
}
