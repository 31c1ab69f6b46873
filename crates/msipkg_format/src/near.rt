//! The name that was meant.

use crate::Shown;
use std::alloc::{AllocError, Global};
use strsim::osa_distance;

/// The name that is nearest to another so far, and how many edits lead to it.
#[derive(Clone, Copy)]
struct Candidate<'a> {
    name: &'a str,
    edits: usize,
}

/// Returns the one of these names that few edits lead to from another one. Case is no edit.
fn nearest<'a>(
    alloc: Global,
    name: &str,
    names: &[&'a str],
) -> Result<Option<&'a str>, AllocError> {
    let mut found = None;
    for other in names {
        found = nearer(found, other, edits(alloc, name, other)?);
    }
    match found {
        Some(found) if found.edits <= name.len() / 3 => Ok(Some(found.name)),
        _ => Ok(None),
    }
}

fn nearer<'a>(found: Option<Candidate<'a>>, name: &'a str, edits: usize) -> Option<Candidate<'a>> {
    match found {
        Some(found) if found.edits <= edits => Some(found),
        _ => Some(Candidate { name, edits }),
    }
}

/// Returns how many edits lead from a name to another, or 0 where one only lacks the table in front.
fn edits(alloc: Global, name: &str, other: &str) -> Result<usize, AllocError> {
    let name = name.to_ascii_lowercase(alloc)?;
    let other = other.to_ascii_lowercase(alloc)?;
    if is_end_of(name.as_str(), other.as_str()) || is_end_of(other.as_str(), name.as_str()) {
        return Ok(0);
    }
    osa_distance(alloc, name.as_str(), other.as_str())
}

/// Returns whether a name is what another has behind a dot.
fn is_end_of(name: &str, other: &str) -> bool {
    match other.split_once('.') {
        Some((_, end)) => end == name,
        None => false,
    }
}

/// Returns the text that names the nearest of these names, behind a message, or the empty text where none is near.
///
/// # Errors
/// Fails if memory is refused.
pub fn near_text(alloc: Global, name: &str, names: &[&str]) -> Result<String, AllocError> {
    match nearest(alloc, name, names)? {
        Some(near) => {
            let near = Shown::escaped(near);
            format!(in alloc; "; near: {near}")
        }
        None => Ok(String::new(alloc)),
    }
}
