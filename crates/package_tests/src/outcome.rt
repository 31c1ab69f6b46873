//! How calls and tests end: whether a test passes, and what is printed if it doesn't.

use msi::{Error, ErrorKind};
use std::fmt::Display;

/// Returns whether a test found what it looked for. If it didn't, its name is printed to standard error, and so is the
/// error that it failed with.
pub(crate) fn passes<E: Display + Drop>(
    rt: &HostRuntime,
    test: &impl Display,
    found: Result<bool, E>,
) -> bool {
    match found {
        Ok(true) => return true,
        Ok(false) => {
            let _ = eprintln!(rt; "failed: {test}");
        }
        Err(error) => {
            let _ = eprintln!(rt; "failed: {test}: {error}");
        }
    }
    false
}

/// Returns why a call fails. What one returns that doesn't is dropped.
pub(crate) fn refusal<T: Drop>(answer: Result<T, Error>) -> Option<ErrorKind> {
    match answer {
        Ok(_value) => None,
        Err(error) => Some(error.kind()),
    }
}
