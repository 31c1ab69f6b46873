//! What messages say of values.

use crate::{Cause, Failure, Shown};
use msi_table::Value;
use std::alloc::{AllocError, Global};

/// How many characters of a text are shown at most.
const MOST_SHOWN: usize = 60;

/// Returns a failure of this text, or that of memory.
pub fn said(text: Result<String, AllocError>) -> Failure {
    match text {
        Ok(text) => Failure::new(Cause::Shown(text)),
        Err(error) => Failure::from(error),
    }
}

/// Returns a value as messages show it. A long text is cut.
///
/// # Errors
/// Fails if memory is refused.
pub fn shown_value(alloc: Global, value: &Value) -> Result<String, AllocError> {
    match value {
        Value::Null => String::from_str(alloc, "null"),
        Value::Int(number) => format!(in alloc; "{number}"),
        Value::Str(text) => shown_text(alloc, text.as_str()),
        Value::Binary => String::from_str(alloc, "a stream"),
    }
}

fn shown_text(alloc: Global, text: &str) -> Result<String, AllocError> {
    let (shown, more) = match text.char_indices().nth(MOST_SHOWN) {
        Some((end, _)) => (text.get(..end).unwrap_or(""), ".."),
        None => (text, ""),
    };
    let shown = Shown::escaped(shown);
    format!(in alloc; "'{shown}{more}'")
}
