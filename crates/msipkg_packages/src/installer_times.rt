//! Times as the installer's tables have them, such as `2024/02/29 12:00:00`, in UTC.

use crate::output::TimeText;
use msi::Timestamp;
use std::alloc::{AllocError, Global};

/// Returns a time as the installer's tables have it. Parts of a second are behind a dot.
pub(crate) fn installer_time(alloc: Global, time: Timestamp) -> Result<String, AllocError> {
    let iso = TimeText(time).to_string(alloc)?;
    let mut text = String::new(alloc);
    for c in iso.as_str().chars() {
        match c {
            '-' => text.push('/')?,
            'T' => text.push(' ')?,
            'Z' => {}
            _ => text.push(c)?,
        }
    }
    Ok(text)
}

/// Converts a time of the installer's tables to ISO 8601. A number of ticks stays as it is.
pub(crate) fn iso_text(alloc: Global, text: &str) -> Result<String, AllocError> {
    if text.ends_with(" ticks") {
        return String::from_str(alloc, text);
    }
    let mut iso = String::new(alloc);
    for c in text.chars() {
        iso.push(if c == '/' { '-' } else { c })?;
    }
    iso.push('Z')?;
    Ok(iso)
}
