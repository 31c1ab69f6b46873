//! Times, keys and the names of streams as texts.

use msi_categories::Timestamp;
use msi_table::{Rows, ValueView};
use std::alloc::{AllocError, Global};
use std::fmt;

/// A time, which prints in UTC as ISO 8601 has it, as `2024-02-29T12:00:00Z`. One past the year 9999 is the number of
/// its ticks of 100 ns since 1601, as `5 ticks`.
#[derive(Clone, Copy)]
pub struct TimeText(pub Timestamp);

impl fmt::Display for TimeText {
    fn fmt<W: fmt::Write>(&self, f: &mut fmt::Formatter<W>) -> fmt::Result {
        match instant_of(self.0) {
            Some(instant) => instant.fmt(f),
            None => write!(f, "{} ticks", self.0.ticks()),
        }
    }
}

/// Returns the instant of a time, if it lies before the year 10000.
fn instant_of(time: Timestamp) -> Option<jiff::Timestamp> {
    let (seconds, nanoseconds) = time.to_unix();
    let nanoseconds = i32::try_from(nanoseconds).ok()?;
    jiff::Timestamp::new(seconds, nanoseconds).ok()
}

/// Puts the text of a key's value behind another: a number in decimal, and nothing for null and streams.
///
/// # Errors
/// Fails if memory is refused.
pub fn push_key(value: ValueView<'_>, text: &mut String) -> Result<(), AllocError> {
    match value {
        ValueView::Int(number) => text.write(number),
        ValueView::Str(value) => text.push_str(value),
        ValueView::Null | ValueView::Binary => Ok(()),
    }
}

/// How many characters a stream's name has at most: two of them are packed into one of the 31 that a file stores.
const MOST_CHARACTERS: usize = 62;

/// Returns the name of the next row's stream: its table and the values of its key, parted by dots, as `Icon.App`. There
/// is none if it would be longer than names of streams are.
///
/// # Errors
/// Fails if memory is refused.
pub fn stream_name(
    alloc: Global,
    table: &str,
    rows: &Rows<'_>,
) -> Result<Option<String>, AllocError> {
    let mut name = String::from_str(alloc, table)?;
    for (place, column) in rows.columns().iter().enumerate() {
        if column.is_primary_key() && !push_part(rows.get(place), &mut name)? {
            return Ok(None);
        }
    }
    Ok(short_name(name))
}

/// Returns the name of the stream of a table's row, as `stream_name` does, where the next row has the values of the key
/// at these places: that of a join has columns of several tables.
///
/// # Errors
/// Fails if memory is refused.
pub fn stream_name_by(
    alloc: Global,
    table: &str,
    keys: &[usize],
    rows: &Rows<'_>,
) -> Result<Option<String>, AllocError> {
    let mut name = String::from_str(alloc, table)?;
    for place in keys {
        if !push_part(rows.get(*place), &mut name)? {
            return Ok(None);
        }
    }
    Ok(short_name(name))
}

/// Puts a dot and the text of a key's value behind a name. Returns false if the name would be too long.
fn push_part(value: Option<ValueView<'_>>, name: &mut String) -> Result<bool, AllocError> {
    let value = value.unwrap_or(ValueView::Null);
    if is_too_long(value) {
        return Ok(false);
    }
    name.push('.')?;
    push_key(value, name)?;
    Ok(true)
}

fn short_name(name: String) -> Option<String> {
    let has_room = name.as_str().chars().count() <= MOST_CHARACTERS;
    if has_room { Some(name) } else { None }
}

/// Returns whether a value has more bytes than any text of so many characters.
fn is_too_long(value: ValueView<'_>) -> bool {
    match value {
        ValueView::Str(text) => text.len() > 4 * MOST_CHARACTERS,
        ValueView::Null | ValueView::Int(_) | ValueView::Binary => false,
    }
}
