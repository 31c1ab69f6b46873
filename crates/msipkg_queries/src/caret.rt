//! Where a text is refused, drawn for people: its line, and a caret under the place.

use msipkg_format::{Failure, Shown, said};
use std::alloc::{AllocError, Global};

/// How many characters of a line are shown in front of the place at most.
const MOST_BEFORE: usize = 50;

/// How many are shown from the place on.
const MOST_BEHIND: usize = 30;

/// The line of a text that has a place.
#[derive(Clone, Copy)]
struct Line<'a> {
    /// What stands in front of the place.
    before: &'a str,
    /// What stands from the place on.
    behind: &'a str,
}

/// Returns the failure of a text that is refused at a place, in bytes: this sentence, and below it the line with a
/// caret.
pub fn refused_at(alloc: Global, text: &str, place: usize, sentence: &str) -> Failure {
    let failure = said(drawing(alloc, line_of(text, place), sentence));
    match place_name(alloc, text, place) {
        Ok(name) => failure.at(alloc, "at", name.as_str()),
        Err(error) => Failure::from(error),
    }
}

/// Returns the line of a text that has a place. The end of the text is on its last line that isn't empty.
fn line_of(text: &str, place: usize) -> Line<'_> {
    let end = text.trim_end().len();
    let (before, behind) = match text.split_at_checked(place.min(end)) {
        Some(parts) => parts,
        None => (text, ""),
    };
    Line {
        before: match before.rsplit_once('\n') {
            Some((_, line)) => line,
            None => before,
        },
        behind: match behind.split_once('\n') {
            Some((line, _)) => line.trim_end(),
            None => behind.trim_end(),
        },
    }
}

fn drawing(alloc: Global, line: Line<'_>, sentence: &str) -> Result<String, AllocError> {
    let before = last_part(line.before);
    let behind = first_part(line.behind);
    let start = if before.len() < line.before.len() {
        ".."
    } else {
        ""
    };
    let end = if behind.len() < line.behind.len() {
        ".."
    } else {
        ""
    };
    let (before, behind) = (Shown::escaped(before), Shown::escaped(behind));
    let mut drawing = format!(in alloc; "{sentence}\n  {start}{before}{behind}{end}\n  ")?;
    for _ in 0..start.len().saturating_add(before.width()) {
        drawing.push(' ')?;
    }
    drawing.push('^')?;
    Ok(drawing)
}

fn last_part(text: &str) -> &str {
    let skipped = text.chars().count().saturating_sub(MOST_BEFORE);
    match text.char_indices().nth(skipped) {
        Some((start, _)) => text.get(start..).unwrap_or(""),
        None => "",
    }
}

fn first_part(text: &str) -> &str {
    match text.char_indices().nth(MOST_BEHIND) {
        Some((end, _)) => text.get(..end).unwrap_or(""),
        None => text,
    }
}

/// Returns how a place is named: by its byte, counted from 0 on, or in a text of several lines by its line and its
/// column, counted from 1 on.
fn place_name(alloc: Global, text: &str, place: usize) -> Result<String, AllocError> {
    if !text.trim_end().contains('\n') {
        return format!(in alloc; "byte {place}");
    }
    let line = line_of(text, place);
    let column = line.before.chars().count().saturating_add(1);
    let number = line_number(text, place);
    format!(in alloc; "line {number}, column {column}")
}

fn line_number(text: &str, place: usize) -> usize {
    let end = text.trim_end().len();
    let before = text.get(..place.min(end)).unwrap_or(text);
    before
        .chars()
        .filter(|c| *c == '\n')
        .count()
        .saturating_add(1)
}
