//! The lines of a transcript.

use crate::failure::Failure;
use std::alloc::Global;
use std::mem;

/// A line, and its number in the file.
pub struct Line {
    /// The number, from 1 on; lines of a block keep theirs each time that they are repeated.
    pub number: usize,
    text: String,
}

/// Written out, so that a function that owns one calls one drop.
impl Drop for Line {
    fn drop(self) {
        let Line { number: _, text: _ } = self;
    }
}

impl Line {
    /// Returns the text, with the blanks at its beginning.
    pub fn text(&self) -> &str {
        self.text.as_str()
    }

    /// Returns whether the line has a call on the reader or the writer of a stream.
    pub fn is_cursor_call(&self) -> bool {
        self.text().starts_with(' ') && !self.is_answer() && !self.is_comment()
    }

    /// Returns whether the line has another call.
    pub fn is_call(&self) -> bool {
        let text = self.text();
        !text.is_empty() && !text.starts_with(' ') && !self.is_answer() && !self.is_comment()
    }

    pub(crate) fn is_answer(&self) -> bool {
        self.text().trim_start().starts_with('>')
    }

    fn is_comment(&self) -> bool {
        self.text().trim_start().starts_with('#')
    }

    pub(crate) fn expected(&self) -> &str {
        let text = self.text().trim_start();
        text.strip_prefix("> ").unwrap_or("")
    }
}

/// What was read of a transcript.
struct Reader {
    lines: Vec<Line>,
    /// The rows behind `foreach`, as long as the lines of its block are read.
    rows: Vec<String>,
    /// These lines.
    block: Vec<Line>,
}

/// Written out, so that a function that owns one calls one drop.
impl Drop for Reader {
    fn drop(self) {
        let Reader {
            lines: _,
            rows: _,
            block: _,
        } = self;
    }
}

impl Reader {
    fn read(&mut self, alloc: Global, number: usize, text: &str) -> Result<(), Failure> {
        if let Some(rows) = text.strip_prefix("foreach ") {
            return push_rows(alloc, &mut self.rows, rows);
        }
        if text == "end" {
            return self.end(alloc);
        }
        let text = String::from_str(alloc, text)?;
        let line = Line { number, text };
        if self.rows.is_empty() {
            self.lines.push(line)?;
        } else {
            self.block.push(line)?;
        }
        Ok(())
    }

    fn into_lines(self) -> Result<Vec<Line>, Failure> {
        let Reader {
            lines,
            rows,
            block: _,
        } = self;
        if rows.is_empty() {
            Ok(lines)
        } else {
            Err(Failure::Unreadable("a block has no end"))
        }
    }

    /// Repeats the lines of a block, once for each of its rows.
    fn end(&mut self, alloc: Global) -> Result<(), Failure> {
        let rows = mem::replace(&mut self.rows, Vec::new(alloc));
        let block = mem::replace(&mut self.block, Vec::new(alloc));
        for row in &rows {
            push_filled(alloc, &mut self.lines, block.as_slice(), row.as_str())?;
        }
        Ok(())
    }
}

fn push_rows(alloc: Global, rows: &mut Vec<String>, text: &str) -> Result<(), Failure> {
    for row in text.split('|') {
        rows.push(String::from_str(alloc, row.trim())?)?;
    }
    Ok(())
}

fn push_filled(
    alloc: Global,
    lines: &mut Vec<Line>,
    block: &[Line],
    row: &str,
) -> Result<(), Failure> {
    for line in block {
        let text = filled(alloc, line.text(), row)?;
        let number = line.number;
        lines.push(Line { number, text })?;
    }
    Ok(())
}

/// Returns a text with the first field of a row in place of `$1`, and so on, the whole row in place of `$0`, and `$` in
/// place of `$$`.
fn filled(alloc: Global, text: &str, row: &str) -> Result<String, Failure> {
    let mut filled = String::new(alloc);
    let mut is_field = false;
    for c in text.chars() {
        match c.to_digit(10) {
            Some(digit) if is_field => filled.push_str(field(row, digit))?,
            _ if c == '$' && !is_field => {}
            _ => filled.push(c)?,
        }
        is_field = c == '$' && !is_field;
    }
    Ok(filled)
}

/// Returns the field of a number, which is between commas.
fn field(row: &str, number: u32) -> &str {
    match number.checked_sub(1) {
        Some(place) => row.split(',').nth(place as usize).unwrap_or("").trim(),
        None => row,
    }
}

/// Returns the lines of a transcript, those between `foreach` and `end` once for each row. Fails if a block has no end,
/// and if memory runs out.
pub fn lines(alloc: Global, text: &str) -> Result<Vec<Line>, Failure> {
    let mut reader = Reader {
        lines: Vec::new(alloc),
        rows: Vec::new(alloc),
        block: Vec::new(alloc),
    };
    for (i, line) in text.lines().enumerate() {
        reader.read(alloc, i.saturating_add(1), line)?;
    }
    reader.into_lines()
}
