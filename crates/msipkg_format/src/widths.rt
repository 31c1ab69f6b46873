//! The widths of columns that are aligned with spaces.

use crate::escape::is_plain;
use crate::style::Style;
use msipkg_system::Output;
use std::alloc::{AllocError, Global};

/// How many characters are written at a time.
const PIECE: usize = 64;

/// How many spaces stand between two columns.
const GAP: usize = 2;

/// What columns are filled up with.
static SPACES: [u8; PIECE] = [b' '; PIECE];

/// What the line under the head is made of.
static DASHES: [u8; PIECE] = [b'-'; PIECE];

/// How wide columns are, in columns of a terminal: each as its widest text.
pub struct Widths {
    columns: Vec<usize>,
}

/// Written out, so that a function that owns one calls one drop, and its proof doesn't go through those of the parts.
impl Drop for Widths {
    fn drop(self) {
        let Widths { columns: _ } = self;
    }
}

impl Widths {
    /// Returns the widths of so many columns, none of which has a text yet.
    ///
    /// # Errors
    /// Fails if memory is refused.
    pub fn new(alloc: Global, columns: usize) -> Result<Widths, AllocError> {
        Ok(Widths {
            columns: vec![in alloc; 0usize; columns]?,
        })
    }

    /// Makes the column at a place wide enough for a text of this width.
    pub fn widen(&mut self, column: usize, width: usize) {
        if let Some(widest) = self.columns.get_mut(column) {
            *widest = width.max(*widest);
        }
    }

    /// Makes the column at a place wide enough for a text as the style prints it. Without escapes a text is no wider
    /// than it has bytes, so the width of most isn't asked for.
    pub fn widen_by_text(&mut self, column: usize, style: Style, text: &str) {
        if let Some(widest) = self.columns.get_mut(column)
            && (text.len() > *widest || !is_plain(style.escapes, text))
        {
            *widest = style.width(text).max(*widest);
        }
    }

    /// Fills up the text of the column at a place, which has this width. That of the last column isn't filled up.
    pub fn fill_up(&self, column: usize, width: usize, output: &mut Output) {
        let columns = self.columns.as_slice();
        if let [widest, _, ..] = columns.get(column..).unwrap_or(&[]) {
            let missing = widest.saturating_sub(width);
            write_filled(&SPACES, missing.saturating_add(GAP), output);
        }
    }

    /// Writes the line under the head.
    pub fn write_dashes(&self, output: &mut Output) {
        let mut before = "";
        for width in self.columns.as_slice() {
            output.push_str(before);
            write_filled(&DASHES, *width, output);
            before = "  ";
        }
        output.push_str("\n");
    }
}

fn write_filled(piece: &[u8; PIECE], count: usize, output: &mut Output) {
    for _ in 0..count / PIECE {
        output.push_bytes(piece.as_slice());
    }
    output.push_bytes(piece.get(..count % PIECE).unwrap_or(&[]));
}
