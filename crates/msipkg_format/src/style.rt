//! Where the output goes, and what of its texts is escaped.

use crate::escape::{Escapes, Shown, is_plain, is_printable};
use msipkg_system::Output;

/// How texts are printed.
#[derive(Clone, Copy)]
pub struct Style {
    /// Whether people read the output on a terminal.
    pub is_terminal: bool,
    /// What is printed as an escape.
    pub escapes: Escapes,
}

impl Style {
    /// Returns a text as it is printed.
    pub fn show<'a>(self, text: &'a str) -> Shown<'a> {
        Shown::new(self.escapes, text)
    }

    /// Returns whether all that a terminal would obey or not show is escaped.
    pub fn escapes_hidden(self) -> bool {
        matches!(self.escapes, Escapes::Hidden)
    }

    /// Returns how many columns of a terminal a text takes as it is printed.
    pub fn width(self, text: &str) -> usize {
        if is_printable(text) {
            text.len()
        } else {
            self.show(text).width()
        }
    }

    /// Prints a text.
    pub fn print(self, text: &str, output: &mut Output) {
        if is_plain(self.escapes, text) {
            output.push_str(text);
        } else {
            write!(output, "{}", self.show(text));
        }
    }
}
