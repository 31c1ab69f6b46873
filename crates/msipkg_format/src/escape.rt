//! Texts that are safe where they are printed: what a terminal would obey or not show, or what would end a line or a
//! field of one, is printed as an escape.

use std::fmt::{self, Write};
use unicode_width::UnicodeWidthStr;

/// What is printed as an escape.
#[derive(Clone, Copy)]
pub enum Escapes {
    /// Nothing: texts are printed as they are.
    Nothing,
    /// What ends lines and the fields of lines: line feeds, carriage returns and tabs.
    Breaks,
    /// What a terminal would obey or not show: all control characters, marks of direction and characters without
    /// width.
    Hidden,
}

/// A text that prints as it is, or with escapes: `\n`, `\r`, `\t`, and `\u{..}` for other characters. A backslash
/// prints as `\\` in a text that has something to be escaped, and only there.
#[derive(Clone, Copy)]
pub struct Shown<'a> {
    text: &'a str,
    /// What is escaped: nothing, if the text has nothing of it.
    escapes: Escapes,
}

impl<'a> Shown<'a> {
    /// Returns a text that prints with these escapes.
    pub fn new(escapes: Escapes, text: &'a str) -> Shown<'a> {
        if is_plain(escapes, text) {
            Shown {
                text,
                escapes: Escapes::Nothing,
            }
        } else {
            Shown { text, escapes }
        }
    }

    /// Returns a text that is safe on a terminal.
    pub fn escaped(text: &'a str) -> Shown<'a> {
        Shown::new(Escapes::Hidden, text)
    }

    /// Returns how many columns of a terminal it takes.
    pub fn width(&self) -> usize {
        if matches!(self.escapes, Escapes::Nothing) {
            return columns_of(self.text);
        }
        let mut counter = Counter { count: 0 };
        // Counting doesn't fail.
        let _ = write!(counter, "{self}");
        counter.count
    }
}

impl fmt::Display for Shown<'_> {
    fn fmt<W: fmt::Write>(&self, f: &mut fmt::Formatter<W>) -> fmt::Result {
        if matches!(self.escapes, Escapes::Nothing) {
            return f.write_str(self.text);
        }
        for c in self.text.chars() {
            write_escaped(self.escapes, c, f)?;
        }
        Ok(())
    }
}

fn write_escaped<W: fmt::Write>(
    escapes: Escapes,
    c: char,
    f: &mut fmt::Formatter<W>,
) -> fmt::Result {
    match c {
        '\n' => f.write_str("\\n"),
        '\r' => f.write_str("\\r"),
        '\t' => f.write_str("\\t"),
        '\\' => f.write_str("\\\\"),
        _ => {
            if matches!(escapes, Escapes::Hidden) && is_hidden(c) {
                let code = u32::from(c);
                write!(f, "\\u{{{code:x}}}")
            } else {
                f.write_char(c)
            }
        }
    }
}

/// What is printed, of which nothing is kept but the number of its columns.
#[derive(Drop)]
struct Counter {
    count: usize,
}

impl Write for Counter {
    fn write_str(&mut self, s: &str) -> fmt::Result {
        self.count = self.count.saturating_add(columns_of(s));
        Ok(())
    }
}

/// Returns how many columns of a terminal a text takes: a wide character takes two, and a combining mark none.
pub(crate) fn columns_of(text: &str) -> usize {
    if text.is_ascii() {
        text.len()
    } else {
        text.width()
    }
}

/// Returns whether a text has nothing that is printed as an escape. Most texts have nothing, and they are printed in
/// one piece.
pub(crate) fn is_plain(escapes: Escapes, text: &str) -> bool {
    match escapes {
        Escapes::Nothing => true,
        Escapes::Breaks => !has_control(text) || !has_break(text),
        Escapes::Hidden => is_printable(text) || !text.chars().any(is_hidden),
    }
}

/// Returns whether a text has a byte below the blank. All bytes are looked at, which takes less time than stopping at
/// the first one, since most texts have none.
fn has_control(text: &str) -> bool {
    let mut is_found = false;
    for byte in text.bytes() {
        is_found |= byte < b' ';
    }
    is_found
}

fn has_break(text: &str) -> bool {
    text.bytes()
        .any(|byte| matches!(byte, b'\n' | b'\r' | b'\t'))
}

/// Returns whether a text is ASCII without control characters: then it is as wide as it has bytes. All bytes are looked
/// at.
pub(crate) fn is_printable(text: &str) -> bool {
    let mut is_so = true;
    for byte in text.bytes() {
        is_so &= matches!(byte, b' '..=b'~');
    }
    is_so
}

/// Returns whether a terminal would obey a character, or not show it: control characters, marks of direction, and
/// characters without width.
pub fn is_hidden(c: char) -> bool {
    c.is_control()
        || matches!(
            u32::from(c),
            0xAD | 0x61C
                | 0x180E
                | 0x200B..=0x200F
                | 0x2028..=0x202E
                | 0x2060..=0x206F
                | 0xFEFF
                | 0xFFF9..=0xFFFB
                | 0xE0000..=0xE0FFF
        )
}
