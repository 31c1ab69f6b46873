//! Texts, values and rows as findings show them: with escapes, and long texts cut.

use msipkg_format::Shown;
use msipkg_packages::msi::{Column, Rows, ValueView};
use std::alloc::{AllocError, Global};
use std::fmt::{self, Display};

/// How many characters of a text are shown.
const MOST: usize = 200;

/// A text that prints with escapes; past its first 200 characters `...` stands for the rest.
#[derive(Clone, Copy)]
pub(crate) struct Cut<'a>(pub(crate) &'a str);

impl Display for Cut<'_> {
    fn fmt<W: fmt::Write>(&self, f: &mut fmt::Formatter<W>) -> fmt::Result {
        match front_of(self.0) {
            Some(front) => write!(f, "{}...", Shown::escaped(front)),
            None => Shown::escaped(self.0).fmt(f),
        }
    }
}

/// Returns the first characters of a text, if it has more of them.
fn front_of(text: &str) -> Option<&str> {
    let (place, _) = text.char_indices().nth(MOST)?;
    text.get(..place)
}

/// A value that prints as in a message: a text in quotes.
#[derive(Clone, Copy)]
pub(crate) struct ShownValue<'a>(pub(crate) ValueView<'a>);

impl Display for ShownValue<'_> {
    fn fmt<W: fmt::Write>(&self, f: &mut fmt::Formatter<W>) -> fmt::Result {
        match self.0 {
            ValueView::Null => f.write_str("null"),
            ValueView::Int(number) => number.fmt(f),
            ValueView::Str(text) => write!(f, "'{}'", Cut(text)),
            ValueView::Binary => f.write_str("a stream"),
        }
    }
}

/// Returns the name of the next row: the values of its key, separated by slashes, as they are shown. A row without a
/// key has its number.
pub(crate) fn row_name(
    alloc: Global,
    rows: &Rows<'_>,
    number: usize,
) -> Result<String, AllocError> {
    let mut name = RowName::new(alloc);
    for (place, column) in rows.columns().iter().enumerate() {
        name.push(column, rows.get(place).unwrap_or(ValueView::Null))?;
    }
    name.or_number(number)
}

/// The name of a row, to which the values of its key are added.
struct RowName {
    text: String,
    has_key: bool,
}

/// Written out, so that a function that owns one calls one drop, and its proof doesn't go through those of the parts.
impl Drop for RowName {
    fn drop(self) {
        let RowName {
            text: _,
            has_key: _,
        } = self;
    }
}

impl RowName {
    fn new(alloc: Global) -> RowName {
        RowName {
            text: String::new(alloc),
            has_key: false,
        }
    }

    fn push(&mut self, column: &Column, value: ValueView<'_>) -> Result<(), AllocError> {
        if !column.is_primary_key() {
            return Ok(());
        }
        if self.has_key {
            self.text.push('/')?;
        }
        self.has_key = true;
        match value {
            ValueView::Int(number) => self.text.write(number),
            ValueView::Str(text) => self.text.write(Cut(text)),
            ValueView::Null | ValueView::Binary => Ok(()),
        }
    }

    fn or_number(mut self, number: usize) -> Result<String, AllocError> {
        if !self.has_key {
            self.text.write(number)?;
        }
        let RowName { text, has_key: _ } = self;
        Ok(text)
    }
}
