//! The values that take the places of marks.

use msipkg_format::{Failure, said};
use std::alloc::{AllocError, Global};

/// The value that takes the place of a mark.
pub struct MarkValue {
    literal: String,
    /// The file whose bytes a stream gets, if the value is a stream.
    file: Option<String>,
}

/// Written out, so that a function that owns one calls one drop, and its proof doesn't go through those of the parts.
impl Drop for MarkValue {
    fn drop(self) {
        let MarkValue {
            literal: _,
            file: _,
        } = self;
    }
}

impl MarkValue {
    /// Returns how it is spelled in a text.
    pub(crate) fn literal(&self) -> &str {
        self.literal.as_str()
    }

    pub(crate) fn file(&self) -> Option<&str> {
        match &self.file {
            Some(file) => Some(file.as_str()),
            None => None,
        }
    }
}

/// Words of the command line with the places where they were given, in order.
#[derive(Clone, Copy)]
struct GivenWords<'a, 'b> {
    words: &'b [&'a str],
    places: &'b [usize],
}

impl<'a> GivenWords<'a, '_> {
    fn place(self) -> Option<usize> {
        self.places.first().copied()
    }

    fn take(&mut self) -> Option<&'a str> {
        let word = *self.words.first()?;
        self.words = self.words.get(1..).unwrap_or(&[]);
        self.places = self.places.get(1..).unwrap_or(&[]);
        Some(word)
    }
}

/// Returns the values for marks, in the order of the places where they were given: of texts `NULL`, a number as it
/// prints, and a text for anything else, and of files streams.
///
/// # Errors
/// Fails if memory is refused.
pub fn mark_values(
    alloc: Global,
    texts: &[&str],
    text_places: &[usize],
    files: &[&str],
    file_places: &[usize],
) -> Result<Vec<MarkValue>, AllocError> {
    let mut values = Vec::new(alloc);
    let mut texts = GivenWords {
        words: texts,
        places: text_places,
    };
    let mut files = GivenWords {
        words: files,
        places: file_places,
    };
    for _ in 0..texts.words.len().saturating_add(files.words.len()) {
        let next = if is_before(texts.place(), files.place()) {
            text_value(alloc, texts.take())?
        } else {
            file_value(alloc, files.take())?
        };
        if let Some(value) = next {
            values.push(value)?;
        }
    }
    Ok(values)
}

fn is_before(place: Option<usize>, other: Option<usize>) -> bool {
    match (place, other) {
        (Some(place), Some(other)) => place < other,
        (Some(_), None) => true,
        (None, _) => false,
    }
}

fn text_value(alloc: Global, text: Option<&str>) -> Result<Option<MarkValue>, AllocError> {
    let Some(text) = text else {
        return Ok(None);
    };
    Ok(Some(MarkValue {
        literal: literal_of(alloc, text)?,
        file: None,
    }))
}

fn file_value(alloc: Global, file: Option<&str>) -> Result<Option<MarkValue>, AllocError> {
    let Some(file) = file else {
        return Ok(None);
    };
    Ok(Some(MarkValue {
        literal: String::from_str(alloc, "BINARY_STREAM")?,
        file: Some(String::from_str(alloc, file)?),
    }))
}

fn literal_of(alloc: Global, value: &str) -> Result<String, AllocError> {
    if value == "NULL" || is_printed_number(alloc, value)? {
        return String::from_str(alloc, value);
    }
    let mut literal = String::new(alloc);
    literal.push('\'')?;
    for c in value.chars() {
        if c == '\'' {
            literal.push(c)?;
        }
        literal.push(c)?;
    }
    literal.push('\'')?;
    Ok(literal)
}

/// Returns whether a value is how a number prints. Digits with a zero in front are a text, which would lose it.
fn is_printed_number(alloc: Global, value: &str) -> Result<bool, AllocError> {
    match value.parse::<i32>() {
        Ok(number) => {
            let printed = format!(in alloc; "{number}")?;
            Ok(printed.as_str() == value)
        }
        Err(_) => Ok(false),
    }
}

/// Refuses values of which there are more or fewer than marks.
///
/// # Errors
/// Fails with both numbers, and if memory is refused.
pub fn check_marks(alloc: Global, marks: usize, values: usize) -> Result<(), Failure> {
    if marks == values {
        return Ok(());
    }
    Err(said(format!(in alloc;
        "each ? takes a value: the number of ? is {marks}, and that of values is {values}"
    )))
}
