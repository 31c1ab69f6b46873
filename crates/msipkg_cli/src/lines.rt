//! The words of a line.

use std::alloc::{AllocError, Global};
use std::mem;

/// Returns the words of a line: parted by blanks, which `"` and `'` keep. There are none if a quote isn't closed.
///
/// # Errors
/// Fails if memory is refused.
pub fn words_of(alloc: Global, line: &str) -> Result<Option<Vec<String>>, AllocError> {
    let mut splitter = Splitter {
        alloc,
        words: Vec::new(alloc),
        word: String::new(alloc),
        is_begun: false,
        quote: None,
    };
    splitter.take_all(line)?;
    if splitter.quote.is_some() {
        return Ok(None);
    }
    Ok(Some(splitter.into_words()))
}

/// A word that is being read.
struct Splitter {
    alloc: Global,
    words: Vec<String>,
    word: String,
    /// Whether a word has begun, which may be empty where it is quoted.
    is_begun: bool,
    /// The quote that is open.
    quote: Option<char>,
}

/// Written out, so that a function that owns one calls one drop, and its proof doesn't go through those of the parts.
impl Drop for Splitter {
    fn drop(self) {
        let Splitter {
            alloc: _,
            words: _,
            word: _,
            is_begun: _,
            quote: _,
        } = self;
    }
}

impl Splitter {
    fn into_words(self) -> Vec<String> {
        let Splitter {
            alloc: _,
            words,
            word: _,
            is_begun: _,
            quote: _,
        } = self;
        words
    }

    fn take_all(&mut self, line: &str) -> Result<(), AllocError> {
        for c in line.chars() {
            self.take(c)?;
        }
        self.end()
    }

    fn take(&mut self, c: char) -> Result<(), AllocError> {
        match self.quote {
            Some(quote) if c == quote => self.quote = None,
            Some(_) => self.word.push(c)?,
            None if c == ' ' => self.end()?,
            None => self.take_bare(c)?,
        }
        Ok(())
    }

    /// Takes a character outside quotes that isn't a blank.
    fn take_bare(&mut self, c: char) -> Result<(), AllocError> {
        self.is_begun = true;
        if matches!(c, '"' | '\'') {
            self.quote = Some(c);
            return Ok(());
        }
        self.word.push(c)
    }

    fn end(&mut self) -> Result<(), AllocError> {
        if self.is_begun {
            let next = String::new(self.alloc);
            self.words.push(mem::replace(&mut self.word, next))?;
        }
        self.is_begun = false;
        Ok(())
    }
}
