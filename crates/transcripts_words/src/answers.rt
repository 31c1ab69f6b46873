//! What a call prints.

use crate::failure::Failure;
use std::alloc::Global;
use std::fmt::Display;

/// The bytes that an answer has room for at first, so that it takes no memory while a call is made that may be refused
/// some.
const ROOM: usize = 4096;

/// What a call prints. It keeps whether memory ran out, so that what prints to it returns nothing, and only who reads
/// the text has to ask.
#[derive(Drop)]
pub struct Answer {
    text: String,
    is_cut: bool,
}

impl Answer {
    /// Returns an answer to print to. Fails if memory runs out.
    pub fn new(alloc: Global) -> Result<Answer, Failure> {
        Ok(Answer {
            text: String::with_capacity(alloc, ROOM)?,
            is_cut: false,
        })
    }

    /// Prints a value, for `write!` and `writeln!`.
    pub fn write_fmt<D: Display + Drop>(&mut self, value: D) {
        self.is_cut |= self.text.write_fmt(value).is_err();
    }

    /// Prints a text.
    pub fn push_str(&mut self, text: &str) {
        self.is_cut |= self.text.push_str(text).is_err();
    }

    /// Prints a value, or `none` if there is none.
    pub fn push_option<D: Display + Drop>(&mut self, value: Option<D>) {
        match value {
            Some(value) => write!(self, "{value}"),
            None => self.push_str("none"),
        }
    }

    /// Forgets what was printed.
    pub fn clear(&mut self) {
        self.text.clear();
        self.is_cut = false;
    }

    /// Returns whether nothing was printed.
    pub fn is_empty(&self) -> bool {
        self.text.is_empty()
    }

    /// Returns what was printed.
    pub fn as_str(&self) -> &str {
        self.text.as_str()
    }

    /// Fails if memory ran out.
    pub fn check(&self) -> Result<(), Failure> {
        if self.is_cut {
            return Err(Failure::MEMORY);
        }
        Ok(())
    }
}
