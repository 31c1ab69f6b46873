//! Bytes that are compared as they come.

use std::io::{self, Write};

/// What compares the bytes that are written to it with others.
#[derive(Clone, Copy)]
pub(crate) struct Matcher<'a> {
    /// Those that are still to come.
    wanted: &'a [u8],
    is_match: bool,
}

impl<'a> Matcher<'a> {
    pub(crate) fn new(wanted: &'a [u8]) -> Matcher<'a> {
        Matcher {
            wanted,
            is_match: true,
        }
    }

    /// Returns whether all bytes came, and no other.
    pub(crate) fn is_match(&self) -> bool {
        self.is_match && self.wanted.is_empty()
    }
}

impl Write for Matcher<'_> {
    fn write(&mut self, buf: &[u8]) -> io::Result<usize> {
        match self.wanted.strip_prefix(buf) {
            Some(rest) => self.wanted = rest,
            None => self.is_match = false,
        }
        Ok(buf.len())
    }

    fn flush(&mut self) -> io::Result<()> {
        Ok(())
    }
}
