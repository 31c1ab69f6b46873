//! Lines on their way to a writer.

use msi::Error;
use std::alloc::{AllocError, Global};
use std::fmt::Display;
use std::io::Write;

/// How many bytes are collected before they go to the writer.
const CAPACITY: usize = 64 * 1024;

/// Lines that are collected, since each alone would be a call of the system. They keep whether memory was refused, so
/// what writes a line returns nothing, and who hands them on is told.
pub(crate) struct Lines {
    bytes: Vec<u8>,
    is_cut: bool,
}

/// Written out, so that a function that owns some calls one drop.
impl Drop for Lines {
    fn drop(self) {
        let Lines {
            bytes: _,
            is_cut: _,
        } = self;
    }
}

impl Lines {
    pub(crate) fn new(alloc: Global) -> Lines {
        Lines {
            bytes: Vec::new(alloc),
            is_cut: false,
        }
    }

    pub(crate) fn write_fmt<D: Display + Drop>(&mut self, value: D) {
        self.is_cut |= self.bytes.write_fmt(value).is_err();
    }

    pub(crate) fn push_str(&mut self, text: &str) {
        self.is_cut |= self.bytes.extend_from_slice(text.as_bytes()).is_err();
    }

    /// Returns whether enough is collected to be handed on.
    pub(crate) fn are_many(&self) -> bool {
        self.bytes.len() >= CAPACITY
    }

    /// Hands on what is collected. Fails with `OutOfMemory` if memory was refused for a line.
    pub(crate) fn hand_on<W: Write>(&mut self, output: &mut W) -> Result<(), Error> {
        if self.is_cut {
            return Err(Error::from(AllocError));
        }
        output.write_all(self.bytes.as_slice())?;
        self.bytes.clear();
        Ok(())
    }

    pub(crate) fn end<W: Write>(&mut self, output: &mut W) -> Result<(), Error> {
        self.hand_on(output)?;
        output.flush()?;
        Ok(())
    }
}
