//! Bytes as base64, printed as they come.

use base64::engine::general_purpose::STANDARD;
use msipkg_packages::output::Output;
use std::alloc::Global;
use std::io::{self, Write};

/// How many bytes are printed at a time. Three of them are four signs, so that the pieces join.
const PIECE: usize = 48 * 1024;

/// What prints bytes as base64. Those that make no piece yet wait for more, or for `end`.
pub(crate) struct Encoder<'a> {
    alloc: Global,
    waiting: Vec<u8>,
    output: &'a mut Output,
}

/// Written out, so that a function that owns one calls one drop, and its proof doesn't go through those of the parts.
impl Drop for Encoder<'_> {
    fn drop(self) {
        let Encoder {
            alloc: _,
            waiting: _,
            output: _,
        } = self;
    }
}

impl<'a> Encoder<'a> {
    pub(crate) fn new(alloc: Global, output: &'a mut Output) -> Encoder<'a> {
        Encoder {
            alloc,
            waiting: Vec::new(alloc),
            output,
        }
    }

    /// Prints what waits.
    pub(crate) fn end(mut self) {
        self.print();
    }

    fn print(&mut self) {
        match STANDARD.encode(self.alloc, self.waiting.as_slice()) {
            Ok(text) => self.output.push_str(text.as_str()),
            Err(error) => self.output.refuse_memory(error),
        }
        self.waiting.clear();
    }
}

/// What fails is kept by the output.
impl Write for Encoder<'_> {
    fn write(&mut self, buf: &[u8]) -> io::Result<usize> {
        let room = PIECE.saturating_sub(self.waiting.len());
        let count = buf.len().min(room);
        self.waiting.extend_from_slice(&buf[..count])?;
        if self.waiting.len() >= PIECE {
            self.print();
        }
        Ok(count)
    }

    fn flush(&mut self) -> io::Result<()> {
        Ok(())
    }
}
