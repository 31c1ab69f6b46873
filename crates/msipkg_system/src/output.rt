//! Where `msipkg` prints.

use crate::system::SystemFile;
use std::alloc::{AllocError, Global};
use std::fmt::Display;
use std::io::{self, ErrorKind, Write};
use std::mem;
use std::rt::{Stderr, Stdout};

/// How many bytes are collected before they are written.
const CAPACITY: usize = 64 * 1024;

/// What bytes are written to.
#[derive(Drop)]
enum Sink {
    Output(Stdout),
    /// Standard error, which gets each piece at once.
    Messages(Stderr),
    File(SystemFile),
    /// Nothing: they stay where they are collected.
    Memory,
}

/// What is printed, on its way to standard output, standard error, a file or memory.
///
/// Bytes are collected, and written in large pieces. If something fails, that is kept, what was printed before is
/// written, and whatever is printed afterwards is dropped: so what prints returns nothing, and who has all of it
/// printed asks once, by `end`.
pub struct Output {
    bytes: Vec<u8>,
    sink: Sink,
    failure: Option<io::Error>,
    /// Whether the reader of standard output has gone away.
    is_closed: bool,
}

/// Written out, so that a function that owns one calls one drop, and its proof doesn't go through those of the parts.
impl Drop for Output {
    fn drop(self) {
        let Output {
            bytes: _,
            sink: _,
            failure: _,
            is_closed: _,
        } = self;
    }
}

impl Output {
    fn new(alloc: Global, sink: Sink) -> Output {
        Output {
            bytes: Vec::new(alloc),
            sink,
            failure: None,
            is_closed: false,
        }
    }

    /// Returns what prints to standard output.
    pub fn to_output(rt: HostRuntime) -> Output {
        Output::new(rt.alloc(), Sink::Output(rt.stdout()))
    }

    /// Returns what prints to standard error, without collecting anything.
    pub fn to_messages(rt: HostRuntime) -> Output {
        Output::new(rt.alloc(), Sink::Messages(rt.stderr()))
    }

    /// Returns what prints to a file.
    pub fn to_file(alloc: Global, file: SystemFile) -> Output {
        Output::new(alloc, Sink::File(file))
    }

    /// Returns what prints to memory.
    pub fn to_memory(alloc: Global) -> Output {
        Output::new(alloc, Sink::Memory)
    }

    /// Prints a value, for `write!` and `writeln!`.
    pub fn write_fmt<D: Display + Drop>(&mut self, value: D) {
        let done = self.bytes.write_fmt(value);
        self.pass_on(done);
    }

    /// Prints a text.
    pub fn push_str(&mut self, text: &str) {
        self.push_bytes(text.as_bytes());
    }

    /// Prints bytes.
    pub fn push_bytes(&mut self, bytes: &[u8]) {
        match self.bytes.extend_from_slice(bytes) {
            Ok(()) => self.pass_full(),
            Err(error) => self.refuse_memory(error),
        }
    }

    /// Notes that memory was refused for something that was to be printed. What was printed before is written.
    pub fn refuse_memory(&mut self, error: AllocError) {
        self.pass_on(Err(io::Error::from(error)));
    }

    /// Returns whether something failed.
    pub fn has_failed(&self) -> bool {
        self.failure.is_some()
    }

    /// Returns whether the reader of standard output has gone away, as `head` does.
    pub fn is_closed(&self) -> bool {
        self.is_closed
    }

    /// Returns what was printed and isn't written: all of it, if it is printed to memory.
    pub fn as_bytes(&self) -> &[u8] {
        self.bytes.as_slice()
    }

    /// Returns the bytes that were printed to memory.
    ///
    /// # Errors
    /// Fails as the first call did that failed.
    pub fn into_bytes(mut self) -> io::Result<Vec<u8>> {
        self.taken()?;
        let Output {
            bytes,
            sink: _,
            failure: _,
            is_closed: _,
        } = self;
        Ok(bytes)
    }

    /// Writes what is collected.
    ///
    /// # Errors
    /// Fails as the first call did that failed since the last `end`.
    pub fn end(&mut self) -> io::Result<()> {
        self.write_out();
        self.taken()
    }

    /// Writes what is collected, and waits until the disk has it, if it is printed to a file.
    ///
    /// # Errors
    /// Fails as the first call did that failed, and as the calls of the system do.
    pub fn end_synced(&mut self) -> io::Result<()> {
        self.end()?;
        match &self.sink {
            Sink::File(file) => file.sync_all(),
            _ => Ok(()),
        }
    }

    fn taken(&mut self) -> io::Result<()> {
        match mem::replace(&mut self.failure, None) {
            Some(error) => Err(error),
            None => Ok(()),
        }
    }

    fn keep(&mut self, done: io::Result<()>) {
        if let Err(error) = done
            && self.failure.is_none()
        {
            self.failure = Some(error);
        }
    }

    /// Writes what is collected, if it is enough, or if nothing follows since something failed.
    fn pass_on(&mut self, done: io::Result<()>) {
        if done.is_err() {
            self.write_out();
            self.keep(done);
        } else {
            self.pass_full();
        }
    }

    fn pass_full(&mut self) {
        if self.bytes.len() >= CAPACITY || matches!(self.sink, Sink::Messages(_)) {
            self.write_out();
        }
    }

    /// Writes what is collected, unless something failed: then it is dropped.
    fn write_out(&mut self) {
        if matches!(self.sink, Sink::Memory) {
            return;
        }
        if self.failure.is_none() {
            let done = self.written();
            self.is_closed |= is_broken(&self.sink, &done);
            self.keep(done);
        }
        self.bytes.clear();
    }

    fn written(&mut self) -> io::Result<()> {
        let bytes = self.bytes.as_slice();
        match &mut self.sink {
            Sink::Output(output) => output.write_all(bytes),
            Sink::Messages(messages) => messages.write_all(bytes),
            Sink::File(file) => file.write_all(bytes),
            Sink::Memory => Ok(()),
        }
    }
}

/// Returns whether writing failed since the reader of standard output has gone away.
fn is_broken(sink: &Sink, done: &io::Result<()>) -> bool {
    match done {
        Ok(()) => false,
        Err(error) => {
            matches!(sink, Sink::Output(_)) && matches!(error.kind(), ErrorKind::BrokenPipe)
        }
    }
}

/// For crates that print to a writer. Nothing fails here, since what fails is kept.
impl Write for Output {
    fn write(&mut self, buf: &[u8]) -> io::Result<usize> {
        self.push_bytes(buf);
        Ok(buf.len())
    }

    fn flush(&mut self) -> io::Result<()> {
        Ok(())
    }
}
