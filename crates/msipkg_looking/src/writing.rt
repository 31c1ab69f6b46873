//! Writers whose error is kept, since the library's says only that there is one.

use std::io::{self, Write};
use std::mem;

/// A writer, and the first error of it.
pub(crate) struct Watched<'a, W> {
    inner: &'a mut W,
    failure: Option<io::Error>,
}

impl<W> Drop for Watched<'_, W> {
    fn drop(self) {
        let Watched {
            inner: _,
            failure: _,
        } = self;
    }
}

impl<'a, W: Write> Watched<'a, W> {
    pub(crate) fn new(inner: &'a mut W) -> Watched<'a, W> {
        Watched {
            inner,
            failure: None,
        }
    }

    pub(crate) fn into_failure(mut self) -> Option<io::Error> {
        mem::replace(&mut self.failure, None)
    }

    fn keep(&mut self, error: io::Error) -> io::Error {
        let kind = error.kind();
        if self.failure.is_none() {
            self.failure = Some(error);
        }
        io::Error::from(kind)
    }
}

impl<W: Write> Write for Watched<'_, W> {
    fn write(&mut self, buf: &[u8]) -> io::Result<usize> {
        match self.inner.write(buf) {
            Ok(count) => Ok(count),
            Err(error) => Err(self.keep(error)),
        }
    }

    fn flush(&mut self) -> io::Result<()> {
        match self.inner.flush() {
            Ok(()) => Ok(()),
            Err(error) => Err(self.keep(error)),
        }
    }
}
