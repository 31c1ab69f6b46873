//! How far reading or writing a file is: a line on standard error, once that has taken a second. It is written over
//! as it goes on, and cleared at the end.

use std::fs::{File, OpenFile};
use std::io;
use std::rt::Clock;
use std::time::Duration;

/// How many seconds reading or writing takes until it is shown.
const DELAY: u64 = 1;

/// How many milliseconds a line stays until it is written anew.
const STAY: u64 = 200;

/// How many bytes are a megabyte.
const MEGABYTE: u64 = 1_000_000;

/// What clears the line from where the terminal stands.
const CLEAR: &str = "\u{1b}[K";

/// How far a file is.
#[derive(Clone, Copy)]
pub(crate) struct Meter {
    rt: HostRuntime,
    /// How many bytes are read or written.
    done: u64,
    /// How many bytes there are, as far as that is known.
    total: u64,
    /// When the line is written next.
    next: Duration,
    /// Whether a line stands there.
    has_line: bool,
}

impl Meter {
    /// Returns the meter of a file that was opened just now.
    pub(crate) fn of(rt: HostRuntime, file: &File) -> io::Result<Meter> {
        Ok(Meter {
            rt,
            done: 0,
            total: file.metadata()?.len(),
            next: rt.monotonic()?.saturating_add(Duration::from_secs(DELAY)),
            has_line: false,
        })
    }

    pub(crate) fn expect(&mut self, bytes: usize) {
        self.total = self.done.saturating_add(as_count(bytes));
    }

    /// Counts bytes that were read or written, and writes the line where it is time. Where no more follow, the line is
    /// cleared.
    pub(crate) fn count(&mut self, bytes: usize, word: &'static str) {
        if bytes == 0 {
            return self.end();
        }
        self.done = self.done.saturating_add(as_count(bytes));
        if let Ok(now) = self.rt.monotonic()
            && now >= self.next
        {
            self.next = now.saturating_add(Duration::from_millis(STAY));
            self.write_line(word);
        }
    }

    fn write_line(&mut self, word: &'static str) {
        self.has_line = true;
        let (done, total) = (self.done / MEGABYTE, self.total / MEGABYTE);
        let _ = if self.done < self.total {
            eprint!(self.rt; "\r{CLEAR}msipkg: {done} of {total} MB are {word}")
        } else {
            eprint!(self.rt; "\r{CLEAR}msipkg: {done} MB are {word}")
        };
    }

    pub(crate) fn end(&mut self) {
        if self.has_line {
            self.has_line = false;
            let _ = eprint!(self.rt; "\r{CLEAR}");
        }
    }
}

fn as_count(bytes: usize) -> u64 {
    u64::try_from(bytes).unwrap_or(u64::MAX)
}
