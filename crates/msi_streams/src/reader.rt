//! A stream that is read in place.

ghost use Rattle.std.specs.Prelude.{◌≡◌, Ok, Some, length, take, drop};
ghost use Rattle.std.specs.Io.{ReadsAtMost};
ghost use Rattle.std.specs.Io.KnownBytes.{Keeps, ReadConsumes};
ghost use Rattle.std.specs.Io.Seek.{SeekMoves};
ghost use Rattle.msi_streams.specs.Cursor.{after_read, at_start, bytes_ahead, count_read, piece_read, sought};
ghost use Rattle.msi_streams.specs.Refusals.{told};

use crate::seeking::seek_place;
use std::io;
use std::io::{Read, Seek, SeekFrom};
use std::marker::Model;

/// A reader of a stream: its bytes, borrowed, and a position in them, which is never past their end. It takes no
/// memory.
#[derive(Drop)]
pub struct StreamReader<'a> {
    bytes: &'a [u8],
    place: usize,
}

impl<'a> Model for StreamReader<'a> {
    ghost use Rattle.std.specs.Prelude.{◌≤◌, length};
    ghost use Rattle.msi_streams.specs.Cursor.{Cursor};

    ghost Value = { Cursor };

    ghost view = { λ r. record { bytes = r.bytes.now; place = r.place } };

    ghost invariant = { λ r. r.place ≤ length r.bytes.now };
}

impl<'a> StreamReader<'a> {
    /// Returns a reader of these bytes, at the first of them.
    pub fn new(bytes: &'a [u8]) -> StreamReader<'a>
        ensures { result ≡ at_start bytes.now }
    {
        StreamReader { bytes, place: 0 }
    }

    /// Returns the bytes from the position on, which stays.
    pub fn rest(&self) -> &'a [u8]
        ensures { result.now ≡ bytes_ahead self.now }
    {
        &self.bytes[self.place..]
    }
}

impl Read for StreamReader<'_> {
    ghost remaining = { λ r. Some (bytes_ahead r) };

    /// Fills the buffer, or reads all that is left where that is less.
    fn read(&mut self, buf: &mut [u8]) -> io::Result<usize>
        ensures bound { ReadsAtMost result buf.new }
        ensures bytes { ReadConsumes (Some (bytes_ahead self.old)) (Some (bytes_ahead self.new)) result buf.new }
        ensures count { result ≡ Ok (count_read self.old (length buf.old)) }
        ensures piece { take (count_read self.old (length buf.old)) buf.new ≡ piece_read self.old (length buf.old) }
        ensures rest { let count = count_read self.old (length buf.old) in drop count buf.new ≡ drop count buf.old }
        ensures after { self.new ≡ after_read self.old (length buf.old) }
    {
        let ahead = &self.bytes[self.place..];
        let count = buf.len().min(ahead.len());
        buf[..count].copy_from_slice(&ahead[..count]);
        self.place += count;
        Ok(count)
    }
}

impl Seek for StreamReader<'_> {
    ghost stream_position = { λ r. Some r.place };

    ghost stream_bytes = { λ r. Some r.bytes };

    /// Fails with `InvalidInput` for a place before the first byte and for one past the end; then the place is as it
    /// was.
    fn seek(&mut self, to: SeekFrom) -> io::Result<u64>
        ensures moves { SeekMoves (Some self.old.place) (Some self.new.place) (Some self.old.bytes) to result }
        ensures bytes { Keeps (Some self.old.bytes) (Some self.new.bytes) }
        ensures outcome { (told result, self.new) ≡ sought self.old to }
    {
        let place = seek_place(self.bytes, self.place, to)?;
        self.place = place as usize;
        Ok(place)
    }
}
