//! A stream that is open for writing.

ghost use Rattle.std.specs.Prelude.{◌≡◌, IfErr, IfOk, IsOk, None, OnErr, OnOk, Some, [], length};
ghost use Rattle.std.specs.IoError.{error_kind};
ghost use Rattle.std.specs.Io.{WritesAtMost};
ghost use Rattle.std.specs.Io.KnownBytes.{Keeps, WriteAppends};
ghost use Rattle.std.specs.Io.Seek.{SeekMoves};
ghost use Rattle.std.specs.declared.io.ErrorKind.TheVariants.{OutOfMemory};
ghost use Rattle.msi_streams.specs.Cursor.{after_write, at_start, sought};
ghost use Rattle.msi_streams.specs.Refusals.{told};

use crate::seeking::seek_place;
use msi_container_format::contents::Bytes;
use std::alloc::Global;
use std::io::{Seek, SeekFrom, Write};
use std::marker::Model;
use std::{io, mem};

/// A stream that is open: its bytes, and a position in them, which is never past their end.
#[derive(Drop)]
pub struct OpenStream {
    bytes: Vec<u8>,
    place: usize,
}

/// A writer of a stream: a mutable borrow of the open one. What is left in it when the borrow ends is the stream.
pub type StreamWriter<'a> = &'a mut OpenStream;

impl Model for OpenStream {
    ghost use Rattle.std.specs.Prelude.{◌≤◌, vec_len};
    ghost use Rattle.msi_streams.specs.Cursor.{Cursor};

    ghost Value = { Cursor };

    ghost view = { λ s. record { bytes = s.bytes.items; place = s.place } };

    ghost invariant = { λ s. s.place ≤ vec_len s.bytes };
}

impl OpenStream {
    /// Returns a stream without bytes. It takes no memory.
    pub fn new(alloc: Global) -> OpenStream
        ensures { result ≡ at_start [] }
    {
        OpenStream {
            bytes: Vec::new(alloc),
            place: 0,
        }
    }

    /// Returns all the bytes.
    pub fn as_slice(&self) -> &[u8]
        ensures { result.now ≡ self.now.bytes }
    {
        self.bytes.as_slice()
    }

    /// Returns all the bytes, as those of a container's stream; none are left. It takes no memory.
    pub fn take_bytes(&mut self) -> Bytes
        ensures bytes { result ≡ self.old.bytes }
        ensures left { self.new ≡ at_start [] }
    {
        let alloc = *self.bytes.allocator();
        self.place = 0;
        Bytes::from_vec(mem::replace(&mut self.bytes, Vec::new(alloc)))
    }

    /// Writes a whole vector of bytes as `write` does. A stream without bytes takes the vector itself: that takes no
    /// memory, and copies nothing.
    ///
    /// # Errors
    /// `OutOfMemory`; then nothing is written.
    pub fn write_vec(&mut self, bytes: Vec<u8>) -> io::Result<()>
        ensures ok { OnOk result (self.new ≡ after_write self.old bytes.items) }
        ensures err { OnErr result (self.new ≡ self.old) }
        ensures kind { IfErr result (λ error. error_kind error ≡ OutOfMemory) }
    {
        if self.bytes.is_empty() {
            self.place = bytes.len();
            self.bytes = bytes;
            return Ok(());
        }
        self.write(bytes.as_slice())?;
        Ok(())
    }
}

impl Write for OpenStream {
    /// Writes the whole piece over the bytes from the place on and past the end, and goes behind it. If it fails,
    /// nothing is written.
    fn write(&mut self, piece: &[u8]) -> io::Result<usize>
        ensures bound { WritesAtMost result piece.now }
        ensures bytes { WriteAppends None None result piece.now }
        ensures count { IfOk result (λ n. n ≡ length piece.now) }
        ensures ok { OnOk result (self.new ≡ after_write self.old piece.now) }
        ensures err { OnErr result (self.new ≡ self.old) }
        ensures kind { IfErr result (λ error. error_kind error ≡ OutOfMemory) }
    {
        let over = piece.len().min(self.bytes.len() - self.place);
        self.bytes.extend_from_slice(&piece[over..])?;
        self.bytes[self.place..self.place + over].copy_from_slice(&piece[..over]);
        self.place += piece.len();
        Ok(piece.len())
    }

    fn flush(&mut self) -> io::Result<()>
        ensures bytes { Keeps None None }
        ensures ok { IsOk result }
        ensures after { self.new ≡ self.old }
    {
        Ok(())
    }
}

impl Seek for OpenStream {
    ghost stream_position = { λ s. Some s.place };

    ghost stream_bytes = { λ s. Some s.bytes };

    /// Fails with `InvalidInput` for a place before the first byte and for one past the end; then the place is as it
    /// was.
    fn seek(&mut self, to: SeekFrom) -> io::Result<u64>
        ensures moves { SeekMoves (Some self.old.place) (Some self.new.place) (Some self.old.bytes) to result }
        ensures bytes { Keeps (Some self.old.bytes) (Some self.new.bytes) }
        ensures outcome { (told result, self.new) ≡ sought self.old to }
    {
        let place = seek_place(self.bytes.as_slice(), self.place, to)?;
        self.place = place as usize;
        Ok(place)
    }
}
