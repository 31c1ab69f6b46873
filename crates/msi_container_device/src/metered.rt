//! A device over any reader, writer and seeker of `std`.

ghost use Rattle.std.specs.Prelude.{◌≡◌, ◌≤◌, ◌||◌, IfOk, None, OnOk, false, is_err, length, pos, true};
ghost use Rattle.std.specs.Io.KnownBytes.{Keeps, ReadConsumes, WriteAppends};
ghost use Rattle.std.specs.Io.Seek.{MovesTo, SeekMoves};
ghost use Rattle.msi_container_device.specs.Faults.{is_write_fault};

use crate::device::Device;
use crate::seekable::Seekable;
use crate::source::Source;
use std::io;
use std::io::{Read, Seek, SeekFrom, Write};
use std::marker::Model;

/// A device over any reader, writer and seeker: it passes each call on, and records whether one failed, and whether
/// anything was written since the last flush. Contracts don't see its bytes, so nothing is promised of them.
#[derive(Drop)]
pub struct Metered<F> {
    inner: F,
    failed: bool,
    pending: bool,
}

impl<F> Model for Metered<F> {
    ghost use Rattle.msi_container_device.specs.Faults.{Watched};

    ghost Value = { Watched F };

    ghost view = { λ m. record { inner = m.inner; failed = m.failed; pending = m.pending } };
}

impl<F> Metered<F> {
    /// Returns a device over a reader, writer and seeker. It takes no memory.
    pub fn new(inner: F) -> Metered<F>
        ensures inner { result.inner ≡ inner }
        ensures failed { result.failed ≡ false }
        ensures pending { result.pending ≡ false }
    {
        Metered {
            inner,
            failed: false,
            pending: false,
        }
    }

    /// Returns the reader, writer and seeker that calls are passed on to. It takes no memory.
    pub fn into_inner(self) -> F
        ensures { result ≡ self.inner }
    {
        let Metered {
            inner,
            failed: _,
            pending: _,
        } = self;
        inner
    }

    /// Sets the flag if the result is a failure.
    fn watch<T>(&mut self, answer: io::Result<T>) -> io::Result<T>
        ensures same { result ≡ answer }
        ensures inner { self.new.inner ≡ self.old.inner }
        ensures failed { self.new.failed ≡ (self.old.failed || is_err answer) }
        ensures pending { self.new.pending ≡ self.old.pending }
    {
        if answer.is_err() {
            self.failed = true;
        }
        answer
    }
}

impl<F: Read + Seek> Source for Metered<F> {
    ghost held = { λ _. None };

    ghost failed = { λ m. m.failed };

    ghost pending = { λ m. m.pending };

    ghost can_fail = { true };

    fn failed(&self) -> bool {
        self.failed
    }

    fn clear_failed(&mut self) {
        self.failed = false;
    }

    fn rewind(&mut self) -> io::Result<()>
        ensures passed { MovesTo (F.stream_position self.old.inner) (F.stream_position self.new.inner) 0 result }
        ensures failed { self.new.failed ≡ (self.old.failed || is_err result) }
        ensures pending { self.new.pending ≡ self.old.pending }
    {
        let answer = self.inner.seek(SeekFrom::Start(0));
        self.watch(answer)?;
        Ok(())
    }

    fn read(&mut self, buf: &mut [u8]) -> io::Result<usize>
        ensures count { IfOk result (λ n. n ≤ length buf.old) }
        ensures passed { ReadConsumes (F.remaining self.old.inner) (F.remaining self.new.inner) result buf.new }
        ensures failed { self.new.failed ≡ (self.old.failed || is_err result) }
        ensures pending { self.new.pending ≡ self.old.pending }
    {
        let answer = self.inner.read(buf);
        self.watch(answer)
    }
}

impl<F: Read + Seek> Seekable for Metered<F> {
    fn length(&mut self) -> io::Result<u64>
        ensures passed { SeekMoves (F.stream_position self.old.inner)
            (F.stream_position self.new.inner) (F.stream_bytes self.old.inner) (SeekFrom.End (pos 0)) result }
        ensures failed { self.new.failed ≡ (self.old.failed || is_err result) }
        ensures pending { self.new.pending ≡ self.old.pending }
    {
        let answer = self.inner.seek(SeekFrom::End(0));
        self.watch(answer)
    }

    fn seek_to(&mut self, place: u64) -> io::Result<()>
        ensures passed { MovesTo (F.stream_position self.old.inner) (F.stream_position self.new.inner) place result }
        ensures failed { self.new.failed ≡ (self.old.failed || is_err result) }
        ensures pending { self.new.pending ≡ self.old.pending }
    {
        let answer = self.inner.seek(SeekFrom::Start(place));
        self.watch(answer)?;
        Ok(())
    }
}

impl<F: Read + Write + Seek> Device for Metered<F> {
    ghost writes_can_fail = { true };

    fn write(&mut self, piece: &[u8]) -> io::Result<usize>
        ensures count { IfOk result (λ n. n ≤ length piece.now) }
        ensures passed { WriteAppends (F.contents self.old.inner) (F.contents self.new.inner) result piece.now }
        ensures failed { self.new.failed ≡ (self.old.failed || is_write_fault piece.now result) }
    {
        self.pending = true;
        let answer = self.inner.write(piece);
        if let Ok(0) = answer
            && !piece.is_empty()
        {
            self.failed = true;
        }
        self.watch(answer)
    }

    fn flush(&mut self) -> io::Result<()>
        ensures passed { Keeps (F.contents self.old.inner) (F.contents self.new.inner) }
        ensures failed { self.new.failed ≡ (self.old.failed || is_err result) }
        ensures handed_on { OnOk result (self.new.pending ≡ false) }
    {
        let answer = self.inner.flush();
        if answer.is_ok() {
            self.pending = false;
        }
        self.watch(answer)
    }
}
