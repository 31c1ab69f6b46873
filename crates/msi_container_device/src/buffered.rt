//! A device over any reader, writer and seeker of `std`, behind a buffer.

ghost use Rattle.std.specs.Prelude.{◌≡◌, ◌≤◌, ◌||◌, [], IfErr, IfOk, IsOk, None, OnOk, false, is_err, length, pos};
ghost use Rattle.std.specs.Prelude.{true};
ghost use Rattle.std.specs.Io.KnownBytes.{Keeps, ReadConsumes, WriteAppends};
ghost use Rattle.std.specs.Io.Seek.{MovesTo, SeekMoves};
ghost use Rattle.msi_base.specs.declared.errors.ErrorKind.TheVariants.{Io, OutOfMemory};
ghost use Rattle.msi_container_device.specs.Buffering.{written};
ghost use Rattle.msi_container_device.specs.Faults.{is_write_fault};

use crate::device::Device;
use crate::faults::fault;
use crate::seekable::Seekable;
use crate::source::Source;
use msi_base::Error;
use std::alloc::Global;
use std::io;
use std::io::{BufWriter, Read, Seek, SeekFrom, Write};
use std::marker::Model;

/// How many bytes are collected before they go to the writer.
const CAPACITY: usize = 64 * 1024;

/// A device over any reader, writer and seeker, such as a file, that collects what is written and hands on many pieces
/// at a time: else each sector of a package would be a call of the system. Like `Metered` it records whether a call
/// failed, and whether anything was written since the last flush. Before it reads or seeks, it hands on what it has
/// collected. Contracts don't see what it reads.
#[derive(Drop)]
pub struct Buffered<F: Write + Drop> {
    inner: BufWriter<F>,
    failed: bool,
    pending: bool,
}

impl<F: Write + Drop> Model for Buffered<F> {
    ghost use Rattle.std.specs.Prelude.{◌≡◌, [], false};
    ghost use Rattle.std.specs.Io.Buffered.{writer_buffer, writer_inner};
    ghost use Rattle.msi_container_device.specs.Buffering.{Buffering};

    ghost Value = { Buffering F };

    ghost view = { λ b. record {
      inner = writer_inner b.inner;
      collected = writer_buffer b.inner;
      failed = b.failed;
      pending = b.pending;
    } };

    ghost invariant = { λ b. b.pending ≡ false → writer_buffer b.inner ≡ [] };
}

impl<F: Write + Drop> Buffered<F> {
    /// Returns a device over a reader, writer and seeker, with an empty buffer.
    ///
    /// # Errors
    /// Fails with `OutOfMemory`.
    pub fn new(alloc: Global, inner: F) -> Result<Buffered<F>, Error>
        ensures inner { IfOk result (λ made. made.inner ≡ inner) }
        ensures empty { IfOk result (λ made. made.collected ≡ []) }
        ensures failed { IfOk result (λ made. made.failed ≡ false) }
        ensures pending { IfOk result (λ made. made.pending ≡ false) }
        ensures kind { IfErr result (λ kind. kind ≡ OutOfMemory) }
    {
        Ok(Buffered {
            inner: BufWriter::with_capacity(alloc, CAPACITY, inner)?,
            failed: false,
            pending: false,
        })
    }

    /// Hands on what is collected, and returns the reader, writer and seeker. If that fails, the device is returned
    /// with what is left.
    ///
    /// # Errors
    /// Fails with `Io` if the writer fails.
    pub fn into_inner(mut self) -> Result<F, (Error, Buffered<F>)>
        ensures ok { IfOk result (λ inner. Keeps (written F.contents self) (F.contents inner)) }
        ensures kept { IfErr result (λ refused. Keeps (written F.contents self) (written F.contents refused.1)) }
        ensures kind { IfErr result (λ refused. refused.0 ≡ Io) }
    {
        match self.hand_on() {
            Ok(()) => {
                let Buffered {
                    inner,
                    failed: _,
                    pending: _,
                } = self;
                let (inner, _) = inner.into_parts();
                Ok(inner)
            }
            Err(error) => Err((fault(error), self)),
        }
    }

    fn hand_on(&mut self) -> io::Result<()>
        ensures empty { OnOk result (self.new.collected ≡ []) }
        ensures inner { self.old.pending ≡ false → self.new.inner ≡ self.old.inner }
        ensures bytes { Keeps (written F.contents self.old) (written F.contents self.new) }
        ensures sound { self.old.pending ≡ false → IsOk result }
        ensures failed { self.new.failed ≡ self.old.failed }
        ensures pending { self.new.pending ≡ self.old.pending }
    {
        if self.pending {
            self.inner.flush()?;
        }
        Ok(())
    }

    /// Sets the flag if the result is a failure.
    fn watch<T>(&mut self, answer: io::Result<T>) -> io::Result<T>
        ensures same { result ≡ answer }
        ensures inner { self.new.inner ≡ self.old.inner }
        ensures collected { self.new.collected ≡ self.old.collected }
        ensures failed { self.new.failed ≡ (self.old.failed || is_err answer) }
        ensures pending { self.new.pending ≡ self.old.pending }
    {
        if answer.is_err() {
            self.failed = true;
        }
        answer
    }
}

impl<F: Write + Seek + Drop> Buffered<F> {
    fn seek(&mut self, to: SeekFrom) -> io::Result<u64>
        ensures passed { self.old.pending ≡ false → SeekMoves (F.stream_position self.old.inner)
            (F.stream_position self.new.inner) (F.stream_bytes self.old.inner) to result }
        ensures empty { OnOk result (self.new.collected ≡ []) }
        ensures failed { self.new.failed ≡ self.old.failed }
        ensures pending { self.new.pending ≡ self.old.pending }
    {
        self.hand_on()?;
        self.inner.get_mut().seek(to)
    }
}

impl<F: Read + Write + Drop> Buffered<F> {
    /// Hands on what is collected first, so that it is read too.
    fn read_on(&mut self, buf: &mut [u8]) -> io::Result<usize>
        ensures count { IfOk result (λ n. n ≤ length buf.old) }
        ensures passed { self.old.pending ≡ false
            → ReadConsumes (F.remaining self.old.inner) (F.remaining self.new.inner) result buf.new }
        ensures empty { OnOk result (self.new.collected ≡ []) }
        ensures failed { self.new.failed ≡ self.old.failed }
        ensures pending { self.new.pending ≡ self.old.pending }
    {
        self.hand_on()?;
        self.inner.get_mut().read(buf)
    }
}

impl<F: Read + Write + Seek + Drop> Source for Buffered<F> {
    ghost held = { λ _. None };

    ghost failed = { λ b. b.failed };

    ghost pending = { λ b. b.pending };

    ghost can_fail = { true };

    fn failed(&self) -> bool {
        self.failed
    }

    fn clear_failed(&mut self) {
        self.failed = false;
    }

    fn rewind(&mut self) -> io::Result<()>
        ensures passed { self.old.pending ≡ false
            → MovesTo (F.stream_position self.old.inner) (F.stream_position self.new.inner) 0 result }
        ensures empty { OnOk result (self.new.collected ≡ []) }
        ensures failed { self.new.failed ≡ (self.old.failed || is_err result) }
        ensures pending { self.new.pending ≡ self.old.pending }
    {
        let answer = self.seek(SeekFrom::Start(0));
        self.watch(answer)?;
        Ok(())
    }

    fn read(&mut self, buf: &mut [u8]) -> io::Result<usize>
        ensures count { IfOk result (λ n. n ≤ length buf.old) }
        ensures passed { self.old.pending ≡ false
            → ReadConsumes (F.remaining self.old.inner) (F.remaining self.new.inner) result buf.new }
        ensures empty { OnOk result (self.new.collected ≡ []) }
        ensures failed { self.new.failed ≡ (self.old.failed || is_err result) }
        ensures pending { self.new.pending ≡ self.old.pending }
    {
        let answer = self.read_on(buf);
        self.watch(answer)
    }
}

impl<F: Read + Write + Seek + Drop> Seekable for Buffered<F> {
    fn length(&mut self) -> io::Result<u64>
        ensures passed { self.old.pending ≡ false → SeekMoves (F.stream_position self.old.inner)
            (F.stream_position self.new.inner) (F.stream_bytes self.old.inner) (SeekFrom.End (pos 0)) result }
        ensures empty { OnOk result (self.new.collected ≡ []) }
        ensures failed { self.new.failed ≡ (self.old.failed || is_err result) }
        ensures pending { self.new.pending ≡ self.old.pending }
    {
        let answer = self.seek(SeekFrom::End(0));
        self.watch(answer)
    }

    fn seek_to(&mut self, place: u64) -> io::Result<()>
        ensures passed { self.old.pending ≡ false
            → MovesTo (F.stream_position self.old.inner) (F.stream_position self.new.inner) place result }
        ensures empty { OnOk result (self.new.collected ≡ []) }
        ensures failed { self.new.failed ≡ (self.old.failed || is_err result) }
        ensures pending { self.new.pending ≡ self.old.pending }
    {
        let answer = self.seek(SeekFrom::Start(place));
        self.watch(answer)?;
        Ok(())
    }
}

impl<F: Read + Write + Seek + Drop> Device for Buffered<F> {
    ghost writes_can_fail = { true };

    fn write(&mut self, piece: &[u8]) -> io::Result<usize>
        ensures count { IfOk result (λ n. n ≤ length piece.now) }
        ensures written { WriteAppends (written F.contents self.old) (written F.contents self.new) result piece.now }
        ensures failed { self.new.failed ≡ (self.old.failed || is_write_fault piece.now result) }
    {
        self.pending = true;
        let answer = self.inner.write(piece);
        if let Ok(0) = answer
            && !piece.is_empty()
        {
            self.failed = true;
        }
        self.watch(answer)
    }

    fn flush(&mut self) -> io::Result<()>
        ensures written { Keeps (written F.contents self.old) (written F.contents self.new) }
        ensures empty { OnOk result (self.new.collected ≡ []) }
        ensures failed { self.new.failed ≡ (self.old.failed || is_err result) }
        ensures handed_on { OnOk result (self.new.pending ≡ false) }
    {
        let answer = self.inner.flush();
        self.pending = answer.is_err();
        self.watch(answer)
    }
}
