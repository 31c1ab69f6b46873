//! A source that is read from any place on, and how many bytes were read of it.

ghost use Rattle.std.specs.Prelude.{◌≡◌, ◌+◌, ◌<◌, ◌≤◌, ◌^◌, [], length, true};
ghost use Rattle.std.specs.Prelude.{drop, take, IfErr, IfOk, IfSome, OnOk};
ghost use Rattle.msi_base.specs.declared.errors.ErrorKind.TheVariants.{Io};
ghost use Rattle.msi_container_device.specs.Held.{all_bytes, bytes_told};
ghost use Rattle.msi_container_format.specs.Bytes.{bytes_at};
ghost use Rattle.msi_container_view.specs.Reading.{IsAppended, IsReadRefusal};

use msi_base::Error;
use msi_container_device::parts::fault;
use msi_container_device::{Seekable, Source};
use std::marker::Model;

/// A source, and how many bytes were read of it.
pub(crate) struct Counted<S: Source> {
    source: S,
    bytes_read: u64,
}

impl<S: Source + Drop> Drop for Counted<S> {
    fn drop(self) {
        let Counted {
            source: _,
            bytes_read: _,
        } = self;
    }
}

impl<S: Source> Model for Counted<S> {
    ghost use Rattle.msi_container_view.specs.Reading.{Reading};

    ghost Value = { Reading };

    ghost view = { λ c. record {
      held = S.held c.source;
      bytes_read = c.bytes_read;
    } };
}

impl<S: Source> Counted<S> {
    /// Returns a source of which nothing was read. Its flag is cleared.
    pub(crate) fn new(source: S) -> Counted<S>
        ensures held { result.held ≡ S.held source }
        ensures count { result.bytes_read ≡ 0 }
    {
        let mut source = source;
        source.clear_failed();
        Counted {
            source,
            bytes_read: 0,
        }
    }

    pub(crate) fn bytes_read(&self) -> u64
        ensures { result ≡ self.now.bytes_read }
    {
        self.bytes_read
    }

    pub(crate) fn into_source(self) -> S
        ensures held { S.held result ≡ self.held }
    {
        let Counted {
            source,
            bytes_read: _,
        } = self;
        source
    }

    /// Reads from the position on until the buffer is full or the source ends, and returns how many bytes were read.
    fn read_ahead(&mut self, buf: &mut [u8]) -> Result<usize, Error>
        ensures within { IfOk result (λ n. n ≤ length buf.old) }
        ensures read { IfOk result (λ n. IfSome self.old.held (λ h. take n buf.new ≡ take n h.ahead)) }
        ensures end { IfOk result (λ n. n < length buf.old → IfSome self.old.held (λ h. drop n h.ahead ≡ [])) }
        ensures bytes { bytes_told self.new.held ≡ bytes_told self.old.held }
        ensures counted { IfOk result (λ n. self.old.bytes_read + n < 2 ^ 64
            → self.new.bytes_read ≡ self.old.bytes_read + n) }
        ensures count { self.new.bytes_read ≤ self.old.bytes_read + length buf.old }
        ensures kind { IfErr result (λ kind. (kind ≡ Io) × (S.can_fail ≡ true)) }
    {
        let mut filled = 0;
        while filled < buf.len() {
            let count = self.source.read(&mut buf[filled..]).map_err(fault)?;
            if count == 0 {
                return Ok(filled);
            }
            filled += count;
            self.bytes_read = self.bytes_read.saturating_add(count as u64);
        }
        Ok(filled)
    }

    /// Fills the buffer from the position on, with zeros past the end.
    fn fill(&mut self, buf: &mut [u8]) -> Result<(), Error>
        ensures ok { OnOk result (IfSome self.old.held (λ h. buf.new ≡ bytes_at h.ahead 0 (length buf.old))) }
        ensures bytes { bytes_told self.new.held ≡ bytes_told self.old.held }
        ensures count { self.new.bytes_read ≤ self.old.bytes_read + length buf.old }
        ensures kind { IfErr result (λ kind. (kind ≡ Io) × (S.can_fail ≡ true)) }
    {
        let filled = self.read_ahead(buf)?;
        buf[filled..].fill(0);
        Ok(())
    }
}

impl<S: Seekable> Counted<S> {
    /// Returns how many bytes the source has.
    pub(crate) fn length(&mut self) -> Result<u64, Error>
        ensures ok { IfOk result (λ n. IfSome self.old.held (λ h. n ≡ length (all_bytes h))) }
        ensures bytes { bytes_told self.new.held ≡ bytes_told self.old.held }
        ensures count { self.new.bytes_read ≡ self.old.bytes_read }
        ensures kind { IfErr result (λ kind. (kind ≡ Io) × (S.can_fail ≡ true)) }
    {
        self.source.length().map_err(fault)
    }

    /// Appends so many bytes from a place on, with zeros past the end. If it fails, zeros may have been appended.
    pub(crate) fn append(
        &mut self,
        into: &mut Vec<u8>,
        place: u64,
        count: usize,
    ) -> Result<(), Error>
        ensures ok { OnOk result (IsAppended self.old.held place count into.old.items into.new.items) }
        ensures bytes { bytes_told self.new.held ≡ bytes_told self.old.held }
        ensures count { self.new.bytes_read ≤ self.old.bytes_read + count }
        ensures kinds { IfErr result (IsReadRefusal S.can_fail) }
    {
        let start = into.len();
        into.resize(start.saturating_add(count), 0)?;
        self.source.seek_to(place).map_err(fault)?;
        self.fill(&mut into[start..])
    }
}
