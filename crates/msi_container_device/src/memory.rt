//! A device in memory, whose bytes contracts see.

ghost use Rattle.std.specs.Prelude.{◌≡◌, IfErr, IfOk, IsOk, OnErr, OnOk, Some, false, length, min, take, true};
ghost use Rattle.std.specs.IoError.{error_kind};
ghost use Rattle.std.specs.declared.io.ErrorKind.TheVariants.{OutOfMemory};
ghost use Rattle.msi_container_device.specs.Held.{all_bytes, at_end, at_place, at_start};
ghost use Rattle.msi_container_device.specs.Held.{from_first, further, with_piece};

use crate::device::Device;
use crate::seekable::Seekable;
use crate::source::Source;
use std::io;
use std::marker::Model;

/// A vector of bytes with a position. Contracts see the bytes, cut at the position, and the flag.
#[derive(Drop)]
pub struct Memory {
    bytes: Vec<u8>,
    place: usize,
    failed: bool,
}

impl Model for Memory {
    ghost use Rattle.std.specs.Prelude.{◌≤◌, drop, take, vec_len};
    ghost use Rattle.msi_container_device.specs.Held.{Stored};

    ghost Value = { Stored };

    ghost view = { λ m. record {
      held = record { before = take m.place m.bytes.items; ahead = drop m.place m.bytes.items };
      failed = m.failed;
    } };

    ghost invariant = { λ m. m.place ≤ vec_len m.bytes };
}

impl Memory {
    /// Returns a device over the bytes of a vector, at the first of them. It takes no memory.
    pub fn from_vec(bytes: Vec<u8>) -> Memory
        ensures held { result.held ≡ from_first bytes.items }
        ensures failed { result.failed ≡ false }
    {
        Memory {
            bytes,
            place: 0,
            failed: false,
        }
    }

    /// Returns all the bytes. It takes no memory.
    pub fn into_vec(self) -> Vec<u8>
        ensures { result.items ≡ all_bytes self.held }
    {
        let Memory {
            bytes,
            place: _,
            failed: _,
        } = self;
        bytes
    }
}

impl Source for Memory {
    ghost held = { λ m. Some m.held };

    ghost failed = { λ m. m.failed };

    /// What is written is there at once.
    ghost pending = { λ _. false };

    ghost can_fail = { false };

    fn failed(&self) -> bool {
        self.failed
    }

    fn clear_failed(&mut self) {
        self.failed = false;
    }

    fn rewind(&mut self) -> io::Result<()>
        ensures ok { IsOk result }
        ensures after { self.new ≡ record self.old { held = at_start self.old.held } }
    {
        self.place = 0;
        Ok(())
    }

    fn read(&mut self, buf: &mut [u8]) -> io::Result<usize>
        ensures count { result ≡ Ok (min (length buf.old) (length self.old.held.ahead)) }
        ensures read { IfOk result (λ n. take n buf.new ≡ take n self.old.held.ahead) }
        ensures after { IfOk result (λ n. self.new ≡ record self.old { held = further n self.old.held }) }
    {
        let count = buf.len().min(self.bytes.len() - self.place);
        buf[..count].copy_from_slice(&self.bytes[self.place..self.place + count]);
        self.place += count;
        Ok(count)
    }
}

impl Seekable for Memory {
    fn length(&mut self) -> io::Result<u64>
        ensures count { result ≡ Ok (length (all_bytes self.old.held)) }
        ensures after { self.new ≡ record self.old { held = at_end self.old.held } }
    {
        self.place = self.bytes.len();
        Ok(self.place as u64)
    }

    fn seek_to(&mut self, place: u64) -> io::Result<()>
        ensures ok { IsOk result }
        ensures after { self.new ≡ record self.old { held = at_place place self.old.held } }
    {
        self.place = place.min(self.bytes.len() as u64) as usize;
        Ok(())
    }
}

impl Device for Memory {
    /// A write fails if memory is refused for it.
    ghost writes_can_fail = { true };

    /// Takes the whole piece, or none of it where memory is refused.
    fn write(&mut self, piece: &[u8]) -> io::Result<usize>
        ensures count { IfOk result (λ n. n ≡ length piece.now) }
        ensures ok { OnOk result (self.new ≡ record self.old { held = with_piece piece.now self.old.held }) }
        ensures err { OnErr result (self.new ≡ record self.old { failed = true }) }
        ensures kind { IfErr result (λ e. error_kind e ≡ OutOfMemory) }
    {
        let over = piece.len().min(self.bytes.len() - self.place);
        if let Err(error) = self.bytes.extend_from_slice(&piece[over..]) {
            self.failed = true;
            return Err(io::Error::from(error));
        }
        self.bytes[self.place..self.place + over].copy_from_slice(&piece[..over]);
        self.place += piece.len();
        Ok(piece.len())
    }

    fn flush(&mut self) -> io::Result<()>
        ensures ok { IsOk result }
        ensures after { self.new ≡ self.old }
    {
        Ok(())
    }
}
