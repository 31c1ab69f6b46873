//! What a package is read from.

ghost use Rattle.std.specs.Prelude.{◌≡◌, ◌≤◌, IfOk, None, false, length, true};

use crate::system::SystemFile;
use msi_container_device::Source;
use std::io::{self, Read};
use std::rc::Rc;

/// What a package lies on: its file, or bytes in memory. All packages are over this type, whether they are looked at,
/// changed or new, so that what is made of their code is made once. It isn't written to: what a file gets is what
/// `Package::image` returns.
pub type Opened = Carrier;

/// Where a package is read from.
#[derive(Drop)]
pub enum Origin {
    /// Its file.
    File(SystemFile),
    /// Bytes: those of a file that is changed, which were read already, or of a package that was recoded or is new.
    Memory { bytes: Rc<Vec<u8>>, place: usize },
    /// Bytes that were read to their end, and are freed.
    Spent,
}

impl Origin {
    /// Returns the origin of a package that is read from these bytes.
    pub fn of_bytes(bytes: Rc<Vec<u8>>) -> Origin {
        Origin::Memory { bytes, place: 0 }
    }

    fn read_on(&mut self, buf: &mut [u8]) -> io::Result<usize>
        ensures count { IfOk result (λ n. n ≤ length buf.old) }
    {
        match self {
            Origin::File(file) => file.read(buf),
            Origin::Memory { bytes, place } => {
                let mut rest = bytes.as_slice().get(*place..).unwrap_or(&[]);
                let count = rest.read(buf)?;
                *place = place.saturating_add(count);
                Ok(count)
            }
            Origin::Spent => Ok(0),
        }
    }

    /// Frees bytes in memory: a package that has read them has its own.
    fn end(&mut self) {
        match self {
            Origin::File(_) | Origin::Spent => {}
            Origin::Memory { .. } => *self = Origin::Spent,
        }
    }
}

/// What a package is read from, once, from its beginning on. Contracts don't see its bytes.
#[derive(Drop)]
pub struct Carrier {
    origin: Origin,
    has_failed: bool,
}

impl Carrier {
    /// Returns the carrier of a package that is read from its beginning on.
    pub fn new(origin: Origin) -> Carrier {
        Carrier {
            origin,
            has_failed: false,
        }
    }
}

impl Source for Carrier {
    ghost held = { λ _. None };

    ghost failed = { λ c. c.has_failed };

    /// Nothing is written.
    ghost pending = { λ _. false };

    ghost can_fail = { true };

    fn failed(&self) -> bool {
        self.has_failed
    }

    fn clear_failed(&mut self) {
        self.has_failed = false;
    }

    /// A package is read once, so it is at its beginning.
    fn rewind(&mut self) -> io::Result<()> {
        Ok(())
    }

    fn read(&mut self, buf: &mut [u8]) -> io::Result<usize> {
        let answer = self.origin.read_on(buf);
        self.has_failed |= answer.is_err();
        if matches!(answer, Ok(0)) {
            self.origin.end();
        }
        answer
    }
}
