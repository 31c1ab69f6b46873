//! What the calls of a transcript work on.

use msi::{Memory, Package};
use std::alloc::Global;
use std::mem;
use transcripts_words::counting::Counting;
use transcripts_words::failure::Failure;
use transcripts_words::kept::Kept;
use transcripts_words::words::Words;

/// A package, and bytes by name, as those of earlier ones.
pub(crate) struct Session {
    /// The package, if there is one.
    pub(crate) package: Option<Package<Counting>>,
    /// The bytes.
    pub(crate) kept: Kept,
    /// The next device, over no bytes yet.
    next: Counting,
    /// How many calls the device of the last package got that was closed.
    pub(crate) calls: usize,
    /// How many of them were writes.
    pub(crate) writes: usize,
}

/// Written out, so that a function that owns one calls one drop.
impl Drop for Session {
    fn drop(self) {
        let Session {
            package: _,
            kept: _,
            next: _,
            calls: _,
            writes: _,
        } = self;
    }
}

/// The failure of a call that needs a package.
pub(crate) const NO_PACKAGE: Failure = Failure::Unreadable("there is no package");

fn plain(alloc: Global) -> Counting {
    Counting::new(Vec::new(alloc))
}

impl Session {
    pub(crate) fn new(alloc: Global) -> Session {
        Session {
            package: None,
            kept: Kept::new(alloc),
            next: plain(alloc),
            calls: 0,
            writes: 0,
        }
    }

    pub(crate) fn package(&self) -> Result<&Package<Counting>, Failure> {
        self.package.as_ref().ok_or(NO_PACKAGE)
    }

    pub(crate) fn package_mut(&mut self) -> Result<&mut Package<Counting>, Failure> {
        self.package.as_mut().ok_or(NO_PACKAGE)
    }

    pub(crate) fn take(&mut self) -> Result<Package<Counting>, Failure> {
        self.package.take().ok_or(NO_PACKAGE)
    }

    /// Returns a device over these bytes. The next one is plain again.
    pub(crate) fn device(&mut self, alloc: Global, bytes: Vec<u8>) -> Counting {
        let mut device = mem::replace(&mut self.next, plain(alloc));
        device.memory = Memory::from_vec(bytes);
        device
    }

    /// Keeps the bytes of a device under a name that was reserved, and how many calls it got.
    pub(crate) fn close(&mut self, name: &str, device: Counting) {
        self.calls = device.calls;
        self.writes = device.writes;
        self.kept.keep(name, device.memory.into_vec());
    }

    /// Reads what the next device does.
    pub(crate) fn behave(&mut self, words: &mut Words) {
        self.next = Counting::described(words);
    }
}
