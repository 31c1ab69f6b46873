//! A device that counts its calls, takes and gives little at a time, and fails once, or from some call on.

ghost use Rattle.std.specs.Prelude.{◌≡◌, OnErr, OnOk, Some, false, true};

use crate::words::Words;
use msi_container_device::{Device, Memory, Seekable, Source};
use std::io;

/// A device over memory: it takes and gives at most so many bytes a call, and one call fails, or all from one on.
#[derive(Drop)]
pub struct Counting {
    /// What it holds.
    pub memory: Memory,
    /// How many bytes a write takes.
    pub most: usize,
    /// How many bytes a read gives; it gives one at least.
    pub most_read: usize,
    /// Which call fails, from 1 on; none for 0.
    pub failing: usize,
    /// Whether each call behind that one fails, too.
    pub lasts: bool,
    /// What that call fails with.
    pub fault: io::ErrorKind,
    /// How many calls there were.
    pub calls: usize,
    /// How many of them were writes.
    pub writes: usize,
    /// Whether a call failed since this was last cleared.
    pub failed: bool,
}

impl Counting {
    /// Returns a device over these bytes that takes and gives all that there is room for, and never fails. Its fault is
    /// a broken pipe.
    pub fn new(bytes: Vec<u8>) -> Counting {
        Counting {
            memory: Memory::from_vec(bytes),
            most: usize::MAX,
            most_read: usize::MAX,
            failing: 0,
            lasts: false,
            fault: io::ErrorKind::BrokenPipe,
            calls: 0,
            writes: 0,
            failed: false,
        }
    }

    /// Reads what a device does, and returns it over no bytes: `most 512 most_read 7 failing 12 lasts interrupted`.
    pub fn described(words: &mut Words) -> Counting {
        let mut device = Counting::new(Vec::new(words.alloc));
        for _ in 0..words.len() {
            if words.len() == 0 {
                break;
            }
            match words.word() {
                "most" => device.most = words.count(),
                "most_read" => device.most_read = words.count(),
                "failing" => device.failing = words.count(),
                "lasts" => device.lasts = true,
                "interrupted" => device.fault = io::ErrorKind::Interrupted,
                _ => words.refuse("a device has no such behaviour"),
            }
        }
        device
    }

    /// Begins a call, which fails where its turn has come.
    fn begin(&mut self) -> io::Result<()>
        ensures memory { self.new.memory ≡ self.old.memory }
        ensures kept { OnOk result (self.new.failed ≡ self.old.failed) }
        ensures failed { OnErr result (self.new.failed ≡ true) }
    {
        self.calls = self.calls.saturating_add(1);
        if self.calls == self.failing || (self.lasts && self.calls > self.failing) {
            self.failed = true;
            return Err(io::Error::from(self.fault));
        }
        Ok(())
    }
}

impl Source for Counting {
    ghost held = { λ d. Some d.memory.held };

    ghost failed = { λ d. d.failed };

    /// What is written is there at once.
    ghost pending = { λ _. false };

    ghost can_fail = { true };

    fn failed(&self) -> bool {
        self.failed
    }

    fn clear_failed(&mut self) {
        self.failed = false;
    }

    fn rewind(&mut self) -> io::Result<()> {
        self.begin()?;
        self.memory.rewind()
    }

    fn read(&mut self, buf: &mut [u8]) -> io::Result<usize> {
        self.begin()?;
        let room = buf.len().min(self.most_read.max(1));
        self.memory.read(&mut buf[..room])
    }
}

impl Seekable for Counting {
    fn length(&mut self) -> io::Result<u64> {
        self.begin()?;
        self.memory.length()
    }

    fn seek_to(&mut self, place: u64) -> io::Result<()> {
        self.begin()?;
        self.memory.seek_to(place)
    }
}

impl Device for Counting {
    ghost writes_can_fail = { true };

    fn write(&mut self, piece: &[u8]) -> io::Result<usize> {
        self.begin()?;
        self.writes = self.writes.saturating_add(1);
        let answer = self.memory.write(&piece[..piece.len().min(self.most)]);
        match answer {
            Ok(0) if !piece.is_empty() => self.failed = true,
            Ok(_) => {}
            Err(_) => self.failed = true,
        }
        answer
    }

    fn flush(&mut self) -> io::Result<()> {
        self.begin()?;
        self.memory.flush()
    }
}
