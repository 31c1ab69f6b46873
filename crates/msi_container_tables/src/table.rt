//! An allocation table as the bytes of its sectors, and how often it was looked up (MS-CFB 2.3).

ghost use Rattle.std.specs.Prelude.{◌≡◌, ◌+◌, ◌<◌, ◌≤◌, ◌^◌, length};
ghost use Rattle.msi_container_format.specs.Container as container;

use crate::header::sector_size;
use msi_container_format::format::LINK_SIZE;
use msi_container_format::parts::{number32, place};
use std::marker::Model;

/// How many successors were looked up, in the FAT and in the mini FAT. It never falls.
#[derive(Debug, Drop)]
pub struct Steps {
    count: u64,
}

impl Model for Steps {
    ghost use Rattle.std.specs.Prelude.{ℕ};

    ghost Value = { ℕ };

    ghost view = { λ s. s.count };
}

impl Steps {
    /// Returns a count of 0.
    pub fn new() -> Steps
        ensures { result ≡ 0 }
    {
        Steps { count: 0 }
    }

    /// Returns how many successors were looked up.
    pub fn count(&self) -> u64
        ensures { result ≡ self.now }
    {
        self.count
    }

    fn take(&mut self)
        requires { self.old + 1 < 2 ^ 64 }
        ensures { self.new ≡ self.old + 1 }
    {
        self.count += 1;
    }
}

/// The allocation table that stands in these sectors, four bytes for each entry: the FAT, or the mini FAT (MS-CFB 2.3
/// and 2.4).
#[derive(Clone, Copy)]
pub struct AllocationTable<'a> {
    /// The bytes of the file.
    pub bytes: &'a [u8],
    /// The numbers of the table's sectors, in the order of its entries.
    pub sectors: &'a [u32],
    pub ghost few: { length sectors.now ≤ 2 ^ 32 },
}

impl<'a> AllocationTable<'a> {
    /// The table in these sectors of a file, at most 2 ^ 32 of them.
    pub fn new(bytes: &'a [u8], sectors: &'a [u32]) -> AllocationTable<'a>
        requires { length sectors.now ≤ 2 ^ 32 }
        ensures bytes { result.bytes.now ≡ bytes.now }
        ensures sectors { result.sectors.now ≡ sectors.now }
    {
        AllocationTable { bytes, sectors }
    }

    /// The number behind a sector in its chain, or a mark; `None` past the end of the table. This is the only way to an
    /// entry, and takes a step.
    pub(crate) fn successor(&self, sector: u32, steps: &mut Steps) -> Option<u32>
        requires { steps.old + 1 < 2 ^ 64 }
        ensures value { result ≡ container.successor self.now.bytes.now self.now.sectors.now sector }
        ensures step { steps.new ≡ steps.old + 1 }
    {
        steps.take();
        let size = sector_size(self.bytes);
        let at = LINK_SIZE * sector as usize;
        if at < self.sectors.len() * size {
            Some(number32(self.bytes, place(size, self.sectors, at)))
        } else {
            None
        }
    }
}
