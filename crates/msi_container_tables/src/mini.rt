//! The mini FAT, and the mini stream, whose sectors hold the mini sectors of small streams (MS-CFB 2.4 and 2.6.2).

ghost use Rattle.std.specs.Prelude.{◌≡◌, ℕ, List, ◌+◌, ◌<◌, ◌≤◌, ◌^◌, ◌++◌, vec_len, IfOk};
ghost use Rattle.msi_container_format.specs.Container as container;
ghost use Rattle.msi_container_format.specs.Container.{IsMiniFat};
ghost use Rattle.msi_container_format.specs.Format as marks;
ghost use Rattle.msi_container_tables.specs.Claims.{CanClaim};
ghost use Rattle.msi_container_tables.specs.Counts.{links};
ghost use Rattle.msi_container_tables.specs.Outcomes.{ViewIsUnlessMemory, FailsByData};
ghost use Rattle.msi_container_tables.specs.Reading.{IsMini};

use crate::claims::Claims;
use crate::directory::Directory;
use crate::header::sector_size;
use crate::table::{AllocationTable, Steps};
use crate::walks::{walk, walk_to_end};
use msi_base::Error;
use msi_container_format::format::{MAX_REGULAR_SECTOR, MINI_FAT_START_AT};
use msi_container_format::parts::number32;
use std::alloc::Global;

/// The sectors of the mini FAT and of the mini stream, in the order of their chains.
pub struct Mini {
    /// The sectors of the mini FAT; none where the header names no first one.
    pub fat: Vec<u32>,
    /// The sectors of the mini stream, as many as its size needs.
    pub stream: Vec<u32>,
}

impl Drop for Mini {
    fn drop(self) {
        let Mini { fat: _, stream: _ } = self;
    }
}

/// The sectors of the mini FAT, to its end mark, and those of the mini stream, as many as the size in the root entry
/// needs; each is claimed. The directory has an entry at least. `InvalidData` where a sector can't be claimed or has no
/// successor; `OutOfMemory`. Each look-up of a successor takes a step.
pub fn read_mini(
    alloc: Global,
    fat: &AllocationTable,
    directory: &Directory,
    claims: &mut Claims,
    steps: &mut Steps,
) -> Result<Mini, Error>
    requires same { fat.now.bytes.now ≡ directory.now.bytes.now }
    requires root { 0 < container.entry_count directory.now.bytes.now directory.now.sectors.now }
    requires regular { vec_len claims.old.marks ≤ marks.MAX_REGULAR_SECTOR + 1 }
    requires steps { steps.old + vec_len claims.old.marks + vec_len claims.old.marks + 1 < 2 ^ 64 }
    ensures limit { vec_len claims.new.marks ≡ vec_len claims.old.marks }
    ensures found { IfOk result
        (λ m. IsMini directory.now.bytes.now
        (vec_len claims.old.marks) claims.old.list.items fat.now.sectors.now directory.now.sectors.now m.fat.items
        m.stream.items
        × (claims.new.list.items ≡ claims.old.list.items ++ m.fat.items ++ m.stream.items)) }
    ensures only { (mini_fat mini_stream : List ℕ)
        → IsMini directory.now.bytes.now
        (vec_len claims.old.marks) claims.old.list.items fat.now.sectors.now directory.now.sectors.now mini_fat
        mini_stream
        → ViewIsUnlessMemory {Y = List ℕ × List ℕ} (λ m. (m.fat.items, m.stream.items)) result (mini_fat, mini_stream) }
    ensures kinds { FailsByData result }
    ensures few { IfOk result (λ m. vec_len m.fat + vec_len m.stream ≤ vec_len claims.old.marks) }
    ensures grows { steps.old ≤ steps.new }
    ensures bounded { steps.new + vec_len claims.old.list ≤ steps.old + vec_len claims.new.list }
    ensures exact { IfOk result (λ m. steps.new ≡ steps.old + vec_len m.fat + links m.stream.items) }
{
    let mini_fat = read_mini_fat(alloc, directory.bytes, fat, claims, steps)?;
    let size = sector_size(directory.bytes) as u64;
    let count = directory.size(0).div_ceil(size) as usize;
    let stream = walk(alloc, fat, directory.start_sector(0), count, claims, steps)?;
    Ok(Mini {
        fat: mini_fat,
        stream,
    })
}

/// The sectors of the mini FAT; none where the header names no first one.
fn read_mini_fat(
    alloc: Global,
    bytes: &[u8],
    fat: &AllocationTable,
    claims: &mut Claims,
    steps: &mut Steps,
) -> Result<Vec<u32>, Error>
    requires same { fat.now.bytes.now ≡ bytes.now }
    requires regular { vec_len claims.old.marks ≤ marks.MAX_REGULAR_SECTOR + 1 }
    requires steps { steps.old + vec_len claims.old.marks + vec_len claims.old.marks + 1 < 2 ^ 64 }
    ensures limit { vec_len claims.new.marks ≡ vec_len claims.old.marks }
    ensures found { IfOk result (λ mini_fat. IsMiniFat fat.now.bytes.now fat.now.sectors.now mini_fat.items
        × (claims.new.list.items ≡ claims.old.list.items ++ mini_fat.items)) }
    ensures only { (mini_fat : List ℕ) → IsMiniFat fat.now.bytes.now fat.now.sectors.now mini_fat
        → CanClaim (vec_len claims.old.marks) claims.old.list.items mini_fat
        → ViewIsUnlessMemory (λ v. v.items) result mini_fat }
    ensures kinds { FailsByData result }
    ensures grows { steps.old ≤ steps.new }
    ensures bounded { steps.new + vec_len claims.old.list ≤ steps.old + vec_len claims.new.list }
    ensures exact { IfOk result (λ mini_fat. steps.new ≡ steps.old + vec_len mini_fat) }
{
    let first = number32(bytes, MINI_FAT_START_AT);
    if first <= MAX_REGULAR_SECTOR {
        walk_to_end(alloc, fat, first, claims, steps)
    } else {
        Ok(Vec::new(alloc))
    }
}
