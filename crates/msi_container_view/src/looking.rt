//! The tables of a container, part by part: the DIFAT, the FAT, the directory, the mini FAT and the mini stream. What
//! each of them says is read of the copy, and is what the file says.

ghost use Rattle.std.specs.Prelude.{◌≡◌, ℕ, List, ◌+◌, ◌-◌, ◌*◌, ◌/◌, ◌<◌, ◌≤◌, ◌^◌, ◌++◌, length, vec_len};
ghost use Rattle.std.specs.Prelude.{IfOk};
ghost use Rattle.std.specs.Int.{div_ceil};
ghost use Rattle.msi_container_format.specs.Container as container;
ghost use Rattle.msi_container_format.specs.Container.{IsDifat, IsDirectory, fat_of};
ghost use Rattle.msi_container_format.specs.Format as marks;
ghost use Rattle.msi_container_tables.specs.Claims.{CanClaim};
ghost use Rattle.msi_container_tables.specs.Reading.{IsMini};
ghost use Rattle.msi_container_view.specs.Reading.{Answers};
ghost use Rattle.msi_container_view.specs.Tables.{IsCopy, ReadsOn, StandAt};

use crate::tables::{Copied, Tables};
use msi_base::Error;
use msi_container_device::Seekable;
use msi_container_format::format::{
    DIRECTORY_START_AT, FAT_COUNT_AT, HEADER_FAT_SECTORS, LINK_SIZE,
};
use msi_container_format::parts::number32;
use msi_container_tables::{
    AllocationTable, Claims, Directory, Mini, Steps, next_sector, read_fat, read_mini, sector_size,
    walk_to_end,
};
use std::alloc::Global;
use std::mem::replace;

/// The sectors of the DIFAT, each claimed.
pub(crate) fn look_difat<S: Seekable + Drop>(
    alloc: Global,
    tables: &mut Tables<S>,
    claims: &mut Claims,
) -> Result<Copied, Error>
    requires copied { IsCopy tables.old }
    requires room { length tables.old.copy
        ≤ (1 + vec_len claims.old.list) * container.sector_size tables.old.copy }
    requires regular { vec_len claims.old.marks ≤ marks.MAX_REGULAR_SECTOR + 1 }
    ensures answer { Answers S.can_fail tables.old.held
        (λ file difat. IsDifat file difat.sectors.items)
        (λ file. (difat : List ℕ) → IsDifat file difat
        → CanClaim (vec_len claims.old.marks) claims.old.list.items difat → ⊥) result }
    ensures reads { IfOk result (λ difat. ReadsOn tables.old tables.new (vec_len difat.sectors)) }
    ensures stand { IfOk result
        (λ difat. StandAt tables.old.held tables.new.copy difat.sectors.items difat.places.items) }
    ensures count { IfOk result (λ difat. vec_len difat.sectors
        ≡ div_ceil (container.fat_count tables.new.copy - 109) (container.sector_size tables.new.copy / 4 - 1)) }
    ensures claimed { IfOk result
        (λ difat. claims.new.list.items ≡ claims.old.list.items ++ difat.sectors.items) }
    ensures limit { vec_len claims.new.marks ≡ vec_len claims.old.marks }
{
    let size = sector_size(tables.copy());
    let listed = number32(tables.copy(), FAT_COUNT_AT).saturating_sub(HEADER_FAT_SECTORS) as usize;
    let mut difat = Copied {
        sectors: Vec::new(alloc),
        places: Vec::new(alloc),
    };
    for _ in 0..listed.div_ceil(size / LINK_SIZE - 1) {
        let sector = next_sector(tables.copy(), difat.places.as_slice());
        claims.claim(sector)?;
        difat.places.push(tables.load_one(sector)?)?;
        difat.sectors.push(sector)?;
    }
    Ok(difat)
}

/// The sectors of the FAT, each claimed.
pub(crate) fn look_fat<S: Seekable + Drop>(
    alloc: Global,
    tables: &mut Tables<S>,
    difat: &Copied,
    claims: &mut Claims,
) -> Result<Copied, Error>
    requires copied { IsCopy tables.old }
    requires stand { StandAt tables.old.held tables.old.copy difat.now.sectors.items difat.now.places.items }
    requires count { vec_len difat.now.sectors
        ≡ div_ceil (container.fat_count tables.old.copy - 109) (container.sector_size tables.old.copy / 4 - 1) }
    requires room { length tables.old.copy
        ≤ (1 + vec_len claims.old.list) * container.sector_size tables.old.copy }
    requires regular { vec_len claims.old.marks ≤ marks.MAX_REGULAR_SECTOR + 1 }
    ensures answer { Answers S.can_fail tables.old.held
        (λ file fat. fat.sectors.items ≡ fat_of file difat.now.sectors.items)
        (λ file. CanClaim (vec_len claims.old.marks) claims.old.list.items (fat_of file difat.now.sectors.items) → ⊥)
        result }
    ensures reads { IfOk result (λ fat. ReadsOn tables.old tables.new (vec_len fat.sectors)) }
    ensures stand { IfOk result
        (λ fat. StandAt tables.old.held tables.new.copy fat.sectors.items fat.places.items) }
    ensures claimed { IfOk result
        (λ fat. claims.new.list.items ≡ claims.old.list.items ++ fat.sectors.items) }
    ensures limit { vec_len claims.new.marks ≡ vec_len claims.old.marks }
{
    let sectors = read_fat(alloc, tables.copy(), difat.places.as_slice(), claims)?;
    let places = tables.load(alloc, sectors.as_slice())?;
    Ok(Copied { sectors, places })
}

/// The sectors of the directory, each claimed.
pub(crate) fn look_directory<S: Seekable + Drop>(
    alloc: Global,
    tables: &mut Tables<S>,
    fat: &Copied,
    claims: &mut Claims,
) -> Result<Copied, Error>
    requires copied { IsCopy tables.old }
    requires stand { StandAt tables.old.held tables.old.copy fat.now.sectors.items fat.now.places.items }
    requires few { vec_len fat.now.sectors ≤ 2 ^ 32 }
    requires room { length tables.old.copy
        ≤ (1 + vec_len claims.old.list) * container.sector_size tables.old.copy }
    requires regular { vec_len claims.old.marks ≤ marks.MAX_REGULAR_SECTOR + 1 }
    ensures answer { Answers S.can_fail tables.old.held
        (λ file directory. IsDirectory file fat.now.sectors.items directory.sectors.items)
        (λ file. (directory : List ℕ) → IsDirectory file fat.now.sectors.items directory
        → CanClaim (vec_len claims.old.marks) claims.old.list.items directory → ⊥) result }
    ensures some { IfOk result (λ directory. 0 < vec_len directory.sectors) }
    ensures reads { IfOk result (λ directory. ReadsOn tables.old tables.new (vec_len directory.sectors)) }
    ensures stand { IfOk result
        (λ directory. StandAt tables.old.held tables.new.copy directory.sectors.items directory.places.items) }
    ensures claimed { IfOk result
        (λ directory. claims.new.list.items ≡ claims.old.list.items ++ directory.sectors.items) }
    ensures limit { vec_len claims.new.marks ≡ vec_len claims.old.marks }
{
    let mut steps = Steps::new();
    let table = AllocationTable::new(tables.copy(), fat.places.as_slice());
    let first = number32(tables.copy(), DIRECTORY_START_AT);
    let sectors = walk_to_end(alloc, &table, first, claims, &mut steps)?;
    let places = tables.load(alloc, sectors.as_slice())?;
    Ok(Copied { sectors, places })
}

/// The sectors of the mini FAT and of the mini stream. Those of the mini FAT stand in the copy at `mini.fat`.
#[derive(Drop)]
pub(crate) struct MiniTables {
    pub(crate) sectors: Vec<u32>,
    pub(crate) mini: Mini,
}

/// The sectors of the mini FAT and of the mini stream, each claimed. Those of the mini stream aren't read.
pub(crate) fn look_mini<S: Seekable + Drop>(
    alloc: Global,
    tables: &mut Tables<S>,
    fat: &Copied,
    directory: &Copied,
    claims: &mut Claims,
) -> Result<MiniTables, Error>
    requires copied { IsCopy tables.old }
    requires fat { StandAt tables.old.held tables.old.copy fat.now.sectors.items fat.now.places.items }
    requires directory { StandAt tables.old.held tables.old.copy
        directory.now.sectors.items directory.now.places.items }
    requires few { vec_len fat.now.sectors + vec_len directory.now.sectors ≤ 2 ^ 32 }
    requires some { 0 < vec_len directory.now.sectors }
    requires room { length tables.old.copy
        ≤ (1 + vec_len claims.old.list) * container.sector_size tables.old.copy }
    requires regular { vec_len claims.old.marks ≤ marks.MAX_REGULAR_SECTOR + 1 }
    ensures answer { Answers S.can_fail tables.old.held
        (λ file found. IsMini file (vec_len claims.old.marks) claims.old.list.items fat.now.sectors.items
        directory.now.sectors.items found.sectors.items found.mini.stream.items)
        (λ file. (mini_fat mini_stream : List ℕ) → IsMini file (vec_len claims.old.marks) claims.old.list.items
        fat.now.sectors.items directory.now.sectors.items mini_fat mini_stream → ⊥) result }
    ensures reads { IfOk result (λ found. ReadsOn tables.old tables.new (vec_len found.sectors)) }
    ensures stand { IfOk result
        (λ found. StandAt tables.old.held tables.new.copy found.sectors.items found.mini.fat.items) }
    ensures claimed { IfOk result (λ found. claims.new.list.items
        ≡ claims.old.list.items ++ found.sectors.items ++ found.mini.stream.items) }
    ensures limit { vec_len claims.new.marks ≡ vec_len claims.old.marks }
{
    let mut steps = Steps::new();
    let table = AllocationTable::new(tables.copy(), fat.places.as_slice());
    let entries = Directory::new(tables.copy(), directory.places.as_slice());
    let mut mini = read_mini(alloc, &table, &entries, claims, &mut steps)?;
    let places = tables.load(alloc, mini.fat.as_slice())?;
    let sectors = replace(&mut mini.fat, places);
    Ok(MiniTables { sectors, mini })
}
