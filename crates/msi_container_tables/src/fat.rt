//! The sectors of the DIFAT, and those of the FAT, which the header and the DIFAT list (MS-CFB 2.2, 2.3 and 2.5).

ghost use Rattle.std.specs.Prelude.{◌≡◌, ℕ, List, ◌-◌, ◌/◌, ◌<◌, ◌++◌, length, vec_len, IfOk};
ghost use Rattle.std.specs.Int.{div_ceil};
ghost use Rattle.msi_container_tables.specs.Claims.{CanClaim};
ghost use Rattle.msi_container_tables.specs.Outcomes.{ViewIsUnlessMemory, FailsByData};
ghost use Rattle.msi_container_tables.specs.Walks.{follower};
ghost use Rattle.msi_container_format.specs.Container as container;
ghost use Rattle.msi_container_format.specs.Container.{IsDifat, fat_of};

use crate::claims::Claims;
use crate::header::sector_size;
use msi_base::Error;
use msi_container_format::format::{
    DIFAT_START_AT, FAT_COUNT_AT, FAT_SECTORS_AT, HEADER_FAT_SECTORS, LINK_SIZE,
};
use msi_container_format::parts::number32;
use std::alloc::Global;

/// The sectors of the DIFAT in the order of their chain, as many as the number of FAT sectors needs, each claimed
/// (MS-CFB 2.5). `InvalidData` where one can't be claimed; `OutOfMemory`.
pub fn read_difat(alloc: Global, bytes: &[u8], claims: &mut Claims) -> Result<Vec<u32>, Error>
    ensures limit { vec_len claims.new.marks ≡ vec_len claims.old.marks }
    ensures found { IfOk result
        (λ difat. IsDifat bytes.now difat.items × (claims.new.list.items ≡ claims.old.list.items ++ difat.items)) }
    ensures only { (difat : List ℕ) → IsDifat bytes.now difat
        → CanClaim (vec_len claims.old.marks) claims.old.list.items difat
        → ViewIsUnlessMemory (λ v. v.items) result difat }
    ensures kinds { FailsByData result }
{
    let size = sector_size(bytes);
    let listed = number32(bytes, FAT_COUNT_AT).saturating_sub(HEADER_FAT_SECTORS) as usize;
    let mut difat = Vec::new(alloc);
    for _ in 0..listed.div_ceil(size / LINK_SIZE - 1) {
        let sector = next_sector(bytes, &difat);
        claims.claim(sector)?;
        difat.push(sector)?;
    }
    Ok(difat)
}

/// Returns the sector of the DIFAT behind those so far: the header names the first, and each ends in the number of the
/// next. The number may be that of no sector.
pub fn next_sector(bytes: &[u8], so_far: &[u32]) -> u32
    ensures { Some result ≡ follower (container.next_difat bytes.now) (container.difat_start bytes.now) so_far.now }
{
    match so_far.last() {
        None => number32(bytes, DIFAT_START_AT),
        Some(last) => {
            let size = sector_size(bytes);
            number32(bytes, (*last as usize + 1) * size + (size - LINK_SIZE))
        }
    }
}

/// The sectors of the FAT in the order of their entries, each claimed (MS-CFB 2.3). `difat` has all sectors of the
/// DIFAT. `InvalidData` where one can't be claimed; `OutOfMemory`.
pub fn read_fat(
    alloc: Global,
    bytes: &[u8],
    difat: &[u32],
    claims: &mut Claims,
) -> Result<Vec<u32>, Error>
    requires { length difat.now
        ≡ div_ceil (container.fat_count bytes.now - 109) (container.sector_size bytes.now / 4 - 1) }
    ensures limit { vec_len claims.new.marks ≡ vec_len claims.old.marks }
    ensures found { IfOk result
        (λ fat. (fat.items ≡ fat_of bytes.now difat.now)
        × (claims.new.list.items ≡ claims.old.list.items ++ fat.items)) }
    ensures only { CanClaim (vec_len claims.old.marks) claims.old.list.items (fat_of bytes.now difat.now)
        → ViewIsUnlessMemory (λ v. v.items) result (fat_of bytes.now difat.now) }
    ensures kinds { FailsByData result }
{
    let mut fat = Vec::new(alloc);
    for place in 0..number32(bytes, FAT_COUNT_AT) {
        let sector = listed(bytes, difat, place);
        claims.claim(sector)?;
        fat.push(sector)?;
    }
    Ok(fat)
}

/// Returns the number that the header and the DIFAT list at a place below the number of FAT sectors.
fn listed(bytes: &[u8], difat: &[u32], place: u32) -> u32
    requires difat { length difat.now
        ≡ div_ceil (container.fat_count bytes.now - 109) (container.sector_size bytes.now / 4 - 1) }
    requires place { place < container.fat_count bytes.now }
    ensures { result ≡ container.listed bytes.now difat.now place }
{
    if place < HEADER_FAT_SECTORS {
        return number32(bytes, FAT_SECTORS_AT + LINK_SIZE * place as usize);
    }
    let size = sector_size(bytes);
    let each = size / LINK_SIZE - 1;
    let behind = (place - HEADER_FAT_SECTORS) as usize;
    let sector = difat[behind / each] as usize;
    number32(bytes, (sector + 1) * size + LINK_SIZE * (behind % each))
}
