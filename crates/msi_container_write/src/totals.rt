//! How many sectors a file has: those of the directory, the mini FAT and the mini stream, and those of the FAT and of
//! the DIFAT, which grow with the file (MS-CFB 2.3 to 2.6).

ghost use Rattle.std.specs.Prelude.{◌≡◌, ◌<◌, ◌≤◌, ◌^◌, IfSome, IsNone};
ghost use Rattle.std.specs.Int.{div_ceil};
ghost use Rattle.msi_container_write.specs.Image as spec;
ghost use Rattle.msi_container_write.specs.Layout as layout;

use msi_container_format::format::{
    DIFAT_ENTRIES, FAT_ENTRIES, HEADER_FAT_SECTORS, MINI_SECTOR_SIZE, SECTOR_SIZE_3,
};

/// A file that is written has fewer sectors than this: with the header they take 2^31 bytes at most.
pub(crate) const MAX_SECTORS: usize = 1 << 22;

pub(crate) fn directory_sectors(count: usize) -> usize
    ensures { result ≡ layout.directory_sectors count }
{
    count / 4 + 1
}

/// A sector of the mini FAT has 128 entries (MS-CFB 2.4).
pub(crate) fn mini_fat_sectors(mini_sectors: usize) -> usize
    ensures { result ≡ div_ceil mini_sectors 128 }
{
    mini_sectors.div_ceil(FAT_ENTRIES)
}

pub(crate) fn mini_stream_sectors(mini_sectors: usize) -> usize
    ensures { result ≡ div_ceil mini_sectors 8 }
{
    mini_sectors.div_ceil(SECTOR_SIZE_3 / MINI_SECTOR_SIZE)
}

pub(crate) fn fat_sectors(total: usize) -> usize
    ensures { result ≡ spec.fat_sectors total }
{
    total.div_ceil(FAT_ENTRIES)
}

/// The DIFAT lists those sectors of the FAT that the header doesn't list.
pub(crate) fn difat_sectors(total: usize) -> usize
    ensures { result ≡ spec.difat_sectors total }
{
    fat_sectors(total)
        .saturating_sub(HEADER_FAT_SECTORS as usize)
        .div_ceil(DIFAT_ENTRIES)
}

/// Returns the least number of sectors that has room for those that are `taken`, the FAT's and the DIFAT's, and makes
/// the file no shorter than one of `earlier_len` bytes. It is `None` where that is `MAX_SECTORS` or more.
pub(crate) fn least_total(taken: usize, earlier_len: u64) -> Option<usize>
    requires { taken ≤ 2 ^ 23 }
    ensures some { IfSome result (λ total. total ≡ spec.least_total taken earlier_len) }
    ensures few { IfSome result (λ total. total < 2 ^ 22) }
    ensures none { IsNone result → 2 ^ 22 ≤ spec.least_total taken earlier_len }
{
    let earlier = earlier_len.div_ceil(SECTOR_SIZE_3 as u64) as usize;
    let mut total = taken.max(earlier.saturating_sub(1));
    while total < MAX_SECTORS {
        let needed = taken + fat_sectors(total) + difat_sectors(total);
        if needed <= total {
            return Some(total);
        }
        total = needed;
    }
    None
}
