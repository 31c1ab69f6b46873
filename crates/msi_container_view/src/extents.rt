//! Streams as pieces of the file, in the order of their bytes.

ghost use Rattle.std.specs.Prelude.{◌≡◌, ℕ, List, ◌+◌, ◌*◌, ◌/◌, ◌<◌, ◌≤◌, ◌⊎◌, length, map, take};
ghost use Rattle.std.specs.Prelude.{slice_index, ◌%◌, ◌^◌, IfOk, IsErr, IsErrOf};
ghost use Rattle.std.specs.List.{range_with_len};
ghost use Rattle.msi_base.specs.declared.errors.ErrorKind.TheVariants.{OutOfMemory};
ghost use Rattle.msi_container_format.specs.Bytes as spelled;
ghost use Rattle.msi_container_format.specs.Chains.{AreBelow};
ghost use Rattle.msi_container_format.specs.Container as container;
ghost use Rattle.msi_container_read.specs.Runs.{IsRun};
ghost use Rattle.msi_container_view.specs.Extents.{bytes_of, size_of};

use msi_base::Error;
use msi_container_format::format::MINI_SECTOR_SIZE;
use std::alloc::Global;

/// How many bytes of a stream are one piece at most, and so are held at a time while it is copied: 1 MiB.
const PIECE_LEN: usize = 1024 * 1024;

/// So many bytes of a file, from a place on.
#[derive(Clone, Copy, Debug, PartialEq, Eq, Drop)]
pub struct Extent {
    pub start: u64,
    pub count: u64,
}

/// How many of these sectors follow one another, from the first on.
pub(crate) fn run_len(sectors: &[u32]) -> usize
    requires { 0 < length sectors.now }
    ensures some { 0 < result }
    ensures within { result ≤ length sectors.now }
    ensures run { IsRun (slice_index sectors.now 0) (take result sectors.now) }
{
    let first = sectors[0] as usize;
    let mut len = 1;
    while len < sectors.len() && sectors[len] as usize == first + len {
        len += 1;
    }
    len
}

/// The extents of a stream that lies in sectors of this size. None is longer than 1 MiB.
pub(crate) fn sector_extents(
    alloc: Global,
    size: usize,
    sectors: &[u32],
    count: u64,
) -> Result<Vec<Extent>, Error>
    requires size { (size ≡ 512) ⊎ (size ≡ 4096) }
    requires count { count ≤ length sectors.now * size }
    requires few { length sectors.now < 2 ^ 32 }
    ensures ok { IfOk result (λ extents. (file : List ℕ) → container.sector_size file ≡ size
        → bytes_of file extents.items ≡ map (container.sector_byte file sectors.now) (range_with_len 0 count)) }
    ensures size { IfOk result (λ extents. size_of extents.items ≡ count) }
    ensures memory { IsErr result → IsErrOf result OutOfMemory }
{
    let mut extents = Vec::new(alloc);
    let mut at = 0;
    let mut left = count;
    while left > 0 {
        let most = (sectors.len() - at).min(PIECE_LEN / size);
        let run = run_len(&sectors[at..at + most]);
        let count = left.min(run as u64 * size as u64);
        let start = (u64::from(sectors[at]) + 1) * size as u64;
        extents.push(Extent { start, count })?;
        left -= count;
        at += run;
    }
    Ok(extents)
}

/// The piece of a mini stream from the beginning of one of its mini sectors on: at most the bytes that are wanted, and
/// fewer where the next sector of the mini stream lies elsewhere in the file.
fn mini_extent(size: usize, mini_stream: &[u32], mini_sector: u32, wanted: u64) -> Extent
    requires size { (size ≡ 512) ⊎ (size ≡ 4096) }
    requires few { length mini_stream.now < 2 ^ 32 }
    requires wanted { 0 < wanted }
    requires within { mini_sector * 64 + wanted ≤ length mini_stream.now * size }
    ensures start { result.start ≡ spelled.place size mini_stream.now (64 * mini_sector) }
    ensures some { 0 < result.count }
    ensures most { result.count ≤ wanted }
    ensures whole { (result.count ≡ wanted) ⊎ (result.count % 64 ≡ 0) }
    ensures run { (j : ℕ) → j < result.count
        → spelled.place size mini_stream.now (64 * mini_sector + j) ≡ result.start + j }
{
    let from = MINI_SECTOR_SIZE * mini_sector as usize;
    let (first, inside) = (from / size, from % size);
    let needed = (inside as u64 + wanted).div_ceil(size as u64) as usize;
    let run = run_len(&mini_stream[first..first + needed]);
    Extent {
        start: (u64::from(mini_stream[first]) + 1) * size as u64 + inside as u64,
        count: wanted.min(run as u64 * size as u64 - inside as u64),
    }
}

/// The extents of a stream that lies in mini sectors of a mini stream, whose sectors have this size.
pub(crate) fn mini_extents(
    alloc: Global,
    size: usize,
    mini_stream: &[u32],
    mini_sectors: &[u32],
    count: u64,
) -> Result<Vec<Extent>, Error>
    requires size { (size ≡ 512) ⊎ (size ≡ 4096) }
    requires count { count ≤ length mini_sectors.now * 64 }
    requires within { AreBelow (length mini_stream.now * (size / 64)) mini_sectors.now }
    requires few { length mini_stream.now < 2 ^ 32 }
    requires mini_few { length mini_sectors.now < 2 ^ 32 }
    ensures ok { IfOk result (λ extents. (file : List ℕ) → container.sector_size file ≡ size
        → bytes_of file extents.items
        ≡ map (container.mini_sector_byte file mini_stream.now mini_sectors.now) (range_with_len 0 count)) }
    ensures size { IfOk result (λ extents. size_of extents.items ≡ count) }
    ensures memory { IsErr result → IsErrOf result OutOfMemory }
{
    let mut extents = Vec::new(alloc);
    let mut at = 0;
    let mut left = count;
    while left > 0 {
        let run = run_len(&mini_sectors[at..]) * MINI_SECTOR_SIZE;
        let extent = mini_extent(size, mini_stream, mini_sectors[at], left.min(run as u64));
        extents.push(extent)?;
        left -= extent.count;
        at += extent.count.div_ceil(MINI_SECTOR_SIZE as u64) as usize;
    }
    Ok(extents)
}
