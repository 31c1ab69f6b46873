//! The sectors of the mini stream and of the large streams.

ghost use Rattle.std.specs.Prelude.{◌≡◌, ◌*◌, ◌<◌, ◌^◌, length, map};
ghost use Rattle.std.specs.List.{range_with_len};
ghost use Rattle.msi_container_format.specs.Bytes.{bytes_at};
ghost use Rattle.msi_container_write.specs.Extents.{laid_byte};
ghost use Rattle.msi_container_write.specs.Index.{IsIndex, streams_of};
ghost use Rattle.msi_container_write.specs.Layout as spec;

use crate::index::{Place, from_mini_sector, from_sector};
use msi_container_format::format::{MINI_SECTOR_SIZE, SECTOR_SIZE_3};

/// Fills sector `m` of the large streams: it has the bytes of one stream, and zeros behind its end.
pub(crate) fn fill_large(sector: &mut [u8; SECTOR_SIZE_3], places: &[Place], m: usize)
    requires indexed { IsIndex places.now }
    requires few { m < 2 ^ 22 }
    ensures { sector.new ≡ map (laid_byte 512 (spec.large_parts (streams_of places.now)))
        (range_with_len (512 * m) 512) }
{
    fill_unit(sector, from_sector(places, m));
}

/// Fills sector `m` of the mini stream: each of its mini sectors has the bytes of one stream, and zeros behind its
/// end. Past the last stream all is zero.
pub(crate) fn fill_mini_stream(sector: &mut [u8; SECTOR_SIZE_3], places: &[Place], m: usize)
    requires indexed { IsIndex places.now }
    requires few { m < 2 ^ 22 }
    ensures { sector.new ≡ map (laid_byte 64 (spec.mini_parts (streams_of places.now))) (range_with_len (512 * m) 512) }
{
    for k in 0..SECTOR_SIZE_3 / MINI_SECTOR_SIZE {
        let start = MINI_SECTOR_SIZE * k;
        let rest = from_mini_sector(places, SECTOR_SIZE_3 / MINI_SECTOR_SIZE * m + k);
        fill_unit(&mut sector[start..start + MINI_SECTOR_SIZE], rest);
    }
}

fn fill_unit(unit: &mut [u8], bytes: &[u8])
    ensures { unit.new ≡ bytes_at bytes.now 0 (length unit.old) }
{
    let count = unit.len().min(bytes.len());
    unit[..count].copy_from_slice(&bytes[..count]);
    unit[count..].fill(0);
}
