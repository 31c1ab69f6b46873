//! The sectors of the file that is written, each from its number (MS-CFB 2.2): the header, the directory, the mini
//! FAT, the mini stream, the large streams, the FAT, the DIFAT, and free sectors.

ghost use Rattle.std.specs.Prelude.{◌≡◌, ◌+◌, ◌*◌, ◌<◌, ◌≤◌, ◌^◌, map};
ghost use Rattle.std.specs.List.{range_with_len};
ghost use Rattle.msi_container_write.specs.Extents.{laid_byte};
ghost use Rattle.msi_container_write.specs.Image as image;
ghost use Rattle.msi_container_write.specs.Index.{IsIndex, streams_of};
ghost use Rattle.msi_container_write.specs.Layout as spec;
ghost use Rattle.msi_container_write.specs.LayoutLaw.{HaveNames};
ghost use Rattle.msi_container_write.specs.Sectors.{IsLaidOut, sector_of, streams_in};

use crate::content::{fill_large, fill_mini_stream};
use crate::directory::fill_directory;
use crate::index::Place;
use crate::regions::{difat_run, fat_run, mini_fat_run, regions_of};
use crate::tables::{fill_difat, fill_fat, fill_header, fill_mini_fat};
use crate::totals::{difat_sectors, fat_sectors};
use msi_container_format::format::SECTOR_SIZE_3;

/// How much is laid out: the mini sectors, the sectors of the directory, the mini FAT, the mini stream and the large
/// streams together, and all sectors of the file.
#[derive(Clone, Copy)]
pub(crate) struct Extent {
    pub(crate) mini_sectors: usize,
    pub(crate) taken: usize,
    pub(crate) total: usize,
}

/// Streams below a root with this CLSID, and how much they take.
#[derive(Clone, Copy)]
pub(crate) struct Layout<'a> {
    pub(crate) clsid: [u8; 16],
    pub(crate) places: &'a [Place<'a>],
    pub(crate) extent: Extent,
}

pub(crate) fn layout_of<'a>(clsid: [u8; 16], places: &'a [Place<'a>], extent: Extent) -> Layout<'a>
    requires indexed { IsIndex places.now }
    requires names { HaveNames (streams_of places.now) }
    requires mini_sectors { extent.mini_sectors ≡ spec.mini_sectors (streams_of places.now) }
    requires taken { extent.taken ≡ spec.taken_by (streams_of places.now) }
    requires room { extent.taken + image.fat_sectors extent.total + image.difat_sectors extent.total ≤ extent.total }
    requires few { extent.total < 2 ^ 22 }
    ensures laid_out { IsLaidOut result }
    ensures clsid { result.clsid ≡ clsid }
    ensures places { result.places.now ≡ places.now }
    ensures total { result.extent.total ≡ extent.total }
{
    Layout {
        clsid,
        places,
        extent,
    }
}

/// Fills sector `n` of the file, whose header is sector 0.
pub(crate) fn fill(sector: &mut [u8; SECTOR_SIZE_3], layout: &Layout, n: usize)
    requires laid_out { IsLaidOut layout.now }
    requires within { n ≤ layout.now.extent.total }
    ensures { sector.new ≡ sector_of layout.now n }
{
    let extent = layout.extent;
    if n == 0 {
        let mini_fat = mini_fat_run(layout.places, extent.mini_sectors);
        let fat = fat_run(extent.taken, extent.total);
        let difat = difat_run(extent.taken, extent.total);
        fill_header(sector, mini_fat, fat, difat);
    } else if n <= extent.taken {
        fill_part(sector, layout, n - 1);
    } else {
        fill_behind(sector, layout, n - 1 - extent.taken);
    }
}

/// Fills sector `m` of the directory, the mini FAT, the mini stream and the large streams.
fn fill_part(sector: &mut [u8; SECTOR_SIZE_3], layout: &Layout, m: usize)
    requires laid_out { IsLaidOut layout.now }
    requires within { m < layout.now.extent.taken }
    ensures { sector.new
        ≡ map (laid_byte 512 (spec.parts_of layout.now.clsid (streams_in layout.now))) (range_with_len (512 * m) 512) }
{
    let places = layout.places;
    let mini_sectors = layout.extent.mini_sectors;
    let regions = regions_of(places, mini_sectors, layout.extent.taken);
    if m < regions.mini_fat {
        fill_directory(sector, layout.clsid, places, mini_sectors, m);
    } else if m < regions.mini_stream {
        fill_mini_fat(sector, places, m - regions.mini_fat);
    } else if m < regions.large {
        fill_mini_stream(sector, places, m - regions.mini_stream);
    } else {
        fill_large(sector, places, m - regions.large);
    }
}

/// Fills sector `m` of the part behind the streams: the FAT, the DIFAT, and free sectors.
fn fill_behind(sector: &mut [u8; SECTOR_SIZE_3], layout: &Layout, m: usize)
    requires { IsLaidOut layout.now }
    ensures { sector.new ≡ sector_of layout.now (layout.now.extent.taken + 1 + m) }
{
    let extent = layout.extent;
    let count = fat_sectors(extent.total);
    if m < count {
        let regions = regions_of(layout.places, extent.mini_sectors, extent.taken);
        fill_fat(sector, layout.places, regions, extent.total, m);
    } else if m < count + difat_sectors(extent.total) {
        fill_difat(sector, extent.taken, extent.total, m - count);
    } else {
        *sector = [0; SECTOR_SIZE_3];
    }
}
