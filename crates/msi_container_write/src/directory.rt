//! The directory's sectors, four entries each: the root, the streams in the order of their names, and unused entries
//! (MS-CFB 2.6).

ghost use Rattle.std.specs.Prelude.{◌≡◌, ◌+◌, ◌*◌, ◌<◌, ◌≤◌, ◌^◌, length, map, slice_index};
ghost use Rattle.std.specs.List.{range_with_len};
ghost use Rattle.msi_container_format.specs.Format as marks;
ghost use Rattle.msi_container_write.specs.Index.{IsIndex, streams_of};
ghost use Rattle.msi_container_write.specs.Layout as spec;
ghost use Rattle.msi_container_write.specs.LayoutLaw.{HaveNames};

use crate::balance::{links, middle};
use crate::entries::{Entry, entry_bytes, put, unused_entry};
use crate::extents::start_of;
use crate::index::Place;
use crate::totals::{directory_sectors, mini_fat_sectors, mini_stream_sectors};
use msi_container_format::format::{
    END_OF_CHAIN, ENTRY_SIZE, MINI_SECTOR_SIZE, MINI_STREAM_CUTOFF, NO_ENTRY, ROOT, SECTOR_SIZE_3,
    STREAM,
};

/// `Root Entry` in UTF-16.
const ROOT_NAME: [u16; 10] = [82, 111, 111, 116, 32, 69, 110, 116, 114, 121];

/// The CLSID of a stream.
const NO_CLSID: [u8; 16] = [0; 16];

/// How many entries a sector has.
const ENTRIES: usize = SECTOR_SIZE_3 / ENTRY_SIZE;

pub(crate) fn fill_directory(
    sector: &mut [u8; SECTOR_SIZE_3],
    clsid: [u8; 16],
    places: &[Place],
    mini_sectors: usize,
    m: usize,
)
    requires indexed { IsIndex places.now }
    requires names { HaveNames (streams_of places.now) }
    requires counted { mini_sectors ≡ spec.mini_sectors (streams_of places.now) }
    requires few { spec.taken_by (streams_of places.now) < 2 ^ 22 }
    requires within { m < spec.directory_sectors (length (streams_of places.now)) }
    ensures { sector.new
        ≡ map (slice_index (spec.directory_of clsid (streams_of places.now))) (range_with_len (512 * m) 512) }
{
    for slot in 0..ENTRIES {
        let entry = entry(clsid, places, mini_sectors, ENTRIES * m + slot);
        put(sector, ENTRY_SIZE * slot, &entry);
    }
}

/// Returns entry `k` of the directory: the root, the streams in order, and entries that aren't in use.
fn entry(clsid: [u8; 16], places: &[Place], mini_sectors: usize, k: usize) -> [u8; ENTRY_SIZE]
    requires indexed { IsIndex places.now }
    requires names { HaveNames (streams_of places.now) }
    requires counted { mini_sectors ≡ spec.mini_sectors (streams_of places.now) }
    requires few { spec.taken_by (streams_of places.now) < 2 ^ 22 }
    requires within { k < 4 * spec.directory_sectors (length (streams_of places.now)) }
    ensures { result
        ≡ map (slice_index (spec.directory_of clsid (streams_of places.now))) (range_with_len (128 * k) 128) }
{
    let count = places.len();
    let mini_stream = directory_sectors(count) + mini_fat_sectors(mini_sectors);
    let large = mini_stream + mini_stream_sectors(mini_sectors);
    if k == 0 {
        root_entry(clsid, places, mini_stream as u32, mini_sectors)
    } else if k <= count {
        stream_entry(&places[k - 1], k as u32, count as u32, large as u32)
    } else {
        unused_entry()
    }
}

/// Returns the root's entry, whose chain is the mini stream, from sector `first` on.
fn root_entry(
    clsid: [u8; 16],
    places: &[Place],
    first: u32,
    mini_sectors: usize,
) -> [u8; ENTRY_SIZE]
    requires first { first ≡ spec.mini_stream_first (streams_of places.now) }
    requires counted { mini_sectors ≡ spec.mini_sectors (streams_of places.now) }
    requires few { length places.now + 1 < marks.NO_ENTRY }
    requires fits { mini_sectors < 2 ^ 31 }
    ensures { result ≡ spec.entry_bytes (spec.root_entry clsid (streams_of places.now)) }
{
    entry_bytes(&Entry {
        name: &ROOT_NAME,
        kind: ROOT,
        left: NO_ENTRY,
        right: NO_ENTRY,
        child: middle(1, places.len() as u32),
        clsid,
        start: start_of(first, mini_sectors as u32),
        size: (MINI_SECTOR_SIZE * mini_sectors) as u64,
    })
}

/// Returns entry `k` of `count` streams, the large ones of which lie from sector `large` on.
fn stream_entry(place: &Place, k: u32, count: u32, large: u32) -> [u8; ENTRY_SIZE]
    requires few { count + 1 < marks.NO_ENTRY }
    requires some { 1 ≤ k }
    requires most { k ≤ count }
    requires fits { large + place.now.first < 2 ^ 32 }
    requires name { length place.now.stream.0 ≤ 31 }
    ensures { result
        ≡ spec.entry_bytes (spec.stream_entry count k (large + place.now.first) place.now.first_mini place.now.stream) }
{
    let (left, right) = links(count, k);
    let size = place.bytes().len();
    entry_bytes(&Entry {
        name: place.name(),
        kind: STREAM,
        left,
        right,
        child: NO_ENTRY,
        clsid: NO_CLSID,
        start: stream_start(size, large + place.first(), place.first_mini()),
        size: size as u64,
    })
}

fn stream_start(size: usize, next: u32, next_mini: u32) -> u32
    ensures { result ≡ spec.stream_start next next_mini size }
{
    if size == 0 {
        END_OF_CHAIN
    } else if size < MINI_STREAM_CUTOFF as usize {
        next_mini
    } else {
        next
    }
}
