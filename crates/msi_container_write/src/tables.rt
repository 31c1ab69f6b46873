//! The sectors of the FAT, of the mini FAT and of the DIFAT, and the header (MS-CFB 2.2 to 2.5).

ghost use Rattle.std.specs.Prelude.{◌≡◌, ℕ, List, ◌+◌, ◌*◌, ◌<◌, ◌≤◌, ◌/◌, ◌%◌, ◌^◌, ◌++◌, ◌||◌, ◌==◌, if◌then◌else◌};
ghost use Rattle.std.specs.Prelude.{nat_le, length, map};
ghost use Rattle.msi_container_format.specs.Format.{END_OF_CHAIN};
ghost use Rattle.std.specs.List.{range_with_len, flat_map};
ghost use Rattle.std.specs.Int.{to_le_bytes, w32};
ghost use Rattle.msi_container_write.specs.Extents as extents;
ghost use Rattle.msi_container_write.specs.Image as spec;
ghost use Rattle.msi_container_write.specs.Index.{IsIndex, streams_of};
ghost use Rattle.msi_container_write.specs.Layout as layout;
ghost use Rattle.msi_container_write.specs.Regions.{StandIn};

use crate::extents::{chain_entry, start_of};
use crate::index::{Place, from_mini_sector, from_sector};
use crate::regions::{Regions, Run, difat_run, fat_run};
use crate::totals::{difat_sectors, fat_sectors};
use byteorder::{ByteOrder, LittleEndian};
use msi_container_format::format::{
    DIFAT_ENTRIES, DIFAT_SECTOR, END_OF_CHAIN, FAT_ENTRIES, FAT_SECTOR, FREE_SECTOR,
    HEADER_FAT_SECTORS, MINI_SECTOR_SIZE, MINI_STREAM_CUTOFF, SECTOR_SIZE_3, SIGNATURE,
};

/// The header's fields from the minor version on: versions 62 and 3, the byte order, sectors of 512 bytes, mini
/// sectors of 64, and six bytes that are reserved.
const VERSIONS: [u8; 16] = [0x3E, 0, 3, 0, 0xFE, 0xFF, 9, 0, 6, 0, 0, 0, 0, 0, 0, 0];

pub(crate) fn fill_fat(
    sector: &mut [u8; SECTOR_SIZE_3],
    places: &[Place],
    regions: Regions,
    total: usize,
    m: usize,
)
    requires indexed { IsIndex places.now }
    requires few { regions.fat < 2 ^ 22 }
    requires most { total < 2 ^ 22 }
    requires within { m < 2 ^ 22 }
    ensures { (parts : List (List ℕ)) → StandIn regions (streams_of places.now) parts
        → sector.new ≡ map (extents.table_byte (spec.fat_entry parts total)) (range_with_len (512 * m) 512) }
{
    let mut entries = [0; FAT_ENTRIES];
    for k in 0..FAT_ENTRIES {
        entries[k] = fat_entry(places, regions, total, FAT_ENTRIES * m + k);
    }
    LittleEndian::write_u32_into(&entries, sector);
}

pub(crate) fn fill_mini_fat(sector: &mut [u8; SECTOR_SIZE_3], places: &[Place], m: usize)
    requires indexed { IsIndex places.now }
    requires within { m < 2 ^ 22 }
    ensures { sector.new ≡ map (extents.table_byte (layout.mini_fat_entry (layout.mini_parts (streams_of places.now))))
        (range_with_len (512 * m) 512) }
{
    let mut entries = [0; FAT_ENTRIES];
    for k in 0..FAT_ENTRIES {
        entries[k] = mini_fat_entry(places, FAT_ENTRIES * m + k);
    }
    LittleEndian::write_u32_into(&entries, sector);
}

pub(crate) fn fill_difat(sector: &mut [u8; SECTOR_SIZE_3], taken: usize, total: usize, m: usize)
    requires room { taken + spec.fat_sectors total + spec.difat_sectors total ≤ total }
    requires most { total < 2 ^ 22 }
    requires within { m < spec.difat_sectors total }
    ensures { sector.new ≡ map (extents.table_byte (spec.difat_entry taken total)) (range_with_len (512 * m) 512) }
{
    let fat = fat_run(taken, total);
    let difat = difat_run(taken, total);
    let mut entries = [0; FAT_ENTRIES];
    for k in 0..FAT_ENTRIES {
        entries[k] = difat_entry(fat, difat, (FAT_ENTRIES * m + k) as u32);
    }
    LittleEndian::write_u32_into(&entries, sector);
}

pub(crate) fn fill_header(sector: &mut [u8; SECTOR_SIZE_3], mini_fat: Run, fat: Run, difat: Run)
    requires { fat.first + fat.count < 2 ^ 31 }
    ensures { sector.new ≡ spec.front fat.count mini_fat difat
        ++ flat_map (to_le_bytes w32) (map (spec.listed_entry fat.first fat.count) (range_with_len 0 109)) }
{
    sector[..8].copy_from_slice(&SIGNATURE);
    sector[8..24].fill(0);
    sector[24..40].copy_from_slice(&VERSIONS);
    LittleEndian::write_u32_into(&front_numbers(fat, mini_fat, difat), &mut sector[40..76]);
    fill_list(&mut sector[76..], fat);
}

/// Returns the header's numbers of 32 bits: no directory sector count, the number of FAT sectors, the directory in
/// sector 0, no transaction, the least size of a stream outside the mini stream, the mini FAT, and the DIFAT.
fn front_numbers(fat: Run, mini_fat: Run, difat: Run) -> [u32; 9]
    ensures { result ≡ spec.front_numbers fat.count mini_fat difat }
{
    [
        0,
        fat.count,
        0,
        0,
        MINI_STREAM_CUTOFF,
        start_of(mini_fat.first, mini_fat.count),
        mini_fat.count,
        start_of(difat.first, difat.count),
        difat.count,
    ]
}

fn fill_list(list: &mut [u8], fat: Run)
    requires long { length list.old ≡ 436 }
    requires few { fat.first + fat.count < 2 ^ 31 }
    ensures { list.new ≡ flat_map (to_le_bytes w32)
        (map (spec.listed_entry fat.first fat.count) (range_with_len 0 109)) }
{
    let mut entries = [0; HEADER_FAT_SECTORS as usize];
    for k in 0..HEADER_FAT_SECTORS {
        entries[k as usize] = listed_entry(fat, k);
    }
    LittleEndian::write_u32_into(&entries, list);
}

fn listed_entry(fat: Run, k: u32) -> u32
    requires { fat.first + fat.count < 2 ^ 31 }
    ensures { result ≡ spec.listed_entry fat.first fat.count k }
{
    if k < fat.count {
        fat.first + k
    } else {
        FREE_SECTOR
    }
}

/// Returns entry `k` of the DIFAT: each of its sectors has entries of the list of FAT sectors, from where the header's
/// part ends, and then the number of its next sector.
fn difat_entry(fat: Run, difat: Run, k: u32) -> u32
    requires fat { fat.first + fat.count < 2 ^ 31 }
    requires difat { difat.first + difat.count < 2 ^ 22 }
    requires within { k < 128 * difat.count }
    ensures next { k % 128 ≡ 127 → result ≡ extents.chain_entry difat.first difat.count (k / 128) }
    ensures listed { k % 128 < 127 → result ≡ spec.listed_entry fat.first fat.count (109 + 127 * (k / 128) + k % 128) }
{
    let sector = k / FAT_ENTRIES as u32;
    let place = k % FAT_ENTRIES as u32;
    if place == DIFAT_ENTRIES as u32 {
        chain_entry(difat.first, difat.count, sector)
    } else {
        listed_entry(
            fat,
            HEADER_FAT_SECTORS + DIFAT_ENTRIES as u32 * sector + place,
        )
    }
}

/// Returns entry `n` of the FAT: the chain of the part that has sector `n`, marks for the sectors of the FAT and of the
/// DIFAT, and free entries behind them.
fn fat_entry(places: &[Place], regions: Regions, total: usize, n: usize) -> u32
    requires indexed { IsIndex places.now }
    requires few { regions.fat < 2 ^ 22 }
    requires most { total < 2 ^ 22 }
    requires within { n < 2 ^ 31 }
    ensures { (parts : List (List ℕ)) → StandIn regions (streams_of places.now) parts
        → result ≡ spec.fat_entry parts total n }
{
    let difat = regions.fat + fat_sectors(total);
    if n < regions.large {
        front_entry(regions, n)
    } else if n < regions.fat {
        unit_entry(from_sector(places, n - regions.large), SECTOR_SIZE_3, n)
    } else if n < difat {
        FAT_SECTOR
    } else if n < difat + difat_sectors(total) {
        DIFAT_SECTOR
    } else {
        FREE_SECTOR
    }
}

fn front_entry(regions: Regions, n: usize) -> u32
    requires { n < 2 ^ 31 }
    ensures { result ≡ (if n + 1 == regions.mini_fat || n + 1 == regions.mini_stream
        || n + 1 == regions.large then END_OF_CHAIN else n + 1) }
{
    let next = n + 1;
    if next == regions.mini_fat || next == regions.mini_stream || next == regions.large {
        END_OF_CHAIN
    } else {
        next as u32
    }
}

fn mini_fat_entry(places: &[Place], n: usize) -> u32
    requires indexed { IsIndex places.now }
    requires few { n < 2 ^ 31 }
    ensures { result ≡ layout.mini_fat_entry (layout.mini_parts (streams_of places.now)) n }
{
    let rest = from_mini_sector(places, n);
    if rest.is_empty() {
        FREE_SECTOR
    } else {
        unit_entry(rest, MINI_SECTOR_SIZE, n)
    }
}

/// Returns the entry of unit `n`, where `rest` is its part from that unit on: it names the next unit, and the last ends
/// the chain.
fn unit_entry(rest: &[u8], size: usize, n: usize) -> u32
    requires { n < 2 ^ 31 }
    ensures { result ≡ (if nat_le (length rest.now) size then END_OF_CHAIN else n + 1) }
{
    if rest.len() <= size {
        END_OF_CHAIN
    } else {
        (n + 1) as u32
    }
}
