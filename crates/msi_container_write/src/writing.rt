//! Writing a compound file, to memory or to a device.

ghost use Rattle.std.specs.Prelude.{◌≡◌, ◌↔◌, ◌<◌, ◌≤◌, ◌^◌, ◌⊎◌, ◌||◌, false, is_err, option_map};
ghost use Rattle.std.specs.Prelude.{IfErr, IfOk, IsErr, IsOk};
ghost use Rattle.std.specs.Prelude.{IsErrOf, IsTrue, OnErr, OnOk, IfSome, IsNone, not};
ghost use Rattle.std.specs.FinMap as finite;
ghost use Rattle.msi_base.specs.declared.errors.ErrorKind.TheVariants.{InvalidInput, Io, OutOfMemory};
ghost use Rattle.msi_container_device.specs.Faults.{is_io};
ghost use Rattle.msi_container_device.specs.Held.{StandsInPart, with_piece};
ghost use Rattle.msi_container_format.specs.Container.{Holds};
ghost use Rattle.msi_container_write.specs.Borrowed.{contents_of};
ghost use Rattle.msi_container_write.specs.Extents as extents;
ghost use Rattle.msi_container_write.specs.Image as image;
ghost use Rattle.msi_container_write.specs.Layout as spec;
ghost use Rattle.msi_container_write.specs.Sectors.{IsLaidOut, file_of};

use crate::extents::{large_part, mini_part, units};
use crate::index::index;
use crate::layout::{Extent, Layout, fill, layout_of};
use crate::parts::BorrowedContents;
use crate::reasons;
use crate::totals::{
    MAX_SECTORS, directory_sectors, least_total, mini_fat_sectors, mini_stream_sectors,
};
use msi_base::{Error, ErrorKind};
use msi_container_device::Device;
use msi_container_device::parts::write_all;
use msi_container_format::contents::{Contents, StreamMap};
use msi_container_format::format::{MINI_SECTOR_SIZE, SECTOR_SIZE_3};
use std::alloc::{AllocError, Global};

/// The most mini sectors whose mini stream is no longer than the greatest file.
const MAX_MINI_SECTORS: usize = SECTOR_SIZE_3 / MINI_SECTOR_SIZE * MAX_SECTORS;

/// How many mini sectors the small streams take, and how many sectors the large ones.
#[derive(Clone, Copy)]
struct Counts {
    mini_sectors: usize,
    large_sectors: usize,
}

/// Returns the bytes of a compound file that holds these contents (MS-CFB 2), of version 3: the directory, the mini
/// FAT, the mini stream, the streams of 4096 bytes and more in the container's order of names, the FAT and the DIFAT.
/// They take the place of a file of `earlier_len` bytes, and are no shorter: free sectors stand behind the rest.
///
/// # Errors
/// Fails with `InvalidInput` if storages lie below the root, or the file would pass 2^31 bytes. Otherwise it fails
/// with `OutOfMemory`.
pub fn write(alloc: Global, contents: &Contents, earlier_len: u64) -> Result<Vec<u8>, Error>
    ensures ok { IfOk result (λ image. image.items ≡ spec.layout contents.now earlier_len) }
    ensures holds { IfOk result (λ image. Holds image.items contents.now) }
    ensures refused { IsErrOf result InvalidInput ↔ IsTrue (spec.refuses contents.now earlier_len) }
    ensures kinds { IfErr result (λ kind. (kind ≡ InvalidInput) ⊎ (kind ≡ OutOfMemory)) }
{
    image_of(alloc, &borrowed(contents), earlier_len)
}

/// Writes the bytes that `write` returns to a device, from its position on, and moves behind them. It has one sector
/// of them in memory at a time. It clears the device's flag first. After `Io` a prefix of the bytes may have been
/// written.
///
/// # Errors
/// Fails with `InvalidInput` as `write` does, or with `OutOfMemory`, both before the first byte is written. Fails
/// with `Io` if a call of the device fails, or takes no byte of what is left: exactly if its flag is set in the end.
pub fn write_to<W: Device>(
    alloc: Global,
    contents: &Contents,
    earlier_len: u64,
    device: &mut W,
) -> Result<(), Error>
    ensures ok { OnOk result
        (W.held device.new ≡ option_map (with_piece (spec.layout contents.now earlier_len)) (W.held device.old)) }
    ensures holds { OnOk result (Holds (spec.layout contents.now earlier_len) contents.now) }
    ensures part { OnErr result
        (StandsInPart (spec.layout contents.now earlier_len) (W.held device.old) (W.held device.new)) }
    ensures untouched { IfErr result (λ kind. (kind ≡ Io) ⊎ (W.held device.new ≡ W.held device.old)) }
    ensures refused { IsErrOf result InvalidInput ↔ IsTrue (spec.refuses contents.now earlier_len) }
    ensures failed { IsErrOf result Io ↔ IsTrue (W.failed device.new) }
    ensures faultless { W.writes_can_fail ≡ false → is_io result ≡ false }
    ensures kinds { IfErr result (λ kind. (kind ≡ InvalidInput) ⊎ (kind ≡ OutOfMemory) ⊎ (kind ≡ Io)) }
{
    image_to(alloc, &borrowed(contents), earlier_len, device)
}

/// Returns whether these contents can be written over a file of this length: if not, `write` and `write_to` fail with
/// `InvalidInput`. It takes no memory.
pub fn is_writable(contents: &Contents, earlier_len: u64) -> bool
    ensures { result ≡ not (spec.refuses contents.now earlier_len) }
{
    check(&borrowed(contents), earlier_len).is_ok()
}

fn borrowed(contents: &Contents) -> BorrowedContents<'_>
    ensures { contents_of result ≡ contents.now }
{
    BorrowedContents {
        clsid: contents.clsid,
        streams: &contents.streams,
        has_storages: contents.has_storages,
    }
}

/// Returns what `write` returns, for contents whose streams are borrowed.
///
/// # Errors
/// Fails as `write` does.
pub fn image_of(
    alloc: Global,
    contents: &BorrowedContents,
    earlier_len: u64,
) -> Result<Vec<u8>, Error>
    ensures ok { IfOk result (λ image. image.items ≡ spec.layout (contents_of contents.now) earlier_len) }
    ensures holds { IfOk result (λ image. Holds image.items (contents_of contents.now)) }
    ensures refused { IsErrOf result InvalidInput ↔ IsTrue (spec.refuses (contents_of contents.now) earlier_len) }
    ensures kinds { IfErr result (λ kind. (kind ≡ InvalidInput) ⊎ (kind ≡ OutOfMemory)) }
{
    let extent = check(contents, earlier_len)?;
    let places = index(alloc, contents.streams)?;
    let layout = layout_of(contents.clsid, places.as_slice(), extent);
    Ok(image(alloc, &layout)?)
}

/// Does what `write_to` does, for contents whose streams are borrowed.
///
/// # Errors
/// Fails as `write_to` does.
pub fn image_to<W: Device>(
    alloc: Global,
    contents: &BorrowedContents,
    earlier_len: u64,
    device: &mut W,
) -> Result<(), Error>
    ensures ok { OnOk result
        (W.held device.new ≡ option_map
        (with_piece (spec.layout (contents_of contents.now) earlier_len)) (W.held device.old)) }
    ensures holds { OnOk result
        (Holds (spec.layout (contents_of contents.now) earlier_len) (contents_of contents.now)) }
    ensures part { OnErr result
        (StandsInPart (spec.layout (contents_of contents.now) earlier_len) (W.held device.old) (W.held device.new)) }
    ensures untouched { IfErr result (λ kind. (kind ≡ Io) ⊎ (W.held device.new ≡ W.held device.old)) }
    ensures refused { IsErrOf result InvalidInput ↔ IsTrue (spec.refuses (contents_of contents.now) earlier_len) }
    ensures failed { IsErrOf result Io ↔ IsTrue (W.failed device.new) }
    ensures faultless { W.writes_can_fail ≡ false → is_io result ≡ false }
    ensures kinds { IfErr result (λ kind. (kind ≡ InvalidInput) ⊎ (kind ≡ OutOfMemory) ⊎ (kind ≡ Io)) }
{
    device.clear_failed();
    let extent = check(contents, earlier_len)?;
    let places = index(alloc, contents.streams)?;
    let layout = layout_of(contents.clsid, places.as_slice(), extent);
    write_sectors(&layout, device)
}

fn image(alloc: Global, layout: &Layout) -> Result<Vec<u8>, AllocError>
    requires { IsLaidOut layout.now }
    ensures { IfOk result (λ image. image.items ≡ file_of layout.now) }
{
    let count = layout.extent.total + 1;
    let mut image = Vec::with_capacity(alloc, SECTOR_SIZE_3 * count)?;
    let mut sector = [0; SECTOR_SIZE_3];
    for n in 0..count {
        fill(&mut sector, layout, n);
        image.extend_from_slice(&sector)?;
    }
    Ok(image)
}

fn write_sectors<W: Device>(layout: &Layout, device: &mut W) -> Result<(), Error>
    requires { IsLaidOut layout.now }
    ensures ok { OnOk result (W.held device.new ≡ option_map (with_piece (file_of layout.now)) (W.held device.old)) }
    ensures part { OnErr result (StandsInPart (file_of layout.now) (W.held device.old) (W.held device.new)) }
    ensures failed { W.failed device.new ≡ (W.failed device.old || is_err result) }
    ensures faultless { W.writes_can_fail ≡ false → IsOk result }
    ensures kind { IfErr result (λ kind. kind ≡ Io) }
{
    let mut sector = [0; SECTOR_SIZE_3];
    for n in 0..layout.extent.total + 1 {
        fill(&mut sector, layout, n);
        write_all(device, &sector)?;
    }
    Ok(())
}

fn check(contents: &BorrowedContents, earlier_len: u64) -> Result<Extent, Error>
    ensures mini_sectors { IfOk result (λ extent.
        extent.mini_sectors ≡ spec.mini_sectors (finite.entries contents.now.streams.now)) }
    ensures taken { IfOk result (λ extent. extent.taken ≡ spec.taken_by (finite.entries contents.now.streams.now)) }
    ensures total { IfOk result (λ extent. extent.total ≡ spec.total (contents_of contents.now) earlier_len) }
    ensures few { IfOk result (λ extent. extent.total < 2 ^ 22) }
    ensures refused { IsErr result ↔ IsTrue (spec.refuses (contents_of contents.now) earlier_len) }
    ensures kinds { OnErr result (IsErrOf result InvalidInput) }
{
    if contents.has_storages {
        return Err(Error::new(ErrorKind::InvalidInput, reasons::STORAGES));
    }
    match measure(contents.streams, earlier_len) {
        Some(extent) => Ok(extent),
        None => Err(Error::new(ErrorKind::InvalidInput, reasons::IMAGE_TOO_LARGE)),
    }
}

/// Returns `None` where the file would pass 2^31 bytes.
fn measure(streams: &StreamMap, earlier_len: u64) -> Option<Extent>
    ensures mini_sectors { IfSome result
        (λ extent. extent.mini_sectors ≡ spec.mini_sectors (finite.entries streams.now)) }
    ensures taken { IfSome result (λ extent. extent.taken ≡ spec.taken_by (finite.entries streams.now)) }
    ensures total { IfSome result
        (λ extent. extent.total ≡ image.least_total (spec.taken_by (finite.entries streams.now)) earlier_len) }
    ensures few { IfSome result (λ extent. extent.total < 2 ^ 22) }
    ensures none { IsNone result → 2 ^ 22 ≤ image.least_total (spec.taken_by (finite.entries streams.now)) earlier_len }
{
    let counts = count(streams)?;
    let front = directory_sectors(streams.len())
        + mini_fat_sectors(counts.mini_sectors)
        + mini_stream_sectors(counts.mini_sectors);
    let taken = front + counts.large_sectors;
    if taken > MAX_SECTORS {
        return None;
    }
    let total = least_total(taken, earlier_len)?;
    Some(Extent {
        mini_sectors: counts.mini_sectors,
        taken,
        total,
    })
}

fn count(streams: &StreamMap) -> Option<Counts>
    ensures mini { IfSome result (λ counts. counts.mini_sectors ≡ spec.mini_sectors (finite.entries streams.now)) }
    ensures large { IfSome result
        (λ counts. counts.large_sectors ≡ extents.all_units 512 (spec.large_parts (finite.entries streams.now))) }
    ensures few_mini { IfSome result (λ counts. counts.mini_sectors ≤ 2 ^ 25) }
    ensures few_large { IfSome result (λ counts. counts.large_sectors ≤ 2 ^ 22) }
    ensures none { IsNone result → 2 ^ 22 < spec.taken_by (finite.entries streams.now) }
{
    let mut mini_sectors = 0;
    let mut large_sectors = 0;
    for (_, stream) in streams.iter() {
        let bytes = stream.as_slice();
        mini_sectors += units(mini_part(bytes), MINI_SECTOR_SIZE);
        large_sectors += units(large_part(bytes), SECTOR_SIZE_3);
        if mini_sectors > MAX_MINI_SECTORS || large_sectors > MAX_SECTORS {
            return None;
        }
    }
    Some(Counts {
        mini_sectors,
        large_sectors,
    })
}
