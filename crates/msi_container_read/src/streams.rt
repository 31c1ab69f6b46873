//! The bytes of streams, each under its name.

ghost use Rattle.std.specs.Prelude.{◌≡◌, ◌*◌, ◌<◌, ◌≤◌, length, IfOk, IsErr, IsErrOf, IfSome, OnOk, map};
ghost use Rattle.std.specs.List.{AllZip, range_with_len};
ghost use Rattle.std.specs.FinMap.{from_entries};
ghost use Rattle.msi_base.specs.declared.errors.ErrorKind.TheVariants.{InvalidData, OutOfMemory};
ghost use Rattle.msi_container_format.specs.Chains.{AreBelow};
ghost use Rattle.msi_container_format.specs.Container as container;
ghost use Rattle.msi_container_tables.specs.Outcomes.{FailsByData};
ghost use Rattle.msi_container_tables.specs.Reading as spec;

use crate::names::insert_stream;
use crate::runs::run_start;
use msi_base::Error;
use msi_container_format::contents::{Bytes, StreamMap};
use msi_container_format::format::{MINI_SECTOR_SIZE, MINI_STREAM_CUTOFF};
use msi_container_format::parts::{part_of, place, push_bytes};
use msi_container_tables::{Directory, names_of, own_name, sector_size};
use std::alloc::Global;
use std::rc::Rc;

/// The least size of a stream that lies in sectors; a smaller one lies in mini sectors.
const CUTOFF: u64 = MINI_STREAM_CUTOFF as u64;

fn sector_bytes(
    alloc: Global,
    bytes: &[u8],
    sectors: &[u32],
    count: usize,
) -> Result<Vec<u8>, Error>
    requires { count ≤ length sectors.now * container.sector_size bytes.now }
    ensures ok { IfOk result (λ held. held.items
        ≡ map (container.sector_byte bytes.now sectors.now) (range_with_len 0 count)) }
    ensures memory { IsErr result → IsErrOf result OutOfMemory }
{
    let size = sector_size(bytes);
    let mut held = Vec::with_capacity(alloc, count)?;
    for sector in sectors {
        let wanted = size.min(count - held.len());
        push_bytes(&mut held, bytes, (*sector as usize + 1) * size, wanted)?;
    }
    Ok(held)
}

fn mini_sector_bytes(
    alloc: Global,
    bytes: &[u8],
    mini_stream: &[u32],
    mini_sectors: &[u32],
    count: usize,
) -> Result<Vec<u8>, Error>
    requires count { count ≤ 64 * length mini_sectors.now }
    requires within { AreBelow (spec.mini_limit bytes.now mini_stream.now) mini_sectors.now }
    ensures ok { IfOk result (λ held. held.items
        ≡ map (container.mini_sector_byte bytes.now mini_stream.now mini_sectors.now) (range_with_len 0 count)) }
    ensures memory { IsErr result → IsErrOf result OutOfMemory }
{
    let size = sector_size(bytes);
    let mut held = Vec::with_capacity(alloc, count)?;
    for mini_sector in mini_sectors {
        let wanted = MINI_SECTOR_SIZE.min(count - held.len());
        let from = place(size, mini_stream, MINI_SECTOR_SIZE * *mini_sector as usize);
        push_bytes(&mut held, bytes, from, wanted)?;
    }
    Ok(held)
}

/// The stream is a part of the image, if one exists and the sectors lie in it in one piece, and else a copy.
fn sector_stream(
    alloc: Global,
    bytes: &[u8],
    image: Option<&Rc<Vec<u8>>>,
    sectors: &[u32],
    count: usize,
) -> Result<Bytes, Error>
    requires count { count ≤ length sectors.now * container.sector_size bytes.now }
    requires image { IfSome image (λ whole. whole.now.value.items ≡ bytes.now) }
    ensures ok { IfOk result (λ held. held
        ≡ map (container.sector_byte bytes.now sectors.now) (range_with_len 0 count)) }
    ensures memory { IsErr result → IsErrOf result OutOfMemory }
{
    if let Some(image) = image {
        if let Some(start) = run_start(bytes, sectors, count) {
            return Ok(part_of(image.clone()?, start, count));
        }
    }
    let held = sector_bytes(alloc, bytes, sectors, count)?;
    Ok(Bytes::from_vec(held))
}

fn stream_of(
    alloc: Global,
    directory: &Directory,
    image: Option<&Rc<Vec<u8>>>,
    mini_stream: &[u32],
    entry: u32,
    chain: &[u32],
) -> Result<Bytes, Error>
    requires image { IfSome image (λ whole. whole.now.value.items ≡ directory.now.bytes.now) }
    requires below { entry < container.entry_count directory.now.bytes.now directory.now.sectors.now }
    requires covered { spec.IsCovered directory.now.bytes.now mini_stream.now
        directory.now.sectors.now entry chain.now }
    ensures ok { IfOk result (λ held. held
        ≡ container.stream_bytes directory.now.bytes.now mini_stream.now directory.now.sectors.now entry chain.now) }
    ensures memory { IsErr result → IsErrOf result OutOfMemory }
{
    let size = directory.size(entry);
    if size < CUTOFF {
        let held = mini_sector_bytes(alloc, directory.bytes, mini_stream, chain, size as usize)?;
        Ok(Bytes::from_vec(held))
    } else {
        sector_stream(alloc, directory.bytes, image, chain, size as usize)
    }
}

/// Streams that lie in one piece in the image, if one exists, are parts of it. Fails with `InvalidData` where a name
/// isn't well formed, or two storages or streams share one.
pub(crate) fn collect(
    alloc: Global,
    directory: &Directory,
    image: Option<&Rc<Vec<u8>>>,
    mini_stream: &[u32],
    storages: &[u32],
    entries: &[u32],
    chains: &[Vec<u32>],
) -> Result<StreamMap, Error>
    requires image { IfSome image (λ whole. whole.now.value.items ≡ directory.now.bytes.now) }
    requires storages { AreBelow
        (container.entry_count directory.now.bytes.now directory.now.sectors.now) storages.now }
    requires below { AreBelow (container.entry_count directory.now.bytes.now directory.now.sectors.now) entries.now }
    requires covered { AllZip (spec.IsCovered directory.now.bytes.now mini_stream.now directory.now.sectors.now)
        entries.now (spec.views chains.now) }
    ensures ok { IfOk result (λ streams. streams
        ≡ from_entries (container.named_bytes directory.now.bytes.now mini_stream.now directory.now.sectors.now
        entries.now (spec.views chains.now))) }
    ensures names { OnOk result
        (spec.HaveNamesApart directory.now.bytes.now directory.now.sectors.now storages.now entries.now) }
    ensures invalid { IsErrOf result InvalidData
        → spec.HaveNamesApart directory.now.bytes.now directory.now.sectors.now storages.now entries.now → ⊥ }
    ensures kinds { FailsByData result }
{
    let taken = names_of(alloc, directory, storages)?;
    let mut streams = StreamMap::new(alloc);
    for (entry, chain) in entries.iter().zip(chains) {
        let name = own_name(directory, *entry, &taken)?;
        let held = stream_of(
            alloc,
            directory,
            image,
            mini_stream,
            *entry,
            chain.as_slice(),
        )?;
        insert_stream(&mut streams, name, held)?;
    }
    Ok(streams)
}
