//! Where the streams of a container lie, by their names.

ghost use Rattle.std.specs.Prelude.{◌≡◌, ℕ, List, ◌<◌, ◌≤◌, ◌^◌, false, length, true, vec_len, IfOk};
ghost use Rattle.std.specs.Prelude.{IsErr, IsErrOf, OnOk, map};
ghost use Rattle.std.specs.List.{AllZip, zip};
ghost use Rattle.std.specs.FinMap as finite;
ghost use Rattle.std.specs.FinMap.{from_entries};
ghost use Rattle.std.specs.Option.{option_copied};
ghost use Rattle.msi_base.specs.declared.errors.ErrorKind.TheVariants.{InvalidData, OutOfMemory};
ghost use Rattle.msi_container_format.specs.Chains.{AreBelow};
ghost use Rattle.msi_container_format.specs.Container as container;
ghost use Rattle.msi_container_tables.specs.Outcomes.{FailsByData};
ghost use Rattle.msi_container_tables.specs.Reading.{HaveNamesApart, IsCovered, views};
ghost use Rattle.msi_container_view.specs.Copied.{AreCopied, HasHeaderOf};
ghost use Rattle.msi_container_view.specs.Extents.{bytes_of, bytes_stored, size_of};
ghost use Rattle.msi_container_view.specs.Views.{streams_in};

use crate::extents::{Extent, mini_extents, sector_extents};
use crate::reasons;
use crate::tables::Copied;
use msi_base::text::Items;
use msi_base::{Error, ErrorKind};
use msi_container_format::format::MINI_STREAM_CUTOFF;
use msi_container_format::name::Name;
use msi_container_tables::{Directory, Entries, names_of, own_name, sector_size};
use std::alloc::Global;
use std::collections::{BTreeMap, btree_map};
use std::marker::Model;

/// The pieces of the file that each stream is, by its name, in the container's order of names.
#[derive(Drop)]
pub struct Located {
    map: BTreeMap<Name, Items<Extent>>,
}

impl Model for Located {
    ghost use Rattle.std.specs.FinMap as finite;
    ghost use Rattle.std.specs.Coded.{coded_ℕ, coded_list};
    ghost use Rattle.msi_container_view.specs.Views.{Located};
    ghost use Rattle.msi_container_view.specs.contracts.extents.Extent as extent;

    ghost Value = { Located };

    ghost coded = { finite.code (coded_list coded_ℕ) (coded_list extent.the_row.coded) };

    ghost view = { λ s. finite.from_entries s.map.entries };
}

impl Located {
    pub(crate) fn new(alloc: Global) -> Located
        ensures { result ≡ finite.empty }
    {
        Located {
            map: BTreeMap::new(alloc),
        }
    }

    /// Returns the pieces that the stream of a name is, if there is one.
    pub fn get(&self, name: &Name) -> Option<&Items<Extent>>
        ensures { option_copied result ≡ finite.get self.now name.now }
    {
        self.map.get(name)
    }

    /// Returns the streams' names and pieces in the container's order of names.
    pub fn iter(&self) -> btree_map::Iter<'_, Name, Items<Extent>>
        ensures rest { result ≡ finite.entries self.now }
        ensures len { length result ≡ finite.len self.now }
        ensures bound { length result < 2 ^ 63 }
    {
        self.map.iter()
    }

    /// Fails with `InvalidData` where there is a stream of this name, and with `OutOfMemory`.
    pub(crate) fn insert(&mut self, name: Name, extents: Items<Extent>) -> Result<(), Error>
        ensures ok { OnOk result (self.new ≡ finite.insert self.old name extents) }
        ensures free { OnOk result (finite.contains_key self.old name ≡ false) }
        ensures invalid { IsErrOf result InvalidData → finite.contains_key self.old name ≡ true }
        ensures kinds { FailsByData result }
    {
        let before = self.map.len();
        self.map.insert(name, extents)?;
        if self.map.len() == before {
            return Err(Error::new(ErrorKind::InvalidData, reasons::NAME_TWICE));
        }
        Ok(())
    }
}

/// The pieces that a stream is: those of mini sectors below 4096 bytes, and of sectors from there on.
fn extents_of(
    alloc: Global,
    directory: &Directory,
    mini_stream: &[u32],
    entry: u32,
    chain: &[u32],
) -> Result<Items<Extent>, Error>
    requires below { entry < container.entry_count directory.now.bytes.now directory.now.sectors.now }
    requires covered { IsCovered directory.now.bytes.now mini_stream.now directory.now.sectors.now entry chain.now }
    requires few { length chain.now < 2 ^ 32 }
    requires mini_few { length mini_stream.now < 2 ^ 32 }
    ensures ok { IfOk result (λ extents. (file : List ℕ)
        → container.sector_size file ≡ container.sector_size directory.now.bytes.now
        → bytes_of file extents ≡ bytes_stored file mini_stream.now
        (container.size directory.now.bytes.now directory.now.sectors.now entry) chain.now) }
    ensures size { IfOk result (λ extents. size_of extents
        ≡ container.size directory.now.bytes.now directory.now.sectors.now entry) }
    ensures memory { IsErr result → IsErrOf result OutOfMemory }
{
    let size = directory.size(entry);
    let sector = sector_size(directory.bytes);
    let extents = if size < u64::from(MINI_STREAM_CUTOFF) {
        mini_extents(alloc, sector, mini_stream, chain, size)?
    } else {
        sector_extents(alloc, sector, chain, size)?
    };
    Ok(Items::from_vec(extents))
}

/// Locates these streams of a directory. Fails with `InvalidData` where a name isn't well formed, or two storages or
/// streams share one.
fn locate_streams(
    alloc: Global,
    directory: &Directory,
    mini_stream: &[u32],
    storages: &[u32],
    streams: &[u32],
    chains: &[Vec<u32>],
) -> Result<Located, Error>
    requires storages { AreBelow
        (container.entry_count directory.now.bytes.now directory.now.sectors.now) storages.now }
    requires below { AreBelow (container.entry_count directory.now.bytes.now directory.now.sectors.now) streams.now }
    requires covered { AllZip (IsCovered directory.now.bytes.now mini_stream.now directory.now.sectors.now)
        streams.now (views chains.now) }
    requires chains_few { AllZip (λ entry chain. length chain < 2 ^ 32) streams.now (views chains.now) }
    requires mini_few { length mini_stream.now < 2 ^ 32 }
    ensures found { IfOk result
        (λ located. (file : List ℕ) → container.sector_size file ≡ container.sector_size directory.now.bytes.now
        → streams_in file located ≡ from_entries (map
        (λ x. (
          container.name directory.now.bytes.now directory.now.sectors.now x.0,
          bytes_stored file mini_stream.now
              (container.size directory.now.bytes.now directory.now.sectors.now x.0) x.1,
        ))
        (zip streams.now (views chains.now)))) }
    ensures names { OnOk result
        (HaveNamesApart directory.now.bytes.now directory.now.sectors.now storages.now streams.now) }
    ensures invalid { IsErrOf result InvalidData
        → HaveNamesApart directory.now.bytes.now directory.now.sectors.now storages.now streams.now → ⊥ }
    ensures kinds { FailsByData result }
{
    let taken = names_of(alloc, directory, storages)?;
    let mut located = Located::new(alloc);
    for (entry, chain) in streams.iter().zip(chains) {
        let name = own_name(directory, *entry, &taken)?;
        let extents = extents_of(alloc, directory, mini_stream, *entry, chain.as_slice())?;
        located.insert(name, extents)?;
    }
    Ok(located)
}

/// Locates the streams of a directory that was copied. Fails with `InvalidData` where a name isn't well formed, or two
/// storages or streams share one.
pub(crate) fn locate(
    alloc: Global,
    copy: &[u8],
    directory: &Copied,
    mini_stream: &[u32],
    entries: &Entries,
    chains: &[Vec<u32>],
) -> Result<Located, Error>
    requires storages { AreBelow (container.entry_count copy.now directory.now.places.items)
        entries.now.storages.items }
    requires below { AreBelow (container.entry_count copy.now directory.now.places.items) entries.now.streams.items }
    requires covered { AllZip (IsCovered copy.now mini_stream.now directory.now.places.items)
        entries.now.streams.items (views chains.now) }
    requires chains_few { AllZip (λ entry chain. length chain < 2 ^ 32) entries.now.streams.items (views chains.now) }
    requires mini_few { length mini_stream.now < 2 ^ 32 }
    requires few { vec_len directory.now.places ≤ 2 ^ 32 }
    ensures found { IfOk result
        (λ located. (file : List ℕ) → HasHeaderOf file copy.now
        → AreCopied file copy.now directory.now.sectors.items directory.now.places.items
        → HaveNamesApart file directory.now.sectors.items entries.now.storages.items entries.now.streams.items
        × (streams_in file located ≡ from_entries (container.named_bytes file mini_stream.now
        directory.now.sectors.items entries.now.streams.items (views chains.now)))) }
    ensures broken { IsErrOf result InvalidData → (file : List ℕ) → HasHeaderOf file copy.now
        → AreCopied file copy.now directory.now.sectors.items directory.now.places.items
        → HaveNamesApart file directory.now.sectors.items entries.now.storages.items entries.now.streams.items → ⊥ }
    ensures kinds { FailsByData result }
{
    let directory = Directory::new(copy, directory.places.as_slice());
    locate_streams(
        alloc,
        &directory,
        mini_stream,
        entries.storages.as_slice(),
        entries.streams.as_slice(),
        chains,
    )
}
