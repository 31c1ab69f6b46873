//! Listing the storages of a compound file (MS-CFB 2.6.3).

ghost use Rattle.std.specs.Prelude.{◌≡◌, ℕ, List, [], ◌∷◌, ◌+◌, ◌<◌, ◌≤◌, ◌^◌, ◌++◌, length, slice_index, replicate};
ghost use Rattle.std.specs.Prelude.{vec_len, IfOk, OnOk, IsErr, IsErrOf, true};
ghost use Rattle.msi_base.specs.declared.errors.ErrorKind.TheVariants.{InvalidData, OutOfMemory};
ghost use Rattle.msi_container_format.specs.Chains.{AreBelow};
ghost use Rattle.msi_container_format.specs.Container as container;
ghost use Rattle.msi_container_format.specs.Trees.{Tree, members};
ghost use Rattle.msi_container_tables.specs.Claims.{CanClaim};
ghost use Rattle.msi_container_tables.specs.Outcomes.{ViewIsUnlessMemory, FailsByData};
ghost use Rattle.msi_container_tables.specs.Paths.{IsStorageTree};
ghost use Rattle.msi_container_tables.specs.Reading.{storages_among};
ghost use Rattle.msi_container_read.specs.Storages as spec;
ghost use Rattle.msi_container_read.specs.StorageLists as lists;
ghost use Rattle.msi_container_read.specs.declared.storages.Storage as a_storage;

use crate::reading::{Start, read_start};
use crate::reasons;
use msi_base::{Error, ErrorKind};
use msi_container_format::format::{ROOT, STORAGE, STREAM};
use msi_container_format::name::Name;
use msi_container_tables::{
    Claimed, Claims, Directory, Steps, check_kinds, names_of, of_kind, reach_more, sector_count,
};
use std::alloc::Global;

/// A storage below the root.
#[derive(Drop)]
pub struct Storage {
    /// Its name.
    pub name: Name,
    /// The place in the list of the storage that it lies in, which is before its own; `None` if that is the root.
    pub parent: Option<usize>,
    /// Its CLSID, as it is stored: the first three of its fields with the lowest byte in front.
    pub clsid: [u8; 16],
    /// How many streams lie directly in it.
    pub streams: usize,
    /// How many storages lie directly in it.
    pub storages: usize,
}

/// Returns all storages below the root: first those that lie in the root, then those that lie in the first of these,
/// and so on. Those that lie in one storage are in the order of its tree, an entry before those on its left, and those
/// before the ones on its right. So parents come before their children.
///
/// It looks at the header, the tables of sectors and the directory, and at no stream. However deeply storages are
/// nested, it takes memory for each entry of the directory alone.
///
/// # Errors
/// Fails with `InvalidData` if header, tables, directory or root break a rule of `read`, or if what lies in a storage
/// does; also if an entry lies in two storages, or a storage in itself. Fails with `OutOfMemory`.
pub fn list_storages(alloc: Global, bytes: &[u8]) -> Result<Vec<Storage>, Error>
    ensures found { IfOk result (λ list. lists.HasStorages bytes.now list.items) }
    ensures only { (list : List a_storage.Storage) → lists.HasStorages bytes.now list
        → ViewIsUnlessMemory (λ v. v.items) result list }
    ensures kinds { FailsByData result }
{
    let start = read_directory(alloc, bytes)?;
    let directory = Directory {
        bytes,
        sectors: &start.directory,
    };
    let found = find_all(alloc, &directory)?;
    list_found(alloc, &directory, &found)
}

fn read_directory(alloc: Global, bytes: &[u8]) -> Result<Start, Error>
    ensures found { IfOk result (λ s. spec.HasDirectory bytes.now s.difat.items s.directory.items) }
    ensures only { (difat directory : List ℕ) → spec.HasDirectory bytes.now difat directory
        → ViewIsUnlessMemory (λ s. s.directory.items) result directory }
    ensures some { IfOk result (λ s. 0 < container.entry_count bytes.now s.directory.items) }
    ensures few { IfOk result (λ s. vec_len s.directory ≤ 2 ^ 32) }
    ensures kinds { FailsByData result }
{
    let mut claims = Claims::new(alloc, Claimed::Sectors, sector_count(bytes))?;
    let mut steps = Steps::new();
    read_start(alloc, bytes, &mut claims, &mut steps)
}

/// The root and the storages below it, by their numbers: the root has number 0.
#[derive(Drop)]
struct Found {
    entries: Vec<u32>,
    /// The number of the storage that each lies in.
    homes: Vec<usize>,
    /// How many streams lie in each that was looked into, and how many storages.
    streams: Vec<usize>,
    storages: Vec<usize>,
}

fn find_all(alloc: Global, directory: &Directory) -> Result<Found, Error>
    requires { 0 < container.entry_count directory.now.bytes.now directory.now.sectors.now }
    ensures found { IfOk result (λ f. (trees : List Tree)
        × lists.AreAllStorages directory.now.bytes.now directory.now.sectors.now trees
        × (◌≡◌ {A = List ℕ × List ℕ × List ℕ × List ℕ}
        (f.entries.items, f.homes.items, f.streams.items, f.storages.items)
        (lists.found_of directory.now.bytes.now directory.now.sectors.now trees))) }
    ensures below { IfOk result
        (λ f. AreBelow (container.entry_count directory.now.bytes.now directory.now.sectors.now) f.entries.items) }
    ensures root { IfOk result (λ f. 0 < length f.entries.items) }
    ensures homes { IfOk result (λ f. vec_len f.homes ≡ vec_len f.entries) }
    ensures streams { IfOk result (λ f. vec_len f.streams ≡ vec_len f.entries) }
    ensures storages { IfOk result (λ f. vec_len f.storages ≡ vec_len f.entries) }
    ensures named { IfOk result (λ f. (i : ℕ) → 0 < i → i < length f.entries.items
        → container.HasName directory.now.bytes.now directory.now.sectors.now (slice_index f.entries.items i)) }
    ensures only { (trees : List Tree)
        → lists.AreAllStorages directory.now.bytes.now directory.now.sectors.now trees
        → ViewIsUnlessMemory {Y = List ℕ × List ℕ × List ℕ × List ℕ}
        (λ f. (f.entries.items, f.homes.items, f.streams.items, f.storages.items)) result
        (lists.found_of directory.now.bytes.now directory.now.sectors.now trees) }
    ensures kinds { FailsByData result }
{
    if directory.kind(0) != ROOT {
        return Err(Error::new(ErrorKind::InvalidData, reasons::NO_ROOT));
    }
    let mut claims = Claims::new(alloc, Claimed::Entries, directory.entry_count())?;
    claims.claim(0)?;
    let mut found = Found::of_root(alloc)?;
    let mut number = 0;
    while number < found.entries.len() {
        look_into(alloc, directory, number, &mut claims, &mut found)?;
        number += 1;
    }
    Ok(found)
}

impl Found {
    /// The root, which wasn't looked into.
    fn of_root(alloc: Global) -> Result<Found, Error>
        ensures entries { IfOk result (λ f. f.entries.items ≡ 0 ∷ []) }
        ensures homes { IfOk result (λ f. f.homes.items ≡ 0 ∷ []) }
        ensures streams { IfOk result (λ f. f.streams.items ≡ []) }
        ensures storages { IfOk result (λ f. f.storages.items ≡ []) }
        ensures memory { IsErr result → IsErrOf result OutOfMemory }
    {
        let entries = vec![in alloc; 0; 1]?;
        let homes = vec![in alloc; 0; 1]?;
        Ok(Found {
            entries,
            homes,
            streams: Vec::new(alloc),
            storages: Vec::new(alloc),
        })
    }

    /// Adds what lies in the storage of a number: storages, and so many streams.
    fn add(&mut self, number: usize, found: &[u32], streams: usize) -> Result<(), Error>
        ensures entries { OnOk result (self.new.entries.items ≡ self.old.entries.items ++ found.now) }
        ensures homes { OnOk result
            (self.new.homes.items ≡ self.old.homes.items ++ replicate (length found.now) number) }
        ensures streams { OnOk result (self.new.streams.items ≡ self.old.streams.items ++ streams ∷ []) }
        ensures storages { OnOk result
            (self.new.storages.items ≡ self.old.storages.items ++ length found.now ∷ []) }
        ensures memory { IsErr result → IsErrOf result OutOfMemory }
    {
        for entry in found {
            self.entries.push(*entry)?;
            self.homes.push(number)?;
        }
        self.streams.push(streams)?;
        self.storages.push(found.len())?;
        Ok(())
    }
}

fn look_into(
    alloc: Global,
    directory: &Directory,
    number: usize,
    claims: &mut Claims,
    found: &mut Found,
) -> Result<(), Error>
    requires limit { vec_len claims.old.marks
        ≡ container.entry_count directory.now.bytes.now directory.now.sectors.now }
    requires there { number < length found.old.entries.items }
    requires below { AreBelow (container.entry_count directory.now.bytes.now directory.now.sectors.now)
        found.old.entries.items }
    ensures limit { vec_len claims.new.marks ≡ vec_len claims.old.marks }
    ensures ok { OnOk result ((tree : Tree)
        × IsStorageTree directory.now.bytes.now directory.now.sectors.now
        (slice_index found.old.entries.items number) tree
        × (claims.new.list.items ≡ claims.old.list.items ++ members tree)
        × (found.new.entries.items ≡ found.old.entries.items
        ++ storages_among directory.now.bytes.now directory.now.sectors.now (members tree))
        × (found.new.homes.items ≡ found.old.homes.items
        ++ replicate (lists.storage_count directory.now.bytes.now directory.now.sectors.now tree) number)
        × (found.new.streams.items ≡ found.old.streams.items
        ++ lists.stream_count directory.now.bytes.now directory.now.sectors.now tree ∷ [])
        × (found.new.storages.items ≡ found.old.storages.items
        ++ lists.storage_count directory.now.bytes.now directory.now.sectors.now tree ∷ [])) }
    ensures below { OnOk result
        (AreBelow (container.entry_count directory.now.bytes.now directory.now.sectors.now) found.new.entries.items) }
    ensures invalid { IsErrOf result InvalidData → (tree : Tree)
        → IsStorageTree directory.now.bytes.now directory.now.sectors.now
        (slice_index found.old.entries.items number) tree
        → CanClaim (vec_len claims.old.marks) claims.old.list.items (members tree) → ⊥ }
    ensures kinds { FailsByData result }
{
    let entries = listing_beside(alloc, directory, found.entries[number], claims)?;
    let storages = of_kind(alloc, directory, &entries, STORAGE)?;
    let streams = of_kind(alloc, directory, &entries, STREAM)?;
    found.add(number, &storages, streams.len())?;
    Ok(())
}

/// Lists the entries that lie directly in a storage, each with a well-formed name of its own, and claims them beside
/// those in use.
fn listing_beside(
    alloc: Global,
    directory: &Directory,
    storage: u32,
    claims: &mut Claims,
) -> Result<Vec<u32>, Error>
    requires limit { vec_len claims.old.marks
        ≡ container.entry_count directory.now.bytes.now directory.now.sectors.now }
    requires below { storage < container.entry_count directory.now.bytes.now directory.now.sectors.now }
    ensures limit { vec_len claims.new.marks ≡ vec_len claims.old.marks }
    ensures found { IfOk result
        (λ entries. (tree : Tree)
        × IsStorageTree directory.now.bytes.now directory.now.sectors.now storage tree
        × (members tree ≡ entries.items)
        × (claims.new.list.items ≡ claims.old.list.items ++ entries.items)) }
    ensures only { (tree : Tree)
        → IsStorageTree directory.now.bytes.now directory.now.sectors.now storage tree
        → CanClaim (vec_len claims.old.marks) claims.old.list.items (members tree)
        → ViewIsUnlessMemory (λ v. v.items) result (members tree) }
    ensures below { IfOk result
        (λ entries. AreBelow (container.entry_count directory.now.bytes.now directory.now.sectors.now) entries.items) }
    ensures kinds { FailsByData result }
{
    let entries = reach_more(alloc, directory, directory.child(storage), claims)?;
    check_kinds(directory, &entries)?;
    names_of(alloc, directory, &entries)?;
    Ok(entries)
}

fn list_found(alloc: Global, directory: &Directory, found: &Found) -> Result<Vec<Storage>, Error>
    requires root { 0 < length found.now.entries.items }
    requires below { AreBelow (container.entry_count directory.now.bytes.now directory.now.sectors.now)
        found.now.entries.items }
    requires homes { vec_len found.now.homes ≡ vec_len found.now.entries }
    requires streams { vec_len found.now.streams ≡ vec_len found.now.entries }
    requires storages { vec_len found.now.storages ≡ vec_len found.now.entries }
    requires named { (i : ℕ) → 0 < i → i < length found.now.entries.items
        → container.HasName directory.now.bytes.now directory.now.sectors.now
        (slice_index found.now.entries.items i) }
    ensures ok { IfOk result (λ list. list.items
        ≡ lists.all_listed directory.now.bytes.now directory.now.sectors.now found.now.entries.items
        found.now.homes.items found.now.streams.items found.now.storages.items) }
    ensures memory { IsErr result → IsErrOf result OutOfMemory }
{
    let mut list = Vec::new(alloc);
    for number in 1..found.entries.len() {
        list.push(listed(directory, found, number)?)?;
    }
    Ok(list)
}

fn listed(directory: &Directory, found: &Found, number: usize) -> Result<Storage, Error>
    requires number { number < length found.now.entries.items }
    requires below { slice_index found.now.entries.items number
        < container.entry_count directory.now.bytes.now directory.now.sectors.now }
    requires homes { vec_len found.now.homes ≡ vec_len found.now.entries }
    requires streams { vec_len found.now.streams ≡ vec_len found.now.entries }
    requires storages { vec_len found.now.storages ≡ vec_len found.now.entries }
    ensures ok { IfOk result (λ storage. storage
        ≡ lists.listed_at directory.now.bytes.now directory.now.sectors.now found.now.entries.items
        found.now.homes.items found.now.streams.items found.now.storages.items number) }
    ensures invalid { IsErr result → container.HasName directory.now.bytes.now directory.now.sectors.now
        (slice_index found.now.entries.items number) → ⊥ }
{
    let entry = found.entries[number];
    let home = found.homes[number];
    Ok(Storage {
        name: directory.name(entry)?,
        parent: if home == 0 { None } else { Some(home - 1) },
        clsid: directory.clsid(entry),
        streams: found.streams[number],
        storages: found.storages[number],
    })
}
