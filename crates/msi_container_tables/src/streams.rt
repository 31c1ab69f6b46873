//! The streams of a storage: which entries they are, and their members (MS-CFB 2.6.3).

ghost use Rattle.std.specs.Prelude.{◌≡◌, ℕ, List, ◌+◌, ◌*◌, ◌<◌, ◌≤◌, ◌^◌, ◌++◌, vec_len, IfOk, IsErr, IsErrOf};
ghost use Rattle.std.specs.Prelude.{filter, ◌==◌, sum_by};
ghost use Rattle.std.specs.List.{AllZip};
ghost use Rattle.msi_base.specs.declared.errors.ErrorKind.TheVariants.{InvalidData, OutOfMemory};
ghost use Rattle.msi_container_format.specs.Chains.{AreBelow};
ghost use Rattle.msi_container_tables.specs.Claims.{CanClaim};
ghost use Rattle.msi_container_tables.specs.Outcomes.{ViewIsUnlessMemory, FailsByData};
ghost use Rattle.msi_container_format.specs.Container as container;
ghost use Rattle.msi_container_format.specs.Format as marks;
ghost use Rattle.msi_container_format.specs.Trees.{Tree, members};
ghost use Rattle.msi_container_tables.specs.Reading as spec;
ghost use Rattle.msi_container_tables.specs.Reading.{IsNamelessListing, AreChained, storages_among, mini_limit, views};
ghost use Rattle.msi_container_tables.specs.Counts.{links};

use crate::claims::{Claimed, Claims};
use crate::directory::{Directory, read_listing};
use crate::header::sector_size;
use crate::mini::Mini;
use crate::table::{AllocationTable, Steps};
use crate::walks::walk;
use msi_base::Error;
use msi_container_format::format::{MINI_SECTOR_SIZE, MINI_STREAM_CUTOFF, STORAGE, STREAM};
use std::alloc::Global;

/// The least size of a stream that lies in sectors; a smaller one lies in mini sectors.
const CUTOFF: u64 = MINI_STREAM_CUTOFF as u64;

/// What lies in a storage: the entries of storages, and those of streams, each in the tree's order.
pub struct Entries {
    /// Whether storages lie in it.
    pub has_storages: bool,
    /// The entries of storages.
    pub storages: Vec<u32>,
    /// The entries of streams.
    pub streams: Vec<u32>,
}

impl Drop for Entries {
    fn drop(self) {
        let Entries {
            has_storages: _,
            storages: _,
            streams: _,
        } = self;
    }
}

/// The entries that lie directly in a storage, which is below the entry count (MS-CFB 2.6.3). Their names aren't looked
/// at. `InvalidData` where a link leads past the directory or to an entry that was reached, or an entry is neither
/// storage nor stream; `OutOfMemory`.
pub fn read_entries(alloc: Global, directory: &Directory, storage: u32) -> Result<Entries, Error>
    requires { storage < container.entry_count directory.now.bytes.now directory.now.sectors.now }
    ensures found { IfOk result
        (λ e. (tree : Tree) × IsNamelessListing directory.now.bytes.now directory.now.sectors.now storage tree
        × (e.has_storages ≡ container.has_storage directory.now.bytes.now directory.now.sectors.now (members tree))
        × (e.storages.items ≡ storages_among directory.now.bytes.now directory.now.sectors.now (members tree))
        × (e.streams.items
        ≡ container.streams_among directory.now.bytes.now directory.now.sectors.now (members tree))) }
    ensures only { (tree : Tree) → IsNamelessListing directory.now.bytes.now directory.now.sectors.now storage tree
        → ViewIsUnlessMemory {Y = List ℕ × List ℕ} (λ e. (e.storages.items, e.streams.items)) result (
          storages_among directory.now.bytes.now directory.now.sectors.now (members tree),
          container.streams_among directory.now.bytes.now directory.now.sectors.now (members tree),
        ) }
    ensures storages { IfOk result
        (λ e. AreBelow (container.entry_count directory.now.bytes.now directory.now.sectors.now) e.storages.items) }
    ensures below { IfOk result
        (λ e. AreBelow (container.entry_count directory.now.bytes.now directory.now.sectors.now) e.streams.items) }
    ensures kinds { FailsByData result }
{
    let entries = read_listing(alloc, directory, storage)?;
    let storages = of_kind(alloc, directory, &entries, STORAGE)?;
    let streams = of_kind(alloc, directory, &entries, STREAM)?;
    let has_storages = has_storage(directory, &entries);
    Ok(Entries {
        has_storages,
        storages,
        streams,
    })
}

/// Those of these entries that are of a kind, in their order. The entries are below the entry count. It fails for want
/// of memory alone.
pub fn of_kind(
    alloc: Global,
    directory: &Directory,
    entries: &[u32],
    kind: u8,
) -> Result<Vec<u32>, Error>
    requires { AreBelow (container.entry_count directory.now.bytes.now directory.now.sectors.now) entries.now }
    ensures ok { IfOk result (λ found. found.items
        ≡ filter (λ k. container.kind directory.now.bytes.now directory.now.sectors.now k == kind) entries.now) }
    ensures below { IfOk result
        (λ found. AreBelow (container.entry_count directory.now.bytes.now directory.now.sectors.now) found.items) }
    ensures memory { IsErr result → IsErrOf result OutOfMemory }
{
    let mut found = Vec::new(alloc);
    for entry in entries {
        if directory.kind(*entry) == kind {
            found.push(*entry)?;
        }
    }
    Ok(found)
}

/// Returns whether one of these entries, each below the entry count, is a storage.
fn has_storage(directory: &Directory, entries: &[u32]) -> bool
    requires { AreBelow (container.entry_count directory.now.bytes.now directory.now.sectors.now) entries.now }
    ensures { result ≡ container.has_storage directory.now.bytes.now directory.now.sectors.now entries.now }
{
    for entry in entries {
        if directory.kind(*entry) == STORAGE {
            return true;
        }
    }
    false
}

/// The chains of these streams, in order: for each its sectors, or its mini sectors if it has less than 4096 bytes, as
/// many as its size needs. Sectors are claimed beside those in use, and mini sectors among those of the mini stream.
/// The streams are entries below the entry count. `InvalidData` where a sector or mini sector can't be claimed or has
/// no successor; `OutOfMemory`. Each look-up of a successor takes a step.
pub fn read_chains<'a>(
    alloc: Global,
    fat: &AllocationTable<'a>,
    directory: &Directory<'a>,
    mini: &'a Mini,
    streams: &[u32],
    claims: Claims,
    steps: &mut Steps,
) -> Result<Vec<Vec<u32>>, Error>
    requires same { fat.now.bytes.now ≡ directory.now.bytes.now }
    requires below { AreBelow (container.entry_count directory.now.bytes.now directory.now.sectors.now) streams.now }
    requires few { vec_len mini.now.fat + vec_len mini.now.stream ≤ 2 ^ 32 }
    requires regular { vec_len claims.marks ≤ marks.MAX_REGULAR_SECTOR + 1 }
    requires steps { steps.old ≤ 2 ^ 63 + vec_len claims.list }
    ensures found { IfOk result
        (λ chains. AreChained directory.now.bytes.now fat.now.sectors.now mini.now.fat.items directory.now.sectors.now
        mini.now.stream.items
        (vec_len claims.marks) claims.list.items streams.now (views chains.items)) }
    ensures invalid { IsErrOf result InvalidData → (chains : List (List ℕ))
        → AreChained directory.now.bytes.now fat.now.sectors.now mini.now.fat.items directory.now.sectors.now
        mini.now.stream.items
        (vec_len claims.marks) claims.list.items streams.now chains → ⊥ }
    ensures kinds { FailsByData result }
    ensures grows { steps.old ≤ steps.new }
    ensures bounded { steps.new + vec_len claims.list
        ≤ steps.old + vec_len claims.marks + mini_limit directory.now.bytes.now mini.now.stream.items }
    ensures exact { IfOk result (λ chains. steps.new ≡ steps.old + sum_by links (views chains.items)) }
{
    let tables = Tables {
        fat: *fat,
        mini_fat: AllocationTable::new(directory.bytes, &mini.fat),
    };
    let limit = mini.stream.len() * (sector_size(directory.bytes) / MINI_SECTOR_SIZE);
    let mut uses = Uses {
        sectors: claims,
        mini_sectors: Claims::new(alloc, Claimed::MiniSectors, limit)?,
    };
    walk_each(alloc, &tables, directory, streams, &mut uses, steps)
}

/// The tables that chain sectors and mini sectors.
#[derive(Clone, Copy)]
struct Tables<'a> {
    fat: AllocationTable<'a>,
    mini_fat: AllocationTable<'a>,
}

/// The sectors and mini sectors in use.
#[derive(Drop)]
struct Uses {
    sectors: Claims,
    mini_sectors: Claims,
}

/// Claims the members of an entry's stream: mini sectors below 4096 bytes, and sectors from there on. Fails with
/// `InvalidData` where a chain ends early, leaves the file or the mini stream, or uses a member that is in use.
fn walk_stream(
    alloc: Global,
    tables: &Tables,
    directory: &Directory,
    entry: u32,
    uses: &mut Uses,
    steps: &mut Steps,
) -> Result<Vec<u32>, Error>
    requires same { tables.now.fat.bytes.now ≡ directory.now.bytes.now }
    requires same_mini { tables.now.mini_fat.bytes.now ≡ directory.now.bytes.now }
    requires below { entry < container.entry_count directory.now.bytes.now directory.now.sectors.now }
    requires steps { steps.old + vec_len uses.old.sectors.marks + vec_len uses.old.mini_sectors.marks + 1
        < 2 ^ 64 + vec_len uses.old.sectors.list + vec_len uses.old.mini_sectors.list }
    ensures limit { vec_len uses.new.sectors.marks ≡ vec_len uses.old.sectors.marks }
    ensures mini_limit { vec_len uses.new.mini_sectors.marks ≡ vec_len uses.old.mini_sectors.marks }
    ensures members { IfOk result
        (λ chain. container.IsMembers directory.now.bytes.now tables.now.fat.sectors.now
        tables.now.mini_fat.sectors.now directory.now.sectors.now entry chain.items) }
    ensures sectors { IfOk result (λ chain. uses.new.sectors.list.items
        ≡ uses.old.sectors.list.items
        ++ container.sectors_in directory.now.bytes.now directory.now.sectors.now (entry, chain.items)) }
    ensures mini_sectors { IfOk result (λ chain. uses.new.mini_sectors.list.items
        ≡ uses.old.mini_sectors.list.items
        ++ container.mini_sectors_in directory.now.bytes.now directory.now.sectors.now (entry, chain.items)) }
    ensures only { (chain : List ℕ)
        → container.IsMembers directory.now.bytes.now tables.now.fat.sectors.now tables.now.mini_fat.sectors.now
        directory.now.sectors.now entry chain
        → CanClaim (vec_len uses.old.sectors.marks) uses.old.sectors.list.items
        (container.sectors_in directory.now.bytes.now directory.now.sectors.now (entry, chain))
        → CanClaim (vec_len uses.old.mini_sectors.marks) uses.old.mini_sectors.list.items
        (container.mini_sectors_in directory.now.bytes.now directory.now.sectors.now (entry, chain))
        → ViewIsUnlessMemory (λ v. v.items) result chain }
    ensures kinds { FailsByData result }
    ensures grows { steps.old ≤ steps.new }
    ensures bounded { steps.new + vec_len uses.old.sectors.list + vec_len uses.old.mini_sectors.list
        ≤ steps.old + vec_len uses.new.sectors.list + vec_len uses.new.mini_sectors.list }
    ensures exact { IfOk result (λ chain. steps.new ≡ steps.old + links chain.items) }
{
    let start = directory.start_sector(entry);
    let size = directory.size(entry);
    if size < CUTOFF {
        let count = size.div_ceil(MINI_SECTOR_SIZE as u64) as usize;
        walk(
            alloc,
            &tables.mini_fat,
            start,
            count,
            &mut uses.mini_sectors,
            steps,
        )
    } else {
        let count = size.div_ceil(sector_size(directory.bytes) as u64) as usize;
        walk(alloc, &tables.fat, start, count, &mut uses.sectors, steps)
    }
}

/// Claims the members of each entry's stream in turn, as `walk_stream` does.
fn walk_each(
    alloc: Global,
    tables: &Tables,
    directory: &Directory,
    entries: &[u32],
    uses: &mut Uses,
    steps: &mut Steps,
) -> Result<Vec<Vec<u32>>, Error>
    requires same { tables.now.fat.bytes.now ≡ directory.now.bytes.now }
    requires same_mini { tables.now.mini_fat.bytes.now ≡ directory.now.bytes.now }
    requires below { AreBelow (container.entry_count directory.now.bytes.now directory.now.sectors.now) entries.now }
    requires steps { steps.old + vec_len uses.old.sectors.marks + vec_len uses.old.mini_sectors.marks + 1
        < 2 ^ 64 + vec_len uses.old.sectors.list + vec_len uses.old.mini_sectors.list }
    ensures limit { vec_len uses.new.sectors.marks ≡ vec_len uses.old.sectors.marks }
    ensures mini_limit { vec_len uses.new.mini_sectors.marks ≡ vec_len uses.old.mini_sectors.marks }
    ensures members { IfOk result
        (λ chains. AllZip (container.IsMembers directory.now.bytes.now tables.now.fat.sectors.now
        tables.now.mini_fat.sectors.now directory.now.sectors.now)
        entries.now (spec.views chains.items)) }
    ensures sectors { IfOk result (λ chains. uses.new.sectors.list.items
        ≡ uses.old.sectors.list.items
        ++ container.all_sectors directory.now.bytes.now directory.now.sectors.now entries.now
        (spec.views chains.items)) }
    ensures mini_sectors { IfOk result (λ chains. uses.new.mini_sectors.list.items
        ≡ uses.old.mini_sectors.list.items
        ++ container.all_mini_sectors directory.now.bytes.now directory.now.sectors.now entries.now
        (spec.views chains.items)) }
    ensures only { (chains : List (List ℕ))
        → AllZip (container.IsMembers directory.now.bytes.now tables.now.fat.sectors.now
        tables.now.mini_fat.sectors.now directory.now.sectors.now) entries.now chains
        → CanClaim (vec_len uses.old.sectors.marks) uses.old.sectors.list.items
        (container.all_sectors directory.now.bytes.now directory.now.sectors.now entries.now chains)
        → CanClaim (vec_len uses.old.mini_sectors.marks) uses.old.mini_sectors.list.items
        (container.all_mini_sectors directory.now.bytes.now directory.now.sectors.now entries.now chains)
        → ViewIsUnlessMemory (λ v. spec.views v.items) result chains }
    ensures kinds { FailsByData result }
    ensures grows { steps.old ≤ steps.new }
    ensures bounded { steps.new + vec_len uses.old.sectors.list + vec_len uses.old.mini_sectors.list
        ≤ steps.old + vec_len uses.new.sectors.list + vec_len uses.new.mini_sectors.list }
    ensures exact { IfOk result (λ chains. steps.new ≡ steps.old + sum_by links (spec.views chains.items)) }
{
    let mut chains = Vec::new(alloc);
    for entry in entries {
        let chain = walk_stream(alloc, tables, directory, *entry, uses, steps)?;
        chains.push(chain)?;
    }
    Ok(chains)
}
