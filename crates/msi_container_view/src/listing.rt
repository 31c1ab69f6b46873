//! What a directory that was copied says: its entries, and the members of its streams.

ghost use Rattle.std.specs.Prelude.{◌≡◌, ℕ, List, ◌+◌, ◌<◌, ◌≤◌, ◌^◌, length, vec_len, IfOk, IsErrOf};
ghost use Rattle.std.specs.List.{AllZip};
ghost use Rattle.msi_base.specs.declared.errors.ErrorKind.TheVariants.{InvalidData};
ghost use Rattle.msi_container_format.specs.Chains.{AreBelow};
ghost use Rattle.msi_container_format.specs.Container as container;
ghost use Rattle.msi_container_format.specs.Format as marks;
ghost use Rattle.msi_container_format.specs.Trees.{Tree, members};
ghost use Rattle.msi_container_tables.specs.Outcomes.{FailsByData};
ghost use Rattle.msi_container_tables.specs.Reading.{AreChained, IsCovered, IsNamelessListing, storages_among, views};
ghost use Rattle.msi_container_view.specs.Copied.{AreCopied, HasHeaderOf};

use crate::looking::MiniTables;
use crate::tables::Copied;
use msi_base::Error;
use msi_container_tables::{
    AllocationTable, Claims, Directory, Entries, Steps, find_storage, read_chains, read_entries,
};
use std::alloc::Global;

/// The entries that lie in the root: storages and streams. Their names aren't looked at yet.
pub(crate) fn look_entries(alloc: Global, copy: &[u8], directory: &Copied) -> Result<Entries, Error>
    requires some { 0 < vec_len directory.now.places }
    requires few { vec_len directory.now.places ≤ 2 ^ 32 }
    ensures found { IfOk result
        (λ e. (file : List ℕ) → HasHeaderOf file copy.now
        → AreCopied file copy.now directory.now.sectors.items directory.now.places.items
        → (container.kind file directory.now.sectors.items 0 ≡ 5)
        × (tree : Tree) × IsNamelessListing file directory.now.sectors.items 0 tree
        × (e.has_storages ≡ container.has_storage file directory.now.sectors.items (members tree))
        × (e.storages.items ≡ storages_among file directory.now.sectors.items (members tree))
        × (e.streams.items ≡ container.streams_among file directory.now.sectors.items (members tree))) }
    ensures broken { IsErrOf result InvalidData → (file : List ℕ) → HasHeaderOf file copy.now
        → AreCopied file copy.now directory.now.sectors.items directory.now.places.items
        → container.kind file directory.now.sectors.items 0 ≡ 5
        → (tree : Tree) → IsNamelessListing file directory.now.sectors.items 0 tree → ⊥ }
    ensures storages { IfOk result
        (λ e. AreBelow (container.entry_count copy.now directory.now.places.items) e.storages.items) }
    ensures below { IfOk result
        (λ e. AreBelow (container.entry_count copy.now directory.now.places.items) e.streams.items) }
    ensures kinds { FailsByData result }
{
    let directory = Directory::new(copy, directory.places.as_slice());
    let root = find_storage(alloc, &directory, &[])?;
    read_entries(alloc, &directory, root)
}

/// The members of each stream: sectors or mini sectors, each claimed.
pub(crate) fn look_chains(
    alloc: Global,
    copy: &[u8],
    fat: &Copied,
    directory: &Copied,
    mini: &MiniTables,
    streams: &[u32],
    claims: Claims,
) -> Result<Vec<Vec<u32>>, Error>
    requires below { AreBelow (container.entry_count copy.now directory.now.places.items) streams.now }
    requires fat_few { vec_len fat.now.places ≤ 2 ^ 32 }
    requires few { vec_len directory.now.places ≤ 2 ^ 32 }
    requires mini_few { vec_len mini.now.mini.fat + vec_len mini.now.mini.stream ≤ 2 ^ 32 }
    requires regular { vec_len claims.marks ≤ marks.MAX_REGULAR_SECTOR + 1 }
    ensures found { IfOk result
        (λ chains. (file : List ℕ) → HasHeaderOf file copy.now
        → AreCopied file copy.now fat.now.sectors.items fat.now.places.items
        → AreCopied file copy.now mini.now.sectors.items mini.now.mini.fat.items
        → AreCopied file copy.now directory.now.sectors.items directory.now.places.items
        → AreChained file fat.now.sectors.items mini.now.sectors.items directory.now.sectors.items
        mini.now.mini.stream.items (vec_len claims.marks) claims.list.items streams.now (views chains.items)) }
    ensures broken { IsErrOf result InvalidData → (file : List ℕ) → HasHeaderOf file copy.now
        → AreCopied file copy.now fat.now.sectors.items fat.now.places.items
        → AreCopied file copy.now mini.now.sectors.items mini.now.mini.fat.items
        → AreCopied file copy.now directory.now.sectors.items directory.now.places.items
        → (chains : List (List ℕ))
        → AreChained file fat.now.sectors.items mini.now.sectors.items directory.now.sectors.items
        mini.now.mini.stream.items (vec_len claims.marks) claims.list.items streams.now chains → ⊥ }
    ensures covered { IfOk result
        (λ chains. AllZip (IsCovered copy.now mini.now.mini.stream.items directory.now.places.items) streams.now
        (views chains.items)) }
    ensures few { IfOk result (λ chains. AllZip (λ entry chain. length chain < 2 ^ 32) streams.now
        (views chains.items)) }
    ensures kinds { FailsByData result }
{
    let mut steps = Steps::new();
    let fat = AllocationTable::new(copy, fat.places.as_slice());
    let directory = Directory::new(copy, directory.places.as_slice());
    read_chains(
        alloc, &fat, &directory, &mini.mini, streams, claims, &mut steps,
    )
}
