//! Listing the streams of a compound file.

ghost use Rattle.std.specs.Prelude.{◌≡◌, IfOk, OnOk, IsErrOf};
ghost use Rattle.std.specs.FinMap.{from_entries};
ghost use Rattle.msi_base.specs.Results.{IsUnlessMemory};
ghost use Rattle.msi_base.specs.declared.errors.ErrorKind.TheVariants.{InvalidData};
ghost use Rattle.msi_container_format.specs.declared.contents.Contents as held;
ghost use Rattle.msi_container_format.specs.Chains.{AreBelow};
ghost use Rattle.msi_container_format.specs.Container as container;
ghost use Rattle.msi_container_read.specs.Listings.{listing_of, named_sizes};
ghost use Rattle.msi_container_tables.specs.Outcomes.{FailsByData};
ghost use Rattle.msi_container_tables.specs.Reading.{HaveNamesApart};

use crate::names::insert_size;
use crate::reading::read_outline;
use crate::sizes::{Listing, Sizes};
use msi_base::Error;
use msi_container_tables::{Directory, Steps, names_of, own_name};
use std::alloc::Global;

/// Returns the names and sizes of the streams that `read` would return, and whether storages lie below the root. No
/// byte of a stream is copied.
///
/// # Errors
/// Fails with `InvalidData` if `read` does, since the bytes hold no container. Otherwise it fails with `OutOfMemory`.
pub fn list(alloc: Global, bytes: &[u8]) -> Result<Listing, Error>
    ensures found { IfOk result (λ listing. (contents : held.Contents) × container.Holds bytes.now contents
        × (listing ≡ listing_of contents)) }
    ensures only { (contents : held.Contents) → container.Holds bytes.now contents
        → IsUnlessMemory result (listing_of contents) }
    ensures kinds { FailsByData result }
{
    let mut steps = Steps::new();
    let outline = read_outline(alloc, bytes, &mut steps)?;
    let directory = Directory {
        bytes,
        sectors: &outline.start.directory,
    };
    let sizes = sizes_of(
        alloc,
        &directory,
        &outline.entries.storages,
        &outline.entries.streams,
    )?;
    Ok(Listing {
        sizes,
        has_storages: outline.entries.has_storages,
    })
}

fn sizes_of(
    alloc: Global,
    directory: &Directory,
    storages: &[u32],
    entries: &[u32],
) -> Result<Sizes, Error>
    requires storages { AreBelow
        (container.entry_count directory.now.bytes.now directory.now.sectors.now) storages.now }
    requires below { AreBelow (container.entry_count directory.now.bytes.now directory.now.sectors.now) entries.now }
    ensures ok { IfOk result (λ sizes. sizes
        ≡ from_entries (named_sizes directory.now.bytes.now directory.now.sectors.now entries.now)) }
    ensures names { OnOk result
        (HaveNamesApart directory.now.bytes.now directory.now.sectors.now storages.now entries.now) }
    ensures invalid { IsErrOf result InvalidData
        → HaveNamesApart directory.now.bytes.now directory.now.sectors.now storages.now entries.now → ⊥ }
    ensures kinds { FailsByData result }
{
    let taken = names_of(alloc, directory, storages)?;
    let mut sizes = Sizes::new(alloc);
    for entry in entries {
        let name = own_name(directory, *entry, &taken)?;
        insert_size(&mut sizes, name, directory.size(*entry))?;
    }
    Ok(sizes)
}
