//! Where a path of names leads from the root, storage by storage (MS-CFB 2.6.3).

ghost use Rattle.std.specs.Prelude.{◌≡◌, ℕ, List, [], ◌<◌, true, Option, Some, None, IfOk, IfSome, IsErrOf};
ghost use Rattle.msi_base.specs.Results.{IsUnlessMemory};
ghost use Rattle.msi_container_format.specs.Chains.{AreBelow};
ghost use Rattle.msi_container_format.specs.Container as container;
ghost use Rattle.msi_container_format.specs.Trees.{Tree, members};
ghost use Rattle.msi_container_tables.specs.Outcomes.{ViewIsUnlessMemory, FailsByData, FailsByPath, IsNotFound};
ghost use Rattle.msi_container_tables.specs.Reading.{AreNamed};
ghost use Rattle.msi_container_tables.specs.Paths as storages;

use crate::directory::{Directory, read_listing};
use crate::names::names_of;
use crate::reasons;
use msi_base::{Error, ErrorKind};
use msi_container_format::format::{ROOT, STORAGE};
use msi_container_format::name::Name;
use std::alloc::Global;

/// Returns the entry of the storage that a path of names leads to from the root; that of the empty path is 0. The
/// directory has an entry at least. Fails with `NotFound` where a name is that of no storage in the one before it, and
/// with `InvalidData` where the first entry isn't the root, or what lies in one of the storages before is not well
/// formed. Fails with `OutOfMemory`.
pub fn find_storage(alloc: Global, directory: &Directory, path: &[Name]) -> Result<u32, Error>
    requires { 0 < container.entry_count directory.now.bytes.now directory.now.sectors.now }
    ensures found { IfOk result
        (λ storage. storages.IsPath directory.now.bytes.now directory.now.sectors.now path.now (Some storage)) }
    ensures below { IfOk result
        (λ storage. storage < container.entry_count directory.now.bytes.now directory.now.sectors.now) }
    ensures only { (storage : ℕ)
        → storages.IsPath directory.now.bytes.now directory.now.sectors.now path.now (Some storage)
        → IsUnlessMemory result storage }
    ensures missing { storages.IsPath directory.now.bytes.now directory.now.sectors.now path.now None
        → IsNotFound result }
    ensures kinds { FailsByPath
        (storages.IsPath directory.now.bytes.now directory.now.sectors.now path.now None) result }
{
    match follow(alloc, directory, path)? {
        Some(storage) => Ok(storage),
        None => Err(Error::new(ErrorKind::NotFound, reasons::NO_STORAGE)),
    }
}

/// Returns the entry that a path leads to, or `None` where a name is that of no storage in the one before it.
fn follow(alloc: Global, directory: &Directory, path: &[Name]) -> Result<Option<u32>, Error>
    requires { 0 < container.entry_count directory.now.bytes.now directory.now.sectors.now }
    ensures found { IfOk result
        (λ found. storages.IsPath directory.now.bytes.now directory.now.sectors.now path.now found) }
    ensures below { IfOk result (λ found. IfSome found
        (λ storage. storage < container.entry_count directory.now.bytes.now directory.now.sectors.now)) }
    ensures only { (found : Option ℕ)
        → storages.IsPath directory.now.bytes.now directory.now.sectors.now path.now found
        → IsUnlessMemory result found }
    ensures kinds { FailsByData result }
{
    if directory.kind(0) != ROOT {
        return Err(Error::new(ErrorKind::InvalidData, reasons::NO_ROOT));
    }
    let mut storage = 0;
    for name in path {
        let entries = named_listing(alloc, directory, storage)?;
        match storage_among(directory, &entries, name) {
            Some(next) => storage = next,
            None => return Ok(None),
        }
    }
    Ok(Some(storage))
}

/// Lists the entries that lie directly in a storage, each with a well-formed name of its own.
fn named_listing(alloc: Global, directory: &Directory, storage: u32) -> Result<Vec<u32>, Error>
    requires { storage < container.entry_count directory.now.bytes.now directory.now.sectors.now }
    ensures found { IfOk result
        (λ entries. (tree : Tree)
        × storages.IsStorageTree directory.now.bytes.now directory.now.sectors.now storage tree
        × (members tree ≡ entries.items)) }
    ensures only { (tree : Tree)
        → storages.IsStorageTree directory.now.bytes.now directory.now.sectors.now storage tree
        → ViewIsUnlessMemory (λ v. v.items) result (members tree) }
    ensures below { IfOk result
        (λ entries. AreBelow (container.entry_count directory.now.bytes.now directory.now.sectors.now) entries.items) }
    ensures named { IfOk result
        (λ entries. AreNamed directory.now.bytes.now directory.now.sectors.now entries.items) }
    ensures kinds { FailsByData result }
{
    let entries = read_listing(alloc, directory, storage)?;
    names_of(alloc, directory, &entries)?;
    Ok(entries)
}

/// Returns the storage of a name among entries with names of their own.
fn storage_among(directory: &Directory, entries: &[u32], name: &Name) -> Option<u32>
    requires below { AreBelow (container.entry_count directory.now.bytes.now directory.now.sectors.now) entries.now }
    requires named { AreNamed directory.now.bytes.now directory.now.sectors.now entries.now }
    ensures value { result
        ≡ storages.storage_named directory.now.bytes.now directory.now.sectors.now name.now entries.now }
    ensures below { IfSome result
        (λ entry. entry < container.entry_count directory.now.bytes.now directory.now.sectors.now) }
{
    for entry in entries {
        if is_storage_named(directory, *entry, name) {
            return Some(*entry);
        }
    }
    None
}

fn is_storage_named(directory: &Directory, entry: u32, name: &Name) -> bool
    requires below { entry < container.entry_count directory.now.bytes.now directory.now.sectors.now }
    requires named { container.HasName directory.now.bytes.now directory.now.sectors.now entry }
    ensures { result
        ≡ storages.is_storage_named directory.now.bytes.now directory.now.sectors.now name.now entry }
{
    if directory.kind(entry) != STORAGE {
        return false;
    }
    match directory.name(entry) {
        Ok(own) => *name == own,
        Err(_) => false,
    }
}
