//! Names of entries: each is made once, and compared with those that are there already.

ghost use Rattle.std.specs.Prelude.{◌≡◌, ℕ, List, ◌<◌, true, false, IfOk, OnOk, OnErr, IsErrOf};
ghost use Rattle.std.specs.BTreeSet.{contains};
ghost use Rattle.msi_base.specs.declared.errors.ErrorKind.TheVariants.{InvalidData};
ghost use Rattle.msi_container_format.specs.Chains.{AreBelow};
ghost use Rattle.msi_container_format.specs.Container as container;
ghost use Rattle.msi_container_format.specs.Names.{name_cmp};
ghost use Rattle.msi_container_tables.specs.Outcomes.{FailsByData};
ghost use Rattle.msi_container_tables.specs.Reading.{AreNamed, has_name};

use crate::directory::Directory;
use crate::reasons;
use msi_base::{Error, ErrorKind};
use msi_container_format::name::Name;
use std::alloc::Global;
use std::collections::BTreeSet;

/// The names of these entries, each below the entry count. `InvalidData` where a name isn't well formed, or two entries
/// have it; `OutOfMemory`.
pub fn names_of(
    alloc: Global,
    directory: &Directory,
    entries: &[u32],
) -> Result<BTreeSet<Name>, Error>
    requires { AreBelow (container.entry_count directory.now.bytes.now directory.now.sectors.now) entries.now }
    ensures names { OnOk result (AreNamed directory.now.bytes.now directory.now.sectors.now entries.now) }
    ensures known { IfOk result
        (λ names. (q : List ℕ)
        → contains name_cmp names q ≡ has_name directory.now.bytes.now directory.now.sectors.now entries.now q) }
    ensures invalid { IsErrOf result InvalidData
        → AreNamed directory.now.bytes.now directory.now.sectors.now entries.now → ⊥ }
    ensures kinds { FailsByData result }
{
    let mut names = BTreeSet::new(alloc);
    for entry in entries {
        if !names.insert(directory.name(*entry)?)? {
            return Err(Error::new(ErrorKind::InvalidData, reasons::NAME_TWICE));
        }
    }
    Ok(names)
}

/// The name of an entry below the entry count. `InvalidData` where it isn't well formed, or is among those taken.
pub fn own_name(directory: &Directory, entry: u32, taken: &BTreeSet<Name>) -> Result<Name, Error>
    requires { entry < container.entry_count directory.now.bytes.now directory.now.sectors.now }
    ensures found { IfOk result
        (λ name. name ≡ container.name directory.now.bytes.now directory.now.sectors.now entry) }
    ensures ok { OnOk result (container.HasName directory.now.bytes.now directory.now.sectors.now entry) }
    ensures free { OnOk result
        (contains name_cmp taken.now (container.name directory.now.bytes.now directory.now.sectors.now entry) ≡ false) }
    ensures invalid { OnErr result (container.HasName directory.now.bytes.now directory.now.sectors.now entry
        → contains name_cmp taken.now (container.name directory.now.bytes.now directory.now.sectors.now entry) ≡ true) }
    ensures kinds { OnErr result (IsErrOf result InvalidData) }
{
    let name = directory.name(entry)?;
    if taken.contains(&name) {
        return Err(Error::new(ErrorKind::InvalidData, reasons::NAME_TWICE));
    }
    Ok(name)
}
