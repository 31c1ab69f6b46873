//! The streams of a compound file without their bytes.

ghost use Rattle.std.specs.Prelude.{◌≡◌, ◌<◌, ◌^◌, length, OnOk, IsErr, IsErrOf};
ghost use Rattle.std.specs.FinMap as finite;
ghost use Rattle.msi_base.specs.declared.errors.ErrorKind.TheVariants.{OutOfMemory};

use msi_base::Error;
use msi_container_format::name::Name;
use std::alloc::Global;
use std::collections::{BTreeMap, btree_map};
use std::marker::Model;

/// How many bytes each stream has, by name, in the container's order of names.
#[derive(Drop)]
pub struct Sizes {
    map: BTreeMap<Name, u64>,
}

impl Model for Sizes {
    ghost use Rattle.std.specs.Prelude.{List, ℕ};
    ghost use Rattle.std.specs.FinMap as finite;
    ghost use Rattle.std.specs.Coded.{coded_ℕ, coded_list};
    ghost use Rattle.msi_container_format.specs.Names.{name_cmp};

    ghost Value = { finite.FinMap name_cmp ℕ };

    ghost coded = { finite.code (coded_list coded_ℕ) coded_ℕ };

    ghost view = { λ s. finite.from_entries s.map.entries };
}

impl Sizes {
    pub(crate) fn new(alloc: Global) -> Sizes
        ensures { result ≡ finite.empty }
    {
        Sizes {
            map: BTreeMap::new(alloc),
        }
    }

    pub(crate) fn insert(&mut self, name: Name, size: u64) -> Result<(), Error>
        ensures ok { OnOk result (self.new ≡ finite.insert self.old name size) }
        ensures memory { IsErr result → IsErrOf result OutOfMemory }
    {
        self.map.insert(name, size)?;
        Ok(())
    }

    /// Returns the number of streams.
    pub fn len(&self) -> usize
        ensures { result ≡ finite.len self.now }
    {
        self.map.len()
    }

    /// Returns the streams' names and sizes in the container's order of names.
    pub fn iter(&self) -> btree_map::Iter<'_, Name, u64>
        ensures rest { result ≡ finite.entries self.now }
        ensures len { length result ≡ finite.len self.now }
        ensures bound { length result < 2 ^ 63 }
    {
        self.map.iter()
    }
}

/// The contents of a compound file, without the bytes of its streams.
#[derive(Drop)]
pub struct Listing {
    /// The streams of the root, each with its number of bytes.
    pub sizes: Sizes,
    /// Whether storages lie below the root. They aren't entered.
    pub has_storages: bool,
}
