//! The entries of a pool's stream, as they are kept until its texts are read.

ghost use Rattle.std.specs.Prelude.{◌≡◌, ◌<◌, ◌⊎◌, List, IfOk, IfErr, Some, length, slice_get};
ghost use Rattle.msi_base.specs.declared.errors.ErrorKind.TheVariants.{InvalidData, OutOfMemory};
ghost use Rattle.msi_base.specs.Results.{Gives};
ghost use Rattle.msi_pool_places.specs.Pool as pools;
ghost use Rattle.msi_pool_places.specs.Pool.{SpellsEntries};
ghost use Rattle.msi_pool_places.specs.TextJoining.{AreUnread, entries_with};

use crate::count::Count;
use crate::{Entry, Numbers, entry_of};
use msi_base::errors::Error;
use std::alloc::Global;
use std::marker::Model;

/// The entries of a pool's stream: how many bytes each text has in the data stream, and how many cells name its place.
/// As the texts are read, their ends take the place of the lengths, so that no second vector is needed for them.
/// Contracts see the list of entries.
#[derive(Drop)]
pub struct Entries {
    lens: Numbers,
    counts: Vec<Count>,
}

impl Model for Entries {
    ghost use Rattle.std.specs.Prelude.{List};
    ghost use Rattle.msi_pool_places.specs.Pool as pools;
    ghost use Rattle.msi_pool_places.specs.TextJoining.{AreUnread, entries_with};

    ghost Value = { List pools.Entry };

    ghost view = { λ e. entries_with e.lens e.counts.items };

    ghost invariant = { λ e. AreUnread e.lens e.counts.items };
}

impl Entries {
    /// Returns the entries that the bytes encode, of which each has at least four.
    ///
    /// # Errors
    /// Fails with `InvalidData` if an entry is cut, and otherwise with `OutOfMemory`.
    pub fn read(alloc: Global, bytes: &[u8]) -> Result<Entries, Error>
        ensures found { IfOk result (λ entries. SpellsEntries bytes.now entries) }
        ensures only { (entries : List pools.Entry)
            → SpellsEntries bytes.now entries → Gives (λ e. e) result (Some entries) }
        ensures kinds { IfErr result (λ kind. (kind ≡ InvalidData) ⊎ (kind ≡ OutOfMemory)) }
    {
        let many = bytes.len() / 4;
        let mut lens = Numbers::with_capacity(alloc, many)?;
        let mut counts = Vec::with_capacity(alloc, many)?;
        let mut rest = bytes;
        while rest.len() >= 2 {
            let (entry, after) = entry_of(rest)?;
            lens.push(entry.len())?;
            counts.push(Count::new(entry.count()))?;
            rest = after;
        }
        Ok(Entries { lens, counts })
    }

    /// Returns how many entries there are.
    pub fn len(&self) -> usize
        ensures { result ≡ length self.now }
    {
        self.counts.len()
    }

    /// Returns the entry at a place below `len`, counted from 0.
    pub fn entry(&self, at: usize) -> Entry
        requires { at < length self.now }
        ensures { slice_get self.now at ≡ Some result }
    {
        let len = self.lens.get(at) as u32;
        Entry::new(len, self.counts[at].cells())
    }

    pub(crate) fn into_parts(self) -> (Numbers, Vec<Count>)
        ensures unread { AreUnread result.0 result.1.items }
        ensures entries { entries_with result.0 result.1.items ≡ self }
    {
        let Entries { lens, counts } = self;
        (lens, counts)
    }
}
