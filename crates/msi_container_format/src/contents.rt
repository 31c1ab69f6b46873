//! What a compound file holds.

ghost use Rattle.std.specs.Prelude.{◌≡◌, ◌==◌, length, ◌<◌, ◌^◌, false, true, IfErr, IfOk, IfSome, OnErr, OnOk};
ghost use Rattle.std.specs.Borrow.{sem};
ghost use Rattle.std.specs.FinMap as finite;
ghost use Rattle.std.specs.Option.{option_copied, option_copied_mut};
ghost use Rattle.msi_container_format.specs.Lending.{LendsStream};
ghost use Rattle.msi_container_format.specs.Streams.{with_or_without};

use crate::name::Name;
use msi_base::parts::Part;
use std::alloc::{AllocError, AllocFailed, Global};
use std::collections::{BTreeMap, btree_map};
use std::fmt;
use std::marker::Model;

/// Who has the bytes of a stream.
#[derive(Drop)]
pub(crate) enum Held {
    /// This stream alone.
    Alone(Vec<u8>),
    /// All the parts of a file's bytes together.
    Part(Part),
}

/// The bytes of a stream: its own, or a part of a file's bytes that other streams share.
pub struct Bytes {
    held: Held,
}

/// Written out, so that a function that owns one calls one drop, and its proof doesn't go through those of the parts.
impl Drop for Bytes {
    fn drop(self) {
        let Bytes { held: _ } = self;
    }
}

impl Model for Bytes {
    ghost use Rattle.std.specs.Prelude.{List, ℕ};

    ghost Value = { List ℕ };

    ghost use Rattle.msi_container_format.specs.HeldBytes.{bytes_of};

    ghost view = { λ b. bytes_of b.held };
}

impl Bytes {
    /// Returns a stream of these bytes.
    pub fn from_vec(held: Vec<u8>) -> Bytes
        ensures { result ≡ held.items }
    {
        Bytes {
            held: Held::Alone(held),
        }
    }

    pub(crate) fn from_part(part: Part) -> Bytes
        ensures { result ≡ part }
    {
        Bytes {
            held: Held::Part(part),
        }
    }

    pub(crate) fn part(&self) -> Option<&Part>
        ensures { IfSome result (λ part. part.now ≡ self.now) }
    {
        match &self.held {
            Held::Alone(_) => None,
            Held::Part(part) => Some(part),
        }
    }

    /// Returns the bytes.
    pub fn as_slice(&self) -> &[u8]
        ensures { result.now ≡ self.now }
    {
        match &self.held {
            Held::Alone(bytes) => bytes.as_slice(),
            Held::Part(part) => part.as_slice(),
        }
    }
}

/// The same bytes once more: a part of a file's takes no memory for them, and bytes of one stream are copied.
impl Clone for Bytes {
    ghost is_clone = { λ bytes copy. copy ≡ bytes };

    fn clone(&self) -> Result<Bytes, AllocError> {
        match &self.held {
            Held::Alone(bytes) => Ok(Bytes::from_vec(bytes.clone()?)),
            Held::Part(part) => Ok(Bytes::from_part(part.clone()?)),
        }
    }
}

/// Shows the bytes, whoever has them.
impl fmt::Debug for Bytes {
    fn fmt<W: fmt::Write>(&self, f: &mut fmt::Formatter<W>) -> fmt::Result {
        f.debug_struct("Bytes")
            .field("held", &self.as_slice())
            .finish()
    }
}

/// Streams by name, in the container's order of names.
#[derive(Drop)]
pub struct StreamMap {
    map: BTreeMap<Name, Bytes>,
}

impl Model for StreamMap {
    ghost use Rattle.std.specs.Prelude.{List, ℕ};
    ghost use Rattle.std.specs.FinMap as finite;
    ghost use Rattle.std.specs.Coded.{coded_ℕ, coded_list};
    ghost use Rattle.msi_container_format.specs.Names.{name_cmp};

    ghost Value = { finite.FinMap name_cmp (List ℕ) };

    ghost coded = { finite.code (coded_list coded_ℕ) (coded_list coded_ℕ) };

    ghost view = { λ s. finite.from_entries s.map.entries };
}

impl StreamMap {
    /// Returns a map without streams.
    pub fn new(alloc: Global) -> StreamMap
        ensures { result ≡ finite.empty }
    {
        StreamMap {
            map: BTreeMap::new(alloc),
        }
    }

    /// Returns the bytes of the stream of a name, if there is one.
    pub fn get(&self, name: &Name) -> Option<&Bytes>
        ensures { option_copied result ≡ finite.get self.now name.now }
    {
        self.map.get(name)
    }

    /// Returns a mutable borrow of the stream of a name, if there is one.
    pub fn get_mut(&mut self, name: &Name) -> Option<&mut Bytes>
        ensures* left { sem 𝓛 (LendsStream self.entry name.now result) }
        ensures held { option_copied_mut result ≡ finite.get self.old name.now }
    {
        self.map.get_mut(name)
    }

    /// Returns whether there is a stream of a name.
    pub fn contains(&self, name: &Name) -> bool
        ensures { result ≡ finite.contains_key self.now name.now }
    {
        self.map.contains_key(name)
    }

    /// Stores a stream under a name, in place of the one that was there.
    ///
    /// # Errors
    /// Fails if memory was refused; then nothing has changed, and the name and the bytes are handed back.
    pub fn insert(&mut self, name: Name, bytes: Bytes) -> Result<(), AllocFailed<(Name, Bytes)>>
        ensures ok { OnOk result (self.new ≡ finite.insert self.old name bytes) }
        ensures there { OnOk result (finite.contains_key self.new name ≡ true) }
        ensures err { OnErr result (self.new ≡ self.old) }
        ensures back { IfErr result (λ refused. refused.value ≡ (name, bytes)) }
        ensures absent { OnErr result (finite.contains_key self.old name ≡ false) }
    {
        self.replace(name, bytes)?;
        Ok(())
    }

    /// Stores a stream under a name, and returns the bytes of the one that was there. Replacing one takes no memory.
    ///
    /// # Errors
    /// Fails as `insert` does.
    pub fn replace(
        &mut self,
        name: Name,
        bytes: Bytes,
    ) -> Result<Option<Bytes>, AllocFailed<(Name, Bytes)>>
        ensures ok { OnOk result (self.new ≡ finite.insert self.old name bytes) }
        ensures held { IfOk result (λ held. held ≡ finite.get self.old name) }
        ensures there { OnOk result (finite.contains_key self.new name ≡ true) }
        ensures err { OnErr result (self.new ≡ self.old) }
        ensures back { IfErr result (λ refused. refused.value ≡ (name, bytes)) }
        ensures absent { OnErr result (finite.contains_key self.old name ≡ false) }
    {
        self.map.insert(name, bytes)
    }

    /// Puts back what `replace` returned: these bytes, or no stream. A stream of that name has to exist, so it takes no
    /// memory.
    pub(crate) fn put_back(&mut self, name: &Name, bytes: Option<Bytes>)
        requires { finite.contains_key self.old name.now ≡ true }
        ensures { self.new ≡ with_or_without self.old name.now bytes }
    {
        match bytes {
            Some(bytes) => {
                if let Some(held) = self.get_mut(name) {
                    *held = bytes;
                }
            }
            None => {
                self.remove(name);
            }
        }
    }

    /// Removes the stream of a name, if there is one, and returns its bytes.
    pub fn remove(&mut self, name: &Name) -> Option<Bytes>
        ensures held { result ≡ finite.get self.old name.now }
        ensures gone { self.new ≡ finite.remove self.old name.now }
    {
        self.map.remove(name)
    }

    /// Returns the number of streams.
    pub fn len(&self) -> usize
        ensures { result ≡ finite.len self.now }
    {
        self.map.len()
    }

    /// Returns whether there are no streams.
    pub fn is_empty(&self) -> bool
        ensures { result ≡ (finite.len self.now == 0) }
    {
        self.len() == 0
    }

    /// Returns the streams in the container's order of names.
    pub fn iter(&self) -> btree_map::Iter<'_, Name, Bytes>
        ensures rest { result ≡ finite.entries self.now }
        ensures len { length result ≡ finite.len self.now }
        ensures bound { length result < 2 ^ 63 }
    {
        self.map.iter()
    }
}

/// The contents of a compound file: the root's CLSID, its streams, and whether storages lie below the root.
#[derive(Drop)]
pub struct Contents {
    /// The CLSID of the root, as it is stored: the first three of its fields with the lowest byte in front.
    pub clsid: [u8; 16],
    /// The streams of the root.
    pub streams: StreamMap,
    /// Whether storages lie below the root. They aren't entered.
    pub has_storages: bool,
}
