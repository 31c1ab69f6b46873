//! The string pool with its indexes.

ghost use Rattle.std.specs.Prelude.{◌≡◌, ◌≤◌, IfOk, IfErr, OnOk, OnErr, Some, is_some, if◌then◌else◌, string_bytes};
ghost use Rattle.std.specs.Prelude.{length};
ghost use Rattle.msi_pool_places.specs.FirstFit.{taken, given_back};
ghost use Rattle.msi_pool_places.specs.Indexing.{IsIndexed};
ghost use Rattle.msi_pool_places.specs.Pool.{CountsFit};
ghost use Rattle.msi_base.specs.declared.errors.ErrorKind.TheVariants.{InvalidData, InvalidInput, OutOfMemory};

use crate::stringpool::pool::StringPool;
use crate::stringpool::reference::StringRef;
use msi_base::codepage::CodePage;
use msi_base::errors::Error;
use msi_pool_places::{IndexedPlaces, Operations};
use std::marker::Model;

/// A string pool with an index of its free places and one of its texts, so that a text is stored and given back in at
/// most eight operations. Contracts see the pool.
pub struct IndexedPool {
    codepage: CodePage,
    long: bool,
    places: IndexedPlaces,
}

/// Written out, so that a function that owns one calls one drop, and its proof doesn't go through those of the parts.
impl Drop for IndexedPool {
    fn drop(self) {
        let IndexedPool {
            codepage: _,
            long: _,
            places: _,
        } = self;
    }
}

impl Model for IndexedPool {
    ghost use Rattle.std.specs.Prelude.{◌≤◌, length};
    ghost use Rattle.msi_pool_places.specs.Indexing.{IsIndexed};
    ghost use Rattle.msi_pool_places.specs.Pool.{CountsFit, Pool};

    ghost Value = { Pool };

    ghost view = { λ p. record { page = p.codepage; long = p.long; places = p.places.places } };

    ghost invariant = { λ p. IsIndexed p.places × (length p.places.places ≤ 16777215) × CountsFit p.places.places };
}

impl IndexedPool {
    pub(crate) fn from_places(codepage: CodePage, long: bool, places: IndexedPlaces) -> IndexedPool
        requires indexed { IsIndexed places }
        requires most { length places.places ≤ 16777215 }
        requires counts { CountsFit places.places }
        ensures { result ≡ record { page = codepage; long = long; places = places.places } }
    {
        IndexedPool {
            codepage,
            long,
            places,
        }
    }

    /// Returns the pool, which keeps the indexes.
    pub fn into_pool(self) -> StringPool
        ensures { result ≡ self }
    {
        let IndexedPool {
            codepage,
            long,
            places,
        } = self;
        StringPool::from_indexed(codepage, long, places)
    }

    /// Stores a text and returns its place, as `StringPool::incref` does. Counts its operations from 0 on, also if it
    /// fails: reads, writes and pushes of places, and look-ups, insertions and removals in an index.
    ///
    /// # Errors
    /// Fails with `InvalidInput` if the pool is full, and otherwise with `OutOfMemory`. Then the pool is as it was, and
    /// the text is dropped.
    pub fn incref(&mut self, text: String, operations: &mut Operations) -> Result<StringRef, Error>
        ensures ok { IfOk result (λ number.
            taken self.old.long self.old.places (string_bytes text) ≡ Some (number, self.new.places)) }
        ensures kind { let room = is_some (taken self.old.long self.old.places (string_bytes text)) in
            IfErr result (λ kind. kind ≡ (if room then OutOfMemory else InvalidInput)) }
        ensures err { OnErr result (self.new ≡ self.old) }
        ensures page { self.new.page ≡ self.old.page }
        ensures long { self.new.long ≡ self.old.long }
        ensures most { operations.new ≤ 8 }
        ensures least { OnOk result (1 ≤ operations.new) }
    {
        let at = self.places.take(text, self.long, operations)?;
        Ok(StringRef::from_number(at + 1))
    }

    /// Gives a place back, as `StringPool::decref` does. Counts its operations as `incref` does.
    ///
    /// # Errors
    /// Fails with `InvalidData` past the end and for a free place, and otherwise with `OutOfMemory`. Then the pool is
    /// as it was.
    pub fn decref(&mut self, reference: StringRef, operations: &mut Operations) -> Result<(), Error>
        ensures ok { OnOk result (given_back self.old.places reference ≡ Some self.new.places) }
        ensures kind { let used = is_some (given_back self.old.places reference) in
            IfErr result (λ kind. kind ≡ (if used then OutOfMemory else InvalidData)) }
        ensures err { OnErr result (self.new ≡ self.old) }
        ensures page { self.new.page ≡ self.old.page }
        ensures long { self.new.long ≡ self.old.long }
        ensures most { operations.new ≤ 8 }
        ensures least { OnOk result (1 ≤ operations.new) }
    {
        self.places.give_back(reference.to_number(), operations)
    }
}
