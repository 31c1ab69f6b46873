//! The string pool.

ghost use Rattle.std.specs.Prelude.{◌≡◌, IfOk, IfErr, OnOk, OnErr, Some, is_some, if◌then◌else◌, [], false, length};
ghost use Rattle.std.specs.Prelude.{true, IsTrue, ◌↔◌, ◌<◌, slice_get};
ghost use Rattle.std.specs.Prelude.{string_bytes, ◌≤◌};
ghost use Rattle.msi_pool_places.specs.Indexing.{IsIndexed};
ghost use Rattle.msi_pool_places.specs.JoinedTexts.{IsJoined, places_joined};
ghost use Rattle.msi_pool_places.specs.Pool.{CountsFit, PlacesWritten};
ghost use Rattle.msi_pool_places.specs.Pool.{without_unnamed_texts};
ghost use Rattle.msi_pool_places.specs.FirstFit.{taken, given_back, is_long_with};
ghost use Rattle.msi_pool_places.specs.FirstFitLaws.{Holds, place_at, text_at, count_at};
ghost use Rattle.msi_pool_places.specs.Recounting.{many_recounted, with_counts};
ghost use Rattle.msi_base.specs.Results.{OnlyMemory};
ghost use Rattle.msi_base.specs.declared.errors.ErrorKind.TheVariants.{InvalidData, InvalidInput, OutOfMemory};

use crate::stringpool::indexed::IndexedPool;
use crate::stringpool::reference::StringRef;
use msi_base::codepage::CodePage;
use msi_base::errors::Error;
use msi_pool_places::{IndexedPlaces, JoinedTexts, KeptPlaces, MAX_SHORT_PLACES, PlaceRef};
use std::alloc::Global;
use std::marker::Model;

/// The bit above the page's id that says that references are long.
pub(crate) const LONG: u32 = 1 << 31;

/// The string pool: texts by number. As it was read it has no indexes; its first `incref` or `decref` makes them, as
/// `into_indexed` does. Contracts see its page, whether references are long, and its places.
pub struct StringPool {
    codepage: CodePage,
    long: bool,
    kept: KeptPlaces,
}

/// Written out, so that a function that owns one calls one drop, and its proof doesn't go through those of the parts.
impl Drop for StringPool {
    fn drop(self) {
        let StringPool {
            codepage: _,
            long: _,
            kept: _,
        } = self;
    }
}

impl Model for StringPool {
    ghost use Rattle.msi_pool_places.specs.Pool.{Pool};
    ghost use Rattle.msi_pool_places.specs.Indexing.{IsKept, places_of};

    ghost Value = { Pool };

    ghost view = { λ p. record { page = p.codepage; long = p.long; places = places_of p.kept } };

    ghost invariant = { λ p. IsKept p.kept };
}

impl StringPool {
    /// Returns an empty pool of a page, with short references.
    pub fn new(alloc: Global, page: CodePage) -> StringPool
        ensures { result ≡ record { page = page; long = false; places = [] } }
    {
        StringPool {
            codepage: page,
            long: false,
            kept: KeptPlaces::Read(JoinedTexts::new(alloc)),
        }
    }

    pub(crate) fn from_parts(codepage: CodePage, long: bool, texts: JoinedTexts) -> StringPool
        requires joined { IsJoined texts }
        requires most { length (places_joined texts) ≤ 16777215 }
        ensures { result ≡ record { page = codepage; long = long; places = places_joined texts } }
    {
        StringPool {
            codepage,
            long,
            kept: KeptPlaces::Read(texts),
        }
    }

    /// Returns the code page of the texts.
    pub fn codepage(&self) -> CodePage
        ensures { result ≡ self.now.page }
    {
        self.codepage
    }

    /// Sets the page.
    pub fn set_codepage(&mut self, page: CodePage)
        ensures { self.new ≡ record self.old { page = page } }
    {
        self.codepage = page;
    }

    /// Returns whether references have three bytes; otherwise they have two.
    pub fn long_string_refs(&self) -> bool
        ensures { result ≡ self.now.long }
    {
        self.long
    }

    /// Gives references three bytes, so that the pool may have up to 16777215 places. It takes no memory, and changes
    /// no place. References that were written with two bytes have to be written anew.
    pub fn widen(&mut self)
        ensures { self.new ≡ record self.old { long = true } }
    {
        self.long = true;
    }

    /// Returns the number of places, free ones included: at most 16777215. At most 65535 cells refer to each.
    pub fn num_strings(&self) -> u32
        ensures many { result ≡ length self.now.places }
        ensures most { result ≤ 16777215 }
        ensures counts { CountsFit self.now.places }
    {
        self.kept.len() as u32
    }

    /// Returns the place at an index, counted from 0.
    pub(crate) fn place(&self, at: u32) -> PlaceRef<'_>
        requires { at < length self.now.places }
        ensures { slice_get self.now.places at ≡ Some result }
    {
        self.kept.place(at as usize)
    }

    fn place_of(&self, reference: StringRef) -> Option<PlaceRef<'_>>
        ensures { result ≡ place_at self.now.places reference }
    {
        let at = reference.to_number() - 1;
        if at < self.num_strings() {
            Some(self.place(at))
        } else {
            None
        }
    }

    /// Returns the text of a place, which is empty past the end.
    pub fn get(&self, reference: StringRef) -> &str
        ensures { result.now ≡ text_at self.now.places reference }
    {
        match self.place_of(reference) {
            Some(place) => place.text(),
            None => "",
        }
    }

    /// Returns how many cells refer to a place: 0 past the end.
    pub fn refcount(&self, reference: StringRef) -> u16
        ensures { result ≡ count_at self.now.places reference }
    {
        match self.place_of(reference) {
            Some(place) => place.count(),
            None => 0,
        }
    }

    /// Returns a copy of the pool.
    ///
    /// # Errors
    /// Fails with `OutOfMemory`.
    pub fn clone(&self) -> Result<StringPool, Error>
        ensures ok { IfOk result (λ pool. pool ≡ self.now) }
        ensures kind { OnlyMemory result }
    {
        Ok(StringPool {
            codepage: self.codepage,
            long: self.long,
            kept: self.kept.clone()?,
        })
    }

    /// Returns the pool with its indexes. Where it has none yet, they are made in one pass over its places.
    ///
    /// # Errors
    /// Fails with `OutOfMemory`.
    pub fn into_indexed(self) -> Result<IndexedPool, Error>
        ensures ok { IfOk result (λ pool. pool ≡ self) }
        ensures kind { OnlyMemory result }
    {
        let StringPool {
            codepage,
            long,
            kept,
        } = self;
        Ok(IndexedPool::from_places(codepage, long, kept.into_indexed()?))
    }

    pub(crate) fn from_indexed(codepage: CodePage, long: bool, places: IndexedPlaces) -> StringPool
        requires indexed { IsIndexed places }
        requires most { length places.places ≤ 16777215 }
        requires counts { CountsFit places.places }
        ensures { result ≡ record { page = codepage; long = long; places = places.places } }
    {
        StringPool {
            codepage,
            long,
            kept: KeptPlaces::Indexed(places),
        }
    }

    pub(crate) fn free_places_are_empty(&self) -> bool
        ensures exact { IsTrue result ↔ PlacesWritten self.now.places }
        ensures many { length self.now.places ≤ 16777215 }
        ensures counts { CountsFit self.now.places }
    {
        self.kept.are_written()
    }

    pub(crate) fn allocator(&self) -> Global {
        self.kept.allocator()
    }

    /// Stores a text and returns its place: the first that is free, or that has the text and fewer than 65535 cells,
    /// or else a new one.
    ///
    /// # Errors
    /// Fails with `InvalidInput` if the pool is full, and otherwise with `OutOfMemory`. Then the pool is as it was, and
    /// the text is dropped.
    pub fn incref(&mut self, text: String) -> Result<StringRef, Error>
        ensures ok { IfOk result (λ number.
            taken self.old.long self.old.places (string_bytes text) ≡ Some (number, self.new.places)) }
        ensures holds { IfOk result (λ number. Holds self.new.places number (string_bytes text)) }
        ensures kind { let room = is_some (taken self.old.long self.old.places (string_bytes text)) in
            IfErr result (λ kind. kind ≡ (if room then OutOfMemory else InvalidInput)) }
        ensures err { OnErr result (self.new ≡ self.old) }
        ensures page { self.new.page ≡ self.old.page }
        ensures long { self.new.long ≡ self.old.long }
    {
        let at = self.kept.take(text, self.long)?;
        Ok(StringRef::from_number(at + 1))
    }

    /// Stores a text as `incref` does, and widens the references if it needs a place past 65535. Fails with
    /// `InvalidInput` if the pool has 16777215 places and none is free or has the text. After a failure the pool is as
    /// it was, and the text is dropped.
    pub(crate) fn incref_widening(&mut self, text: String) -> Result<StringRef, Error>
        ensures ok { IfOk result (λ number.
            taken true self.old.places (string_bytes text) ≡ Some (number, self.new.places)) }
        ensures long { OnOk result (self.new.long ≡ is_long_with self.old.long self.new.places) }
        ensures kind { let room = is_some (taken true self.old.places (string_bytes text)) in
            IfErr result (λ kind. kind ≡ (if room then OutOfMemory else InvalidInput)) }
        ensures err { OnErr result (self.new ≡ self.old) }
        ensures page { self.new.page ≡ self.old.page }
    {
        let at = self.kept.take(text, true)?;
        if self.kept.len() > MAX_SHORT_PLACES {
            self.long = true;
        }
        Ok(StringRef::from_number(at + 1))
    }

    /// Gives a place back: one cell less refers to it. The text is dropped with the last.
    ///
    /// # Errors
    /// Fails with `InvalidData` past the end and for a free place, and otherwise with `OutOfMemory`. Then the pool is
    /// as it was.
    pub fn decref(&mut self, reference: StringRef) -> Result<(), Error>
        ensures ok { OnOk result (given_back self.old.places reference ≡ Some self.new.places) }
        ensures err { OnErr result (self.new ≡ self.old) }
        ensures kind { let used = is_some (given_back self.old.places reference) in
            IfErr result (λ kind. kind ≡ (if used then OutOfMemory else InvalidData)) }
        ensures page { self.new.page ≡ self.old.page }
        ensures long { self.new.long ≡ self.old.long }
        ensures many { length self.new.places ≡ length self.old.places }
    {
        self.kept.give_back(reference.to_number())
    }

    /// Sets the count of each place, from number 1 on, and returns how many places got another one. A place without
    /// cells becomes free, and its text empty. It takes no memory.
    pub(crate) fn set_counts(&mut self, counts: &[u16]) -> u32
        requires { length counts.now ≡ length self.old.places }
        ensures pool { self.new ≡ record self.old { places = with_counts counts.now self.old.places } }
        ensures changed { result ≡ many_recounted counts.now self.old.places }
    {
        self.kept.set_counts(counts)
    }

    /// Empties the text of each place that is free and isn't named; `is_named` begins with place number 1. It takes no
    /// memory.
    pub(crate) fn forget_texts(&mut self, is_named: &[bool])
        requires { length is_named.now ≡ length self.old.places }
        ensures { self.new ≡ record self.old { places = without_unnamed_texts is_named.now self.old.places } }
    {
        self.kept.forget_texts(is_named);
    }
}
