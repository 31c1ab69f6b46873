//! The places of a pool: what only reads a pool keeps its texts as they were read, and indexes are made at the first
//! change.

ghost use Rattle.std.specs.Prelude.{◌≡◌, ◌+◌, ◌≤◌, ◌<◌, ◌↔◌, ℕ, Some, is_some, IfOk, IfErr, OnOk, OnErr, true, false};
ghost use Rattle.std.specs.Prelude.{string_bytes, if◌then◌else◌, length, slice_get, IsTrue, []};
ghost use Rattle.std.specs.List.{list_any};
ghost use Rattle.msi_pool_places.specs.Pool.{PlacesWritten, without_unnamed_texts};
ghost use Rattle.msi_pool_places.specs.FirstFit.{taken, given_back, is_fit};
ghost use Rattle.msi_pool_places.specs.Indexing.{HasTrueIndexes, IsIndexed, IsKept, places_of};
ghost use Rattle.msi_pool_places.specs.Recounting.{many_recounted, with_counts};
ghost use Rattle.msi_base.specs.Results.{OnlyMemory};
ghost use Rattle.msi_base.specs.declared.errors.ErrorKind.TheVariants.{InvalidData, InvalidInput, OutOfMemory};

use crate::indexed::{IndexedPlaces, most_places};
use crate::joined::JoinedTexts;
use crate::operations::Operations;
use crate::places::{MAX_CELLS, PlaceRef, Places};
use crate::reasons;
use msi_base::errors::{Error, ErrorKind};
use std::alloc::Global;

/// The places of a pool.
#[derive(Drop)]
pub enum KeptPlaces {
    /// As they were read: no text was taken, and no place given back.
    Read(JoinedTexts),
    /// Without indexes, since their counts were set after such a change.
    Recounted(Places),
    /// With their indexes.
    Indexed(IndexedPlaces),
}

impl KeptPlaces {
    /// How many places there are.
    pub fn len(&self) -> usize
        ensures { result ≡ length (places_of self.now) }
    {
        match self {
            KeptPlaces::Read(texts) => texts.len(),
            KeptPlaces::Recounted(places) => places.len(),
            KeptPlaces::Indexed(all) => all.places().len(),
        }
    }

    /// A place, counted from 0.
    pub fn place(&self, at: usize) -> PlaceRef<'_>
        requires indexed { HasTrueIndexes self.now }
        requires place { at < length (places_of self.now) }
        ensures { slice_get (places_of self.now) at ≡ Some result }
    {
        match self {
            KeptPlaces::Read(texts) => texts.place(at),
            KeptPlaces::Recounted(places) => places.place(at),
            KeptPlaces::Indexed(all) => all.places().place(at),
        }
    }

    /// The allocator that the places keep.
    pub fn allocator(&self) -> Global {
        match self {
            KeptPlaces::Read(texts) => texts.allocator(),
            KeptPlaces::Recounted(places) => places.allocator(),
            KeptPlaces::Indexed(all) => all.places().allocator(),
        }
    }

    /// The same places, and indexes where there are some. The only error is `OutOfMemory`.
    pub fn clone(&self) -> Result<KeptPlaces, Error>
        requires { HasTrueIndexes self.now }
        ensures ok { IfOk result (λ kept. places_of kept ≡ places_of self.now) }
        ensures indexed { IfOk result (λ kept. HasTrueIndexes kept) }
        ensures kind { OnlyMemory result }
    {
        Ok(match self {
            KeptPlaces::Read(texts) => KeptPlaces::Read(texts.clone()?),
            KeptPlaces::Recounted(places) => KeptPlaces::Recounted(places.clone()?),
            KeptPlaces::Indexed(all) => KeptPlaces::Indexed(all.clone()?),
        })
    }

    /// Makes the indexes, in one pass over the places, where there are none yet. The only error is `OutOfMemory`.
    pub fn into_indexed(self) -> Result<IndexedPlaces, Error>
        requires { IsKept self }
        ensures ok { IfOk result (λ all. all.places ≡ places_of self) }
        ensures indexed { IfOk result (λ all. IsIndexed all) }
        ensures kind { OnlyMemory result }
    {
        match self {
            KeptPlaces::Read(texts) => IndexedPlaces::of(texts.to_places()?),
            KeptPlaces::Recounted(places) => IndexedPlaces::of(places),
            KeptPlaces::Indexed(all) => Ok(all),
        }
    }

    fn to_places(&self) -> Result<Places, Error>
        requires { HasTrueIndexes self.now }
        ensures ok { IfOk result (λ places. places ≡ places_of self.now) }
        ensures kind { OnlyMemory result }
    {
        match self {
            KeptPlaces::Read(texts) => texts.to_places(),
            KeptPlaces::Recounted(places) => places.clone(),
            KeptPlaces::Indexed(all) => all.places().clone(),
        }
    }

    /// Empties the texts of free places that aren't named.
    pub fn forget_texts(&mut self, is_named: &[bool])
        requires indexed { HasTrueIndexes self.old }
        requires named { length is_named.now ≡ length (places_of self.old) }
        ensures places { places_of self.new ≡ without_unnamed_texts is_named.now (places_of self.old) }
        ensures indexed { HasTrueIndexes self.new }
    {
        match self {
            KeptPlaces::Read(texts) => texts.forget_texts(is_named),
            KeptPlaces::Recounted(places) => places.forget_texts(is_named),
            KeptPlaces::Indexed(all) => all.forget_texts(is_named),
        }
    }

    /// Sets the count of each place, and returns how many got another one. A place without cells loses its text. The
    /// indexes are made again at the next change.
    pub fn set_counts(&mut self, counts: &[u16]) -> u32
        requires indexed { HasTrueIndexes self.old }
        requires many { length counts.now ≡ length (places_of self.old) }
        requires most { length (places_of self.old) ≤ 16777215 }
        ensures places { places_of self.new ≡ with_counts counts.now (places_of self.old) }
        ensures changed { result ≡ many_recounted counts.now (places_of self.old) }
        ensures indexed { HasTrueIndexes self.new }
    {
        match self {
            KeptPlaces::Read(texts) => texts.set_counts(counts),
            KeptPlaces::Recounted(places) => places.set_counts(counts),
            KeptPlaces::Indexed(all) => {
                let mut places = all.take_places();
                let changed = places.set_counts(counts);
                *self = KeptPlaces::Recounted(places);
                changed
            }
        }
    }

    /// Stores a text and returns its place, counted from 0, as `IndexedPlaces::take` does. Without indexes it makes
    /// them first, if there is room for the text.
    pub fn take(&mut self, text: String, long: bool) -> Result<u32, Error>
        requires { IsKept self.old }
        ensures ok { IfOk result (λ at.
            taken long (places_of self.old) (string_bytes text) ≡ Some (at + 1, places_of self.new)) }
        ensures kind { let room = is_some (taken long (places_of self.old) (string_bytes text)) in
            IfErr result (λ kind. kind ≡ (if room then OutOfMemory else InvalidInput)) }
        ensures err { OnErr result (places_of self.new ≡ places_of self.old) }
        ensures indexed { HasTrueIndexes self.new }
    {
        if let KeptPlaces::Indexed(all) = self {
            return all.take(text, long, &mut Operations::new());
        }
        if !self.has_room(long, text.as_str()) {
            return Err(Error::new(ErrorKind::InvalidInput, reasons::POOL_FULL));
        }
        let mut all = IndexedPlaces::of(self.to_places()?)?;
        let taken = all.take(text, long, &mut Operations::new());
        *self = KeptPlaces::Indexed(all);
        taken
    }

    /// Gives back the place of a number from 1 on, as `IndexedPlaces::give_back` does. Without indexes it makes them
    /// first, if the place is in use.
    pub fn give_back(&mut self, number: u32) -> Result<(), Error>
        requires kept { IsKept self.old }
        requires number { 1 ≤ number }
        ensures ok { OnOk result (given_back (places_of self.old) number ≡ Some (places_of self.new)) }
        ensures kind { let used = is_some (given_back (places_of self.old) number) in
            IfErr result (λ kind. kind ≡ (if used then OutOfMemory else InvalidData)) }
        ensures err { OnErr result (places_of self.new ≡ places_of self.old) }
        ensures indexed { HasTrueIndexes self.new }
    {
        if let KeptPlaces::Indexed(all) = self {
            return all.give_back(number, &mut Operations::new());
        }
        self.check_used(number)?;
        let mut all = IndexedPlaces::of(self.to_places()?)?;
        let given = all.give_back(number, &mut Operations::new());
        *self = KeptPlaces::Indexed(all);
        given
    }

    /// Whether there is a place for a text: one may be added, or one fits. It makes no index, so it takes no memory.
    fn has_room(&self, long: bool, text: &str) -> bool
        requires { HasTrueIndexes self.now }
        ensures { result ≡ is_some (taken long (places_of self.now) text.now) }
    {
        self.len() < most_places(long) || self.has_fit(text)
    }

    fn has_fit(&self, text: &str) -> bool
        requires { HasTrueIndexes self.now }
        ensures { result ≡ list_any (is_fit text.now) (places_of self.now) }
    {
        for at in 0..self.len() {
            if fits(&self.place(at), text) {
                return true;
            }
        }
        false
    }

    /// Fails with `InvalidData` past the end and for a free place.
    fn check_used(&self, number: u32) -> Result<(), Error>
        requires indexed { HasTrueIndexes self.now }
        requires number { 1 ≤ number }
        ensures ok { OnOk result (is_some (given_back (places_of self.now) number) ≡ true) }
        ensures err { OnErr result (is_some (given_back (places_of self.now) number) ≡ false) }
        ensures kind { IfErr result (λ kind. kind ≡ InvalidData) }
    {
        let at = number as usize - 1;
        if at >= self.len() {
            return Err(Error::new(ErrorKind::InvalidData, reasons::PLACE_UNKNOWN));
        }
        if self.place(at).count() == 0 {
            return Err(Error::new(ErrorKind::InvalidData, reasons::PLACE_FREE));
        }
        Ok(())
    }

    /// Whether each free place has the empty text.
    pub fn are_written(&self) -> bool
        requires { HasTrueIndexes self.now }
        ensures { IsTrue result ↔ PlacesWritten (places_of self.now) }
    {
        let mut all = true;
        for at in 0..self.len() {
            all &= is_written(&self.place(at));
        }
        all
    }
}

/// Whether a place is free, or has the text and fewer than 65535 cells.
fn fits(place: &PlaceRef, text: &str) -> bool
    ensures { result ≡ is_fit text.now place.now }
{
    place.count() == 0 || (place.text() == text && place.count() < MAX_CELLS)
}

/// Whether a place is in use or has the empty text.
fn is_written(place: &PlaceRef) -> bool
    ensures { IsTrue result ↔ (place.now.count ≡ 0 → place.now.text ≡ []) }
{
    place.count() > 0 || place.text().is_empty()
}
