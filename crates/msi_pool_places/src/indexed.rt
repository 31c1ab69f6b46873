//! The places with their indexes: taking a text and giving a place back.

ghost use Rattle.std.specs.Prelude.{◌≡◌, ◌≢◌, ℕ, ◌+◌, ◌-◌, ◌<◌, ◌≤◌, ◌^◌, List, [], true, false, length, set};
ghost use Rattle.std.specs.Prelude.{slice_get, Some, None, is_some, IfOk, IfErr, OnOk, OnErr, if◌then◌else◌};
ghost use Rattle.std.specs.Prelude.{string_bytes, nat_lt, not, ◌==◌, ◌&&◌, ◌||◌};
ghost use Rattle.msi_pool_places.specs.Pool.{without_unnamed_texts};
ghost use Rattle.msi_pool_places.specs.FirstFit.{taken, given_back, with_text_at, count_of, lowered};
ghost use Rattle.msi_pool_places.specs.FirstFit.{most_places as most_of};
ghost use Rattle.msi_base.specs.Results.{OnlyMemory};
ghost use Rattle.msi_base.specs.declared.errors.ErrorKind.TheVariants.{InvalidData, InvalidInput, OutOfMemory};
ghost use Rattle.msi_pool_places.specs.PoolIndexes.{AreFree, is_among, has_room_for, is_free, lesser as lesser_of};
ghost use Rattle.msi_pool_places.specs.TextIndexes.{AreOpen, is_entered, is_same};
ghost use Rattle.msi_pool_places.specs.Indexing.{IsIndexed};

use crate::places::{MAX_CELLS, MAX_PLACES, MAX_SHORT_PLACES, Place, Places};
use crate::shared::SharedText;
use crate::texts::{Entry, TextIndex};
use crate::{FreePlaces, Operations, reasons};
use msi_base::errors::{Error, ErrorKind};
use std::alloc::Global;
use std::mem;

/// The places, an index of the free ones, and an index from each text to its places that can be named once more.
#[derive(Drop)]
pub struct IndexedPlaces {
    many: usize,
    places: Places,
    free: FreePlaces,
    texts: TextIndex,
}

impl IndexedPlaces {
    /// Makes the indexes, in one pass over the places, whose operations aren't counted.
    pub(crate) fn of(places: Places) -> Result<IndexedPlaces, Error>
        requires { length places ≤ 16777215 }
        ensures ok { IfOk result (λ all. all.places ≡ places) }
        ensures indexed { IfOk result (λ all. IsIndexed all) }
        ensures kind { OnlyMemory result }
    {
        let (free, texts) = indexes_of(places.allocator(), places.as_slice())?;
        Ok(IndexedPlaces {
            many: places.len(),
            places,
            free,
            texts,
        })
    }

    /// Returns the same places and indexes.
    pub(crate) fn clone(&self) -> Result<IndexedPlaces, Error>
        requires { IsIndexed self.now }
        ensures ok { IfOk result (λ all. all.places ≡ self.now.places) }
        ensures indexed { IfOk result (λ all. IsIndexed all) }
        ensures kind { OnlyMemory result }
    {
        Ok(IndexedPlaces {
            many: self.many,
            places: self.places.clone()?,
            free: self.free.clone()?,
            texts: self.texts.clone()?,
        })
    }

    pub(crate) fn places(&self) -> &Places
        ensures { result.now ≡ self.now.places }
    {
        &self.places
    }

    pub(crate) fn take_places(&mut self) -> Places
        ensures { result ≡ self.old.places }
    {
        let alloc = self.places.allocator();
        mem::replace(&mut self.places, Places::from_vec(Vec::new(alloc)))
    }

    /// Empties the texts of free places that aren't named.
    pub(crate) fn forget_texts(&mut self, is_named: &[bool])
        requires indexed { IsIndexed self.old }
        requires named { length is_named.now ≡ length self.old.places }
        ensures places { self.new.places ≡ without_unnamed_texts is_named.now self.old.places }
        ensures indexed { IsIndexed self.new }
    {
        self.places.forget_texts(is_named);
    }

    /// Stores a text and returns its place, counted from 0: the first that is free or has the text and fewer than 65535
    /// cells, or else a new one. The operations are counted from 0 on, also if it fails: at most 8. Fails with
    /// `InvalidInput` where there is room for no more. If it fails, the places and the indexes are as they were.
    pub fn take(
        &mut self,
        text: String,
        long: bool,
        operations: &mut Operations,
    ) -> Result<u32, Error>
        requires indexed { IsIndexed self.old }
        requires most { length self.old.places ≤ 16777215 }
        ensures ok { IfOk result (λ at.
            taken long self.old.places (string_bytes text) ≡ Some (at + 1, self.new.places)) }
        ensures kind { let room = is_some (taken long self.old.places (string_bytes text)) in
            IfErr result (λ kind. kind ≡ (if room then OutOfMemory else InvalidInput)) }
        ensures err { OnErr result (self.new.places ≡ self.old.places) }
        ensures indexed { IsIndexed self.new }
        ensures most { operations.new ≤ 8 }
        ensures least { OnOk result (1 ≤ operations.new) }
    {
        *operations = Operations::new();
        let start = Entry::new(SharedText::from_string(text), 0);
        let free = self.free.least(operations);
        let held = self.texts.least(&start, operations);
        let text = start.into_text();
        match lesser(free, held) {
            None => self.append(text, long, operations),
            Some(at) => {
                if held == Some(at) {
                    self.raise(at, text, operations)
                } else {
                    self.fill(at, text, operations)
                }
            }
        }
    }

    /// Counts one cell more for a place that has the text, and returns that place.
    fn raise(
        &mut self,
        at: u32,
        text: SharedText,
        operations: &mut Operations,
    ) -> Result<u32, Error>
        requires indexed { IsIndexed self.old }
        requires room { has_room_for text (slice_get self.old.places at) ≡ true }
        requires operations { operations.old ≤ 2 }
        ensures at { IfOk result (λ i. i ≡ at) }
        ensures ok { OnOk result (self.new.places ≡ with_text_at self.old.places at text) }
        ensures err { OnErr result (self.new.places ≡ self.old.places) }
        ensures indexed { IsIndexed self.new }
        ensures kind { OnlyMemory result }
        ensures most { operations.new ≤ operations.old + 3 }
        ensures least { operations.old ≤ operations.new }
    {
        let place = self.places.get(at as usize, operations);
        let raised = Place::new(place.shared_text()?, place.count() + 1);
        let entry = Entry::new(text, at);
        close(&mut self.texts, &entry, raised.count(), operations);
        self.places.set(at as usize, raised, operations);
        Ok(at)
    }

    fn fill(&mut self, at: u32, text: SharedText, operations: &mut Operations) -> Result<u32, Error>
        requires indexed { IsIndexed self.old }
        requires free { is_free (slice_get self.old.places at) ≡ true }
        requires operations { operations.old ≤ 2 }
        ensures at { IfOk result (λ i. i ≡ at) }
        ensures ok { OnOk result (self.new.places ≡ with_text_at self.old.places at text) }
        ensures err { OnErr result (self.new.places ≡ self.old.places) }
        ensures indexed { IsIndexed self.new }
        ensures kind { OnlyMemory result }
        ensures most { operations.new ≤ operations.old + 3 }
        ensures least { operations.old ≤ operations.new }
    {
        let place = Place::new(text.into_shared()?, 1);
        insert_text(&mut self.texts, at, &place, operations)?;
        self.free.remove(at, operations);
        self.places.set(at as usize, place, operations);
        Ok(at)
    }

    fn append(
        &mut self,
        text: SharedText,
        long: bool,
        operations: &mut Operations,
    ) -> Result<u32, Error>
        requires indexed { IsIndexed self.old }
        requires most { length self.old.places ≤ 16777215 }
        requires operations { operations.old ≤ 2 }
        ensures room { OnOk result (length self.old.places < most_of long) }
        ensures at { IfOk result (λ at. at ≡ length self.old.places) }
        ensures ok { OnOk result (self.new.places ≡ with_text_at self.old.places (length self.old.places) text) }
        ensures err { OnErr result (self.new.places ≡ self.old.places) }
        ensures indexed { IsIndexed self.new }
        ensures kind { IfErr result (λ kind.
            kind ≡ (if nat_lt (length self.old.places) (most_of long) then OutOfMemory else InvalidInput)) }
        ensures most { operations.new ≤ operations.old + 3 }
        ensures least { operations.old ≤ operations.new }
    {
        if self.many >= most_places(long) {
            return Err(Error::new(ErrorKind::InvalidInput, reasons::POOL_FULL));
        }
        let at = self.many as u32;
        let text = text.into_shared()?;
        let place = Place::new(text.clone()?, 1);
        insert_text(&mut self.texts, at, &place, operations)?;
        if let Err(error) = self.places.push(place, operations) {
            remove_text(&mut self.texts, at, text, operations);
            return Err(error);
        }
        self.many += 1;
        Ok(at)
    }

    /// Takes one cell from the place of a number from 1 on; its text goes with the last. The operations are counted
    /// from 0 on, also if it fails: at most 8. Fails with `InvalidData` past the end and for a free place. If it fails,
    /// the places and the indexes are as they were.
    pub fn give_back(&mut self, number: u32, operations: &mut Operations) -> Result<(), Error>
        requires indexed { IsIndexed self.old }
        requires most { length self.old.places ≤ 16777215 }
        requires number { 1 ≤ number }
        ensures ok { OnOk result (given_back self.old.places number ≡ Some self.new.places) }
        ensures kind { let used = is_some (given_back self.old.places number) in
            IfErr result (λ kind. kind ≡ (if used then OutOfMemory else InvalidData)) }
        ensures err { OnErr result (self.new.places ≡ self.old.places) }
        ensures indexed { IsIndexed self.new }
        ensures most { operations.new ≤ 8 }
        ensures least { OnOk result (1 ≤ operations.new) }
    {
        *operations = Operations::new();
        let at = number - 1;
        if at as usize >= self.many {
            return Err(Error::new(ErrorKind::InvalidData, reasons::PLACE_UNKNOWN));
        }
        let place = self.places.get(at as usize, operations);
        if place.count() == 0 {
            return Err(Error::new(ErrorKind::InvalidData, reasons::PLACE_FREE));
        }
        let text = place.shared_text()?;
        let left = place.count() - 1;
        if left == 0 {
            self.empty(at, text, operations)
        } else {
            self.lower(at, Place::new(text, left), operations)
        }
    }

    fn empty(&mut self, at: u32, text: SharedText, operations: &mut Operations) -> Result<(), Error>
        requires indexed { IsIndexed self.old }
        requires place { slice_get self.old.places at ≡ Some (record { text = text; count = 1 }) }
        requires operations { operations.old ≤ 2 }
        ensures ok { OnOk result (self.new.places ≡ set self.old.places at (record { text = []; count = 0 })) }
        ensures err { OnErr result (self.new.places ≡ self.old.places) }
        ensures indexed { IsIndexed self.new }
        ensures kind { OnlyMemory result }
        ensures most { operations.new ≤ operations.old + 3 }
        ensures least { operations.old ≤ operations.new }
    {
        let alloc = self.places.allocator();
        self.free.insert(at, operations)?;
        remove_text(&mut self.texts, at, text, operations);
        let place = Place::new(SharedText::empty(alloc), 0);
        self.places.set(at as usize, place, operations);
        Ok(())
    }

    /// Replaces a place that is still in use and had one cell more.
    fn lower(&mut self, at: u32, place: Place, operations: &mut Operations) -> Result<(), Error>
        requires indexed { IsIndexed self.old }
        requires place { slice_get self.old.places at ≡ Some (record { text = place.text; count = place.count + 1 }) }
        requires used { 0 < place.count }
        requires fits { place.count < 65535 }
        requires operations { operations.old ≤ 2 }
        ensures ok { OnOk result (self.new.places ≡ set self.old.places at place) }
        ensures err { OnErr result (self.new.places ≡ self.old.places) }
        ensures indexed { IsIndexed self.new }
        ensures kind { OnlyMemory result }
        ensures most { operations.new ≤ operations.old + 3 }
        ensures least { operations.old ≤ operations.new }
    {
        reopen(&mut self.texts, at, &place, operations)?;
        self.places.set(at as usize, place, operations);
        Ok(())
    }
}

/// Up to how many places one is added, where references are long, else where they are short.
pub fn most_places(long: bool) -> usize
    ensures { result ≡ most_of long }
{
    if long { MAX_PLACES } else { MAX_SHORT_PLACES }
}

fn lesser(a: Option<u32>, b: Option<u32>) -> Option<u32>
    ensures { result ≡ lesser_of a b }
{
    match a {
        None => b,
        Some(i) => match b {
            Some(j) if j < i => Some(j),
            _ => Some(i),
        },
    }
}

/// Takes a place out of the index of texts where its count has come to the most.
fn close(texts: &mut TextIndex, entry: &Entry, count: u16, operations: &mut Operations)
    requires { operations.old + 1 < 2 ^ 32 }
    ensures removed { (text : List ℕ) (i : ℕ) → is_entered texts.new text i
        ≡ (not ((count == 65535) && is_same text i entry.now.text entry.now.at) && is_entered texts.old text i) }
    ensures most { operations.new ≤ operations.old + 1 }
    ensures least { operations.old ≤ operations.new }
{
    if count == MAX_CELLS {
        texts.remove(entry, operations);
    }
}

/// Enters a place in the index of texts where its count was the most and is one less now.
fn reopen(
    texts: &mut TextIndex,
    at: u32,
    place: &Place,
    operations: &mut Operations,
) -> Result<(), Error>
    requires { operations.old + 1 < 2 ^ 32 }
    ensures ok { OnOk result ((text : List ℕ) (i : ℕ) → is_entered texts.new text i
        ≡ (((place.now.count == 65534) && is_same text i place.now.text at) || is_entered texts.old text i)) }
    ensures err { OnErr result (texts.new ≡ texts.old) }
    ensures kind { OnlyMemory result }
    ensures most { operations.new ≤ operations.old + 1 }
    ensures least { operations.old ≤ operations.new }
{
    if place.count() == MAX_CELLS - 1 {
        return insert_text(texts, at, place, operations);
    }
    Ok(())
}

fn insert_text(
    texts: &mut TextIndex,
    at: u32,
    place: &Place,
    operations: &mut Operations,
) -> Result<(), Error>
    requires { operations.old + 1 < 2 ^ 32 }
    ensures ok { OnOk result ((text : List ℕ) (i : ℕ) → is_entered texts.new text i
        ≡ (is_same text i place.now.text at || is_entered texts.old text i)) }
    ensures err { OnErr result (texts.new ≡ texts.old) }
    ensures kind { OnlyMemory result }
    ensures most { operations.new ≤ operations.old + 1 }
    ensures least { operations.old ≤ operations.new }
{
    texts.insert(Entry::new(place.shared_text()?, at), operations)
}

fn remove_text(texts: &mut TextIndex, at: u32, text: SharedText, operations: &mut Operations)
    requires { operations.old + 1 < 2 ^ 32 }
    ensures removed { (other : List ℕ) (i : ℕ) → is_entered texts.new other i
        ≡ (not (is_same other i text at) && is_entered texts.old other i) }
    ensures operation { operations.new ≡ operations.old + 1 }
{
    texts.remove(&Entry::new(text, at), operations);
}

fn indexes_of(alloc: Global, places: &[Place]) -> Result<(FreePlaces, TextIndex), Error>
    requires { length places.now ≤ 16777215 }
    ensures free { IfOk result (λ indexes. AreFree indexes.0 places.now) }
    ensures texts { IfOk result (λ indexes. AreOpen indexes.1 places.now) }
    ensures kind { OnlyMemory result }
{
    let mut operations = Operations::new();
    let mut free = FreePlaces::new(alloc);
    let mut texts = TextIndex::new(alloc);
    for (at, place) in places.iter().enumerate() {
        enter(&mut free, &mut texts, at as u32, place, &mut operations)?;
    }
    Ok((free, texts))
}

fn enter(
    free: &mut FreePlaces,
    texts: &mut TextIndex,
    at: u32,
    place: &Place,
    operations: &mut Operations,
) -> Result<(), Error>
    requires { operations.old + 1 < 2 ^ 32 }
    ensures free { OnOk result ((i : ℕ) → is_among free.new i
        ≡ (((i == at) && is_free (Some place.now)) || is_among free.old i)) }
    ensures texts { OnOk result ((text : List ℕ) (i : ℕ) → is_entered texts.new text i
        ≡ (((i == at) && has_room_for text (Some place.now)) || is_entered texts.old text i)) }
    ensures kind { OnlyMemory result }
    ensures most { operations.new ≤ operations.old + 1 }
{
    if place.count() == 0 {
        return free.insert(at, operations);
    }
    if place.count() < MAX_CELLS {
        return insert_text(texts, at, place, operations);
    }
    Ok(())
}
