//! The places of the pool.

ghost use Rattle.std.specs.Prelude.{◌≡◌, ◌+◌, ◌-◌, ◌<◌, ◌^◌, ◌∷◌, ◌++◌, [], IfOk, OnOk, OnErr, Some, length, set};
ghost use Rattle.std.specs.Prelude.{slice_get, vec_len, IsTrue, ◌↔◌, ◌≤◌, ◌==◌, not};
ghost use Rattle.msi_pool_places.specs.Pool.{forgotten, without_unnamed_texts};
ghost use Rattle.msi_base.specs.Results.{OnlyMemory};
ghost use Rattle.msi_pool_places.specs.Recounting.{many_recounted, with_count, with_counts};

use crate::Operations;
use crate::shared::SharedText;
use msi_base::errors::Error;
use std::alloc::{AllocError, Global};
use std::marker::Model;

/// How many places a pool may have: as many as long references can name.
pub const MAX_PLACES: usize = 16_777_215;

/// How many places short references can name; a pool with short references grows to no more.
pub const MAX_SHORT_PLACES: usize = 65_535;

/// How many cells may refer to a place: the count of a text in a file has 16 bits.
pub const MAX_CELLS: u16 = 65_535;

/// A text of the pool with the number of cells that name it.
#[derive(Drop)]
pub struct Place {
    text: SharedText,
    count: u16,
}

impl Model for Place {
    ghost use Rattle.msi_pool_places.specs.Pool as pools;

    ghost Value = { pools.Place };

    ghost view = { λ p. record { text = p.text; count = p.count } };
}

impl Place {
    pub(crate) fn new(text: SharedText, count: u16) -> Place
        ensures { result ≡ record { text = text; count = count } }
    {
        Place { text, count }
    }

    pub(crate) fn shared_text(&self) -> Result<SharedText, Error>
        ensures ok { IfOk result (λ text. text ≡ self.now.text) }
        ensures kind { OnlyMemory result }
    {
        Ok(self.text.clone()?)
    }

    pub(crate) fn count(&self) -> u16
        ensures { result ≡ self.now.count }
    {
        self.count
    }
}

/// The same place once more.
impl Clone for Place {
    ghost is_clone = { λ place copy. copy ≡ place };

    fn clone(&self) -> Result<Place, AllocError> {
        Ok(Place {
            text: self.text.clone()?,
            count: self.count,
        })
    }
}

/// A text of the pool with the number of cells that name it, borrowed where it lies.
#[derive(Drop)]
pub struct PlaceRef<'a> {
    text: &'a str,
    count: u16,
}

impl<'a> Model for PlaceRef<'a> {
    ghost use Rattle.msi_pool_places.specs.Pool as pools;

    ghost Value = { pools.Place };

    ghost view = { λ p. record { text = p.text.now; count = p.count } };
}

impl<'a> PlaceRef<'a> {
    pub(crate) fn new(text: &'a str, count: u16) -> PlaceRef<'a>
        ensures { result ≡ record { text = text.now; count = count } }
    {
        PlaceRef { text, count }
    }

    /// The text.
    pub fn text(&self) -> &'a str
        ensures { result.now ≡ self.now.text }
    {
        self.text
    }

    /// How many cells name the place.
    pub fn count(&self) -> u16
        ensures { result ≡ self.now.count }
    {
        self.count
    }
}

/// The places, from number 1 on. Contracts see their list.
#[derive(Drop)]
pub struct Places {
    items: Vec<Place>,
}

impl Model for Places {
    ghost use Rattle.std.specs.Prelude.{List};
    ghost use Rattle.msi_pool_places.specs.Pool as pools;

    ghost Value = { List pools.Place };

    ghost view = { λ p. p.items.items };
}

impl Places {
    pub(crate) fn from_vec(items: Vec<Place>) -> Places
        ensures { result ≡ items.items }
    {
        Places { items }
    }

    pub(crate) fn clone(&self) -> Result<Places, Error>
        ensures ok { IfOk result (λ places. places ≡ self.now) }
        ensures kind { OnlyMemory result }
    {
        Ok(Places {
            items: self.items.clone()?,
        })
    }

    pub(crate) fn as_slice(&self) -> &[Place]
        ensures { result.now ≡ self.now }
    {
        self.items.as_slice()
    }

    pub(crate) fn len(&self) -> usize
        ensures { result ≡ length self.now }
    {
        self.items.len()
    }

    /// Returns a place, counted from 0, which is no operation on the places.
    pub(crate) fn place(&self, at: usize) -> PlaceRef<'_>
        requires { at < length self.now }
        ensures { slice_get self.now at ≡ Some result }
    {
        let place = &self.items[at];
        PlaceRef::new(place.text.as_str(), place.count)
    }

    pub(crate) fn allocator(&self) -> Global {
        *self.items.allocator()
    }

    pub(crate) fn get(&self, at: usize, operations: &mut Operations) -> &Place
        requires place { at < length self.now }
        requires operations { operations.old + 1 < 2 ^ 32 }
        ensures place { slice_get self.now at ≡ Some result.now }
        ensures operation { operations.new ≡ operations.old + 1 }
    {
        operations.add_one();
        &self.items[at]
    }

    pub(crate) fn set(&mut self, at: usize, place: Place, operations: &mut Operations)
        requires place { at < length self.old }
        requires operations { operations.old + 1 < 2 ^ 32 }
        ensures places { self.new ≡ set self.old at place }
        ensures operation { operations.new ≡ operations.old + 1 }
    {
        operations.add_one();
        self.items[at] = place;
    }

    pub(crate) fn push(&mut self, place: Place, operations: &mut Operations) -> Result<(), Error>
        requires { operations.old + 1 < 2 ^ 32 }
        ensures ok { OnOk result (self.new ≡ self.old ++ place ∷ []) }
        ensures err { OnErr result (self.new ≡ self.old) }
        ensures kind { OnlyMemory result }
        ensures operation { operations.new ≡ operations.old + 1 }
    {
        operations.add_one();
        self.items.push(place)?;
        Ok(())
    }

    /// Sets the count of each place, and returns how many got another one. A place without cells loses its text.
    pub(crate) fn set_counts(&mut self, counts: &[u16]) -> u32
        requires many { length counts.now ≡ length self.old }
        requires most { length self.old ≤ 16777215 }
        ensures places { self.new ≡ with_counts counts.now self.old }
        ensures changed { result ≡ many_recounted counts.now self.old }
    {
        set_counts(&mut self.items, counts)
    }

    pub(crate) fn forget_texts(&mut self, is_named: &[bool])
        requires { length is_named.now ≡ length self.old }
        ensures { self.new ≡ without_unnamed_texts is_named.now self.old }
    {
        forget_texts(&mut self.items, is_named);
    }
}

fn set_count(place: &mut Place, count: u16, alloc: Global) -> bool
    ensures place { place.new ≡ with_count count place.old }
    ensures changed { result ≡ not (count == place.old.count) }
{
    let is_changed = count != place.count;
    if count == 0 {
        place.text = SharedText::empty(alloc);
    }
    place.count = count;
    is_changed
}

fn set_counts(places: &mut Vec<Place>, counts: &[u16]) -> u32
    requires many { length counts.now ≡ vec_len places.old }
    requires most { vec_len places.old ≤ 16777215 }
    ensures items { places.new.items ≡ with_counts counts.now places.old.items }
    ensures changed { result ≡ many_recounted counts.now places.old.items }
    ensures len { vec_len places.new ≡ vec_len places.old }
{
    let alloc = *places.allocator();
    let mut changed = 0;
    for (i, count) in counts.iter().enumerate() {
        if set_count(&mut places[i], *count, alloc) {
            changed += 1;
        }
    }
    changed
}

fn forget_text(place: &mut Place, named: bool, alloc: Global)
    ensures { place.new ≡ forgotten named place.old }
{
    if place.count == 0 && !named {
        place.text = SharedText::empty(alloc);
    }
}

fn forget_texts(places: &mut Vec<Place>, is_named: &[bool])
    requires { length is_named.now ≡ vec_len places.old }
    ensures items { places.new.items ≡ without_unnamed_texts is_named.now places.old.items }
    ensures len { vec_len places.new ≡ vec_len places.old }
{
    let alloc = *places.allocator();
    for (i, named) in is_named.iter().enumerate() {
        forget_text(&mut places[i], *named, alloc);
    }
}
