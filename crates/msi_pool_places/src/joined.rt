//! Texts of places as they were read, one behind the other: 8 bytes a place say where its text ends, and its count.

ghost use Rattle.std.specs.Prelude.{◌≡◌, ◌≤◌, ◌<◌, [], IfOk, Some, length};
ghost use Rattle.std.specs.Prelude.{slice_get};
ghost use Rattle.msi_base.specs.Results.{OnlyMemory};
ghost use Rattle.msi_pool_places.specs.JoinedTexts.{IsAllCut, IsJoined, IsPlaceAt, places_cut, places_joined};
ghost use Rattle.msi_pool_places.specs.Pool.{without_unnamed_texts};
ghost use Rattle.msi_pool_places.specs.Recounting.{many_recounted, with_counts};

use crate::Numbers;
use crate::count::Count;
use crate::piece::Piece;
use crate::places::{Place, PlaceRef, Places};
use crate::shared::SharedText;
use msi_base::errors::Error;
use msi_base::parts::TextBuffer;
use std::alloc::Global;
use std::rc::RcStr;

/// The texts of places, one behind the other, where each ends, and its count: two vectors, which need no padding.
#[derive(Drop)]
pub struct JoinedTexts {
    whole: TextBuffer,
    ends: Numbers,
    counts: Vec<Count>,
}

impl JoinedTexts {
    /// No text.
    pub fn new(alloc: Global) -> JoinedTexts
        ensures joined { IsJoined result }
        ensures places { places_joined result ≡ [] }
    {
        JoinedTexts {
            whole: TextBuffer::new(alloc),
            ends: Numbers::new(alloc),
            counts: Vec::new(alloc),
        }
    }

    pub(crate) fn from_parts(whole: TextBuffer, ends: Numbers, counts: Vec<Count>) -> JoinedTexts
        requires { IsAllCut whole ends counts.items }
        ensures joined { IsJoined result }
        ensures places { places_joined result ≡ places_cut whole 0 ends counts.items }
    {
        JoinedTexts {
            whole,
            ends,
            counts,
        }
    }

    pub(crate) fn clone(&self) -> Result<JoinedTexts, Error>
        requires { IsJoined self.now }
        ensures joined { IfOk result (λ texts. IsJoined texts) }
        ensures ok { IfOk result (λ texts. places_joined texts ≡ places_joined self.now) }
        ensures kind { OnlyMemory result }
    {
        Ok(JoinedTexts {
            whole: self.whole.clone()?,
            ends: self.ends.clone()?,
            counts: self.counts.clone()?,
        })
    }

    pub(crate) fn allocator(&self) -> Global {
        *self.counts.allocator()
    }

    pub(crate) fn len(&self) -> usize
        ensures { result ≡ length (places_joined self.now) }
    {
        self.counts.len()
    }

    pub(crate) fn place(&self, at: usize) -> PlaceRef<'_>
        requires joined { IsJoined self.now }
        requires place { at < length (places_joined self.now) }
        ensures { slice_get (places_joined self.now) at ≡ Some result }
    {
        let (start, end, count) = self.piece(at);
        PlaceRef::new(&self.whole.as_str()[start..end], count)
    }

    /// Returns where the text of a place begins and ends, and how many cells name the place. A forgotten text is empty.
    fn piece(&self, at: usize) -> (usize, usize, u16)
        requires joined { IsJoined self.now }
        requires place { at < length (places_joined self.now) }
        ensures { IsPlaceAt self.now at result.0 result.1 result.2 }
    {
        let start = if at == 0 { 0 } else { self.ends.get(at - 1) };
        let count = self.counts[at];
        if count.is_forgotten() {
            return (start, start, count.cells());
        }
        (start, self.ends.get(at), count.cells())
    }

    /// Sets the count of each place, and returns how many got another one. A place without cells loses its text.
    pub(crate) fn set_counts(&mut self, counts: &[u16]) -> u32
        requires joined { IsJoined self.old }
        requires many { length counts.now ≡ length (places_joined self.old) }
        requires most { length (places_joined self.old) ≤ 16777215 }
        ensures joined { IsJoined self.new }
        ensures places { places_joined self.new ≡ with_counts counts.now (places_joined self.old) }
        ensures changed { result ≡ many_recounted counts.now (places_joined self.old) }
    {
        let mut changed = 0;
        for (i, count) in counts.iter().enumerate() {
            if self.counts[i].set_count(*count) {
                changed += 1;
            }
        }
        changed
    }

    /// Empties the texts of free places that aren't named.
    pub(crate) fn forget_texts(&mut self, is_named: &[bool])
        requires joined { IsJoined self.old }
        requires named { length is_named.now ≡ length (places_joined self.old) }
        ensures joined { IsJoined self.new }
        ensures places { places_joined self.new ≡ without_unnamed_texts is_named.now (places_joined self.old) }
    {
        for (i, named) in is_named.iter().enumerate() {
            self.counts[i].forget_text(*named);
        }
    }

    /// Returns the places, whose texts share one piece of memory.
    pub(crate) fn to_places(&self) -> Result<Places, Error>
        requires { IsJoined self.now }
        ensures ok { IfOk result (λ places. places ≡ places_joined self.now) }
        ensures kind { OnlyMemory result }
    {
        let whole = RcStr::from_string(self.whole.to_string(self.allocator())?)?;
        let mut places = Vec::with_capacity(self.allocator(), self.len())?;
        for at in 0..self.len() {
            let (start, end, count) = self.piece(at);
            let text = SharedText::from_piece(Piece::new(whole.clone()?, start, end));
            places.push(Place::new(text, count))?;
        }
        Ok(Places::from_vec(places))
    }
}
