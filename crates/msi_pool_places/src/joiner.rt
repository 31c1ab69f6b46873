//! Texts that are read one after the other, and joined.

ghost use Rattle.std.specs.Prelude.{◌≡◌, ◌<◌, ◌∷◌, ◌++◌, [], IfOk, OnOk, Some, length, slice_get, drop};
ghost use Rattle.msi_base.specs.Results.{OnlyMemory};
ghost use Rattle.msi_pool_places.specs.Pool as pools;
ghost use Rattle.msi_pool_places.specs.JoinedTexts.{IsJoined, places_joined};
ghost use Rattle.msi_pool_places.specs.TextJoining.{IsJoining, entries_left, places_read};

use crate::count::Count;
use crate::entries::Entries;
use crate::joined::JoinedTexts;
use crate::{Entry, Numbers};
use msi_base::errors::Error;
use msi_base::parts::{Part, TextBuffer};
use std::alloc::Global;

/// Texts of which the first are read. For each of the others, its length stands where its end will stand.
#[derive(Drop)]
pub struct TextJoiner {
    whole: TextBuffer,
    ends: Numbers,
    counts: Vec<Count>,
    read: usize,
    room: usize,
}

impl TextJoiner {
    /// Returns what reads the texts of these entries. None is read yet. Those that stand in a part of shared bytes from
    /// its beginning on, one behind the other, aren't copied; for others there is room for so many bytes. The only
    /// error is `OutOfMemory`.
    pub fn new(
        alloc: Global,
        entries: Entries,
        part: Option<&Part>,
        room: usize,
    ) -> Result<TextJoiner, Error>
        ensures joining { IfOk result (λ joiner. IsJoining joiner) }
        ensures read { IfOk result (λ joiner. places_read joiner ≡ []) }
        ensures left { IfOk result (λ joiner. entries_left joiner ≡ entries) }
        ensures kind { OnlyMemory result }
    {
        let (ends, counts) = entries.into_parts();
        Ok(TextJoiner {
            whole: TextBuffer::sharing(alloc, part, room)?,
            ends,
            counts,
            read: 0,
            room,
        })
    }

    /// Returns the entry of the text that comes next.
    pub fn next_entry(&self) -> Option<Entry>
        requires { IsJoining self.now }
        ensures { result ≡ slice_get (entries_left self.now) 0 }
    {
        if self.read >= self.counts.len() {
            return None;
        }
        let len = self.ends.get(self.read) as u32;
        Some(Entry::new(len, self.counts[self.read].cells()))
    }

    /// Puts the text that comes next behind the others. The only error is `OutOfMemory`.
    pub fn push(&mut self, text: &str) -> Result<(), Error>
        requires joining { IsJoining self.old }
        requires left { 0 < length (entries_left self.old) }
        ensures joining { OnOk result (IsJoining self.new) }
        ensures read { (entry : pools.Entry) → slice_get (entries_left self.old) 0 ≡ Some entry → OnOk result
            (places_read self.new ≡ places_read self.old ++ record { text = text.now; count = entry.count } ∷ []) }
        ensures left { OnOk result (entries_left self.new ≡ drop 1 (entries_left self.old)) }
        ensures kind { OnlyMemory result }
    {
        let alloc = *self.counts.allocator();
        self.whole.push_str(alloc, text, self.room)?;
        let end = self.whole.as_str().len();
        self.ends.set(self.read, end)?;
        self.read += 1;
        Ok(())
    }

    /// Returns the texts, all of which are read.
    pub fn finish(self) -> JoinedTexts
        requires joining { IsJoining self }
        requires left { entries_left self ≡ [] }
        ensures joined { IsJoined result }
        ensures places { places_joined result ≡ places_read self }
    {
        let TextJoiner {
            whole,
            ends,
            counts,
            read: _,
            room: _,
        } = self;
        JoinedTexts::from_parts(whole, ends, counts)
    }
}
